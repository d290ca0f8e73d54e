//! Numbers that a judgement passes on.
ghost use Rattle.std.specs.Prelude.{◌≡◌, true, IfOk, OnErr, OnOk};
ghost use Rattle.std.specs.FinMap as map;
ghost use Rattle.std.specs.Option.{IsSome};
ghost use Rattle.gaz_records.specs.Keys.{key_of};
ghost use Rattle.gaz_records.specs.declared.key.Key.TheVariants as key;
ghost use Rattle.gaz_views.specs.Numbered.{as_blpu};
ghost use Rattle.gaz_views.specs.View.{custody_at};
ghost use Rattle.gaz_overlay.specs.Changes.{is_passed, is_touched, with_adopted, with_released};
ghost use Rattle.gaz_overlay.specs.Writings.{passage_at};

use crate::overlay::{Overlay, WORKING};
use crate::passage::Passage;
use gaz_ids::{Code, Hop, Uprn};
use gaz_records::{Key, SharedItem, key_of};
use gaz_views::Custody;
use std::alloc::{AllocError, Global};

impl Overlay {
    /// What last became of a number in the judgement, where it has passed it on.
    pub fn custody(&self, uprn: Uprn) -> Option<Custody>
        ensures { result ≡ custody_at self.now.view uprn }
    {
        self.ledger.ledger().custody(WORKING, uprn)
    }

    /// Whether the judgement has passed the number on.
    pub fn is_passed(&self, uprn: Uprn) -> bool
        ensures { result ≡ is_passed self.now uprn }
    {
        self.passes.has(uprn)
    }

    /// Releases a number to another custodian: its BLPU is taken, and its key, which is touched,
    /// counts as used. `since` is the volume in which the tables' newest passage of it was born,
    /// where they have one; it is passed over where the judgement has passed the number on before.
    /// Where memory runs out, nothing changes.
    pub fn release(
        &mut self,
        uprn: Uprn,
        to: Code,
        hop: Hop,
        since: Option<u64>,
    ) -> Result<(), AllocError>
        requires { is_touched self.old (key.Blpu uprn) ≡ true }
        ensures ok { OnOk result (self.new ≡ with_released self.old uprn to hop since) }
        ensures err { OnErr result (self.new ≡ self.old) }
    {
        let first = self.passes.note(uprn, since)?;
        if let Err(error) = self.ledger.release(uprn, to, hop) {
            if first {
                self.passes.forget(uprn);
            }
            return Err(error);
        }
        Ok(())
    }

    /// Adopts a BLPU, whose key is touched, from another custodian. `since` is as of `release`.
    /// Where memory runs out, nothing changes.
    pub fn adopt(
        &mut self,
        blpu: SharedItem,
        from: Code,
        hop: Hop,
        since: Option<u64>,
    ) -> Result<(), AllocError>
        requires blpu { IsSome (as_blpu blpu) }
        requires touched { is_touched self.old (key_of blpu) ≡ true }
        ensures ok { OnOk result (self.new ≡ with_adopted self.old blpu from hop since) }
        ensures err { OnErr result (self.new ≡ self.old) }
    {
        let key = key_of(&blpu);
        let Key::Blpu(uprn) = key else {
            return Err(AllocError);
        };
        let last = blpu.share()?;
        let first = self.passes.note(uprn, since)?;
        if let Err(error) = self.ledger.adopt(blpu, from, hop) {
            if first {
                self.passes.forget(uprn);
            }
            return Err(error);
        }
        self.touches.note_last(&key, last);
        Ok(())
    }

    /// The numbers that the judgement has passed on, each once, as they rise.
    pub fn passed(&self, alloc: Global) -> Result<Vec<Uprn>, AllocError>
        ensures { IfOk result (λ numbers. numbers.items ≡ map.keys self.now.passed) }
    {
        self.passes.numbers(alloc)
    }

    /// What is to be written for a number when the volume is kept, where it was passed on.
    pub fn passage(&self, uprn: Uprn) -> Option<Passage>
        ensures { result ≡ passage_at self.now uprn }
    {
        let custody = self.custody(uprn)?;
        Some(Passage {
            closes: self.passes.born_before(uprn),
            custody,
        })
    }
}
