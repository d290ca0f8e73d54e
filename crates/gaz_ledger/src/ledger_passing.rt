//! Numbers that a ledger passes on, to other custodians and from them.
ghost use Rattle.std.specs.Prelude.{◌≡◌, IfOk, None, OnErr, OnOk};
ghost use Rattle.std.specs.Option.{IfSome, IsSome};
ghost use Rattle.gaz_records.specs.Keys.{key_of};
ghost use Rattle.gaz_records.specs.declared.key.Key.TheVariants as key;
ghost use Rattle.gaz_views.specs.Accounts.{view_in};
ghost use Rattle.gaz_views.specs.Numbered.{as_blpu, with_adopted};
ghost use Rattle.gaz_views.specs.View.{custody_at, with_release};
ghost use Rattle.gaz_standing.specs.Changing.{AreMarksAt};
ghost use Rattle.gaz_ledger.specs.Changing.{with_working};
ghost use Rattle.gaz_ledger.specs.Custodies.{with_passing};

use crate::cached_ledger::{CachedLedger, forget_changed};
use crate::changes::change;
use crate::ledger::{Ledger, touch};
use crate::passage::touch_number;
use gaz_ids::{Code, Hop, Uprn};
use gaz_records::{Key, SharedItem, key_of};
use gaz_standing::{Marks, marks_of};
use gaz_views::Custody;
use std::alloc::AllocError;

impl Ledger {
    /// What last became of a number after a volume, or in the working view for any later one.
    pub fn custody(&self, volume: u64, uprn: Uprn) -> Option<Custody>
        ensures { result ≡ custody_at (view_in self.now volume) uprn }
    {
        self.custodies.custody(volume, uprn)
    }

    // Passes a number on in the working view, where this stands at its BLPU's key from then on, or
    // nothing. Where memory runs out, nothing changes. Answers the marks of the item that stood
    // there.
    fn pass(
        &mut self,
        uprn: Uprn,
        custody: Custody,
        item: Option<SharedItem>,
    ) -> Result<Marks, AllocError>
        requires { IfSome item (λ i. key_of i ≡ key.Blpu uprn) }
        ensures ok { OnOk result (self.new
            ≡ with_working self.old (with_passing self.old.working uprn custody item)) }
        ensures err { OnErr result (self.new ≡ self.old) }
        ensures marks { IfOk result (AreMarksAt self.old.working (key.Blpu uprn)) }
    {
        let reached = self.verdicts.len() as u64;
        let key = Key::Blpu(uprn);
        touch(&mut self.touched, &key)?;
        touch_number(&mut self.passed, uprn)?;
        let was = self.custodies.custody(reached + 1, uprn);
        self.custodies.set(reached + 1, uprn, Some(custody))?;
        match change(
            &mut self.histories,
            &mut self.index,
            &mut self.leaving,
            &mut self.ties,
            reached,
            &key,
            item,
        ) {
            Ok(marks) => Ok(marks),
            Err(error) => {
                // In place of what was just set it needs no memory.
                let _ = self.custodies.set(reached + 1, uprn, was);
                Err(error)
            }
        }
    }

    /// Releases a number to another custodian in the working view: its BLPU is taken, and its key
    /// counts as used, also where none ever stood. Where memory runs out, nothing changes. Answers
    /// the marks of the BLPU that stood there.
    pub(crate) fn release(&mut self, uprn: Uprn, to: Code, hop: Hop) -> Result<Marks, AllocError>
        ensures ok { OnOk result (self.new
            ≡ with_working self.old (with_release self.old.working uprn to hop)) }
        ensures err { OnErr result (self.new ≡ self.old) }
        ensures marks { IfOk result (AreMarksAt self.old.working (key.Blpu uprn)) }
    {
        self.pass(uprn, Custody::Released { to, hop }, None)
    }

    /// Adopts a BLPU from another custodian in the working view. Where memory runs out, nothing
    /// changes. Answers the marks of the item that stood at its key.
    pub(crate) fn adopt(
        &mut self,
        blpu: SharedItem,
        from: Code,
        hop: Hop,
    ) -> Result<Marks, AllocError>
        requires { IsSome (as_blpu blpu) }
        ensures ok { OnOk result (self.new
            ≡ with_working self.old (with_adopted self.old.working blpu from hop)) }
        ensures err { OnErr result (self.new ≡ self.old) }
        ensures marks { IfOk result (AreMarksAt self.old.working (key_of blpu)) }
    {
        let Key::Blpu(uprn) = key_of(&blpu) else {
            return Err(AllocError);
        };
        self.pass(uprn, Custody::Adopted { from, hop }, Some(blpu))
    }
}

impl CachedLedger {
    /// Releases a number to another custodian in the working view: its BLPU is taken, and its key
    /// counts as used, also where none ever stood. Where memory runs out, nothing changes.
    pub fn release(&mut self, uprn: Uprn, to: Code, hop: Hop) -> Result<(), AllocError>
        ensures ok { OnOk result (self.new
            ≡ with_working self.old (with_release self.old.working uprn to hop)) }
        ensures err { OnErr result (self.new ≡ self.old) }
    {
        let key = Key::Blpu(uprn);
        let was = self.ledger.release(uprn, to, hop)?;
        let comes = (None, None);
        forget_changed(&mut self.known, &mut self.changed, &key, &was, &comes);
        Ok(())
    }

    /// Adopts a BLPU from another custodian in the working view. Where memory runs out, nothing
    /// changes.
    pub fn adopt(&mut self, blpu: SharedItem, from: Code, hop: Hop) -> Result<(), AllocError>
        requires { IsSome (as_blpu blpu) }
        ensures ok { OnOk result (self.new
            ≡ with_working self.old (with_adopted self.old.working blpu from hop)) }
        ensures err { OnErr result (self.new ≡ self.old) }
    {
        let key = key_of(&blpu);
        let comes = marks_of(&blpu);
        let was = self.ledger.adopt(blpu, from, hop)?;
        forget_changed(&mut self.known, &mut self.changed, &key, &was, &comes);
        Ok(())
    }
}
