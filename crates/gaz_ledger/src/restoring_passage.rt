//! What became of a number is put back into a ledger.
ghost use Rattle.std.specs.Prelude.{length, None, OnErr, OnOk};
ghost use Rattle.gaz_records.specs.declared.key.Key.TheVariants as key;
ghost use Rattle.gaz_ledger.specs.Lives.{IsFreeFrom, IsLifeWithin};
ghost use Rattle.gaz_ledger.specs.Passages.{RestoresPassage, SameItems};

use crate::cached_ledger::CachedLedger;
use crate::ledger::Ledger;
use gaz_ids::Uprn;
use gaz_records::Key;
use gaz_views::Custody;
use std::alloc::AllocError;

impl Ledger {
    /// Puts back what became of a number at a volume; what became of it later is to be put back
    /// after that. Nothing is to stand at its BLPU's key from then on, which counts as used. Where
    /// memory runs out, items and used keys are as they were.
    pub(crate) fn restore_passage(
        &mut self,
        born: u64,
        uprn: Uprn,
        custody: Custody,
    ) -> Result<(), AllocError>
        requires within { IsLifeWithin (length self.old.judged) born None }
        requires free { IsFreeFrom self.old born (key.Blpu uprn) }
        ensures ok { OnOk result (RestoresPassage self.old self.new born uprn custody) }
        ensures err { OnErr result (SameItems self.old self.new) }
    {
        self.ties.forget();
        self.custodies.set(born, uprn, Some(custody))?;
        self.histories.set(born, Key::Blpu(uprn), None)?;
        Ok(())
    }
}

impl CachedLedger {
    /// Puts back what became of a number at a volume; what became of it later is to be put back
    /// after that. Nothing is to stand at its BLPU's key from then on, which counts as used. Where
    /// memory runs out, items and used keys are as they were.
    pub fn restore_passage(
        &mut self,
        born: u64,
        uprn: Uprn,
        custody: Custody,
    ) -> Result<(), AllocError>
        requires within { IsLifeWithin (length self.old.judged) born None }
        requires free { IsFreeFrom self.old born (key.Blpu uprn) }
        ensures ok { OnOk result (RestoresPassage self.old self.new born uprn custody) }
        ensures err { OnErr result (SameItems self.old self.new) }
    {
        self.ledger.restore_passage(born, uprn, custody)
    }
}
