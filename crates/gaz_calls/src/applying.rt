//! A judgement that is kept.
ghost use Rattle.gaz_calls.specs.Altering.{AltersTables, Writes};
ghost use Rattle.gaz_calls.specs.Writing.{AppliesNext, IsNextIn, WhereSo};
ghost use Rattle.gaz_kept.specs.Keeping.{KeepsVolume};

use crate::tables::Tables;
use gaz_ids::{Code, Volume};
use gaz_keeper::ShelfFault;
use gaz_kept::keeping;
use gaz_overlay::Overlay;
use sqlite::Alter;

impl<S: Alter> Tables<S> {
    /// Applies a custodian's next volume: writes what its judgement has changed and marks it, which
    /// is committed when this answers.
    pub fn apply(&mut self, code: Code, changes: &Overlay) -> Result<(), ShelfFault>
        ensures { Writes self.old self.new result (IsNextIn code)
            (WhereSo self.old.at_hand (AppliesNext code changes.now)) }
    {
        let reached = self.reached(code)?;
        let Some(next) = Volume::of(reached.saturating_add(1)) else {
            return Err(self.fail());
        };
        let _number = next.number();
        self.write(code, next, changes)?;
        self.at_hand.was_judged(code);
        Ok(())
    }

    // The rows of a volume, and its mark.
    fn write(&mut self, code: Code, volume: Volume, changes: &Overlay) -> Result<(), ShelfFault>
        ensures { AltersTables self.old self.new result (KeepsVolume code volume changes.now) }
    {
        self.ready()?;
        let done = keeping::keep(self.alloc, &mut self.conn, code, volume, changes);
        self.told(done)
    }
}
