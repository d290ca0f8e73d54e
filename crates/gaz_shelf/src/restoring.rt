//! An item's life, or what became of a number, is put back into a keeper in memory.
ghost use Rattle.std.specs.Prelude.{◌≡◌, ◌↔◌, IsTrue, OnErr, OnOk, true};
ghost use Rattle.gaz_records.specs.Items.{is_entry};
ghost use Rattle.gaz_keeper.specs.Keeper.{Idle};
ghost use Rattle.gaz_ledger.specs.Lives.{IsLifeWithin};
ghost use Rattle.gaz_shelf.specs.Mem.{content_in, progress_of};
ghost use Rattle.gaz_shelf.specs.Restoring.{IsPassageRestored, IsRestored};

use crate::mem_shelf::MemShelf;
use gaz_ids::{Code, Uprn};
use gaz_keeper::ShelfFault;
use gaz_records::SharedItem;
use gaz_views::Custody;

impl MemShelf {
    /// Puts the life of an item, an entry, back into the views of a custodian: it stood under its
    /// key from a volume on, and until another where one is given. The custodian is to have
    /// judgements, both volumes are to be reached, and nothing is to stand there from then on; else
    /// it is refused, by `Memory` too. Where it isn't put back, nothing changes.
    pub fn restore(
        &mut self,
        code: Code,
        born: u64,
        gone: Option<u64>,
        item: SharedItem,
    ) -> Result<(), ShelfFault>
        requires entry { is_entry item ≡ true }
        requires idle { progress_of self.old.judging ≡ Idle }
        ensures ok { OnOk result (IsRestored
            (content_in self.old).board (content_in self.new).board code born gone item) }
        ensures err { OnErr result (content_in self.new ≡ content_in self.old) }
        ensures files { (content_in self.new).files ≡ (content_in self.old).files }
        ensures idle { progress_of self.new.judging ≡ Idle }
        ensures count { self.new.failures ≡ self.old.failures }
    {
        Ok(self.accounts.restore(code, born, gone, item)?)
    }

    /// Puts back what became of a number of a custodian at a volume. The custodian is to have
    /// judgements, the volume is to be reached, and nothing is to stand at its BLPU's key from then
    /// on, which counts as used; else it is refused, by `Memory` too. What became of the number
    /// later is to be put back after that. After a fault nothing is said of the views.
    pub fn restore_passage(
        &mut self,
        code: Code,
        born: u64,
        uprn: Uprn,
        custody: Custody,
    ) -> Result<(), ShelfFault>
        requires { progress_of self.old.judging ≡ Idle }
        ensures ok { OnOk result (IsPassageRestored
            (content_in self.old).board (content_in self.new).board code born uprn custody) }
        ensures files { (content_in self.new).files ≡ (content_in self.old).files }
        ensures idle { progress_of self.new.judging ≡ Idle }
        ensures count { self.new.failures ≡ self.old.failures }
    {
        Ok(self.accounts.restore_passage(code, born, uprn, custody)?)
    }

    /// Brings those properties of a custodian to hand of which items were put back, so that a
    /// look-up finds them as quickly as others. What is kept stays.
    pub fn bring_to_hand(&mut self, code: Code)
        requires { progress_of self.old.judging ≡ Idle }
        ensures same { content_in self.new ≡ content_in self.old }
        ensures idle { progress_of self.new.judging ≡ Idle }
        ensures count { self.new.failures ≡ self.old.failures }
    {
        self.accounts.undo(code);
    }
}

/// Whether a life begins at a volume that is reached, and ends, where it does, at that one or at a
/// later one that is reached too.
pub fn is_life_within(reached: u64, born: u64, gone: Option<u64>) -> bool
    ensures { IsTrue result ↔ IsLifeWithin reached born gone }
{
    if born < 1 || reached < born {
        return false;
    }
    match gone {
        Some(gone) => born <= gone && gone <= reached,
        None => true,
    }
}
