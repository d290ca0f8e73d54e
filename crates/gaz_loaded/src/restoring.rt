//! Lives that are brought to hand.
ghost use Rattle.std.specs.Prelude.{◌≡◌, ◌≢◌, true, OnOk};
ghost use Rattle.gaz_records.specs.Items.{is_entry};
ghost use Rattle.gaz_keeper.specs.Keeper.{Broken, Idle};
ghost use Rattle.gaz_shelf.specs.Mem.{content_in, seen_in};
ghost use Rattle.gaz_shelf.specs.Restoring.{IsRestored};
ghost use Rattle.gaz_loaded.specs.Restoring.{AreRestored, BringsLives};
ghost use Rattle.gaz_loaded.specs.Files.{OnlyReads};
ghost use Rattle.gaz_loaded.specs.Telling.{AreEntries};

use crate::listed::{Life, Listed};
use gaz_keeper::ShelfFault;
use gaz_shelf::MemShelf;

// One life.
fn restore_life(shelf: &mut MemShelf, life: &Life) -> Result<(), ShelfFault>
    requires idle { (seen_in shelf.old).progress ≡ Idle }
    requires entry { is_entry life.now.item ≡ true }
    ensures idle { (seen_in shelf.new).progress ≡ Idle }
    ensures files { (content_in shelf.new).files ≡ (content_in shelf.old).files }
    ensures restored { OnOk result (IsRestored (content_in shelf.old).board
        (content_in shelf.new).board life.now.code life.now.born life.now.gone life.now.item) }
{
    let item = life.item.share()?;
    shelf.restore(life.code, life.born, life.gone, item)
}

// These lives, one after another.
fn restore_lives(shelf: &mut MemShelf, lives: &[Life]) -> Result<(), ShelfFault>
    requires idle { (seen_in shelf.old).progress ≡ Idle }
    requires entries { AreEntries lives.now }
    ensures idle { (seen_in shelf.new).progress ≡ Idle }
    ensures files { (content_in shelf.new).files ≡ (content_in shelf.old).files }
    ensures restored { OnOk result (AreRestored (content_in shelf.old).board lives.now
        (content_in shelf.new).board) }
{
    for life in lives {
        restore_life(shelf, life)?;
    }
    Ok(())
}

/// All lives that a keeper lists, into views that have no item yet.
pub(crate) fn bring_lives<L: Listed>(lower: &mut L, shelf: &mut MemShelf) -> Result<(), ShelfFault>
    requires { (seen_in shelf.old).progress ≡ Idle }
    ensures reads { OnlyReads (L.seen lower.old) (L.seen lower.new) }
    ensures cleared { OnOk result ((L.seen lower.new).progress ≢ Broken) }
    ensures idle { (seen_in shelf.new).progress ≡ Idle }
    ensures brings { OnOk result (BringsLives (L.passages lower.old) (L.seen lower.old)
        (L.seen lower.new) (content_in shelf.old) (content_in shelf.new)) }
{
    let mut place = None;
    for _ in 0..u64::MAX {
        let lives = lower.lives_behind(place)?;
        let Some(last) = lives.last() else {
            return Ok(());
        };
        place = Some(last.place);
        restore_lives(shelf, &lives)?;
    }
    Err(ShelfFault::Memory)
}
