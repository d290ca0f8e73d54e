//! What became of numbers, brought to hand.
ghost use Rattle.std.specs.Prelude.{◌≡◌, OnOk};
ghost use Rattle.gaz_keeper.specs.Keeper.{Idle};
ghost use Rattle.gaz_shelf.specs.Mem.{content_in, seen_in};
ghost use Rattle.gaz_loaded.specs.Files.{OnlyReads};
ghost use Rattle.gaz_loaded.specs.Restoring.{ArePutBack, BringsItsPassages, BringsPassages};

use crate::listed::{Listed, Passage};
use gaz_ids::Code;
use gaz_keeper::ShelfFault;
use gaz_shelf::MemShelf;

// These, one after another.
fn restore_passages(
    shelf: &mut MemShelf,
    code: Code,
    passages: &[Passage],
) -> Result<(), ShelfFault>
    requires { (seen_in shelf.old).progress ≡ Idle }
    ensures idle { (seen_in shelf.new).progress ≡ Idle }
    ensures files { (content_in shelf.new).files ≡ (content_in shelf.old).files }
    ensures restored { OnOk result (ArePutBack code (content_in shelf.old).board passages.now
        (content_in shelf.new).board) }
{
    for passage in passages {
        shelf.restore_passage(code, passage.born, passage.uprn, passage.custody)?;
    }
    Ok(())
}

// All that became of a custodian's numbers.
fn bring_its_passages<L: Listed>(
    lower: &mut L,
    shelf: &mut MemShelf,
    code: Code,
) -> Result<(), ShelfFault>
    requires { (seen_in shelf.old).progress ≡ Idle }
    ensures reads { OnlyReads (L.seen lower.old) (L.seen lower.new) }
    ensures stays { OnOk result ((L.seen lower.old).stands → (L.seen lower.new).unharmed
        → L.passages lower.new ≡ L.passages lower.old) }
    ensures idle { (seen_in shelf.new).progress ≡ Idle }
    ensures brings { OnOk result (BringsItsPassages code (L.passages lower.old)
        (L.seen lower.old) (L.seen lower.new) (content_in shelf.old) (content_in shelf.new)) }
{
    let mut after = None;
    for _ in 0..u64::MAX {
        let passages = lower.passages_behind(code, after)?;
        let Some(last) = passages.last() else {
            return Ok(());
        };
        after = Some(*last);
        restore_passages(shelf, code, &passages)?;
    }
    Err(ShelfFault::Memory)
}

/// All that became of these custodians' numbers, into views that have nothing yet.
pub(crate) fn bring_passages<L: Listed>(
    lower: &mut L,
    shelf: &mut MemShelf,
    codes: &[Code],
) -> Result<(), ShelfFault>
    requires { (seen_in shelf.old).progress ≡ Idle }
    ensures reads { OnlyReads (L.seen lower.old) (L.seen lower.new) }
    ensures stays { OnOk result ((L.seen lower.old).stands → (L.seen lower.new).unharmed
        → L.passages lower.new ≡ L.passages lower.old) }
    ensures idle { (seen_in shelf.new).progress ≡ Idle }
    ensures brings { OnOk result (BringsPassages codes.now (L.passages lower.old)
        (L.seen lower.old) (L.seen lower.new) (content_in shelf.old) (content_in shelf.new)) }
{
    for code in codes {
        bring_its_passages(lower, shelf, *code)?;
    }
    Ok(())
}
