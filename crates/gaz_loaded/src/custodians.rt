//! All that was received of custodians, brought to hand.
ghost use Rattle.std.specs.Prelude.{◌≡◌, OnOk};
ghost use Rattle.gaz_keeper.specs.Keeper.{Idle};
ghost use Rattle.gaz_shelf.specs.Mem.{content_in, seen_in};
ghost use Rattle.gaz_loaded.specs.Files.{AsManyJudged, CopiesAll, CopiesOf, OnlyReads};

use crate::copying::copy_volumes;
use crate::listed::Listed;
use gaz_ids::Code;
use gaz_keeper::{Inbox, Shelf, ShelfFault};
use gaz_shelf::MemShelf;

// A fault where not as many volumes of a custodian are judged in both.
fn compare<L: Listed>(lower: &mut L, shelf: &mut MemShelf, code: Code) -> Result<(), ShelfFault>
    requires { (seen_in shelf.old).progress ≡ Idle }
    ensures reads { OnlyReads (L.seen lower.old) (L.seen lower.new) }
    ensures idle { (seen_in shelf.new).progress ≡ Idle }
    ensures same { content_in shelf.new ≡ content_in shelf.old }
    ensures judged { OnOk result (AsManyJudged code (L.seen lower.old) (L.seen lower.new)
        (content_in shelf.old)) }
{
    if lower.reached(code)? == shelf.reached(code)? {
        return Ok(());
    }
    Err(ShelfFault::Memory)
}

// All that was received of a custodian, and what became of it.
fn copy_custodian<L: Listed>(
    lower: &mut L,
    shelf: &mut MemShelf,
    code: Code,
) -> Result<(), ShelfFault>
    requires { (seen_in shelf.old).progress ≡ Idle }
    ensures reads { OnlyReads (L.seen lower.old) (L.seen lower.new) }
    ensures idle { OnOk result ((seen_in shelf.new).progress ≡ Idle) }
    ensures copies { OnOk result (CopiesOf code (L.seen lower.old) (L.seen lower.new)
        (content_in shelf.old) (content_in shelf.new)) }
{
    let mut above = 0;
    for _ in 0..u64::MAX {
        let volumes = lower.volumes_above(code, above)?;
        let Some(last) = volumes.last() else {
            return compare(lower, shelf, code);
        };
        above = last.number();
        copy_volumes(lower, shelf, code, &volumes)?;
    }
    Err(ShelfFault::Memory)
}

/// All that was received of these custodians, and what became of it.
pub(crate) fn copy_custodians<L: Listed>(
    lower: &mut L,
    shelf: &mut MemShelf,
    codes: &[Code],
) -> Result<(), ShelfFault>
    requires { (seen_in shelf.old).progress ≡ Idle }
    ensures reads { OnlyReads (L.seen lower.old) (L.seen lower.new) }
    ensures idle { OnOk result ((seen_in shelf.new).progress ≡ Idle) }
    ensures copies { OnOk result (CopiesAll codes.now (L.seen lower.old) (L.seen lower.new)
        (content_in shelf.old) (content_in shelf.new)) }
{
    for code in codes {
        copy_custodian(lower, shelf, *code)?;
    }
    Ok(())
}
