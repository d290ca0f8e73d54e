//! Verdicts that are brought to hand.
ghost use Rattle.std.specs.Prelude.{◌≡◌, IsSome, OnOk};
ghost use Rattle.std.specs.FinMap as map;
ghost use Rattle.gaz_keeper.specs.Keeper.{Idle};
ghost use Rattle.gaz_shelf.specs.Mem.{content_in, seen_in};
ghost use Rattle.gaz_loaded.specs.Files.{IsEntered};

use gaz_ids::{Code, Volume};
use gaz_keeper::{Inbox, Shelf, ShelfFault, Verdict};
use gaz_shelf::MemShelf;

/// Judges a custodian's next volume so, with the view before it. A fault where this isn't the next.
pub(crate) fn enter(
    shelf: &mut MemShelf,
    code: Code,
    volume: Volume,
    verdict: Verdict,
) -> Result<(), ShelfFault>
    requires idle { (seen_in shelf.old).progress ≡ Idle }
    requires there { IsSome (map.get (content_in shelf.old).files (code, volume)) }
    ensures idle { OnOk result ((seen_in shelf.new).progress ≡ Idle) }
    ensures enters { OnOk result
        (IsEntered code volume verdict (content_in shelf.old) (content_in shelf.new)) }
{
    if shelf.reached(code)? != volume.number() - 1 {
        return Err(ShelfFault::Memory);
    }
    match verdict {
        Verdict::Applied => {
            shelf.begin(code)?;
            shelf.keep()
        }
        Verdict::Rejected { place, rule } => shelf.skip(code, place, rule),
    }
}
