//! Filling a keeper in memory with what another keeps.
ghost use Rattle.std.specs.Prelude.{◌≡◌, IfOk, OnOk};
ghost use Rattle.gaz_keeper.specs.Keeper.{Idle, IsNotOpen};
ghost use Rattle.gaz_shelf.specs.Mem.{content_in, seen_in};
ghost use Rattle.gaz_loaded.specs.Files.{OnlyReads};
ghost use Rattle.gaz_loaded.specs.Loading.{IsLoaded};

use crate::custodians::copy_custodians;
use crate::listed::Listed;
use crate::passing::bring_passages;
use crate::restoring::bring_lives;
use gaz_ids::Code;
use gaz_keeper::ShelfFault;
use gaz_shelf::{MemShelf, Seed};
use std::alloc::Global;

// The properties of these custodians.
fn bring_to_hand(shelf: &mut MemShelf, codes: &[Code])
    requires { (seen_in shelf.old).progress ≡ Idle }
    ensures same { content_in shelf.new ≡ content_in shelf.old }
    ensures idle { (seen_in shelf.new).progress ≡ Idle }
{
    for code in codes {
        shelf.bring_to_hand(*code);
    }
}

/// A keeper in memory with all that a keeper lists of these custodians. Who picks keys is not to
/// foresee the seed.
///
/// Nothing is judged: files and verdicts, what became of numbers, and items come as they are kept,
/// each once. `Memory` where memory ran out, or where what the keeper lists isn't in order, since
/// that is no failure that it counts; else the keeper's own fault. It is only read.
pub fn load<L: Listed>(
    alloc: Global,
    seed: Seed,
    lower: &mut L,
    codes: &[Code],
) -> Result<MemShelf, ShelfFault>
    requires { IsNotOpen (L.seen lower.old).progress }
    ensures reads { OnlyReads (L.seen lower.old) (L.seen lower.new) }
    ensures rests { OnOk result ((L.seen lower.new).progress ≡ Idle) }
    ensures idle { IfOk result (λ shelf. (seen_in shelf).progress ≡ Idle) }
    ensures loaded { IfOk result (IsLoaded codes.now (L.seen lower.old) (L.seen lower.new)) }
{
    let mut shelf = MemShelf::new(alloc, seed);
    copy_custodians(lower, &mut shelf, codes)?;
    bring_passages(lower, &mut shelf, codes)?;
    bring_lives(lower, &mut shelf)?;
    bring_to_hand(&mut shelf, codes);
    Ok(shelf)
}
