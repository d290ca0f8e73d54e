//! A hub over a mirror of a keeper.
ghost use Rattle.std.specs.Prelude.{◌≡◌, map, IfOk, None};
ghost use Rattle.std.specs.Option.{ForSome};
ghost use Rattle.gaz_keeper.specs.Keeper.{Idle, IsNotOpen};
ghost use Rattle.gaz_keeper.specs.Telling.{IsNotJudging};
ghost use Rattle.gaz_steps.specs.Hubs.{StandsFor, door_of};
ghost use Rattle.gaz_mirror.specs.Mirrored.{seen_mirrored};
ghost use Rattle.gaz_loaded.specs.Files.{OnlyReads};
ghost use Rattle.gaz_stored.specs.Filling.{CanBeMirrored, IsFilled, RestsBare, codes_of};
ghost use Rattle.gaz_stored.specs.Ways.{BeginsOver};
ghost use Rattle.gaz_shelf.specs.Mem.{seen_in};

use gaz_hub::Hub;
use gaz_ids::Code;
use gaz_keeper::Inbox;
use gaz_loaded::{Listed, load};
use gaz_mirror::Mirror;
use gaz_register::Register;
use gaz_shelf::{MemShelf, Seed};
use std::alloc::{AllocError, Global};

fn codes_of(alloc: Global, register: &Register) -> Result<Vec<Code>, AllocError>
    ensures { IfOk result (λ codes. codes.items ≡ codes_of register.now) }
{
    register
        .custodians()
        .iter()
        .map(|custodian| custodian.code())
        .collect(alloc)
}

// A keeper in memory with all that a keeper lists of a register's custodians; none where memory or
// that keeper failed, or where what it lists isn't in order.
fn fill<L: Listed>(
    alloc: Global,
    seed: Seed,
    register: &Register,
    lower: &mut L,
) -> Option<MemShelf>
    requires { IsNotOpen (L.seen lower.old).progress }
    ensures reads { OnlyReads (L.seen lower.old) (L.seen lower.new) }
    ensures filled { ForSome result (IsFilled register.now (L.seen lower.old) (L.seen lower.new)) }
{
    let Ok(codes) = codes_of(alloc, register) else {
        return None;
    };
    match load(alloc, seed, lower, &codes) {
        Ok(shelf) => Some(shelf),
        Err(_) => None,
    }
}

// A mirror over both, or over the lower one alone.
fn join<L: Inbox + Drop>(alloc: Global, lower: L, upper: Option<MemShelf>) -> Mirror<L, MemShelf>
    requires { ForSome upper (λ u. ((L.seen lower).progress ≡ Idle)
        × ((seen_in u).progress ≡ Idle)) }
    ensures lower { result.lower ≡ lower }
    ensures upper { result.upper ≡ upper }
    ensures apart { result.gathered ≡ None }
{
    match upper {
        Some(upper) => Mirror::with(alloc, lower, upper),
        None => Mirror::over(alloc, lower),
    }
}

/// A hub over a mirror of a keeper, with all of it at hand, where memory allows; else over the
/// keeper alone.
///
/// The keeper is only read, and nothing is judged: what it lists comes to hand as it is. Who picks
/// keys is not to foresee the seed.
pub fn mirrored<L: Listed + Drop>(
    alloc: Global,
    seed: Seed,
    register: Register,
    keeper: L,
) -> Hub<Mirror<L, MemShelf>>
    requires { IsNotJudging L.seen keeper }
    ensures begins { BeginsOver L.Shelf register keeper result }
    ensures idle { IsNotJudging seen_mirrored result.keeper }
    ensures stands { RestsBare L.seen → CanBeMirrored (door_of register) (L.seen keeper)
        → (seen_mirrored result.keeper).unharmed
        → StandsFor (door_of register) (seen_mirrored result.keeper) }
{
    let mut lower = keeper;
    let upper = fill(alloc, seed, &register, &mut lower);
    Hub::new(alloc, register, join(alloc, lower, upper))
}
