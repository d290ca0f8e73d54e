//! A keeper over two answers the list from the one at hand, and goes on without it.
ghost use Rattle.std.specs.Prelude.{◌≡◌};
ghost use Rattle.gaz_keeper.specs.Keeper.{Idle};

use crate::calls::are_read;
use crate::wanted::counts_all;
use gaz_faulty::{Calls, Faulty};
use gaz_keeper::Inbox;
use gaz_mirror::{Mirror, Unshared};
use gaz_samples::keepers::{Refusal, Tried, performs_all};
use gaz_shelf::{MemShelf, Seed};
use std::alloc::Global;
use std::process::Abort;
use std::test::Fail;

// Makes all calls over two, and takes them apart. What names a mirror of keepers by their own types
// costs the proof a minute, so that this stays generic over both.
fn performed<L: Inbox + Drop, U: Unshared + Drop>(
    alloc: Global,
    lower: L,
    upper: U,
) -> Result<(L, Option<U>), Refusal>
    requires lower { (L.seen lower).progress ≡ Idle }
    requires upper { (U.seen upper).progress ≡ Idle }
{
    let mut shelf = Tried::new(Mirror::with(alloc, lower, upper));
    performs_all(alloc, &mut shelf)?;
    Ok(shelf.into_keeper().into_parts())
}

/// A keeper in memory that counts its calls.
type Counting = Faulty<MemShelf>;

// Makes all calls over two of which the upper one fails at the call of this number, and at none
// where that is 0: the lower one, and the upper one unless it was dropped.
fn performed_failing(alloc: Global, number: u64) -> Result<(Counting, Option<Counting>), Refusal> {
    let lower = Faulty::new(MemShelf::new(alloc, Seed::of(1)), 0);
    let upper = Faulty::new(MemShelf::new(alloc, Seed::of(2)), number);
    performed(alloc, lower, upper)
}

// All is asked of the keeper above, and nothing of the lower one, nor of what passes.
fn is_unread(rt: &impl Abort, below: Calls) {
    counts_all(
        rt,
        &[
            (below.current, 0),
            (below.reached, 0),
            (below.received, 0),
            (below.page, 0),
            (below.custody, 0),
            (below.custody_at, 0),
            (below.tied, 0),
        ],
    );
}

// Both are written, and each judgement is made above, with what passes.
fn are_written(rt: &impl Abort, above: Calls, below: Calls) {
    counts_all(
        rt,
        &[
            (above.keep, below.keep),
            (above.skip, below.skip),
            (above.receive, below.receive),
            (above.begin, 7),
            (above.put, 17),
            (above.take, 5),
            (above.release, 6),
            (above.adopt, 5),
            (above.abandon, 3),
        ],
    );
}

// What is given up is made above alone, and so is what passes in it.
fn is_spared(rt: &impl Abort, below: Calls) {
    counts_all(
        rt,
        &[
            (below.begin, 4),
            (below.put, 14),
            (below.take, 4),
            (below.release, 4),
            (below.adopt, 4),
            (below.abandon, 0),
        ],
    );
}

#[test]
fn the_upper_keeper_answers_so(rt: HostRuntime) -> Result<(), Fail> {
    let (lower, Some(upper)) = performed_failing(rt.alloc(), 0)? else {
        return Err("it was dropped".into());
    };
    let (above, below) = (upper.counted(), lower.counted());
    are_read(&rt, above);
    is_unread(&rt, below);
    are_written(&rt, above, below);
    is_spared(&rt, below);
    Ok(())
}

// The list has judgements that are read as they are made, so that a reading also fails within one.
#[test]
fn the_lower_keeper_answers_where_the_upper_fails(rt: HostRuntime) -> Result<(), Fail> {
    for call in 1..345 {
        let _parts = performed_failing(rt.alloc(), call)?;
    }
    Ok(())
}
