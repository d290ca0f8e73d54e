//! A hub over a keeper of which calls are counted, and some fail.
ghost use Rattle.gaz_faulty.specs.Around.{seen_around};
ghost use Rattle.gaz_keeper.specs.Keeper.{IsNotOpen};

use crate::playing::{answer, register_in};
use anyhow::Result;
use gaz_faulty::{Calls, Faulty};
use gaz_keeper::Inbox;
use gaz_register::Register;
use gaz_shelf::{MemShelf, Seed};
use std::mem::forget;

/// The calls of a keeper that fail, by their numbers from 1, and 0 for none.
#[derive(Clone, Copy)]
pub struct Failing {
    pub first: u64,
    /// Among the calls that come to the keeper within that of the first.
    pub second: u64,
}

// A keeper of which these calls fail.
fn failing_twice<K: Inbox + Drop>(keeper: K, calls: Failing) -> Faulty<Faulty<K>>
    requires { IsNotOpen (K.seen keeper).progress }
    ensures { IsNotOpen (seen_around result).progress }
{
    Faulty::new(Faulty::new(keeper, calls.second), calls.first)
}

// Answers the requests on standard input over a keeper of which these calls fail: how often each
// call was made.
fn answer_failing<K: Inbox + Drop>(
    rt: &HostRuntime,
    register: Register,
    keeper: K,
    calls: Failing,
) -> Result<Calls>
    requires { IsNotOpen (K.seen keeper).progress }
{
    let hub = answer(rt, register, failing_twice(keeper, calls))?;
    let counted = hub.shelf().counted();
    forget(hub);
    Ok(counted)
}

/// Answers the requests on standard input at a hub of the register in a file, over a keeper in
/// memory of which these calls fail: how often each call was made.
pub fn over_maps(rt: &HostRuntime, register: &str, calls: Failing) -> Result<Calls> {
    let register = register_in(rt, register)?;
    let keeper = MemShelf::new(rt.alloc(), Seed::of(1));
    answer_failing(rt, register, keeper, calls)
}

/// Does so where none fails, and says on standard error how often the keeper was asked `current`,
/// `property_of`, `reached` and `received`.
pub fn count_over_maps(rt: &HostRuntime, register: &str) -> Result<()> {
    let calls = over_maps(
        rt,
        register,
        Failing {
            first: 0,
            second: 0,
        },
    )?;
    eprintln!(rt;
        "{} {} {} {}",
        calls.current, calls.property_of, calls.reached, calls.received
    )?;
    Ok(())
}
