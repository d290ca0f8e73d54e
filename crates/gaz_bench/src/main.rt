//! What `bench/run` times beside `gazhub`, and what `./check` asks, by the words behind its name.
//!
//! * `file FILE ROUNDS` reads a good change file, `any FILE ROUNDS` a change file whatever its
//!   outcome, `register FILE ROUNDS` a register. It prints the least time in microseconds.
//! * `floor FILE SCRIPT PAGES` runs the statements of a script, which is in a file, over the
//!   database in another, with so many pages at hand. It prints how many rows they found and the
//!   nanoseconds that they took, under the names that the script tells (`floor.rt`).
//! * `stored STORE REGISTER` answers the requests on standard input at a hub of the register in a
//!   file, over the store in a file, which is made where there is none. As many pages are kept at
//!   hand as the program keeps. A fourth word is the most steps that a statement over the opened
//!   store may take. Why there is no store is said on standard error, as `gaz_bench: BadSchema`,
//!   and the status is 3.
//! * `stored-each STORE REGISTER` takes pieces of a stream, each behind a line with its length in
//!   bytes, and opens and closes the store for each of them.
//! * `at-hand STORE REGISTER` does as `stored` with all that the store keeps at hand in memory, as
//!   the program does.
//! * `play REGISTER` answers the requests on standard input at a hub of the register in a file,
//!   over a keeper in memory.
//! * `failing REGISTER FIRST SECOND` does as `play`, but the keeper's call of the number FIRST
//!   fails, from 1, and of the calls that come to the keeper within that which fails so, the one of
//!   the number SECOND; 0 is none.
//! * `counted REGISTER` does as `play`, and says on standard error how often the keeper was asked
//!   `current`, `property_of`, `reached` and `received`.
//! * `calls STORE REGISTER` makes the calls of the list that each keeper answers alike, over a new
//!   store in a file; `calls-at-hand STORE REGISTER` does so too, and brings what is kept to hand
//!   before numbers pass on. Where one is answered otherwise, that is said on standard error.
#![tactic(auto)]

mod at_file;
mod failing;
mod floor;
mod listing;
mod playing;
mod reading;
mod stored;

use anyhow::Result;
use failing::{Failing, count_over_maps, over_maps};
use floor::play_script;
use gaz_store::StoreRefusal;
use listing::{Way, make_calls};
use playing::play;
use reading::print_reading;
use std::env;
use std::process::ExitCode;
use stored::{ReadFrom, stored, stored_each};

// Exit status 0, or 3 where there is no store, and why.
fn status_of(rt: &HostRuntime, refusal: Option<StoreRefusal>) -> Result<ExitCode> {
    match refusal {
        None => Ok(ExitCode::SUCCESS),
        Some(refusal) => {
            eprintln!(rt; "gaz_bench: {refusal:?}")?;
            Ok(ExitCode::from(3))
        }
    }
}

// The calls of these numbers.
fn calls_of(first: &str, second: &str) -> Result<Failing> {
    let (first, second) = (first.parse::<u64>()?, second.parse::<u64>()?);
    Ok(Failing { first, second })
}

// Does what the words say, where they name no store that may refuse to be one.
fn measured(rt: &HostRuntime, words: &[&str]) -> Result<()> {
    match words {
        ["play", register] => play(rt, register),
        ["failing", register, first, second] => {
            over_maps(rt, register, calls_of(first, second)?)?;
            Ok(())
        }
        ["counted", register] => count_over_maps(rt, register),
        ["calls", store, register] => make_calls(rt, store, register, Way::Stored),
        ["calls-at-hand", store, register] => make_calls(rt, store, register, Way::AtHand),
        ["floor", path, script, pages] => play_script(rt, path, script, pages.parse::<usize>()?),
        [word, path, rounds] => print_reading(rt, word, path, rounds),
        _ => Ok(()),
    }
}

// Does what the words say; why there is no store, where they name one.
fn asked(rt: &HostRuntime, words: &[&str]) -> Result<Option<StoreRefusal>> {
    match words {
        ["stored", store, register] => stored(rt, store, register, None, ReadFrom::Tables),
        ["stored", store, register, steps] => {
            let steps = steps.parse::<u64>()?;
            stored(rt, store, register, Some(steps), ReadFrom::Tables)
        }
        ["at-hand", store, register] => stored(rt, store, register, None, ReadFrom::Memory),
        ["stored-each", store, register] => stored_each(rt, store, register),
        _ => {
            measured(rt, words)?;
            Ok(None)
        }
    }
}

fn main(rt: HostRuntime) -> Result<ExitCode> {
    let mut words = Vec::new(rt.alloc());
    for word in env::args(&rt)?.skip(1) {
        words.push(word)?;
    }
    let words: Vec<&str> = words.iter().map(|word| word.as_str()).collect(rt.alloc())?;
    let refusal = asked(&rt, &words)?;
    status_of(&rt, refusal)
}
