//! `gazhub`: a hub for street and property gazetteers, on standard input and output or by commands
//! over a store.
#![tactic(auto)]

mod attending;
mod commands;
#[cfg(test)]
mod desk;
mod ending;
mod files;
mod host;
mod laws;
mod obeying;
mod port;
mod program;
mod sample;
mod site;
#[cfg(test)]
mod trials;

use gaz_ledger::Seed;
use host::{Host, random};
use obeying::command;
use std::alloc::Global;
use std::io::{BufWriter, Printer};
use std::process::ExitCode;
use std::{env, io};

// The words behind the program's name.
fn words(rt: &HostRuntime) -> io::Result<Vec<String>> {
    Ok(env::args(rt)?.skip(1).collect(rt.alloc())?)
}

// A writer that keeps what it is given until it is flushed, or where there is no memory for that,
// one that keeps nothing.
fn buffered<P: Print>(alloc: Global, rt: &P) -> BufWriter<Printer<'_, P>> {
    if let Ok(w) = BufWriter::new(alloc, io::writer(rt)) {
        return w;
    }
    BufWriter::with_capacity(alloc, 0, io::writer(rt)).unwrap()
}

fn main(rt: HostRuntime) -> ExitCode {
    let words = words(&rt).ok();
    let words = words.as_ref().map(|words| words.as_slice());
    let seed = random(&rt).ok().map(Seed::of);
    let mut w = buffered(rt.alloc(), &rt);
    let status = command(
        &mut Host::of(&rt),
        rt.alloc(),
        words,
        seed,
        &mut rt.reader(),
        &mut w,
        &mut rt.stderr(),
    );
    ExitCode::from(status)
}
