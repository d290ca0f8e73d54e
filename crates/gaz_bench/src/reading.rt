//! Reading files and registers.

use anyhow::{Context, Result, ensure};
use gaz_changefile::{FileFault, read_file};
use gaz_ids::{Code, Volume};
use gaz_register::Register;
use std::fs;
use std::time::Instant;

// What a file is read as.
#[derive(Clone, Copy)]
enum What {
    GoodFile,
    AnyFile,
    Register,
}

fn what_of(word: &str) -> Option<What> {
    match word {
        "file" => Some(What::GoodFile),
        "any" => Some(What::AnyFile),
        "register" => Some(What::Register),
        _ => None,
    }
}

// Reads the bytes as the file of volume 1 of custodian 1001. Whether they are as expected: good, or
// any that memory sufficed for.
fn reads_file(rt: &HostRuntime, bytes: &[u8], has_to_be_good: bool) -> bool {
    let (Some(code), Some(volume)) = (Code::of(1001), Volume::of(1)) else {
        return false;
    };
    match read_file(rt.alloc(), bytes, code, volume) {
        Ok(_) => true,
        Err(FileFault::Bad { .. }) => !has_to_be_good,
        Err(FileFault::Memory) => false,
    }
}

// Whether the bytes read as expected.
fn reads(rt: &HostRuntime, what: What, bytes: &[u8]) -> bool {
    match what {
        What::GoodFile => reads_file(rt, bytes, true),
        What::AnyFile => reads_file(rt, bytes, false),
        What::Register => Register::read(rt.alloc(), bytes).is_ok(),
    }
}

// The least time of so many readings, in microseconds. Each has to be as expected.
fn best_micros(rt: &HostRuntime, what: What, bytes: &[u8], rounds: u32) -> Result<u128> {
    let mut best = u128::MAX;
    for _ in 0..rounds {
        let start = Instant::now(rt)?;
        let reads = reads(rt, what, bytes);
        let spent = start.elapsed(rt)?.as_micros();
        ensure!(reads, "the file has a fault");
        best = best.min(spent);
    }
    Ok(best)
}

/// Prints the least time of so many readings of a file.
pub fn print_reading(rt: &HostRuntime, word: &str, path: &str, rounds: &str) -> Result<()> {
    let what = what_of(word).context("neither a change file nor a register")?;
    let bytes = fs::read(rt, path)?;
    let best = best_micros(rt, what, &bytes, rounds.parse::<u32>()?)?;
    println!(rt; "{best}")?;
    Ok(())
}
