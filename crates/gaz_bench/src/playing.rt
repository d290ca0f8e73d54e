//! A hub over a keeper, of any register.
ghost use Rattle.gaz_keeper.specs.Keeper.{IsNotOpen};

use anyhow::{Result, ensure};
use gaz_exchange::converse;
use gaz_hub::Hub;
use gaz_keeper::Inbox;
use gaz_register::Register;
use gaz_shelf::{MemShelf, Seed};
use std::io::BufWriter;
use std::mem::forget;
use std::{fs, io};

/// The most requests of one run.
pub const MOST: u64 = 1_000_000;

/// The register in a file.
pub fn register_in(rt: &HostRuntime, path: &str) -> Result<Register> {
    Ok(Register::read(rt.alloc(), &fs::read(rt, path)?)?)
}

/// Answers the requests on standard input over a keeper, and leaves the hub.
pub fn answer<K: Inbox + Drop>(rt: &HostRuntime, register: Register, keeper: K) -> Result<Hub<K>>
    requires { IsNotOpen (K.seen keeper).progress }
{
    let mut hub = Hub::new(rt.alloc(), register, keeper);
    let mut w = BufWriter::new(rt.alloc(), io::writer(rt))?;
    let ended = converse(rt.alloc(), &mut rt.reader(), &mut w, &mut hub, MOST);
    ensure!(ended.is_ok(), "the stream failed");
    Ok(hub)
}

/// Answers the requests on standard input at a hub of the register in a file, over a keeper in
/// memory that begins with nothing.
pub fn play(rt: &HostRuntime, path: &str) -> Result<()> {
    let register = register_in(rt, path)?;
    let keeper = MemShelf::new(rt.alloc(), Seed::of(1));
    forget(answer(rt, register, keeper)?);
    Ok(())
}
