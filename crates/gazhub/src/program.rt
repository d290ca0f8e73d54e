//! A conversation of a hub that begins with nothing.
ghost use Rattle.std.specs.Prelude.{◌≡◌, false, IfSome, None, Ok};
ghost use Rattle.gaz_register.specs.Reading.{register_of};
ghost use Rattle.gaz_exchange.specs.Conversing.{StopsByFault, transfer};
ghost use Rattle.gaz_stored.specs.Unheard.{IsUnheard};
ghost use Rattle.gazhub.specs.Commands.{Holds};
ghost use Rattle.gazhub.specs.Playing.{IsNew, Plays};

use crate::ending::Ending;
use crate::sample::SAMPLE;
use gaz_exchange::{Served, Stopped};
use gaz_http::{Cause, Sink, Source};
use gaz_ledger::Seed;
use gaz_quiet::{QuietDisk, new_database};
use gaz_register::Register;
use gaz_store::Store;
use gaz_stored::{HandedBack, converse_opened};
use sqlite::{Connection, FileStore};
use std::alloc::Global;
use std::marker::Brand;
use std::mem::forget;

/// The most requests of one run.
pub const MOST_OF_PLAY: u64 = 100_000;

// The sample register, where there is memory for it.
fn sample_register(alloc: Global) -> Option<Register>
    ensures { IfSome result (λ register. register_of SAMPLE.now ≡ Ok register) }
{
    match Register::read(alloc, SAMPLE.as_bytes()) {
        Ok(register) => Some(register),
        Err(_) => None,
    }
}

// A store of the register in memory, of which nothing was asked, where there is memory for it.
fn new_store(
    alloc: Global,
    seed: Seed,
    register: &Register,
) -> Option<Connection<FileStore<QuietDisk>>>
    ensures outside { IfSome result (λ conn. conn.in_transaction ≡ false) }
    ensures new { IfSome result (IsNew register.now) }
{
    let conn = new_database(alloc)?;
    match Store::<_, Brand>::create(alloc, seed, conn, register) {
        Ok(store) => Some(store.into_connection()),
        Err(_) => None,
    }
}

/// Answers the requests of a stream, at most 100,000 of them, at a hub of the sample register over
/// a store in memory that begins with nothing. Where it ends, no other may follow those that were
/// answered, or none stands whole in what was read behind them, unless there was no memory for the
/// body of the next.
///
/// It stops only where the reader or the writer failed.
///
/// Without memory for the register or the store nothing is read or written, and there is no answer.
pub fn answer_all<R: Source, W: Sink>(
    alloc: Global,
    seed: Seed,
    r: &mut R,
    w: &mut W,
) -> Option<Result<Served, Stopped>>
    ensures plays { IfSome result (Plays SAMPLE.now MOST_OF_PLAY
        (transfer R.remaining W.contents r.old r.new w.old w.new)) }
    ensures failed { IfSome result (StopsByFault R.failed W.failed r.new w.new) }
    ensures unheard { result ≡ None → IsUnheard
        (transfer R.remaining W.contents r.old r.new w.old w.new) }
{
    let register = sample_register(alloc)?;
    let conn = new_store(alloc, seed, &register)?;
    let HandedBack {
        conn,
        at_hand,
        told,
    } = converse_opened(alloc, seed, conn, register, r, w, MOST_OF_PLAY);
    // The program ends, and the system takes back at once what would take longer to free piece by
    // piece.
    forget(conn);
    forget(at_hand);
    match told {
        Ok(ended) => Some(ended),
        Err(_) => None,
    }
}

/// Holds a conversation.
pub fn play<R: Source, W: Sink>(alloc: Global, seed: Seed, r: &mut R, w: &mut W) -> Ending
    ensures { Holds SAMPLE.now MOST_OF_PLAY
        (transfer R.remaining W.contents r.old r.new w.old w.new) result }
{
    match answer_all(alloc, seed, r, w) {
        Some(Ok(_)) => Ending::Done,
        Some(Err(stopped)) => match stopped.cause {
            Cause::ReadFault => Ending::ReadFault,
            Cause::WriteFault => Ending::WriteFault,
        },
        None => Ending::Memory,
    }
}
