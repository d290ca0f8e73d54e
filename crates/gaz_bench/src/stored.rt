//! A hub over a store, of any register.
ghost use Rattle.std.specs.Prelude.{◌≡◌, false, IfOk, OnOk};
ghost use Rattle.gaz_keeper.specs.Keeper.{IsNotOpen};
ghost use Rattle.gaz_store.specs.Store.{progress_of};

use crate::at_file::{Work, over_file};
use crate::playing::{MOST, register_in};
use anyhow::{Context, Result, ensure};
use gaz_exchange::converse;
use gaz_hub::Hub;
use gaz_keeper::Inbox;
use gaz_loaded::Listed;
use gaz_register::Register;
use gaz_shelf::Seed;
use gaz_store::{Store, StoreRefusal};
use gaz_stored::mirrored;
use sqlite::{Alter, Connection};
use std::alloc::Global;
use std::io::{BufWriter, Read, Write};
use std::{fs, io};

/// The bytes of a page, and the fewest pages that are kept at hand, and the most.
const PAGE: u64 = 4096;

const FEWEST: u64 = 2_000;

const MOST_PAGES: u64 = 64_000;

/// Where what is asked of a store is read.
#[derive(Clone, Copy)]
pub enum ReadFrom {
    /// From memory, where all that it keeps is put first.
    Memory,
    /// From its tables.
    Tables,
}

/// How a store begins.
#[derive(Clone, Copy)]
enum Beginning {
    Made,
    Opened,
}

/// The connection is in no transaction, or an error.
pub fn rests<S: Alter>(conn: &Connection<S>) -> Result<()>
    ensures { OnOk result (conn.now.in_transaction ≡ false) }
{
    ensure!(conn.is_autocommit(), "a transaction is open");
    Ok(())
}

// Settles, if that can be, and answers the requests of a reader at a hub.
fn converse_at<K: Inbox + Drop, R: Read, W: Write>(
    alloc: Global,
    hub: &mut Hub<K>,
    r: &mut R,
    w: &mut W,
) -> Result<()>
    requires { IsNotOpen (K.seen hub.old.keeper).progress }
{
    let _settled = hub.settle();
    ensure!(
        converse(alloc, r, w, hub, MOST).is_ok(),
        "the stream failed"
    );
    Ok(())
}

// Answers the requests of a reader over a keeper, which is left.
fn converse_over<K: Listed + Drop, R: Read, W: Write>(
    alloc: Global,
    keeper: K,
    register: Register,
    read_from: ReadFrom,
    r: &mut R,
    w: &mut W,
) -> Result<K>
    requires { IsNotOpen (K.seen keeper).progress }
{
    match read_from {
        ReadFrom::Memory => {
            let mut hub = mirrored(alloc, Seed::of(1), register, keeper);
            converse_at(alloc, &mut hub, r, w)?;
            let (_, mirror) = hub.into_parts();
            let (keeper, _) = mirror.into_parts();
            Ok(keeper)
        }
        ReadFrom::Tables => {
            let mut hub = Hub::new(alloc, register, keeper);
            converse_at(alloc, &mut hub, r, w)?;
            let (_, keeper) = hub.into_parts();
            Ok(keeper)
        }
    }
}

// The store of a register behind a connection, or why there is none.
fn store_in<S: Alter + Drop>(
    alloc: Global,
    conn: Connection<S>,
    register: &Register,
    beginning: Beginning,
) -> Result<Result<Store<S>, (Connection<S>, StoreRefusal)>>
    ensures { IfOk result (λ found. IfOk found (λ store. IsNotOpen (progress_of store.judging))) }
{
    rests(&conn)?;
    let seed = Seed::of(1);
    Ok(match beginning {
        Beginning::Made => Store::create(alloc, seed, conn, register),
        Beginning::Opened => Store::open(alloc, seed, conn, register),
    })
}

// How the store in a file begins: it is opened where a file is there.
fn beginning_at(rt: &HostRuntime, path: &str) -> Beginning {
    match fs::metadata(rt, path) {
        Ok(_) => Beginning::Opened,
        Err(_) => Beginning::Made,
    }
}

// The pages that are kept at hand of the file at this path, as many as the program keeps: all and
// half as many more, where they aren't too many.
fn pages_at(rt: &HostRuntime, path: &str) -> usize {
    let pages = match fs::metadata(rt, path) {
        Ok(found) => found.len() / PAGE,
        Err(_) => 0,
    };
    pages.saturating_add(pages / 2).clamp(FEWEST, MOST_PAGES) as usize
}

/// A conversation with a hub of a register, over a store that begins so, whose statements take so
/// many steps at most.
#[derive(Drop)]
struct Talk<'a, R, W> {
    beginning: Beginning,
    register: Register,
    steps: Option<u64>,
    read_from: ReadFrom,
    r: &'a mut R,
    w: &'a mut W,
}

impl<R: Read, W: Write> Work for Talk<'_, R, W> {
    type Told = Option<StoreRefusal>;

    fn done<S: Alter + Drop>(
        self,
        rt: &HostRuntime,
        mut conn: Connection<S>,
    ) -> Result<(Option<Connection<S>>, Option<StoreRefusal>)> {
        let Talk {
            beginning,
            register,
            steps,
            read_from,
            r,
            w,
        } = self;
        conn.set_step_limit(steps);
        let alloc = rt.alloc();
        match store_in(alloc, conn, &register, beginning)? {
            Ok(store) => {
                let store = converse_over(alloc, store, register, read_from, r, w)?;
                Ok((Some(store.into_connection()), None))
            }
            Err((conn, refusal)) => Ok((Some(conn), Some(refusal))),
        }
    }
}

// Answers the requests of a reader over the store in a file, which is made where there is none.
fn answer_at<R: Read, W: Write>(
    rt: &HostRuntime,
    path: &str,
    register: Register,
    steps: Option<u64>,
    read_from: ReadFrom,
    r: &mut R,
    w: &mut W,
) -> Result<Option<StoreRefusal>> {
    let talk = Talk {
        beginning: beginning_at(rt, path),
        register,
        steps,
        read_from,
        r,
        w,
    };
    match over_file(rt, path, pages_at(rt, path), talk)? {
        Some(refusal) => Ok(refusal),
        None => Ok(Some(StoreRefusal::Fault)),
    }
}

/// Answers the requests on standard input over the store in a file, whose statements take so many
/// steps at most.
pub fn stored(
    rt: &HostRuntime,
    path: &str,
    register: &str,
    steps: Option<u64>,
    read_from: ReadFrom,
) -> Result<Option<StoreRefusal>> {
    let register = register_in(rt, register)?;
    let mut w = BufWriter::new(rt.alloc(), io::writer(rt))?;
    let mut r = rt.reader();
    answer_at(rt, path, register, steps, read_from, &mut r, &mut w)
}

// The first piece of what is left, and what is behind it: a line has its length in bytes, and the
// piece stands behind that line.
fn piece_of(left: &[u8]) -> Option<(&[u8], &[u8])> {
    let end = left.iter().position(|b| *b == b'\n')?;
    let (line, behind) = left.split_at_checked(end)?;
    let length = str::from_utf8(line).ok()?.parse::<usize>().ok()?;
    behind.get(1..)?.split_at_checked(length)
}

/// Answers the requests of each piece of standard input over the store in a file, as it was closed
/// behind the piece before. Every piece is behind a line with its length in bytes.
pub fn stored_each(rt: &HostRuntime, path: &str, register: &str) -> Result<Option<StoreRefusal>> {
    let mut w = BufWriter::new(rt.alloc(), io::writer(rt))?;
    let mut given = Vec::new(rt.alloc());
    rt.reader().read_to_end(&mut given)?;
    let mut left = given.as_slice();
    for _ in 0..MOST {
        if left.is_empty() {
            break;
        }
        let (mut piece, behind) = piece_of(left).context("a piece is cut off")?;
        let refusal = answer_at(
            rt,
            path,
            register_in(rt, register)?,
            None,
            ReadFrom::Tables,
            &mut piece,
            &mut w,
        )?;
        if refusal.is_some() {
            return Ok(refusal);
        }
        left = behind;
    }
    Ok(None)
}
