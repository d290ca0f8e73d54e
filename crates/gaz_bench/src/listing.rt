//! The list of calls, over a new store in a file.
ghost use Rattle.std.specs.Prelude.{IfOk};
ghost use Rattle.gaz_keeper.specs.Keeper.{IsNotOpen};
ghost use Rattle.gaz_mirror.specs.Mirrored.{seen_mirrored};
ghost use Rattle.gaz_store.specs.Store.{progress_of};

use crate::at_file::{Work, over_file};
use crate::playing::register_in;
use crate::stored::rests;
use anyhow::{Context, Result, bail, ensure};
use gaz_keeper::Inbox;
use gaz_loaded::Listed;
use gaz_mirror::{Mirror, Unshared};
use gaz_register::Register;
use gaz_samples::keepers::{Part, Refusal, Tried, parts, performs};
use gaz_shelf::Seed;
use gaz_store::Store;
use gaz_stored::mirrored;
use sqlite::{Alter, Connection};
use std::alloc::Global;

/// The pages of a store that are kept at hand.
const PAGES: usize = 200;

/// The tables of the list, of which the first two pass nothing on.
const TABLES: u64 = 4;

// The store that is made behind a connection.
fn store_in<S: Alter + Drop>(
    alloc: Global,
    conn: Connection<S>,
    register: &Register,
) -> Result<Store<S>>
    ensures { IfOk result (λ store. IsNotOpen (progress_of store.judging)) }
{
    rests(&conn)?;
    match Store::create(alloc, Seed::of(1), conn, register) {
        Ok(store) => Ok(store),
        Err((_, refusal)) => bail!("there is no store: {refusal:?}"),
    }
}

// An error where a call of a part was answered otherwise than it is to be.
fn told(part: &Part, done: Result<(), Refusal>) -> Result<()> {
    let (name, _) = part;
    match done {
        Ok(()) => Ok(()),
        Err(refusal) => bail!("{name}: {refusal:?}"),
    }
}

fn performs_table<K: Inbox + Drop>(
    alloc: Global,
    keeper: &mut Tried<K>,
    table: &[Part],
) -> Result<()> {
    for part in table {
        told(part, performs(alloc, keeper, part))?;
    }
    Ok(())
}

// Makes the calls of these tables.
fn performs_tables<K: Inbox + Drop>(
    alloc: Global,
    keeper: &mut Tried<K>,
    first: u64,
    last: u64,
) -> Result<()> {
    for number in first..last {
        let table = parts(number).context("there is no such table")?;
        performs_table(alloc, keeper, table)?;
    }
    Ok(())
}

// A keeper between judgements.
fn at_rest<K: Inbox + Drop>(keeper: Tried<K>) -> Result<K>
    ensures { IfOk result (λ keeper. IsNotOpen (K.seen keeper).progress) }
{
    match keeper.at_rest() {
        Ok(keeper) => Ok(keeper),
        Err(refusal) => bail!("{refusal:?}"),
    }
}

// The keeper behind the calls of the first tables, so many of them.
fn performed<K: Inbox + Drop>(alloc: Global, keeper: K, tables: u64) -> Result<K>
    requires { IsNotOpen (K.seen keeper).progress }
    ensures { IfOk result (λ keeper. IsNotOpen (K.seen keeper).progress) }
{
    let mut keeper = Tried::new(keeper);
    performs_tables(alloc, &mut keeper, 0, tables)?;
    at_rest(keeper)
}

// Numbers pass on in a keeper over two; in the end all is at hand.
fn goes_on<L: Inbox + Drop, U: Unshared + Drop>(alloc: Global, mirror: Mirror<L, U>) -> Result<()>
    requires { IsNotOpen (seen_mirrored mirror).progress }
{
    let mut keeper = Tried::new(mirror);
    performs_tables(alloc, &mut keeper, 2, TABLES)?;
    ensure!(keeper.keeper().has_upper(), "not all is at hand");
    Ok(())
}

// What a keeper lists is brought to hand, and behind that numbers pass on.
fn goes_on_at_hand<K: Listed + Drop>(alloc: Global, register: Register, keeper: K) -> Result<()>
    requires { IsNotOpen (K.seen keeper).progress }
{
    let hub = mirrored(alloc, Seed::of(1), register, keeper);
    let (_, mirror) = hub.into_parts();
    goes_on(alloc, mirror)
}

/// How the list is done.
#[derive(Clone, Copy)]
pub enum Way {
    /// Over the store.
    Stored,
    /// Before numbers pass on, what is kept is brought to hand.
    AtHand,
}

// Does it over a keeper, which is left, unless it was brought to hand.
fn listed<K: Listed + Drop>(
    alloc: Global,
    register: Register,
    keeper: K,
    way: Way,
) -> Result<Option<K>>
    requires { IsNotOpen (K.seen keeper).progress }
{
    match way {
        Way::Stored => Ok(Some(performed(alloc, keeper, TABLES)?)),
        Way::AtHand => {
            goes_on_at_hand(alloc, register, performed(alloc, keeper, 2)?)?;
            Ok(None)
        }
    }
}

#[derive(Drop)]
struct Listing {
    register: Register,
    way: Way,
}

impl Work for Listing {
    type Told = ();

    fn done<S: Alter + Drop>(
        self,
        rt: &HostRuntime,
        conn: Connection<S>,
    ) -> Result<(Option<Connection<S>>, ())> {
        let Listing { register, way } = self;
        let alloc = rt.alloc();
        let store = store_in(alloc, conn, &register)?;
        match listed(alloc, register, store, way)? {
            Some(store) => Ok((Some(store.into_connection()), ())),
            None => Ok((None, ())),
        }
    }
}

/// Makes the calls of the list over a new store in the file at this path. An error where one is
/// answered otherwise than it is to be.
pub fn make_calls(rt: &HostRuntime, path: &str, register: &str, way: Way) -> Result<()> {
    let listing = Listing {
        register: register_in(rt, register)?,
        way,
    };
    over_file(rt, path, PAGES, listing)?.context("no connection")
}
