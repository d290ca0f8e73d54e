//! The store of schema 1 behind a connection becomes one of schema 2; the connection is handed
//! back.
ghost use Rattle.std.specs.Prelude.{◌≡◌, false, IfErr, IfOk};
ghost use Rattle.gaz_stored.specs.Migrating.{LacksBoth, MigratesOpened, StopsMoving, told_of};

use crate::handing::Returned;
use gaz_kept::migrating::is_first;
use gaz_register::Register;
use gaz_shelf::Seed;
use gaz_store::Store;
use sqlite::{Alter, Connection};
use std::alloc::Global;
use std::marker::Brand;

/// What a store's migration came to.
#[derive(Clone, Copy)]
pub enum Migration {
    /// It was of schema 1, and is of schema 2.
    Done,
    /// It was of schema 2 already, and nothing was written.
    Current,
}

// What is told, by whether the tables were those of schema 1.
fn told_of(first: bool) -> Migration
    ensures { result ≡ told_of first }
{
    if first {
        Migration::Done
    } else {
        Migration::Current
    }
}

/// Takes the database behind a connection outside a transaction as the store of a register, and
/// makes one of it where it is of schema 1. Who picks keys is not to foresee the seed.
///
/// There is none in the cases of `Store::migrate`, in its order. Then the database holds what it
/// held.
pub fn migrate_opened<S: Alter + Drop>(
    alloc: Global,
    seed: Seed,
    conn: Connection<S>,
    register: &Register,
) -> Returned<S, Migration>
    requires { conn.in_transaction ≡ false }
    ensures over { result.conn.in_transaction ≡ false }
    ensures migrates { IfOk result.told (MigratesOpened S.Store register.now conn result.conn) }
    ensures lacks { IfErr result.told (LacksBoth S.Store register.now conn result.conn) }
    ensures stops { StopsMoving S.Store register.now conn result.conn }
{
    let first = is_first(&conn);
    match Store::<S, Brand>::migrate(alloc, seed, conn, register) {
        Ok(store) => Returned {
            conn: store.into_connection(),
            told: Ok(told_of(first)),
        },
        Err((conn, refusal)) => Returned {
            conn,
            told: Err(refusal),
        },
    }
}
