//! A register that grows over the store behind a connection, which is handed back.
ghost use Rattle.std.specs.Prelude.{◌≡◌, false, IfErr, IfOk};
ghost use Rattle.gaz_stored.specs.Extending.{ExtendsOpened};
ghost use Rattle.gaz_stored.specs.Using.{LacksStore};

use crate::handing::Returned;
use gaz_register::Register;
use gaz_shelf::Seed;
use gaz_store::{ExtendFault, Store};
use sqlite::{Alter, Connection};
use std::alloc::Global;
use std::marker::Brand;

/// Takes the database behind a connection outside a transaction as the store of a register, and
/// puts the grown register in its place. Who picks keys is not to foresee the seed.
///
/// There is no store in the cases of `ask_opened`, in its order. Then come the faults of
/// `Store::extend`, in its order, of which `OtherRegister` only comes where another connection has
/// changed the row of `meta` meanwhile. After each of them the database holds what it held.
pub fn extend_opened<S: Alter + Drop>(
    alloc: Global,
    seed: Seed,
    conn: Connection<S>,
    register: Register,
    grown: Register,
) -> Returned<S, Result<(), ExtendFault>>
    requires { conn.in_transaction ≡ false }
    ensures over { result.conn.in_transaction ≡ false }
    ensures extends { IfOk result.told (ExtendsOpened S.Store register grown conn result.conn) }
    ensures lacks { IfErr result.told (λ why. LacksStore S.Store register why conn result.conn) }
{
    match Store::<S, Brand>::open(alloc, seed, conn, &register) {
        Ok(store) => {
            let (mut store, mut register) = (store, register);
            let told = store.extend(&mut register, grown);
            Returned {
                conn: store.into_connection(),
                told: Ok(told),
            }
        }
        Err((conn, refusal)) => Returned {
            conn,
            told: Err(refusal),
        },
    }
}
