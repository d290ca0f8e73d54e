//! One call over the store behind a connection, which is handed back.
ghost use Rattle.std.specs.Prelude.{◌≡◌, false, IfErr, IfOk, option_map};
ghost use Rattle.gaz_keeper.specs.Keeper.{IsNotOpen};
ghost use Rattle.gaz_keeper.specs.Telling.{IsNotJudging};
ghost use Rattle.gaz_store.specs.Store.{progress_of};
ghost use Rattle.gaz_commands.specs.Obeying.{Obeys};
ghost use Rattle.gaz_stored.specs.Asking.{asked};
ghost use Rattle.gaz_stored.specs.Using.{LacksStore, UsedAs, UsesOpened};
ghost use Rattle.gaz_stored.specs.Ways.{Asks};

use crate::handing::Returned;
use crate::keepers::ask_with;
use gaz_commands::{Said, extract, line, status, submit};
use gaz_hub::Hub;
use gaz_keeper::Inbox;
use gaz_register::Register;
use gaz_shelf::Seed;
use gaz_store::{OfRegister, Store};
use gaz_words::Call;
use sqlite::{Alter, Connection};
use std::alloc::Global;
use std::marker::Brand;

/// What a hub is asked, and what is said.
pub(crate) fn ask_hub<K: Inbox + Drop>(
    hub: &mut Hub<K>,
    call: Call<'_>,
    file: Option<&[u8]>,
) -> Said
    requires { IsNotJudging K.seen hub.old.keeper }
    ensures { Obeys K.seen (asked call.entry (option_map (λ bytes. bytes.now) file.entry))
        hub.old hub.new result }
{
    match call {
        Call::Submit { code, volume, .. } => submit(hub, code, volume, file),
        Call::Status { code } => status(hub, code),
        Call::Line { uprn } => line(hub, uprn),
        Call::Extract { code, volume } => extract(hub, code, volume),
    }
}

// Asks a hub over a store, seen as one of the register that `N` names; its connection is left.
fn ask_over<S: Alter + Drop, N: OfRegister>(
    alloc: Global,
    store: Store<S>,
    register: Register,
    call: Call<'_>,
    file: Option<&[u8]>,
) -> (Connection<S>, Said)
    requires { IsNotOpen (progress_of store.judging) }
    ensures over { result.0.in_transaction ≡ false }
    ensures asks { UsedAs N N.text register (Asks register
        (asked call.entry (option_map (λ bytes. bytes.now) file.entry)) result.1) store result.0 }
{
    let (left, said) = ask_with(alloc, store.named::<N>(), register, call, file);
    (left.into_connection(), said)
}

/// Takes the database behind a connection outside a transaction as the store of a register, and
/// asks a hub over it once. A submission is of these bytes, none where its file can't be read. Who
/// picks keys is not to foresee the seed.
///
/// In this order: `BadSchema` where a table of a store or a column of one is missing, or the rows
/// of `meta` aren't just one, of id 1 and number 2; `OtherRegister` where its text isn't the
/// register's canonical one; `Fault` where memory or the database failed, so that this isn't known.
/// Nothing is asked then, and the database holds what it held.
pub fn ask_opened<S: Alter + Drop>(
    alloc: Global,
    seed: Seed,
    conn: Connection<S>,
    register: Register,
    call: Call<'_>,
    file: Option<&[u8]>,
) -> Returned<S, Said>
    requires { conn.in_transaction ≡ false }
    ensures over { result.conn.in_transaction ≡ false }
    ensures asks { IfOk result.told (λ said. UsesOpened S.Store register (Asks register
        (asked call.entry (option_map (λ bytes. bytes.now) file.entry)) said) conn result.conn) }
    ensures lacks { IfErr result.told (λ why. LacksStore S.Store register why conn result.conn) }
{
    match Store::open(alloc, seed, conn, &register) {
        Ok(store) => {
            let (conn, said) = ask_over::<_, Brand>(alloc, store, register, call, file);
            Returned {
                conn,
                told: Ok(said),
            }
        }
        Err((conn, refusal)) => Returned {
            conn,
            told: Err(refusal),
        },
    }
}
