//! A conversation over the store behind a connection, which is handed back.
ghost use Rattle.std.specs.Prelude.{◌≡◌, false, IfErr, IfOk};
ghost use Rattle.gaz_register.specs.Texts.{register_text};
ghost use Rattle.gaz_keeper.specs.Keeper.{IsNotOpen};
ghost use Rattle.gaz_store.specs.Store.{progress_of};
ghost use Rattle.gaz_exchange.specs.Conversing.{StopsByFault, transfer};
ghost use Rattle.gaz_stored.specs.Unheard.{IsUnheard};
ghost use Rattle.gaz_stored.specs.Using.{LacksStore, UsedAs, UsesOpened, seen_as};
ghost use Rattle.gaz_stored.specs.Ways.{Converses};

use crate::handing::HandedBack;
use crate::keepers::converse_with;
use gaz_exchange::{Served, Stopped};
use gaz_http::{Sink, Source};
use gaz_register::Register;
use gaz_shelf::{MemShelf, Seed};
use gaz_store::{OfRegister, Store};
use sqlite::{Alter, Connection};
use std::alloc::Global;
use std::marker::Brand;

// Holds a conversation over a store, seen as one of the register that `N` names.
fn converse_over<S: Alter + Drop, N: OfRegister, R: Source, W: Sink>(
    alloc: Global,
    seed: Seed,
    store: Store<S>,
    register: Register,
    r: &mut R,
    w: &mut W,
    most: u64,
) -> (Connection<S>, Option<MemShelf>, Result<Served, Stopped>)
    requires { IsNotOpen (progress_of store.judging) }
    ensures over { result.0.in_transaction ≡ false }
    ensures converses { UsedAs N N.text register (Converses (seen_as N.text) register most
        (transfer R.remaining W.contents r.old r.new w.old w.new) result.2) store result.0 }
    ensures failed { StopsByFault R.failed W.failed r.new w.new result.2 }
{
    let store = store.named::<N>();
    let (left, at_hand, ended) = converse_with(alloc, seed, store, register, r, w, most);
    (left.into_connection(), at_hand, ended)
}

/// Takes the database behind a connection outside a transaction as the store of a register, and
/// answers the requests of a stream over it, at most `most` of them. All is read from memory, where
/// that allows. It stops only where the reader or the writer failed. Who picks keys is not to
/// foresee the seed.
///
/// There is no store in the cases of `ask_opened`, in its order. Nothing is read or written then,
/// and the database holds what it held.
pub fn converse_opened<S: Alter + Drop, R: Source, W: Sink>(
    alloc: Global,
    seed: Seed,
    conn: Connection<S>,
    register: Register,
    r: &mut R,
    w: &mut W,
    most: u64,
) -> HandedBack<S, Result<Served, Stopped>>
    requires { conn.in_transaction ≡ false }
    ensures over { result.conn.in_transaction ≡ false }
    ensures converses { IfOk result.told (λ ended. UsesOpened S.Store register
        (Converses (seen_as (register_text register)) register most
        (transfer R.remaining W.contents r.old r.new w.old w.new) ended) conn result.conn) }
    ensures failed { IfOk result.told (StopsByFault R.failed W.failed r.new w.new) }
    ensures unheard { IfErr result.told (λ _. IsUnheard
        (transfer R.remaining W.contents r.old r.new w.old w.new)) }
    ensures lacks { IfErr result.told (λ why. LacksStore S.Store register why conn result.conn) }
{
    match Store::open(alloc, seed, conn, &register) {
        Ok(store) => {
            let (conn, at_hand, ended) = converse_over::<_, Brand, _, _>(
                alloc, seed, store, register, r, w, most,
            );
            HandedBack {
                conn,
                at_hand,
                told: Ok(ended),
            }
        }
        Err((conn, refusal)) => HandedBack {
            conn,
            at_hand: None,
            told: Err(refusal),
        },
    }
}
