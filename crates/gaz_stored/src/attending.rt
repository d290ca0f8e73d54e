//! Peers are answered over the store behind a connection, which is handed back.
ghost use Rattle.std.specs.Prelude.{◌≡◌, false, Ok, IfErr, IfOk};
ghost use Rattle.gaz_register.specs.Texts.{register_text};
ghost use Rattle.gaz_keeper.specs.Keeper.{IsNotOpen};
ghost use Rattle.gaz_store.specs.Store.{progress_of};
ghost use Rattle.gaz_stored.specs.Announcing.{IsAnnounced};
ghost use Rattle.gaz_stored.specs.Meetings.{WithPeers};
ghost use Rattle.gaz_stored.specs.Serving.{MayEndEarly};
ghost use Rattle.gaz_stored.specs.Using.{LacksStore, UsedAs, UsesOpened, seen_as};
ghost use Rattle.gaz_stored.specs.Ways.{Attends};

use crate::connections::MOST_REQUESTS;
use crate::handing::HandedBack;
use crate::keepers::serve_with;
use crate::peers::Peers;
use gaz_register::Register;
use gaz_shelf::{MemShelf, Seed};
use gaz_store::{OfRegister, Store};
use sqlite::{Alter, Connection};
use std::alloc::Global;
use std::io::Write;
use std::marker::Brand;

/// Why no connection is answered though there is a hub.
#[derive(Clone, Copy)]
pub enum Unserved {
    /// There is no port to which they could come.
    NoPort,
    /// It couldn't be said where they come.
    Unwritten,
}

// Says to which port peers come, or tells why none are answered.
fn say_where<W: Write>(port: Option<u16>, w: &mut W) -> Result<(), Unserved>
    ensures { IsAnnounced port (W.contents w.old) (W.contents w.new) (Ok result) }
{
    let Some(port) = port else {
        return Err(Unserved::NoPort);
    };
    if write!(w, "listening 127.0.0.1:{port}\n").is_ok() && w.flush().is_ok() {
        Ok(())
    } else {
        Err(Unserved::Unwritten)
    }
}

// Says where peers come, and answers them over a store, seen as one of the register that `N` names,
// all of which is put at hand, where memory allows, and settled. Where it can't be said, nobody is
// answered, and the store stays as it is. The connection to it, what is at hand, and how many were
// answered are left.
fn attend_over<S: Alter + Drop, N: OfRegister, P: Peers, W: Write>(
    alloc: Global,
    seed: Seed,
    store: Store<S>,
    register: Register,
    port: Option<u16>,
    peers: &mut P,
    w: &mut W,
    wanted: u64,
) -> (Connection<S>, Option<MemShelf>, Result<u64, Unserved>)
    requires { IsNotOpen (progress_of store.judging) }
    ensures over { result.0.in_transaction ≡ false }
    ensures attends { WithPeers P.meets P.Reader.Source.failed P.Writer.Sink.failed
        (λ met. UsedAs N N.text register (Attends (seen_as N.text) register MOST_REQUESTS
        result.2 met) store result.0) peers.old peers.new }
    ensures many { IfOk result.2 (λ served. MayEndEarly wanted served result.1) }
    ensures announced { IsAnnounced port (W.contents w.old) (W.contents w.new) (Ok result.2) }
{
    let store = store.named::<N>();
    match say_where(port, w) {
        Ok(()) => {
            let (left, at_hand, served) = serve_with(alloc, seed, store, register, peers, wanted);
            (left.into_connection(), at_hand, Ok(served))
        }
        Err(why) => (store.into_connection(), None, Err(why)),
    }
}

/// Takes the database behind a connection outside a transaction as the store of a register, says by
/// the writer to which port peers come, as `listening 127.0.0.1:8080`, puts all of the store at
/// hand, where memory allows, settles it, and answers at most so many peers, one after the other,
/// of each at most 1,000 requests. One that can't be had counts as one. It ends early behind one
/// where nothing is at hand any more, since something failed: who opens the store again answers
/// those that are left. Who picks keys is not to foresee the seed.
///
/// Whatever the peers do, the hub makes a run of its steps: what was received stays received. Where
/// it is known what they say and are told, that is what the hub was asked and answered.
///
/// There is no store in the cases of `ask_opened`, in its order; then comes `NoPort` where there is
/// no port. Nothing is written then, nobody is answered, and the database holds what it held.
/// `Unwritten` where the writer failed in saying the port: a part of the line may be written, and
/// nobody is answered.
pub fn serve_opened<S: Alter + Drop, P: Peers, W: Write>(
    alloc: Global,
    seed: Seed,
    conn: Connection<S>,
    register: Register,
    port: Option<u16>,
    peers: &mut P,
    w: &mut W,
    wanted: u64,
) -> HandedBack<S, Result<u64, Unserved>>
    requires { conn.in_transaction ≡ false }
    ensures over { result.conn.in_transaction ≡ false }
    ensures attends { IfOk result.told (λ held.
        WithPeers P.meets P.Reader.Source.failed P.Writer.Sink.failed
        (λ met. UsesOpened S.Store register (Attends (seen_as (register_text register)) register
        MOST_REQUESTS held met) conn result.conn) peers.old peers.new) }
    ensures nobody { IfErr result.told (λ _. peers.new ≡ peers.old) }
    ensures many { IfOk result.told (λ held.
        IfOk held (λ served. MayEndEarly wanted served result.at_hand)) }
    ensures announced { IsAnnounced port (W.contents w.old) (W.contents w.new) result.told }
    ensures lacks { IfErr result.told (λ why. LacksStore S.Store register why conn result.conn) }
{
    match Store::open(alloc, seed, conn, &register) {
        Ok(store) => {
            let (conn, at_hand, ended) = attend_over::<_, Brand, _, _>(
                alloc, seed, store, register, port, peers, w, wanted,
            );
            HandedBack {
                conn,
                at_hand,
                told: Ok(ended),
            }
        }
        Err((conn, refusal)) => HandedBack {
            conn,
            at_hand: None,
            told: Err(refusal),
        },
    }
}
