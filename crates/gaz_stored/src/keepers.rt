//! What a hub does over a keeper, whatever it is: so it is proved once, and at a store's type each
//! call would cost the proof ten seconds more.
ghost use Rattle.std.specs.Prelude.{option_map};
ghost use Rattle.gaz_keeper.specs.Keeper.{IsNotOpen};
ghost use Rattle.gaz_exchange.specs.Conversing.{StopsByFault, transfer};
ghost use Rattle.gaz_stored.specs.Asking.{asked};
ghost use Rattle.gaz_stored.specs.Meetings.{WithPeers};
ghost use Rattle.gaz_stored.specs.Serving.{MayEndEarly};
ghost use Rattle.gaz_stored.specs.Ways.{Asks, Converses, GoesBy, SettlesAndServes};

use crate::asking::ask_hub;
use crate::connections::{MOST_REQUESTS, serve_on};
use crate::joining::mirrored;
use crate::peers::Peers;
use gaz_commands::Said;
use gaz_exchange::{Served, Stopped, converse};
use gaz_http::{Sink, Source};
use gaz_hub::Hub;
use gaz_keeper::Inbox;
use gaz_loaded::Listed;
use gaz_register::Register;
use gaz_shelf::{MemShelf, Seed};
use gaz_words::Call;
use std::alloc::Global;

/// Holds a conversation over a keeper, all of which is put at hand, where memory allows; it and
/// what is at hand of it are left.
pub(crate) fn converse_with<K: Listed + Drop, R: Source, W: Sink>(
    alloc: Global,
    seed: Seed,
    keeper: K,
    register: Register,
    r: &mut R,
    w: &mut W,
    most: u64,
) -> (K, Option<MemShelf>, Result<Served, Stopped>)
    requires { IsNotOpen (K.seen keeper).progress }
    ensures converses { GoesBy K.seen register (Converses K.Shelf register most
        (transfer R.remaining W.contents r.old r.new w.old w.new) result.2) keeper result.0 }
    ensures failed { StopsByFault R.failed W.failed r.new w.new result.2 }
{
    let mut hub = mirrored(alloc, seed, register, keeper);
    let ended = converse(alloc, r, w, &mut hub, most);
    let (_register, mirror) = hub.into_parts();
    let (keeper, at_hand) = mirror.into_parts();
    (keeper, at_hand, ended)
}

/// Answers peers over a keeper, all of which is put at hand, where memory allows, and settled; it,
/// what is at hand, and how many connections were answered are left.
pub(crate) fn serve_with<P: Peers, K: Listed + Drop>(
    alloc: Global,
    seed: Seed,
    keeper: K,
    register: Register,
    peers: &mut P,
    connections: u64,
) -> (K, Option<MemShelf>, u64)
    requires { IsNotOpen (K.seen keeper).progress }
    ensures serves { WithPeers P.meets P.Reader.Source.failed P.Writer.Sink.failed
        (λ met. GoesBy K.seen register
        (SettlesAndServes K.Shelf register MOST_REQUESTS result.2 met) keeper result.0)
        peers.old peers.new }
    ensures many { MayEndEarly connections result.2 result.1 }
{
    let mut hub = mirrored(alloc, seed, register, keeper);
    let _settled = hub.settle();
    let served = serve_on(alloc, peers, &mut hub, connections);
    let (_register, mirror) = hub.into_parts();
    let (keeper, at_hand) = mirror.into_parts();
    (keeper, at_hand, served)
}

/// Asks a hub over a keeper once, which is left, and what is said.
pub(crate) fn ask_with<K: Inbox + Drop>(
    alloc: Global,
    keeper: K,
    register: Register,
    call: Call<'_>,
    file: Option<&[u8]>,
) -> (K, Said)
    requires { IsNotOpen (K.seen keeper).progress }
    ensures { GoesBy K.seen register (Asks register
        (asked call.entry (option_map (λ bytes. bytes.now) file.entry)) result.1) keeper result.0 }
{
    let mut hub = Hub::new(alloc, register, keeper);
    let said = ask_hub(&mut hub, call, file);
    let (_register, keeper) = hub.into_parts();
    (keeper, said)
}
