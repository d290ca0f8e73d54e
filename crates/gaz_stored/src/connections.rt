//! A hub over a mirror answers the peers that come.
ghost use Rattle.std.specs.Prelude.{◌≡◌};
ghost use Rattle.gaz_keeper.specs.Keeper.{IsNotOpen};
ghost use Rattle.gaz_mirror.specs.Mirrored.{seen_mirrored};
ghost use Rattle.gaz_stored.specs.Meetings.{WithPeers};
ghost use Rattle.gaz_stored.specs.Serving.{MayEndEarly, Serves, TalksOrRests};

use crate::peers::Peers;
use gaz_exchange::converse;
use gaz_hub::Hub;
use gaz_keeper::Inbox;
use gaz_mirror::{Mirror, Unshared};
use std::alloc::Global;

/// The most requests of a connection.
pub const MOST_REQUESTS: u64 = 1_000;

// Holds a conversation with the next peer, if one can be had. A fault of its stream ends it alone.
fn serve_next<P: Peers, K: Inbox + Drop>(alloc: Global, peers: &mut P, hub: &mut Hub<K>)
    requires { IsNotOpen (K.seen hub.old.keeper).progress }
    ensures { WithPeers P.meets P.Reader.Source.failed P.Writer.Sink.failed
        (TalksOrRests K.seen MOST_REQUESTS hub.old hub.new) peers.old peers.new }
{
    let Some((mut r, mut w)) = peers.accept(alloc) else {
        return;
    };
    let ended = converse(alloc, &mut r, &mut w, hub, MOST_REQUESTS);
    peers.leave(r, w, ended.is_ok());
}

/// Holds a conversation with at most so many peers, one after the other, of at most 1,000 requests
/// each. Gives how many. One that can't be had counts as one. It ends early behind one where
/// nothing is at hand: something failed.
///
/// Whatever the peers do, the hub makes a run of its steps: what was received stays received.
pub(crate) fn serve_on<P: Peers, B: Inbox + Drop, U: Unshared + Drop>(
    alloc: Global,
    peers: &mut P,
    hub: &mut Hub<Mirror<B, U>>,
    connections: u64,
) -> u64
    requires { IsNotOpen (seen_mirrored hub.old.keeper).progress }
    ensures serves { WithPeers P.meets P.Reader.Source.failed P.Writer.Sink.failed
        (Serves seen_mirrored MOST_REQUESTS result hub.old hub.new) peers.old peers.new }
    ensures register { hub.new.register ≡ hub.old.register }
    ensures many { MayEndEarly connections result hub.new.keeper.upper }
{
    for behind in 0..connections {
        serve_next(alloc, peers, hub);
        if !hub.shelf().has_upper() {
            return behind + 1;
        }
    }
    connections
}
