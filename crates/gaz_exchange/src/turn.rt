ghost use Rattle.std.specs.Prelude.{◌≡◌, Ok};
ghost use Rattle.gaz_keeper.specs.Keeper.{IsNotOpen};
ghost use Rattle.gaz_steps.specs.Hubs.{door_of};
ghost use Rattle.gaz_hub.specs.Seen.{hub_seen};
ghost use Rattle.gaz_http.specs.Failing.{HasFailed, WriterFailed};
ghost use Rattle.gaz_exchange.specs.Conversing.{transfer};
ghost use Rattle.gaz_exchange.specs.Turns.{Answers, Asks, IfStopped, IsAsked, IsTurn, Refuses};
ghost use Rattle.gaz_exchange.specs.Turns.{stage, turn_of};

use crate::calls::Routed;
use crate::fault::Fault;
use crate::reply::Reply;
use crate::request::{Incoming, Intake, Request, next_request};
use crate::send::send;
use gaz_http::{Cause, Sink, Source};
use gaz_hub::Hub;
use gaz_keeper::Inbox;
use std::alloc::Global;

/// What came of one turn of a conversation.
#[derive(Clone, Copy)]
pub enum Turn {
    /// A request was answered, and others may follow.
    Answered,
    /// The last reply was written.
    Closed,
    /// The input ended outside of a request.
    Over,
    Stopped(Cause),
}

// Asks the hub by the call.
fn ask_call<K: Inbox + Drop>(hub: &mut Hub<K>, call: Routed, body: &[u8]) -> Reply
    requires idle { IsNotOpen (K.seen hub.old.keeper).progress }
    ensures asked { Asks (door_of hub.old.register) (Ok call) body.now
        (hub_seen K.seen hub.old) (hub_seen K.seen hub.new) result }
    ensures register { hub.new.register ≡ hub.old.register }
{
    match call {
        Routed::Submit { code, volume } => hub.submit(code, volume, body).into(),
        Routed::Pose(question) => Reply::told(hub.ask(question)),
    }
}

// Asks the hub, where the request asks anything of it.
fn ask<K: Inbox + Drop>(hub: &mut Hub<K>, request: &Request) -> Reply
    requires idle { IsNotOpen (K.seen hub.old.keeper).progress }
    ensures asked { IsAsked (door_of hub.old.register) request.now
        (hub_seen K.seen hub.old) (hub_seen K.seen hub.new) result }
    ensures register { hub.new.register ≡ hub.old.register }
{
    match request.call {
        Ok(call) => ask_call(hub, call, &request.body),
        Err(fault) => Reply::Refused(fault),
    }
}

// The turn after a reply; `whole` where it was wholly written.
fn turn_after(ends: bool, whole: bool) -> Turn
    ensures { result ≡ turn_of ends whole }
{
    if !whole {
        return Turn::Stopped(Cause::WriteFault);
    }
    if ends { Turn::Closed } else { Turn::Answered }
}

// Answers a request that came whole; `is_last` where no more may follow.
fn answer<W: Sink, K: Inbox + Drop>(
    alloc: Global,
    w: &mut W,
    hub: &mut Hub<K>,
    request: &Request,
    is_last: bool,
) -> Turn
    requires idle { IsNotOpen (K.seen hub.old.keeper).progress }
    ensures answered { Answers (door_of hub.old.register) (W.contents w.old) (W.contents w.new)
        (hub_seen K.seen hub.old) (hub_seen K.seen hub.new) request.now is_last result }
    ensures failed { IfStopped result (WriterFailed W.failed w.new) }
    ensures register { hub.new.register ≡ hub.old.register }
{
    let ends = request.closing || is_last;
    let reply = ask(hub, request);
    turn_after(ends, send(alloc, w, &reply, ends))
}

// Answers what is no request, or one whose body can't be read.
fn refuse<W: Sink>(alloc: Global, w: &mut W, fault: Fault) -> Turn
    ensures refused { Refuses (W.contents w.old) (W.contents w.new) fault result }
    ensures failed { IfStopped result (WriterFailed W.failed w.new) }
{
    turn_after(true, send(alloc, w, &Reply::Refused(fault), true))
}

/// Reads one request and answers it; `is_last` where no more may follow.
pub fn take_turn<R: Source, W: Sink, K: Inbox + Drop>(
    alloc: Global,
    r: &mut R,
    w: &mut W,
    hub: &mut Hub<K>,
    intake: &mut Intake,
    is_last: bool,
) -> Turn
    requires idle { IsNotOpen (K.seen hub.old.keeper).progress }
    ensures turn { IsTurn (door_of hub.old.register) is_last
        (transfer R.remaining W.contents r.old r.new w.old w.new)
        (stage R.reads r.old intake.old (hub_seen K.seen hub.old))
        (stage R.reads r.new intake.new (hub_seen K.seen hub.new)) result }
    ensures failed { IfStopped result (HasFailed R.failed W.failed r.new w.new) }
    ensures register { hub.new.register ≡ hub.old.register }
{
    match next_request(alloc, r, w, intake) {
        Incoming::Request(request) => {
            let turn = answer(alloc, w, hub, &request, is_last);
            intake.room = request.body;
            turn
        }
        Incoming::Refused(fault) => refuse(alloc, w, fault),
        Incoming::Over => Turn::Over,
        Incoming::Failed(cause) => Turn::Stopped(cause),
    }
}
