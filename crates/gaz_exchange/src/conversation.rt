ghost use Rattle.std.specs.Prelude.{◌≡◌, [], OnErr};
ghost use Rattle.std.specs.Io.KnownBytes.{Keeps};
ghost use Rattle.gaz_keeper.specs.Keeper.{IsNotOpen};
ghost use Rattle.gaz_steps.specs.Hubs.{door_of};
ghost use Rattle.gaz_hub.specs.Seen.{hub_seen};
ghost use Rattle.gaz_http.specs.Failing.{FailedInto};
ghost use Rattle.gaz_exchange.specs.Conversing.{CountedConversation, StopsByFault, transfer};
ghost use Rattle.gaz_exchange.specs.Ends.{FinishesAs};

use crate::request::Intake;
use crate::turn::{Turn, take_turn};
use gaz_http::{Cause, Sink, Source};
use gaz_hub::Hub;
use gaz_keeper::Inbox;
use std::alloc::Global;

/// Why a conversation ended.
#[derive(Clone, Copy)]
pub enum Ended {
    /// So many requests were answered as were allowed.
    Most,
    /// After the last reply, by the request or by its refusal.
    Closed,
    /// The input ended outside of a request.
    InputEnd,
}

/// A conversation that ended.
#[derive(Clone, Copy)]
pub struct Served {
    /// The replies that were wholly written.
    pub requests: u64,
    pub ended: Ended,
}

/// A conversation that couldn't go on.
#[derive(Clone, Copy)]
pub struct Stopped {
    /// The replies that were wholly written.
    pub requests: u64,
    pub cause: Cause,
}

// The end after the last of so many replies, once the writer has handed on what it holds back.
fn finish<W: Sink>(w: &mut W, requests: u64, most: u64) -> Result<Served, Stopped>
    ensures kept { Keeps (W.contents w.old) (W.contents w.new) }
    ensures finished { FinishesAs most requests result }
    ensures failed { OnErr result (FailedInto W.failed w.new) }
{
    let Ok(()) = w.flush_once() else {
        return Err(Stopped {
            requests,
            cause: Cause::WriteFault,
        });
    };
    let ended = if requests == most {
        Ended::Most
    } else {
        Ended::Closed
    };
    Ok(Served { requests, ended })
}

// Answers the requests of a stream in turn, at most `most` of them, by an intake that has read
// nothing.
fn take_turns<R: Source, W: Sink, K: Inbox + Drop>(
    alloc: Global,
    r: &mut R,
    w: &mut W,
    hub: &mut Hub<K>,
    intake: &mut Intake,
    most: u64,
) -> Result<Served, Stopped>
    requires idle { IsNotOpen (K.seen hub.old.keeper).progress }
    requires unread { intake.old.inlet ≡ [] }
    ensures conversation { CountedConversation (door_of hub.old.register) most
        (transfer R.remaining W.contents r.old r.new w.old w.new) (R.reads r.old) (R.reads r.new)
        (hub_seen K.seen hub.old) (hub_seen K.seen hub.new) result }
    ensures failed { StopsByFault R.failed W.failed r.new w.new result }
    ensures register { hub.new.register ≡ hub.old.register }
{
    for n in 0..most {
        match take_turn(alloc, r, w, hub, intake, n + 1 == most) {
            Turn::Answered => {}
            Turn::Closed => return finish(w, n + 1, most),
            Turn::Over => {
                return Ok(Served {
                    requests: n,
                    ended: Ended::InputEnd,
                });
            }
            Turn::Stopped(cause) => return Err(Stopped { requests: n, cause }),
        }
    }
    Ok(Served {
        requests: most,
        ended: Ended::Most,
    })
}

/// Answers the requests of a stream in turn, at most `most` of them.
///
/// What is written and how the conversation ends is known whatever the hub's keeper does. Where it
/// ends, no other request may follow those that were answered, or none stands whole in what was
/// read behind them, unless there was no memory for the body of the next. The hub's answers are a
/// run of its steps where the keeper stood before for a content that the hub may have and what the
/// hub remembered of it was right, and nobody else wrote on it nor did a failure shut it. Whom the
/// hub's door refuses is told so whatever has become of the keeper.
///
/// It stops only where the reader or the writer failed. A reader whose reads are counted is read at
/// most once for each byte, and once more, which finds the end or fails; where no request may
/// follow, at most once for each byte of the requests. It isn't read for what stands behind a head
/// whose length is refused, behind a whole body for which there was no memory, or behind the first
/// 8,193 bytes of what is no head.
pub fn converse<R: Source, W: Sink, K: Inbox + Drop>(
    alloc: Global,
    r: &mut R,
    w: &mut W,
    hub: &mut Hub<K>,
    most: u64,
) -> Result<Served, Stopped>
    requires idle { IsNotOpen (K.seen hub.old.keeper).progress }
    ensures conversation { CountedConversation (door_of hub.old.register) most
        (transfer R.remaining W.contents r.old r.new w.old w.new) (R.reads r.old) (R.reads r.new)
        (hub_seen K.seen hub.old) (hub_seen K.seen hub.new) result }
    ensures failed { StopsByFault R.failed W.failed r.new w.new result }
    ensures register { hub.new.register ≡ hub.old.register }
{
    let mut intake = Intake::new(alloc);
    take_turns(alloc, r, w, hub, &mut intake, most)
}
