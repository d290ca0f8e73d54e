ghost use Rattle.std.specs.Prelude.{◌≡◌, [], false, true};
ghost use Rattle.std.specs.Io.KnownBytes.{Keeps};
ghost use Rattle.httparse.specs.Grammar.{RequestHead};
ghost use Rattle.httparse.specs.Spans.{IsRequestAt};
ghost use Rattle.gaz_http.specs.Failing.{HasFailed};
ghost use Rattle.gaz_http.specs.Next.{IsHeadAt};
ghost use Rattle.gaz_http.specs.Supplies.{Reads};
ghost use Rattle.gaz_exchange.specs.Incoming.{IfRequestFailed, IsBehind, IsIncoming, IsNeeded};
ghost use Rattle.gaz_exchange.specs.Incoming.{IsReadBehind, IsReadForRequest};

use crate::calls::{Method, Routed};
use crate::fault::Fault;
use crate::framing::{Framing, find_framing, is_post};
use crate::route::Routes;
use gaz_http::{
    Body, Cause, Inlet, MOST_HEADERS, Next, Sink, Source, closes, next_head, read_body,
};
use httparse::spans::{EMPTY_HEADER_SPAN, HeaderSpan, RequestSpans};
use std::alloc::Global;
use std::mem::replace;

/// A request that came whole.
#[derive(Drop)]
pub struct Request {
    /// What the hub is asked, or why it isn't.
    pub call: Result<Routed, Fault>,
    /// Whether the conversation ends after it by its own word.
    pub closing: bool,
    pub body: Vec<u8>,
}

/// What comes next on a stream.
#[derive(Drop)]
pub enum Incoming {
    Request(Request),
    /// What is no request, or one whose body can't be read.
    Refused(Fault),
    /// The end, outside of a request.
    Over,
    /// The reader or the writer failed before the request was whole.
    Failed(Cause),
}

/// What is needed of a head when its bytes are gone.
#[derive(Clone, Copy)]
pub struct Needed {
    framing: Framing,
    call: Result<Routed, Fault>,
    closing: bool,
}

/// What reading takes from one request to the next.
#[derive(Drop)]
pub struct Intake {
    pub inlet: Inlet,
    pub headers: [HeaderSpan; MOST_HEADERS],
    pub routes: Routes,
    /// The room of an earlier body.
    pub room: Vec<u8>,
}

impl Intake {
    /// Nothing read, and no routes yet.
    pub fn new(alloc: Global) -> Self
        ensures unread { result.inlet ≡ [] }
        ensures unrouted { result.routes ≡ false }
    {
        Intake {
            inlet: Inlet::new(),
            headers: [EMPTY_HEADER_SPAN; MOST_HEADERS],
            routes: Routes::new(),
            room: Vec::new(alloc),
        }
    }
}

// What is needed of the head that the spans cover.
fn needed_of(
    alloc: Global,
    bytes: &[u8],
    spans: RequestSpans,
    headers: &[HeaderSpan; MOST_HEADERS],
    routes: &mut Routes,
) -> Needed
    requires { IsHeadAt bytes.now headers.now spans }
    ensures needed { (h : RequestHead) → IsRequestAt bytes.now headers.now spans h
        → IsNeeded routes.new h result }
    ensures stay { routes.old ≡ true → routes.new ≡ true }
{
    let headers = &headers[..spans.headers];
    let method = spans.method.of(bytes);
    Needed {
        framing: find_framing(bytes, is_post(method), headers),
        call: routes.call(alloc, spans.path.of(bytes), Method::of(method)),
        closing: closes(bytes, spans.version, headers),
    }
}

// Reads the body behind a head, and makes the request whole.
fn with_body<R: Source, W: Sink>(
    alloc: Global,
    r: &mut R,
    w: &mut W,
    inlet: &mut Inlet,
    needed: Needed,
    earlier: Vec<u8>,
) -> Incoming
    ensures read { Reads R.remaining r.old r.new inlet.old
        (λ bytes left. IsBehind bytes needed inlet.new left result
        × IsReadBehind (R.reads r.old) (R.reads r.new) bytes needed inlet.new left result) }
    ensures written { Keeps (W.contents w.old) (W.contents w.new) }
    ensures failed { IfRequestFailed result (HasFailed R.failed W.failed r.new w.new) }
{
    let size = match needed.framing {
        Framing::Length(size) => size,
        Framing::Refused(fault) => return Incoming::Refused(fault),
    };
    match read_body(alloc, r, w, inlet, size, earlier) {
        Body::Whole(body) => Incoming::Request(Request {
            call: needed.call,
            closing: needed.closing,
            body,
        }),
        Body::Short => Incoming::Refused(Fault::BadRequest),
        Body::Memory => Incoming::Refused(Fault::NotReceived),
        Body::Failed(cause) => Incoming::Failed(cause),
    }
}

/// Reads the next request.
pub fn next_request<R: Source, W: Sink>(
    alloc: Global,
    r: &mut R,
    w: &mut W,
    intake: &mut Intake,
) -> Incoming
    ensures read { Reads R.remaining r.old r.new intake.old.inlet
        (λ bytes left. IsIncoming intake.new.routes bytes intake.new.inlet left result
        × IsReadForRequest (R.reads r.old) (R.reads r.new) bytes intake.new.inlet left result) }
    ensures stay { intake.old.routes ≡ true → intake.new.routes ≡ true }
    ensures written { Keeps (W.contents w.old) (W.contents w.new) }
    ensures failed { IfRequestFailed result (HasFailed R.failed W.failed r.new w.new) }
{
    match next_head(r, w, &mut intake.inlet, &mut intake.headers) {
        Next::Head(spans) => {
            let bytes = intake.inlet.pending();
            let needed = needed_of(alloc, bytes, spans, &intake.headers, &mut intake.routes);
            intake.inlet.take(spans.len);
            let earlier = replace(&mut intake.room, Vec::new(alloc));
            with_body(alloc, r, w, &mut intake.inlet, needed, earlier)
        }
        Next::Bad => Incoming::Refused(Fault::BadRequest),
        Next::Over => Incoming::Over,
        Next::Failed(cause) => Incoming::Failed(cause),
    }
}
