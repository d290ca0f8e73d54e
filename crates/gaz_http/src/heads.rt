ghost use Rattle.std.specs.Prelude.{◌≡◌, ◌≤◌, length};
ghost use Rattle.std.specs.Io.KnownBytes.{Keeps};
ghost use Rattle.gaz_http.specs.Failing.{HasFailed};
ghost use Rattle.gaz_http.specs.Heads.{inlet_size, is_blank};
ghost use Rattle.gaz_http.specs.Next.{IfHeadFailed, IsLook, IsNext, IsReadForHead};
ghost use Rattle.gaz_http.specs.Supplies.{Supplies};

use crate::inlet::{INLET_SIZE, Inlet};
use crate::sink::Sink;
use crate::source::Source;
use crate::supply::{Cause, Supply, read_more};
use httparse::Status;
use httparse::spans::{HeaderSpan, RequestSpans, parse_request};

/// The bytes that a head may have, with the empty lines before it.
pub const HEAD_LIMIT: usize = 8192;

/// The header fields that a head may have.
pub const MOST_HEADERS: usize = 32;

/// What comes next on a stream.
#[derive(Drop)]
pub enum Next {
    /// A head, at the front of the pending bytes.
    Head(RequestSpans),
    /// No head, whatever comes.
    Bad,
    /// The end, outside of a request.
    Over,
    /// The reader or the writer failed before the head's end.
    Failed(Cause),
}

/// What the pending bytes begin with.
#[derive(Drop)]
pub enum Look {
    Head(RequestSpans),
    /// No head yet.
    Open,
    /// None ever.
    Never,
}

// Whether the bytes are CR and LF alone: empty lines, which may come before a request.
//
// > In the interest of robustness, a server that is expecting to receive and parse a request-line
// > SHOULD ignore at least one empty line (CRLF) received prior to the request-line.
// > (RFC 9112, section 2.2)
fn blank(bytes: &[u8]) -> bool
    ensures { result ≡ is_blank bytes.now }
{
    bytes.iter().all(|b| *b == b'\r' || *b == b'\n')
}

// What the bytes begin with. A head is a request line and field lines, each with its end, and an
// empty line (RFC 9112, section 2.1); in sections 3 and 5
//
// > request-line   = method SP request-target SP HTTP-version
// > field-line   = field-name ":" OWS field-value OWS
fn parse_head(bytes: &[u8], headers: &mut [HeaderSpan; MOST_HEADERS]) -> Look
    ensures { IsLook bytes.now headers.new result }
{
    match parse_request(bytes, headers) {
        Ok(Status::Complete(spans)) => {
            if spans.len > HEAD_LIMIT {
                return Look::Never;
            }
            Look::Head(spans)
        }
        Ok(Status::Partial) => Look::Open,
        Err(_) => {
            if blank(bytes) {
                return Look::Open;
            }
            Look::Never
        }
    }
}

/// Reads up to the end of the next head.
pub fn next_head<R: Source, W: Sink>(
    r: &mut R,
    w: &mut W,
    inlet: &mut Inlet,
    headers: &mut [HeaderSpan; MOST_HEADERS],
) -> Next
    ensures read { Supplies R.remaining r.old r.new inlet.old inlet.new
        (λ _ left. IsNext inlet.new left headers.new result) }
    ensures short { length inlet.new ≤ inlet_size }
    ensures counted { IsReadForHead (R.reads r.old) (R.reads r.new) inlet.new (R.remaining r.new)
        result }
    ensures written { Keeps (W.contents w.old) (W.contents w.new) }
    ensures failed { IfHeadFailed result (HasFailed R.failed W.failed r.new w.new) }
{
    'reads: loop {
        match parse_head(inlet.pending(), headers) {
            Look::Head(spans) => return Next::Head(spans),
            Look::Never => return Next::Bad,
            Look::Open => {}
        }
        if inlet.pending().len() == INLET_SIZE {
            return Next::Bad;
        }
        match read_more(r, w, inlet) {
            Supply::Some => {}
            Supply::End => {
                if blank(inlet.pending()) {
                    return Next::Over;
                }
                return Next::Bad;
            }
            Supply::Failed(cause) => return Next::Failed(cause),
        }
    }
}
