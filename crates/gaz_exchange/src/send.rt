ghost use Rattle.std.specs.Prelude.{◌≡◌, ◌++◌, false, true, length, IfOk};
ghost use Rattle.gaz_http.specs.Failing.{FailedInto};
ghost use Rattle.gaz_http.specs.Writing.{IsPut};
ghost use Rattle.gaz_exchange.specs.Replies.{end_of, reply_text, takes_memory};
ghost use Rattle.gaz_exchange.specs.Sending.{IsSent, head_of};
ghost use Rattle.gaz_exchange.specs.declared.fault.Fault.{Fault};
ghost use Rattle.gaz_exchange.specs.declared.reply.Reply.TheVariants as Reply;

use crate::bodies::{outcome_body, taken_body, told_body};
use crate::reply::{Reply, memory_text};
use gaz_http::{Sink, write_all};
use gaz_steps::Told;
use itoa::Buffer;
use std::alloc::{AllocError, Global};

// What stands before the length of a body.
macro_rules! front {
    ($status:literal, $content:literal) => {
        concat!(
            "HTTP/1.1 ",
            $status,
            "\r\nContent-Type: ",
            $content,
            "\r\nContent-Length: "
        )
    };
}

const CREATED: &str = front!("201 Created", "application/json");

const OK: &str = front!("200 OK", "application/json");

const CONFLICT: &str = front!("409 Conflict", "application/json");

const EXTRACT: &str = front!("200 OK", "text/csv");

// What stands between the length and the body.
fn end_of(is_last: bool) -> &'static str
    ensures { result.now ≡ end_of is_last }
{
    if is_last {
        "\r\nConnection: close\r\n\r\n"
    } else {
        "\r\n\r\n"
    }
}

// Writes a text and another behind it.
fn write_both<W: Sink>(w: &mut W, text: &[u8], behind: &[u8]) -> bool
    ensures put { IsPut (W.contents w.old) (W.contents w.new) (text.now ++ behind.now) result }
    ensures failed { result ≡ false → FailedInto W.failed w.new }
{
    write_all(w, text) && write_all(w, behind)
}

// Writes the lines before a body of so many bytes.
fn write_head<W: Sink>(w: &mut W, front: &str, size: usize, is_last: bool) -> bool
    ensures put { IsPut (W.contents w.old) (W.contents w.new) (head_of front.now size is_last)
        result }
    ensures failed { result ≡ false → FailedInto W.failed w.new }
{
    let mut digits = Buffer::new();
    let size = digits.format(size);
    write_both(w, front.as_bytes(), size.as_bytes()) && write_all(w, end_of(is_last).as_bytes())
}

// Writes a body behind the lines before it.
fn put_message<W: Sink>(w: &mut W, front: &str, body: &[u8], is_last: bool) -> bool
    ensures put { IsPut (W.contents w.old) (W.contents w.new)
        (head_of front.now (length body.now) is_last ++ body.now) result }
    ensures failed { result ≡ false → FailedInto W.failed w.new }
{
    write_head(w, front, body.len(), is_last) && write_all(w, body)
}

// Writes a reply whose body was made, or where that found no memory the one that tells so.
fn put_made<W: Sink>(
    w: &mut W,
    reply: &Reply,
    front: &str,
    body: Result<Vec<u8>, AllocError>,
    is_last: bool,
) -> bool
    requires takes { takes_memory reply.now ≡ true }
    requires whole { IfOk body (λ made. head_of front.now (length made.items) is_last ++ made.items
        ≡ reply_text reply.now is_last) }
    ensures sent { IsSent (W.contents w.old) (W.contents w.new) reply.now is_last result }
    ensures failed { result ≡ false → FailedInto W.failed w.new }
{
    match body {
        Ok(body) => put_message(w, front, &body, is_last),
        Err(_) => write_all(w, memory_text(reply.tells_received(), is_last).as_bytes()),
    }
}

// Writes what is told of a question.
fn send_told<W: Sink>(alloc: Global, w: &mut W, reply: &Reply, told: &Told, is_last: bool) -> bool
    requires told { reply.now ≡ Reply.Told told.now }
    ensures sent { IsSent (W.contents w.old) (W.contents w.new) reply.now is_last result }
    ensures failed { result ≡ false → FailedInto W.failed w.new }
{
    match told {
        Told::Extract(extract) => put_message(w, EXTRACT, extract.as_slice(), is_last),
        _ => put_made(w, reply, OK, told_body(alloc, told), is_last),
    }
}

// Writes a reply that is no refusal.
fn send_made<W: Sink>(alloc: Global, w: &mut W, reply: &Reply, is_last: bool) -> bool
    requires made { (fault : Fault) → reply.now ≡ Reply.Refused fault → ⊥ }
    ensures sent { IsSent (W.contents w.old) (W.contents w.new) reply.now is_last result }
    ensures failed { result ≡ false → FailedInto W.failed w.new }
{
    match reply {
        Reply::New(outcome) => put_made(w, reply, CREATED, outcome_body(alloc, *outcome), is_last),
        Reply::Repeat(outcome) => put_made(w, reply, OK, outcome_body(alloc, *outcome), is_last),
        Reply::Taken(digest) => put_made(w, reply, CONFLICT, taken_body(alloc, *digest), is_last),
        Reply::Told(told) => send_told(alloc, w, reply, told, is_last),
        Reply::Refused(_) => unreachable!(),
    }
}

/// Writes a reply, or where it finds no memory the one that tells so. At `false` the writer failed
/// before all of it was written.
pub fn send<W: Sink>(alloc: Global, w: &mut W, reply: &Reply, is_last: bool) -> bool
    ensures sent { IsSent (W.contents w.old) (W.contents w.new) reply.now is_last result }
    ensures failed { result ≡ false → FailedInto W.failed w.new }
{
    // Apart from the others, since a function pays at entry for the room of all its locals.
    match reply {
        Reply::Refused(fault) => write_all(w, fault.text(is_last).as_bytes()),
        _ => send_made(alloc, w, reply, is_last),
    }
}
