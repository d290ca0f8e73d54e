//! The bodies of replies: compact JSON with its keys in byte order, and one line feed.
ghost use Rattle.std.specs.Prelude.{◌≡◌, ◌≤◌, ◌+◌, ◌++◌, [], decimal, false, length, IfOk, OnOk};
ghost use Rattle.std.specs.Option.{unwrap_or};
ghost use Rattle.gaz_steps.specs.declared.question.Told.TheVariants as Told;
ghost use Rattle.gaz_exchange.specs.Replies.{body_of, is_extract, line_text};
ghost use Rattle.gaz_exchange.specs.Replies.{outcome_text, told_text, want_text, wants_text};
ghost use Rattle.gaz_exchange.specs.declared.reply.Reply.TheVariants as Reply;

use crate::closed::closed_body;
use gaz_extract::{AddressLine, Found};
use gaz_ids::{Code, Volume};
use gaz_steps::{Digest, Outcome, Standing, Told};
use itoa::Buffer;
use json::Writer;
use std::alloc::{AllocError, Global};

/// The bytes that the members about a property fit in, but for its line.
const FOUND_ROOM: usize = 64;

/// The bytes that what becomes of a file fits in, with its digest; and a standing too.
const TOLD_ROOM: usize = 192;

// Adds a piece, and a number behind it.
fn add_number(out: &mut Vec<u8>, piece: &[u8], number: u64) -> Result<(), AllocError>
    ensures { OnOk result (out.new.items ≡ out.old.items ++ (piece.now ++ decimal number)) }
{
    let mut digits = Buffer::new();
    out.extend_from_slice(piece)?;
    out.extend_from_slice(digits.format(number).as_bytes())
}

// Adds a volume that is waited for.
fn add_want(out: &mut Vec<u8>, custodian: Code, volume: Volume) -> Result<(), AllocError>
    ensures { OnOk result (out.new.items ≡ out.old.items ++ want_text custodian volume) }
{
    add_number(out, b"{\"custodian\":", custodian.number())?;
    add_number(out, b",\"volume\":", volume.number())?;
    out.extend_from_slice(b"}")?;
    Ok(())
}

// Adds a volume that is waited for, where there is one.
fn add_wants(out: &mut Vec<u8>, wants: Option<(Code, Volume)>) -> Result<(), AllocError>
    ensures { OnOk result (out.new.items ≡ out.old.items ++ wants_text wants) }
{
    match wants {
        None => out.extend_from_slice(b"null"),
        Some((custodian, volume)) => add_want(out, custodian, volume),
    }
}

// Adds the members of an outcome.
fn add_outcome(out: &mut Vec<u8>, outcome: Outcome) -> Result<(), AllocError>
    ensures { OnOk result (out.new.items ≡ out.old.items ++ outcome_text outcome) }
{
    match outcome {
        Outcome::Applied => out.extend_from_slice(b"\"outcome\":\"applied\""),
        Outcome::Rejected { place, rule } => {
            add_number(out, b"\"outcome\":\"rejected\",\"record\":", place)?;
            add_number(out, b",\"rule\":", u64::from(rule))
        }
        Outcome::Held { custodian, volume } => {
            out.extend_from_slice(b"\"outcome\":\"held\",\"wants\":")?;
            add_want(out, custodian, volume)?;
            Ok(())
        }
    }
}

/// What became of a file.
pub fn outcome_body(alloc: Global, outcome: Outcome) -> Result<Vec<u8>, AllocError>
    ensures { IfOk result (λ body. body.items ≡ body_of (Reply.New outcome)) }
{
    let mut out = Vec::with_capacity(alloc, TOLD_ROOM)?;
    out.extend_from_slice(b"{")?;
    add_outcome(&mut out, outcome)?;
    out.extend_from_slice(b"}\n")?;
    Ok(out)
}

/// The digest of the file that was received before.
pub fn taken_body(alloc: Global, digest: Digest) -> Result<Vec<u8>, AllocError>
    ensures { IfOk result (λ body. body.items ≡ body_of (Reply.Taken digest)) }
{
    let digest = hex::encode(alloc, digest)?;
    let body = format!(in alloc; "{{\"digest\":\"{digest}\",\"outcome\":\"taken\"}}\n")?;
    Ok(body.into_bytes())
}

// A file's digest and what became of it.
fn became_body(alloc: Global, digest: Digest, outcome: Outcome) -> Result<Vec<u8>, AllocError>
    ensures { IfOk result (λ body. body.items ≡ told_text (Told.Outcome digest outcome)) }
{
    let digest = hex::encode(alloc, digest)?;
    let mut out = Vec::with_capacity(alloc, TOLD_ROOM)?;
    out.extend_from_slice(b"{\"digest\":\"")?;
    out.extend_from_slice(digest.as_bytes())?;
    out.extend_from_slice(b"\",")?;
    add_outcome(&mut out, outcome)?;
    out.extend_from_slice(b"}\n")?;
    Ok(out)
}

// How far a custodian's files are judged.
fn standing_body(alloc: Global, standing: Standing) -> Result<Vec<u8>, AllocError>
    ensures { IfOk result (λ body. body.items ≡ told_text (Told.Standing standing)) }
{
    let mut out = Vec::with_capacity(alloc, TOLD_ROOM)?;
    add_number(&mut out, b"{\"custodian\":", standing.custodian.number())?;
    add_number(&mut out, b",\"held\":", standing.held)?;
    add_number(&mut out, b",\"judged\":", standing.judged)?;
    out.extend_from_slice(b",\"wants\":")?;
    add_wants(&mut out, standing.wants)?;
    out.extend_from_slice(b"}\n")?;
    Ok(out)
}

// Adds a line as JSON writes it.
fn with_line(out: Vec<u8>, line: &Option<AddressLine>) -> Result<Vec<u8>, AllocError>
    ensures { IfOk result (λ whole. whole.items ≡ out.items ++ line_text line.now) }
{
    let mut writer = Writer::new(out);
    match line {
        None => writer.null()?,
        Some(line) => writer.string(line.as_str())?,
    }
    Ok(writer.into_inner())
}

// The bytes that a body fits in where its line needs no escapes.
fn room_for(found: &Found) -> usize
    ensures { result ≤ FOUND_ROOM + length (unwrap_or found.now.line []) }
{
    match &found.line {
        None => FOUND_ROOM,
        Some(line) => FOUND_ROOM + line.as_str().len(),
    }
}

// Where a property stands and how it is addressed.
fn found_body(alloc: Global, found: &Found) -> Result<Vec<u8>, AllocError>
    ensures { IfOk result (λ body. body.items ≡ told_text (Told.Found found.now)) }
{
    let mut out = Vec::with_capacity(alloc, room_for(found))?;
    add_number(&mut out, b"{\"custodian\":", found.custodian.number())?;
    out.extend_from_slice(b",\"line\":")?;
    let mut out = with_line(out, &found.line)?;
    add_number(&mut out, b",\"status\":", u64::from(found.status.number()))?;
    add_number(&mut out, b",\"uprn\":", found.uprn.number())?;
    out.extend_from_slice(b"}\n")?;
    Ok(out)
}

/// What is told of a question, but for an extract, whose bytes are there.
pub fn told_body(alloc: Global, told: &Told) -> Result<Vec<u8>, AllocError>
    requires { is_extract told.now ≡ false }
    ensures { IfOk result (λ body. body.items ≡ told_text told.now) }
{
    match told {
        Told::Outcome(digest, outcome) => became_body(alloc, *digest, *outcome),
        Told::Standing(standing) => standing_body(alloc, *standing),
        Told::Found(found) => found_body(alloc, found),
        Told::Closed(closed) => closed_body(alloc, closed.as_slice()),
        Told::Extract(_) => unreachable!(),
    }
}
