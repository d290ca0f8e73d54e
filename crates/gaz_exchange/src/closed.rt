//! The body that tells addresses on closed streets.
ghost use Rattle.std.specs.Prelude.{◌≡◌, ◌++◌, codes, flat_map, IfOk, OnOk, string_bytes};
ghost use Rattle.std.specs.List.{join_by};
ghost use Rattle.gaz_steps.specs.declared.question.Told.TheVariants as Told;
ghost use Rattle.gaz_exchange.specs.Replies.{closed_text, told_text};

use gaz_extract::Closed;
use gaz_records::RecordKey;
use std::alloc::{AllocError, Global};
use std::fmt::Write;

// The letters and digits of a key.
fn key_text(key: &RecordKey) -> &str
    ensures { result.now ≡ key.now }
{
    match std::str::from_utf8(key.as_bytes()) {
        Ok(text) => text,
        Err(_) => unreachable!(),
    }
}

// Adds an address on a closed street.
fn add_closed(out: &mut String, closed: &Closed) -> Result<(), AllocError>
    ensures { OnOk result
        (string_bytes out.new ≡ string_bytes out.old ++ closed_text closed.now) }
{
    let custodian = closed.custodian;
    let lpi = key_text(&closed.lpi);
    let usrn = closed.usrn;
    write!(
        out,
        "{{\"custodian\":{custodian},\"lpi\":\"{lpi}\",\"usrn\":{usrn}}}"
    )?;
    Ok(())
}

// Adds addresses that follow another, each behind a comma.
fn add_others(out: &mut String, others: &[Closed]) -> Result<(), AllocError>
    ensures { OnOk result (string_bytes out.new
        ≡ string_bytes out.old ++ flat_map (λ c. codes "," ++ closed_text c) others.now) }
{
    for closed in others {
        out.push_str(",")?;
        add_closed(out, closed)?;
    }
    Ok(())
}

// Adds addresses, with a comma between each two.
fn add_all(out: &mut String, closed: &[Closed]) -> Result<(), AllocError>
    ensures { OnOk result (string_bytes out.new
        ≡ string_bytes out.old ++ join_by closed_text (codes ",") closed.now) }
{
    match closed.split_first() {
        None => Ok(()),
        Some((first, others)) => {
            add_closed(out, first)?;
            add_others(out, others)
        }
    }
}

/// Addresses on closed streets.
pub fn closed_body(alloc: Global, closed: &[Closed]) -> Result<Vec<u8>, AllocError>
    ensures { IfOk result (λ body. body.items ≡ told_text (Told.Closed closed.now)) }
{
    let mut out = String::from_str(alloc, "{\"closed\":[")?;
    add_all(&mut out, closed)?;
    out.push_str("]}\n")?;
    Ok(out.into_bytes())
}
