ghost use Rattle.std.specs.Prelude.{◌≡◌, ◌++◌, [], ◌∷◌, OnOk, decimal};
ghost use Rattle.std.specs.Option.{unwrap_or};
ghost use Rattle.std.specs.List.{list_any};
ghost use Rattle.csv.specs.Writing.{default_writer, escaped, needs_byte};
ghost use Rattle.gaz_addressable.specs.Objects.{texts_of, digits_text, letter_text};
ghost use Rattle.gaz_fields.specs.Days.{date_text, end_text};
ghost use Rattle.gaz_fields.specs.Appending.{AddsField, AddsFields, Grows};

use crate::day::Day;
use gaz_addressable::{HouseNumber, Object, Text};
use itoa::Buffer;
use std::alloc::AllocError;

// Whether a byte calls for quotes round its field (RFC 4180).
fn needs_quotes(field: &[u8]) -> bool
    ensures { result ≡ list_any (needs_byte default_writer) field.now }
{
    for byte in field {
        if *byte == b',' || *byte == b'"' || *byte == b'\r' || *byte == b'\n' {
            return true;
        }
    }
    false
}

#[tactic(auto, using(std::proofs::lemmas::Bool::Decides::nat_tests, crate::proofs::Growing::growing), unfolding(csv::specs::Writing::escaped))]
// Adds a byte of a field between its quotes, where a quote stands twice.
fn add_byte(out: &mut Vec<u8>, byte: u8) -> Result<(), AllocError>
    ensures row { OnOk result
        (out.new.items ≡ out.old.items ++ escaped default_writer (byte ∷ [])) }
    ensures kept { Grows out.old.items out.new.items }
{
    if byte == b'"' {
        return out.extend_from_slice(b"\"\"");
    }
    out.push(byte)?;
    Ok(())
}

#[tactic(auto, using(crate::proofs::Growing::growing))]
// Adds the bytes of a field between its quotes, in which each quote stands twice.
fn add_escaped(out: &mut Vec<u8>, field: &[u8]) -> Result<(), AllocError>
    ensures row { OnOk result (out.new.items ≡ out.old.items ++ escaped default_writer field.now) }
    ensures kept { Grows out.old.items out.new.items }
{
    for byte in field {
        add_byte(out, *byte)?;
    }
    Ok(())
}

#[tactic(auto, using(crate::proofs::Growing::growing))]
/// Adds a field as `csv` writes it.
pub fn add_field(out: &mut Vec<u8>, field: &[u8]) -> Result<(), AllocError>
    ensures row { OnOk result (AddsField out.old.items out.new.items field.now) }
    ensures kept { Grows out.old.items out.new.items }
{
    if !needs_quotes(field) {
        return out.extend_from_slice(field);
    }
    out.push(b'"')?;
    add_escaped(out, field)?;
    out.push(b'"')?;
    Ok(())
}

#[tactic(auto, using(crate::proofs::Written::writing, crate::proofs::Growing::growing))]
/// Adds a comma and a field.
pub fn next_field(out: &mut Vec<u8>, field: &[u8]) -> Result<(), AllocError>
    ensures row { OnOk result (AddsFields out.old.items out.new.items (field.now ∷ [])) }
    ensures kept { Grows out.old.items out.new.items }
{
    out.push(b',')?;
    add_field(out, field)?;
    Ok(())
}

/// Adds the digits of a number.
pub fn add_number(out: &mut Vec<u8>, n: u64) -> Result<(), AllocError>
    ensures row { OnOk result (AddsField out.old.items out.new.items (decimal n)) }
    ensures kept { Grows out.old.items out.new.items }
{
    let mut buffer = Buffer::new();
    add_field(out, buffer.format(n).as_bytes())
}

/// Adds a comma and the digits of a number.
pub fn next_number(out: &mut Vec<u8>, n: u64) -> Result<(), AllocError>
    ensures row { OnOk result (AddsFields out.old.items out.new.items (decimal n ∷ [])) }
    ensures kept { Grows out.old.items out.new.items }
{
    let mut buffer = Buffer::new();
    next_field(out, buffer.format(n).as_bytes())
}

/// Adds a comma and a text, if there is one.
pub fn next_text<const MOST: u64>(
    out: &mut Vec<u8>,
    text: &Option<Text<MOST>>,
) -> Result<(), AllocError>
    ensures row { OnOk result
        (AddsFields out.old.items out.new.items (unwrap_or text.now [] ∷ [])) }
    ensures kept { Grows out.old.items out.new.items }
{
    match text {
        Some(text) => next_field(out, text.as_bytes()),
        None => next_field(out, b""),
    }
}

// Adds a comma and the digits of a house number, if there is one.
fn next_digits(out: &mut Vec<u8>, number: Option<HouseNumber>) -> Result<(), AllocError>
    ensures row { OnOk result (AddsFields out.old.items out.new.items (digits_text number ∷ [])) }
    ensures kept { Grows out.old.items out.new.items }
{
    match number {
        Some(number) => next_number(out, u64::from(number.number())),
        None => next_field(out, b""),
    }
}

// Adds a comma and the suffix of a house number, if it has one.
fn next_letter(out: &mut Vec<u8>, number: Option<HouseNumber>) -> Result<(), AllocError>
    ensures row { OnOk result (AddsFields out.old.items out.new.items (letter_text number ∷ [])) }
    ensures kept { Grows out.old.items out.new.items }
{
    match number {
        Some(number) => match number.suffix() {
            Some(letter) => next_field(out, &[letter]),
            None => next_field(out, b""),
        },
        None => next_field(out, b""),
    }
}

/// Adds the five fields of an object, each behind a comma.
pub fn next_object(out: &mut Vec<u8>, object: &Object) -> Result<(), AllocError>
    ensures row { OnOk result (AddsFields out.old.items out.new.items (texts_of object.now)) }
    ensures kept { Grows out.old.items out.new.items }
{
    next_digits(out, object.from())?;
    next_letter(out, object.from())?;
    next_digits(out, object.to())?;
    next_letter(out, object.to())?;
    next_text(out, &object.text)?;
    Ok(())
}

// Adds a comma and a date, if there is one.
fn next_end(out: &mut Vec<u8>, end: &Option<Day>) -> Result<(), AllocError>
    ensures row { OnOk result (AddsFields out.old.items out.new.items (end_text end.now ∷ [])) }
    ensures kept { Grows out.old.items out.new.items }
{
    match end {
        Some(end) => next_field(out, &end.digits()),
        None => next_field(out, b""),
    }
}

/// Adds a start date and an end date, if there is one, each behind a comma.
pub fn next_dates(out: &mut Vec<u8>, start: &Day, end: &Option<Day>) -> Result<(), AllocError>
    ensures row { OnOk result (AddsFields out.old.items out.new.items
        (date_text start.now ∷ end_text end.now ∷ [])) }
    ensures kept { Grows out.old.items out.new.items }
{
    next_field(out, &start.digits())?;
    next_end(out, end)?;
    Ok(())
}
