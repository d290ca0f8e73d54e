ghost use Rattle.std.specs.Prelude.{◌≡◌, ◌++◌, IfOk, OnOk};
ghost use Rattle.std.specs.String.{string_bytes};
ghost use Rattle.gaz_extract.specs.Lines.{area_of, is_town, line_text, numbers_of, on_street};
ghost use Rattle.gaz_extract.specs.Lines.{text_of};
ghost use Rattle.gaz_extract.specs.Pieces.{after, before};

use gaz_addressable::{Object, Range, Text};
use gaz_records::{Blpu, Descriptor, Lpi};
use std::alloc::{AllocError, Global};
use std::marker::Model;

/// The bytes that most lines fit in; a longer one grows.
const LINE_ROOM: usize = 128;

/// The address line of a property.
#[derive(Drop)]
pub struct AddressLine {
    text: String,
}

impl Model for AddressLine {
    ghost use Rattle.std.specs.Prelude.{List, ℕ};
    ghost use Rattle.std.specs.String.{string_bytes};

    ghost Value = { List ℕ };

    ghost view = { λ l. string_bytes l.text };
}

impl AddressLine {
    /// The text of the line.
    pub fn as_str(&self) -> &str
        ensures { result.now ≡ self.now }
    {
        self.text.as_str()
    }
}

// Adds a part that another follows.
fn add_before<const MOST: u64>(
    out: &mut String,
    part: &Option<Text<MOST>>,
) -> Result<(), AllocError>
    ensures { OnOk result (string_bytes out.new ≡ string_bytes out.old ++ before part.now) }
{
    if let Some(part) = part {
        out.push_str(part.as_str())?;
        out.push_str(", ")?;
    }
    Ok(())
}

// Adds a part that follows another.
fn add_after<const MOST: u64>(out: &mut String, part: &Option<Text<MOST>>) -> Result<(), AllocError>
    ensures { OnOk result (string_bytes out.new ≡ string_bytes out.old ++ after part.now) }
{
    if let Some(part) = part {
        out.push_str(", ")?;
        out.push_str(part.as_str())?;
    }
    Ok(())
}

// Adds the text and the numbers of the secondary object.
fn add_secondary(out: &mut String, object: &Option<Object>) -> Result<(), AllocError>
    ensures { OnOk result (string_bytes out.new ≡ string_bytes out.old
        ++ (before (text_of object.now) ++ before (numbers_of object.now))) }
{
    let Some(object) = object else {
        return Ok(());
    };
    add_before(out, &object.text)?;
    if let Some(range) = &object.range {
        write!(out, "{range}, ")?;
    }
    Ok(())
}

// Adds the house numbers on the street, if there are any, and its description.
fn add_street(out: &mut String, range: &Option<Range>, description: &str) -> Result<(), AllocError>
    ensures { OnOk result (string_bytes out.new ≡ string_bytes out.old
        ++ on_street range.now description.now) }
{
    if let Some(range) = range {
        write!(out, "{range} ")?;
    }
    out.push_str(description)
}

// Whether the town has just this text.
fn is_town(town: &Option<Text<30>>, text: &Text<30>) -> bool
    ensures { result ≡ is_town town.now text.now }
{
    match town {
        Some(town) => town.as_bytes() == text.as_bytes(),
        None => false,
    }
}

// Adds the administrative area, where its text differs from the town's.
fn add_area(out: &mut String, descriptor: &Descriptor) -> Result<(), AllocError>
    ensures { OnOk result (string_bytes out.new ≡ string_bytes out.old
        ++ after (area_of descriptor.now)) }
{
    if is_town(&descriptor.town, &descriptor.area) {
        return Ok(());
    }
    out.push_str(", ")?;
    out.push_str(descriptor.area.as_str())
}

#[tactic(auto, using(crate::proofs::Joins::line_behind))]
// Adds the parts of an address line.
fn add_line(
    out: &mut String,
    lpi: &Lpi,
    descriptor: &Descriptor,
    blpu: &Blpu,
) -> Result<(), AllocError>
    ensures { OnOk result (string_bytes out.new ≡ string_bytes out.old
        ++ line_text lpi.now descriptor.now blpu.now) }
{
    add_secondary(out, &lpi.secondary)?;
    add_before(out, &lpi.primary.text)?;
    add_street(out, &lpi.primary.range, descriptor.description.as_str())?;
    add_after(out, &descriptor.locality)?;
    add_after(out, &descriptor.town)?;
    add_area(out, descriptor)?;
    add_after(out, &blpu.postcode)?;
    Ok(())
}

/// The address line: with comma and space between them the parts that are there, which are the
/// secondary text, the secondary numbers, the primary text, the primary numbers and the street's
/// description (one space between them), the locality, the town, the administrative area where its
/// text differs from the town's, and the postcode (our profile, docs/extracts.md).
pub fn line(
    alloc: Global,
    lpi: &Lpi,
    descriptor: &Descriptor,
    blpu: &Blpu,
) -> Result<AddressLine, AllocError>
    ensures { IfOk result (λ l. l ≡ line_text lpi.now descriptor.now blpu.now) }
{
    let mut out = String::with_capacity(alloc, LINE_ROOM)?;
    add_line(&mut out, lpi, descriptor, blpu)?;
    Ok(AddressLine { text: out })
}
