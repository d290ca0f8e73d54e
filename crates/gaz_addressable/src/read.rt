ghost use Rattle.std.specs.Prelude.{◌≡◌, IfSome, map, true};
ghost use Rattle.gaz_addressable.specs.HouseNumbers.{house_of, is_suffix, suffix_of};
ghost use Rattle.gaz_addressable.specs.Objects.{OrMemory, object_of_fields, range_of, with_text};

use crate::number::{HouseDigits, HouseNumber};
use crate::object::{ObjFault, Object};
use crate::range::Range;
use crate::text::{Text, TextFault};
use std::alloc::Global;

// The number of a house, if there is one; none where it has another form.
fn read_house(text: &[u8]) -> Option<Option<HouseDigits>>
    ensures { result ≡ house_of text.now }
{
    if text.is_empty() {
        return Some(None);
    }
    match HouseDigits::read(text) {
        Ok(n) => Some(Some(n)),
        Err(_) => None,
    }
}

// The suffix, if there is one; none where it has another form.
fn read_suffix(text: &[u8]) -> Option<Option<u8>>
    ensures value { result ≡ suffix_of text.now }
    ensures range { IfSome result (λ c. is_suffix c ≡ true) }
{
    if text.is_empty() {
        return Some(None);
    }
    if text.len() == 1 && text[0].is_ascii_uppercase() {
        return Some(Some(text[0]));
    }
    None
}

#[tactic(auto, using(std::proofs::lemmas::Bool::Decides::nat_tests), unfolding(crate::specs::Objects::range_of))]
// The house numbers that four fields say, if there are any.
fn read_range(
    start: &[u8],
    suffix: &[u8],
    end: &[u8],
    end_suffix: &[u8],
) -> Result<Option<Range>, ObjFault>
    ensures { result ≡ range_of start.now suffix.now end.now end_suffix.now }
{
    let Some(from) = read_house(start) else {
        return Err(ObjFault::BadNumber);
    };
    let Some(suffix) = read_suffix(suffix) else {
        return Err(ObjFault::BadSuffix);
    };
    if suffix.is_some() && from.is_none() {
        return Err(ObjFault::BadSuffix);
    }
    let Some(to) = read_house(end) else {
        return Err(ObjFault::BadNumber);
    };
    if to.is_some() && from.is_none() {
        return Err(ObjFault::EndWithoutStart);
    }
    let Some(end_suffix) = read_suffix(end_suffix) else {
        return Err(ObjFault::BadSuffix);
    };
    if end_suffix.is_some() && to.is_none() {
        return Err(ObjFault::BadSuffix);
    }
    let Some(n) = from else {
        return Ok(None);
    };
    let from = HouseNumber::of(n.number() as u16, suffix);
    let Some(n) = to else {
        return Ok(Some(Range::of(from, None)));
    };
    let to = HouseNumber::of(n.number() as u16, end_suffix);
    if !from.is_before(&to) {
        return Err(ObjFault::EndNotAfterStart);
    }
    Ok(Some(Range::of(from, Some(to))))
}

// The object of these house numbers, if there are any, and of a text that may be empty.
#[tactic(auto, using(std::proofs::lemmas::Bool::Decides::nat_tests))]
fn with_text(alloc: Global, range: Option<Range>, text: &[u8]) -> Result<Object, ObjFault>
    ensures { OrMemory result (with_text range text.now) }
{
    if text.is_empty() {
        return match range {
            Some(range) => Ok(Object {
                range: Some(range),
                text: None,
            }),
            None => Err(ObjFault::Empty),
        };
    }
    match Text::read(alloc, text) {
        Ok(text) => Ok(Object {
            range,
            text: Some(text),
        }),
        Err(TextFault::BadForm) => Err(ObjFault::BadText),
        Err(TextFault::TooLong) => Err(ObjFault::TextTooLong),
        Err(TextFault::Memory) => Err(ObjFault::Memory),
    }
}

impl Object {
    #[tactic(auto, using(crate::proofs::Reading::readings))]
    /// The object that five fields say: start number, start suffix, end number, end suffix, text.
    ///
    /// The faults in order: `Empty` where all five are; `BadNumber` (start); `BadSuffix` (start),
    /// also without a start number; `BadNumber` (end); `EndWithoutStart`; `BadSuffix` (end), also
    /// without an end number; `EndNotAfterStart`; `BadText`; `TextTooLong`. `Memory` may come in
    /// place of any other answer.
    pub fn read(alloc: Global, fields: [&[u8]; 5]) -> Result<Object, ObjFault>
        ensures { OrMemory result (object_of_fields (map (λ f. f.now) fields.entry)) }
    {
        let [start, suffix, end, end_suffix, text] = fields;
        match read_range(start, suffix, end, end_suffix) {
            Ok(range) => with_text(alloc, range, text),
            Err(fault) => Err(fault),
        }
    }
}
