ghost use Rattle.std.specs.Prelude.{◌≡◌, [], IfOk, Ok, map, true};
ghost use Rattle.std.specs.Option.{unwrap_or};
ghost use Rattle.gaz_addressable.specs.Objects.{digits_text, from_of, is_object, letter_text};
ghost use Rattle.gaz_addressable.specs.Objects.{object_of_fields, texts_of, to_of};

use crate::number::HouseNumber;
use crate::object::Object;
use crate::text::Text;
use itoa::Buffer;
use std::alloc::{AllocError, Global};

// The digits of the number, if there is one.
fn digits(alloc: Global, number: Option<HouseNumber>) -> Result<Vec<u8>, AllocError>
    ensures { IfOk result (λ t. t.items ≡ digits_text number) }
{
    match number {
        Some(number) => {
            let mut buffer = Buffer::new();
            Vec::from_slice(alloc, buffer.format(number.number()).as_bytes())
        }
        None => Ok(Vec::new(alloc)),
    }
}

// The suffix of the number, if it has one.
fn letter(alloc: Global, number: Option<HouseNumber>) -> Result<Vec<u8>, AllocError>
    ensures { IfOk result (λ t. t.items ≡ letter_text number) }
{
    match number.and_then(|number| number.suffix()) {
        Some(letter) => Vec::from_slice(alloc, &[letter]),
        None => Ok(Vec::new(alloc)),
    }
}

fn text_bytes(alloc: Global, text: &Option<Text<90>>) -> Result<Vec<u8>, AllocError>
    ensures { IfOk result (λ t. t.items ≡ unwrap_or text.now []) }
{
    match text {
        Some(text) => Vec::from_slice(alloc, text.as_bytes()),
        None => Ok(Vec::new(alloc)),
    }
}

impl Object {
    /// The first house number, if there is one.
    pub fn from(&self) -> Option<HouseNumber>
        ensures { result ≡ from_of self.now.range }
    {
        self.range.map(|range| range.from())
    }

    /// The last house number, where there are numbers from one to another.
    pub fn to(&self) -> Option<HouseNumber>
        ensures { result ≡ to_of self.now.range }
    {
        self.range.and_then(|range| range.to())
    }

    /// What each object holds, for callers, who see its value alone.
    pub fn known(&self)
        ensures { is_object self.now ≡ true }
    {
        if let Some(range) = &self.range {
            range.known();
        }
        if let Some(text) = &self.text {
            let _ = text.as_bytes();
        }
    }

    #[tactic(auto, using(crate::proofs::Rounds::object_back))]
    /// The five texts: start number, start suffix, end number, end suffix, text. They read back as
    /// the same object.
    pub fn fields(&self, alloc: Global) -> Result<[Vec<u8>; 5], AllocError>
        ensures texts { IfOk result (λ v. map (λ t. t.items) v ≡ texts_of self.now) }
        ensures reads_back { object_of_fields (texts_of self.now) ≡ Ok self.now }
    {
        self.known();
        let start = digits(alloc, self.from())?;
        let suffix = letter(alloc, self.from())?;
        let end = digits(alloc, self.to())?;
        let end_suffix = letter(alloc, self.to())?;
        let text = text_bytes(alloc, &self.text)?;
        Ok([start, suffix, end, end_suffix, text])
    }
}
