use crate::range::Range;
use crate::text::Text;
use std::marker::Model;
use thiserror::Error;

/// Why five fields are no object: the first of these that applies, in the order that `Object::read`
/// gives. `Memory` may come in place of any other answer.
#[derive(Clone, Copy, Debug, Error)]
pub enum ObjFault {
    #[error("no field is filled")]
    Empty,
    #[error("a number is not one from 1 to 9999")]
    BadNumber,
    #[error("a suffix is not one letter from A to Z, or has no number")]
    BadSuffix,
    #[error("an end number without a start number")]
    EndWithoutStart,
    #[error("the end number does not come after the start number")]
    EndNotAfterStart,
    #[error("the text is no text")]
    BadText,
    #[error("the text has more than 90 characters")]
    TextTooLong,
    #[error("out of memory")]
    Memory,
}

/// An addressable object: house numbers, a text of at most 90 characters, or both.
#[derive(Drop)]
pub struct Object {
    pub range: Option<Range>,
    pub text: Option<Text<90>>,
}

// An LPI has room for two objects, so each is small.
const _: () = prove!(size_of::<Object>() == 40);

impl Model for Object {
    ghost use Rattle.std.specs.Prelude.{◌≡◌, true};
    ghost use Rattle.gaz_addressable.specs.Objects.{ObjectValue, is_there};

    ghost Value = { ObjectValue };

    ghost view = { λ x. record { range = x.range; text = x.text } };

    ghost invariant = { λ x. is_there x.range x.text ≡ true };
}
