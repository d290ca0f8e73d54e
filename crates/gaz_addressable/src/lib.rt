//! Addressable objects: house numbers and texts (BS 7666:2006, Part 2; the bounds are our
//! profile's).
#![tactic(auto)]

pub mod laws;
mod number;
mod object;
mod range;
mod read;
mod text;
mod write;

pub use number::{HouseDigits, HouseNumber};
pub use object::{ObjFault, Object};
pub use range::Range;
pub use text::{Text, TextFault, is_text};
