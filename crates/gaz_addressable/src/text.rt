ghost use Rattle.std.specs.Prelude.{◌≡◌, nat_le, not, true, IfSome, is_some};
ghost use Rattle.std.specs.List.{list_any};
ghost use Rattle.gaz_addressable.specs.Texts.{OrMemory, char_count, is_control, is_plain, is_text};
ghost use Rattle.gaz_addressable.specs.Texts.{text_of};

use std::alloc::Global;
use std::marker::Model;
use std::str;
use thiserror::Error;

/// Why bytes are no text of a length. The faults are looked for in this order; `Memory` may come in
/// place of any other answer.
#[derive(Clone, Copy, Debug, Error)]
pub enum TextFault {
    /// Not UTF-8, no character, a control character, or a space at an end.
    #[error("no text")]
    BadForm,
    #[error("too many characters")]
    TooLong,
    #[error("out of memory")]
    Memory,
}

/// A text of 1 to `MOST` characters in UTF-8, none of them below U+0020 nor U+007F, with no space
/// (U+0020) at either end.
#[derive(Drop)]
pub struct Text<const MOST: u64> {
    inner: String,
}

impl<const MOST: u64> Model for Text<MOST> {
    ghost use Rattle.std.specs.Prelude.{List, ℕ, ◌≡◌, true};
    ghost use Rattle.std.specs.String.{string_bytes};
    ghost use Rattle.gaz_addressable.specs.Texts.{is_text};

    ghost Value = { List ℕ };

    ghost view = { λ t. string_bytes t.inner };

    ghost invariant = { λ t. is_text MOST (string_bytes t.inner) ≡ true };
}

// Whether no byte is a control character.
fn has_no_controls(bytes: &[u8]) -> bool
    ensures { result ≡ not (list_any is_control bytes.now) }
{
    for byte in bytes {
        if *byte < 32 || *byte == 127 {
            return false;
        }
    }
    true
}

#[tactic(auto, using(std::proofs::lemmas::Bool::Decides::nat_tests, crate::proofs::Characters::plain_tests))]
// The bytes as a text, where no character is a control character and no space stands at an end.
fn plain_text(bytes: &[u8]) -> Option<&str>
    ensures form { is_some result ≡ is_plain bytes.now }
    ensures same { IfSome result (λ t. t.now ≡ bytes.now) }
{
    if bytes.is_empty() || bytes[0] == b' ' || bytes[bytes.len() - 1] == b' ' {
        return None;
    }
    if !has_no_controls(bytes) {
        return None;
    }
    str::from_utf8(bytes).ok()
}

// How many characters a text has.
fn count_chars(text: &str) -> usize
    ensures { result ≡ char_count text.now }
{
    text.chars().count()
}

#[tactic(auto, using(std::proofs::lemmas::Bool::Decides::nat_tests, crate::proofs::Characters::counts))]
// Whether a text has at most so many characters. It has no more of them than bytes.
fn fits(text: &str, most: u64) -> bool
    ensures { result ≡ nat_le (char_count text.now) most }
{
    text.len() as u64 <= most || count_chars(text) as u64 <= most
}

#[tactic(auto, using(std::proofs::lemmas::Bool::Decides::nat_tests))]
/// Whether the bytes are a text of 1 to `most` characters, as `Text` holds.
pub fn is_text(bytes: &[u8], most: u64) -> bool
    ensures { result ≡ is_text most bytes.now }
{
    match plain_text(bytes) {
        Some(text) => fits(text, most),
        None => false,
    }
}

impl<const MOST: u64> Text<MOST> {
    #[tactic(auto, using(std::proofs::lemmas::Bool::Decides::nat_tests))]
    /// The text of these bytes.
    pub fn read(alloc: Global, bytes: &[u8]) -> Result<Self, TextFault>
        ensures { OrMemory result (text_of MOST bytes.now) }
    {
        let Some(text) = plain_text(bytes) else {
            return Err(TextFault::BadForm);
        };
        if !fits(text, MOST) {
            return Err(TextFault::TooLong);
        }
        match String::from_str(alloc, text) {
            Ok(inner) => Ok(Text { inner }),
            Err(_) => Err(TextFault::Memory),
        }
    }

    /// The text.
    pub fn as_str(&self) -> &str
        ensures value { result.now ≡ self.now }
        ensures form { is_text MOST self.now ≡ true }
    {
        self.inner.as_str()
    }

    /// The bytes of the text.
    pub fn as_bytes(&self) -> &[u8]
        ensures value { result.now ≡ self.now }
        ensures form { is_text MOST self.now ≡ true }
    {
        self.inner.as_bytes()
    }
}
