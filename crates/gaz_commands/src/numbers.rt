//! The numbers that words name.
ghost use Rattle.std.specs.Prelude.{◌≡◌};
ghost use Rattle.gaz_ids.specs.Numbers.{read_code, read_uprn, read_volume};

use gaz_ids::{Code, Uprn, Volume};

/// The code that a word writes, of at most 4 digits.
pub fn code_named(word: &str) -> Option<Code>
    ensures { result ≡ read_code word.now }
{
    Code::read(word.as_bytes()).ok()
}

/// The volume that a word writes, of at most 6 digits.
pub fn volume_named(word: &str) -> Option<Volume>
    ensures { result ≡ read_volume word.now }
{
    Volume::read(word.as_bytes()).ok()
}

/// The UPRN that a word writes, of at most 12 digits.
pub fn uprn_named(word: &str) -> Option<Uprn>
    ensures { result ≡ read_uprn word.now }
{
    Uprn::read(word.as_bytes()).ok()
}
