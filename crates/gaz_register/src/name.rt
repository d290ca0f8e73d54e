ghost use Rattle.std.specs.Prelude.{◌≡◌};
ghost use Rattle.gaz_register.specs.Names.{is_name};

use gaz_addressable::is_text;

// The most characters of a name.
const MOST: u64 = 60;

/// Whether a text may be a custodian's name.
pub(crate) fn is_name(text: &str) -> bool
    ensures { result ≡ is_name text.now }
{
    is_text(text.as_bytes(), MOST)
}
