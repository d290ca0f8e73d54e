//! The record identifiers of kinds.
ghost use Rattle.std.specs.Prelude.{◌≡◌};
ghost use Rattle.gaz_records.specs.Kinds.{identified, identifier, is_entry_kind, number_of};

use crate::item::Kind;

impl Kind {
    /// The kind whose record identifier the text is: `11`, `15`, `21`, `23`,
    /// `24`, `91` or `92`.
    pub fn read(text: &[u8]) -> Option<Kind>
        ensures { result ≡ identified text.now }
    {
        if text == b"11".as_slice() {
            Some(Kind::Street)
        } else if text == b"15".as_slice() {
            Some(Kind::Descriptor)
        } else if text == b"21".as_slice() {
            Some(Kind::Blpu)
        } else if text == b"23".as_slice() {
            Some(Kind::Xref)
        } else if text == b"24".as_slice() {
            Some(Kind::Lpi)
        } else if text == b"91".as_slice() {
            Some(Kind::Release)
        } else if text == b"92".as_slice() {
            Some(Kind::Adopt)
        } else {
            None
        }
    }

    /// The record identifier, as two digits.
    pub fn text(self) -> &'static [u8]
        ensures { result.now ≡ identifier self }
    {
        match self {
            Kind::Street => b"11",
            Kind::Descriptor => b"15",
            Kind::Blpu => b"21",
            Kind::Xref => b"23",
            Kind::Lpi => b"24",
            Kind::Release => b"91",
            Kind::Adopt => b"92",
        }
    }

    /// The record identifier, as a number.
    pub fn number(self) -> u64
        ensures { result ≡ number_of self }
    {
        match self {
            Kind::Street => 11,
            Kind::Descriptor => 15,
            Kind::Blpu => 21,
            Kind::Xref => 23,
            Kind::Lpi => 24,
            Kind::Release => 91,
            Kind::Adopt => 92,
        }
    }

    /// Whether items of this kind stand in views.
    pub fn is_entry(self) -> bool
        ensures { result ≡ is_entry_kind self }
    {
        match self {
            Kind::Street | Kind::Descriptor | Kind::Blpu | Kind::Xref | Kind::Lpi => true,
            Kind::Release | Kind::Adopt => false,
        }
    }
}
