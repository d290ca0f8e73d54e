ghost use Rattle.std.specs.Prelude.{◌≡◌};
ghost use Rattle.gaz_ids.specs.Codes.{lang_cmp, lang_number, lang_of, lang_text};

use std::cmp::Ordering;

/// A language of names: Welsh or English (our profile). Welsh comes first in order, as `CYM` does
/// before `ENG`.
#[derive(Clone, Copy, PartialEq, Eq, PartialOrd, Ord, Hash)]
pub enum Lang {
    /// `CYM`.
    Cym,
    /// `ENG`.
    Eng,
}

impl Lang {
    /// The language that `CYM` or `ENG` names.
    pub fn read(text: &[u8]) -> Option<Lang>
        ensures { result ≡ lang_of text.now }
    {
        if text == b"ENG".as_slice() {
            Some(Lang::Eng)
        } else if text == b"CYM".as_slice() {
            Some(Lang::Cym)
        } else {
            None
        }
    }

    /// `CYM` or `ENG`.
    pub fn text(self) -> &'static [u8]
        ensures { result.now ≡ lang_text self }
    {
        match self {
            Lang::Cym => b"CYM",
            Lang::Eng => b"ENG",
        }
    }

    /// The number by which tables name the language: 1 for `ENG`, 2 for `CYM` (our profile).
    pub fn number(self) -> u8
        ensures { result ≡ lang_number self }
    {
        match self {
            Lang::Eng => 1,
            Lang::Cym => 2,
        }
    }

    /// How this language compares with another, as `cmp` does: `CYM` comes before `ENG`.
    pub fn compare(self, other: Lang) -> Ordering
        ensures { result ≡ lang_cmp self other }
    {
        self.cmp(&other)
    }
}
