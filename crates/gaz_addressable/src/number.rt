ghost use Rattle.std.specs.Prelude.{◌≡◌, Some, true};
ghost use Rattle.gaz_addressable.specs.HouseNumbers.{house_cmp, is_before, is_house_number};
ghost use Rattle.gaz_addressable.specs.HouseNumbers.{number_text};

use gaz_ids::Number;
use std::cmp::Ordering;
use std::fmt;
use std::marker::Model;

/// The number of a house, 1 to 9999 (our profile).
pub type HouseDigits = Number<10, 4, 1, 9999>;

/// A house number with its suffix, `A` to `Z`, if it has one.
///
/// Its order is by the number, then by the suffix; a number without a suffix comes before those
/// with one.
#[derive(Clone, Copy, PartialEq, Eq, PartialOrd, Ord)]
pub struct HouseNumber {
    n: u16,
    suffix: Option<u8>,
}

// An LPI has room for four of them, so each is small.
const _: () = prove!(size_of::<HouseNumber>() == 4);

impl Model for HouseNumber {
    ghost use Rattle.std.specs.Prelude.{◌≡◌, true};
    ghost use Rattle.gaz_addressable.specs.HouseNumbers.{HouseNumberValue, is_house_number};

    ghost Value = { HouseNumberValue };

    ghost view = { λ x. record { n = x.n; suffix = x.suffix } };

    ghost invariant = { λ x.
        is_house_number (record { n = x.n; suffix = x.suffix }) ≡ true };

    ghost inverse = { λ v. record { n = v.n; suffix = v.suffix } };
}

impl HouseNumber {
    /// The house number of a number from 1 to 9999 and a suffix, if it has one.
    pub fn of(n: u16, suffix: Option<u8>) -> HouseNumber
        requires { is_house_number (record { n = n; suffix = suffix }) ≡ true }
        ensures { result ≡ record { n = n; suffix = suffix } }
    {
        HouseNumber { n, suffix }
    }

    /// The number, 1 to 9999.
    pub fn number(self) -> u16
        ensures value { result ≡ self.n }
        ensures form { is_house_number self ≡ true }
    {
        self.n
    }

    /// The suffix, `A` to `Z`, if there is one.
    pub fn suffix(self) -> Option<u8>
        ensures value { result ≡ self.suffix }
        ensures form { is_house_number self ≡ true }
    {
        self.suffix
    }

    #[tactic(auto, using(crate::proofs::HouseOrder::orders))]
    /// How this number compares with another, as `cmp` does.
    pub fn compare(&self, other: &HouseNumber) -> Ordering
        ensures { result ≡ house_cmp self.now other.now }
    {
        self.cmp(other)
    }

    /// Whether this number comes before another.
    pub fn is_before(&self, other: &HouseNumber) -> bool
        ensures { result ≡ is_before self.now other.now }
    {
        self.compare(other).is_lt()
    }
}

/// The number and its suffix, as `12A`.
impl fmt::Display for HouseNumber {
    ghost output = { λ x. Some (number_text x) };

    fn fmt<W: fmt::Write>(&self, f: &mut fmt::Formatter<W>) -> fmt::Result {
        write!(f, "{}", self.n)?;
        match self.suffix {
            Some(letter) => write!(f, "{}", char::from(letter)),
            None => Ok(()),
        }
    }
}
