ghost use Rattle.std.specs.Prelude.{◌≡◌, ◌≤◌, ◌<◌, Some, decimal, ℕ};
ghost use Rattle.gaz_ids.specs.Numbers.{of_id, read_id};

use crate::digits::{are_digits, value_of};
use crate::fault::IdFault;
use crate::limits::{LAST_CODE, LAST_HOP, LAST_UPRN, LAST_USRN, LAST_VOLUME, MOST_CHANGES};
use std::fmt;
use std::marker::Model;

/// A whole number from `LOW` to `HIGH`, both included, written in at most `WIDTH` decimal digits.
///
/// `KIND` keeps two kinds of number apart whose bounds are equal. Equality, order and hash are
/// those of the number.
#[derive(Clone, Copy, PartialEq, Eq, PartialOrd, Ord, Hash)]
pub struct Number<const KIND: u64, const WIDTH: u64, const LOW: u64, const HIGH: u64> {
    value: u64,
}

/// A unique property reference number: at most 12 digits (BS 7666:2006, Part 2), from 1.
pub type Uprn = Number<1, 12, 1, LAST_UPRN>;

/// A unique street reference number: at most 8 digits (BS 7666:2006, Part 1), from 1.
pub type Usrn = Number<2, 8, 1, LAST_USRN>;

/// The code of a custodian, 1 to `LAST_CODE` (our profile).
pub type Code = Number<3, 4, 1, LAST_CODE>;

/// The number of a custodian's file, 1 to `LAST_VOLUME` (our profile).
pub type Volume = Number<4, 6, 1, LAST_VOLUME>;

/// The place of a change record among those of its file, 1 to `MOST_CHANGES` (our
/// profile).
pub type Order = Number<5, 4, 1, MOST_CHANGES>;

/// How often a property has passed between custodians, once a release or an adoption is counted:
/// 1 to `LAST_HOP` (our profile).
pub type Hop = Number<6, 4, 1, LAST_HOP>;

impl<const KIND: u64, const WIDTH: u64, const LOW: u64, const HIGH: u64> Model
    for Number<KIND, WIDTH, LOW, HIGH> {
    ghost Value = { ℕ };

    ghost view = { λ s. s.value };

    ghost invariant = { λ s. (LOW ≤ s.value) × (s.value ≤ HIGH) };

    ghost inverse = { λ n. record { value = n } };
}

impl<const KIND: u64, const WIDTH: u64, const LOW: u64, const HIGH: u64> Number<
    KIND,
    WIDTH,
    LOW,
    HIGH,
> {
    #[tactic(auto, using(std::proofs::lemmas::Bool::Decides::nat_tests), unfolding(crate::specs::Numbers::read_id))]
    /// Reads the digits; leading zeros are allowed up to the width. Every kind of number has at
    /// most 18 digits.
    pub fn read(text: &[u8]) -> Result<Self, IdFault>
        requires { WIDTH ≤ 18 }
        ensures { result ≡ read_id WIDTH LOW HIGH text.now }
    {
        if text.is_empty() {
            return Err(IdFault::Empty);
        }
        if !are_digits(text) {
            return Err(IdFault::NotDigits);
        }
        if text.len() as u64 > WIDTH {
            return Err(IdFault::TooLong);
        }
        let value = value_of(text);
        if value < LOW || HIGH < value {
            return Err(IdFault::OutOfRange);
        }
        Ok(Number { value })
    }

    /// The number, where it is in the range of its kind.
    pub fn of(value: u64) -> Option<Self>
        ensures { result ≡ of_id LOW HIGH value }
    {
        if value < LOW || HIGH < value {
            return None;
        }
        Some(Number { value })
    }

    /// The number as it counts.
    pub fn number(self) -> u64
        ensures value { result ≡ self.entry }
        ensures range { (LOW ≤ result) × (result ≤ HIGH) }
    {
        self.value
    }
}

/// Decimal digits without leading zeros.
impl<const KIND: u64, const WIDTH: u64, const LOW: u64, const HIGH: u64> fmt::Display
    for Number<KIND, WIDTH, LOW, HIGH> {
    ghost output = { λ n. Some (decimal n) };

    fn fmt<W: fmt::Write>(&self, f: &mut fmt::Formatter<W>) -> fmt::Result {
        write!(f, "{}", self.value)
    }
}
