ghost use Rattle.std.specs.Prelude.{◌≡◌, Some, true};
ghost use Rattle.gaz_addressable.specs.HouseNumbers.{is_range, range_text, rises};
ghost use Rattle.gaz_addressable.specs.Ranges.{end_letter, end_number, letter_or_zero, suffix_at};

use crate::number::HouseNumber;
use std::fmt;
use std::marker::Model;

/// One house number, or all from one to a later one.
#[derive(Clone, Copy)]
pub struct Range {
    from: u16,
    to: u16,
    from_suffix: u8,
    to_suffix: u8,
}

// An LPI has room for two of them. An `Option` takes a tag beside its value, so 0 stands for no end
// and for no suffix.
const _: () = prove!(size_of::<Option<Range>>() == 8);

impl Model for Range {
    ghost use Rattle.gaz_addressable.specs.HouseNumbers.{RangeValue};
    ghost use Rattle.gaz_addressable.specs.Ranges.{KeepsRange, end_letter, end_number};
    ghost use Rattle.gaz_addressable.specs.Ranges.{letter_or_zero, range_at};

    ghost Value = { RangeValue };

    ghost view = { λ x. range_at x.from x.from_suffix x.to x.to_suffix };

    ghost invariant = { λ x. KeepsRange x.from x.from_suffix x.to x.to_suffix };

    ghost inverse = { λ v. record {
      from = v.from.n;
      to = end_number v.to;
      from_suffix = letter_or_zero v.from.suffix;
      to_suffix = end_letter v.to;
    } };

    ghost inverse_ok = { λ a h i. record {
      from = a.from;
      to = h.end_back i;
      from_suffix = h.letter_back i;
      to_suffix = h.end_letter_back i;
    } };
}

fn letter_or_zero(suffix: Option<u8>) -> u8
    ensures { result ≡ letter_or_zero suffix }
{
    suffix.unwrap_or(0)
}

fn suffix_at(letter: u8) -> Option<u8>
    ensures { result ≡ suffix_at letter }
{
    if letter == 0 { None } else { Some(letter) }
}

// The number and the suffix of an end, each 0 where there is none.
fn end_of(to: Option<HouseNumber>) -> (u16, u8)
    ensures number { result.0 ≡ end_number to }
    ensures letter { result.1 ≡ end_letter to }
{
    match to {
        Some(to) => (to.number(), letter_or_zero(to.suffix())),
        None => (0, 0),
    }
}

impl Range {
    #[tactic(auto, using(std::proofs::lemmas::Bool::Decides::nat_tests))]
    /// The house numbers from one to a later one, if there is one.
    pub fn of(from: HouseNumber, to: Option<HouseNumber>) -> Range
        requires { rises (record { from = from; to = to }) ≡ true }
        ensures { result ≡ record { from = from; to = to } }
    {
        let (end, end_suffix) = end_of(to);
        Range {
            from: from.number(),
            to: end,
            from_suffix: letter_or_zero(from.suffix()),
            to_suffix: end_suffix,
        }
    }

    #[tactic(auto, using(std::proofs::lemmas::Bool::Decides::nat_tests))]
    /// The first house number.
    pub fn from(self) -> HouseNumber
        ensures { result ≡ self.from }
    {
        HouseNumber::of(self.from, suffix_at(self.from_suffix))
    }

    #[tactic(auto, using(std::proofs::lemmas::Bool::Decides::nat_tests))]
    /// The last house number, where there are numbers from one to another.
    pub fn to(self) -> Option<HouseNumber>
        ensures { result ≡ self.to }
    {
        if self.to == 0 {
            return None;
        }
        Some(HouseNumber::of(self.to, suffix_at(self.to_suffix)))
    }

    /// What each range holds, for callers, who see its value alone.
    pub fn known(&self)
        ensures { is_range self.now ≡ true }
    {
        let _ = &self.from;
    }
}

/// The numbers, as `12A-14`, or as `12A` where there is one.
impl fmt::Display for Range {
    ghost output = { λ r. Some (range_text r) };

    fn fmt<W: fmt::Write>(&self, f: &mut fmt::Formatter<W>) -> fmt::Result {
        write!(f, "{}", self.from())?;
        match self.to() {
            Some(to) => write!(f, "-{to}"),
            None => Ok(()),
        }
    }
}
