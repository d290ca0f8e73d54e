ghost use Rattle.std.specs.Prelude.{◌≡◌, ◌≤◌, pos, nat_le, true};
ghost use Rattle.jiff_core.specs.Calendar.{days_in_month};
ghost use Rattle.gaz_fields.specs.Days.{is_day_or_none, date_of, date_text, day_of, is_day};
ghost use Rattle.gaz_fields.specs.Days.{day_le};

use gaz_ids::digits::{are_digits, value_of};
use jiff::civil::Date;
use std::marker::Model;

/// A date of the proleptic Gregorian calendar, from the year 1 to 9999 (ISO 8601; `jiff`).
#[derive(Clone, Copy)]
pub struct Day {
    year: u16,
    month: u8,
    day: u8,
}

impl Model for Day {
    ghost use Rattle.std.specs.Prelude.{◌≡◌, true};
    ghost use Rattle.gaz_fields.specs.Days.{CivilDay, is_day};

    ghost Value = { CivilDay };

    ghost view = { λ date. record { year = date.year; month = date.month; day = date.day } };

    ghost invariant = { λ date.
        is_day (record { year = date.year; month = date.month; day = date.day }) ≡ true };

    ghost inverse = { λ v. record { year = v.year; month = v.month; day = v.day } };
}

// Whether the month has the day.
fn has_day(year: u64, month: u64, day: u64) -> bool
    requires year { (1 ≤ year) × (year ≤ 9999) }
    requires month { (1 ≤ month) × (month ≤ 12) }
    requires day { (1 ≤ day) × (day ≤ 31) }
    ensures { result ≡ nat_le day (days_in_month (pos year) month) }
{
    let year = year as i16;
    let month = month as i8;
    let day = day as i8;
    match Date::new(year, month, day) {
        Ok(_) => true,
        Err(_) => false,
    }
}

impl Day {
    #[tactic(auto, using(std::proofs::lemmas::Bool::Decides::nat_tests))]
    /// The date, where the calendar has it.
    pub fn of(year: u64, month: u64, day: u64) -> Option<Day>
        ensures { result ≡ day_of year month day }
    {
        if year < 1 || 9999 < year {
            return None;
        }
        if month < 1 || 12 < month {
            return None;
        }
        if day < 1 || 31 < day {
            return None;
        }
        if !has_day(year, month, day) {
            return None;
        }
        Some(Day {
            year: year as u16,
            month: month as u8,
            day: day as u8,
        })
    }

    #[tactic(auto, using(std::proofs::lemmas::Bool::Decides::nat_tests), unfolding(crate::specs::Days::date_of))]
    /// The date that is written as `YYYY-MM-DD`.
    pub fn read(text: &[u8]) -> Option<Day>
        ensures { result ≡ date_of text.now }
    {
        if text.len() != 10 || text[4] != b'-' || text[7] != b'-' {
            return None;
        }
        let year = &text[0..4];
        let month = &text[5..7];
        let day = &text[8..10];
        if !are_digits(year) || !are_digits(month) || !are_digits(day) {
            return None;
        }
        Day::of(value_of(year), value_of(month), value_of(day))
    }

    /// The digits of `YYYY-MM-DD`.
    pub fn digits(&self) -> [u8; 10]
        ensures { result ≡ date_text self.now }
    {
        let year = self.year;
        [
            b'0' + (year / 1000) as u8,
            b'0' + (year / 100 % 10) as u8,
            b'0' + (year / 10 % 10) as u8,
            b'0' + (year % 10) as u8,
            b'-',
            b'0' + self.month / 10,
            b'0' + self.month % 10,
            b'-',
            b'0' + self.day / 10,
            b'0' + self.day % 10,
        ]
    }

    /// What each date holds.
    pub fn known(&self)
        ensures { is_day self.now ≡ true }
    {
        let _ = &self.day;
    }

    /// Whether this date isn't after another.
    pub fn is_by(&self, other: &Day) -> bool
        ensures { result ≡ day_le self.now other.now }
    {
        let stamp = (u64::from(self.year) * 100 + u64::from(self.month)) * 100
            + u64::from(self.day);
        let other = (u64::from(other.year) * 100 + u64::from(other.month)) * 100
            + u64::from(other.day);
        stamp <= other
    }
}

/// The date on which a record ended, if it has.
#[derive(Clone, Copy)]
pub struct EndDay {
    year: u16,
    month: u8,
    day: u8,
}

// An LPI has room for one. An `Option` takes a tag beside its value, so the year 0 stands for none.
const _: () = prove!(size_of::<EndDay>() == 4);

impl Model for EndDay {
    ghost use Rattle.std.specs.Prelude.{Option};
    ghost use Rattle.gaz_fields.specs.Days.{CivilDay, KeepsEnd, end_at, kept_end};

    ghost Value = { Option CivilDay };

    ghost view = { λ date. end_at date.year date.month date.day };

    ghost invariant = { λ date. KeepsEnd date.year date.month date.day };

    ghost inverse = { λ v. record {
      year = (kept_end v).year;
      month = (kept_end v).month;
      day = (kept_end v).day;
    } };

    ghost inverse_ok = { λ a h i. record {
      year = (h.back i).year;
      month = (h.back i).month;
      day = (h.back i).day;
    } };
}

impl EndDay {
    #[tactic(auto, using(std::proofs::lemmas::Bool::Decides::nat_tests))]
    /// The date that may be there.
    pub fn of(end: Option<Day>) -> EndDay
        ensures { result ≡ end }
    {
        let (year, month, day) = match end {
            Some(date) => (date.year, date.month, date.day),
            None => (0, 0, 0),
        };
        EndDay { year, month, day }
    }

    #[tactic(auto, using(std::proofs::lemmas::Bool::Decides::nat_tests))]
    /// The date, if there is one.
    pub fn day(self) -> Option<Day>
        ensures { result ≡ self }
    {
        if self.year == 0 {
            return None;
        }
        Some(Day {
            year: self.year,
            month: self.month,
            day: self.day,
        })
    }

    /// What each holds, for callers, who see its value alone.
    pub fn known(&self)
        ensures { is_day_or_none self.now ≡ true }
    {
        let _ = &self.year;
    }
}
