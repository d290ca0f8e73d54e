//! What a field says that is a number, a language, a status or a date.
ghost use Rattle.std.specs.Prelude.{◌≡◌, ◌≤◌, ◌-◌, is_some, IfOk, Some, true};
ghost use Rattle.gaz_fields.specs.Days.{ends_by};
ghost use Rattle.gaz_fields.specs.Fields.{TellsField};
ghost use Rattle.gaz_fields.specs.Forms.{BlpuStatus, Date, Digits, EndDate, Language, LpiStatus};
ghost use Rattle.gaz_fields.specs.Forms.{Opt, dates_at, of_blpu, says};

use crate::day::Day;
use crate::fields::FieldFault;
use crate::reading::{Fields, bad};
use gaz_ids::{Lang, Number, Status};

/// The dates on which a record began and on which it ended, if it has.
#[derive(Clone, Copy)]
pub struct Dates {
    pub start: Day,
    pub end: Option<Day>,
}

impl<'a> Fields<'a> {
    #[tactic(auto, unfolding(crate::specs::Forms::says))]
    /// A number from `LOW` to `HIGH`, of 1 to `WIDTH` digits.
    pub fn number<const KIND: u64, const WIDTH: u64, const LOW: u64, const HIGH: u64>(
        &self,
        i: usize,
    ) -> Result<Number<KIND, WIDTH, LOW, HIGH>, FieldFault>
        requires width { WIDTH ≤ 18 }
        requires place { i ≤ 16 }
        ensures { TellsField result i (says (Digits WIDTH LOW HIGH) self.now i) }
    {
        match Number::read(self.get(i)) {
            Ok(n) => Ok(n),
            Err(_) => Err(bad(i)),
        }
    }

    #[tactic(auto, unfolding(crate::specs::Forms::says))]
    /// A number from `LOW` to `HIGH`, of 1 to `WIDTH` digits, or none where the field is empty.
    pub fn opt_number<const KIND: u64, const WIDTH: u64, const LOW: u64, const HIGH: u64>(
        &self,
        i: usize,
    ) -> Result<Option<Number<KIND, WIDTH, LOW, HIGH>>, FieldFault>
        requires width { WIDTH ≤ 18 }
        requires place { i ≤ 16 }
        ensures { TellsField result i (says (Opt (Digits WIDTH LOW HIGH)) self.now i) }
    {
        if self.get(i).is_empty() {
            return Ok(None);
        }
        match Number::read(self.get(i)) {
            Ok(n) => Ok(Some(n)),
            Err(_) => Err(bad(i)),
        }
    }

    #[tactic(auto, unfolding(crate::specs::Forms::says))]
    /// A language: `ENG` or `CYM`.
    pub fn lang(&self, i: usize) -> Result<Lang, FieldFault>
        requires { i ≤ 16 }
        ensures { TellsField result i (says Language self.now i) }
    {
        Lang::read(self.get(i)).ok_or(bad(i))
    }

    #[tactic(auto, unfolding(crate::specs::Forms::says))]
    /// The status of an LPI: 1, 3, 6 or 8.
    pub fn lpi_status(&self, i: usize) -> Result<Status, FieldFault>
        requires { i ≤ 16 }
        ensures { TellsField result i (says LpiStatus self.now i) }
    {
        Status::read(self.get(i)).ok_or(bad(i))
    }

    #[tactic(auto, unfolding(crate::specs::Forms::says))]
    /// The status of a BLPU: 1, 6 or 8.
    pub fn blpu_status(&self, i: usize) -> Result<Status, FieldFault>
        requires { i ≤ 16 }
        ensures tells { TellsField result i (says BlpuStatus self.now i) }
        ensures kept { IfOk result (λ status. is_some (of_blpu status) ≡ true) }
    {
        match Status::read(self.get(i)) {
            Some(Status::Alternative) | None => Err(bad(i)),
            Some(status) => Ok(status),
        }
    }

    #[tactic(auto, unfolding(crate::specs::Forms::says))]
    /// A date, as `YYYY-MM-DD`.
    pub fn day(&self, i: usize) -> Result<Day, FieldFault>
        requires { i ≤ 16 }
        ensures { TellsField result i (says Date self.now i) }
    {
        Day::read(self.get(i)).ok_or(bad(i))
    }

    #[tactic(auto, unfolding(crate::specs::Forms::says))]
    // An end date that may be left out, not before the start date in the field before.
    fn end_day(&self, i: usize, start: &Day) -> Result<Option<Day>, FieldFault>
        requires place { i ≤ 16 }
        requires start { says Date self.now (i - 1) ≡ Some start.now }
        ensures tells { TellsField result i (says (Opt EndDate) self.now i) }
        ensures order { IfOk result (λ end. ends_by start.now end ≡ true) }
    {
        if self.get(i).is_empty() {
            return Ok(None);
        }
        match Day::read(self.get(i)) {
            Some(end) => {
                if start.is_by(&end) {
                    Ok(Some(end))
                } else {
                    Err(bad(i))
                }
            }
            None => Err(bad(i)),
        }
    }

    /// A date, and an end date behind it that may be left out. One before the date is a fault of
    /// its own field.
    pub fn dates(&self, i: usize) -> Result<Dates, FieldFault>
        requires { i ≤ 15 }
        ensures tells { result ≡ dates_at self.now i }
        ensures order { IfOk result (λ dates. ends_by dates.start dates.end ≡ true) }
    {
        let start = self.day(i)?;
        let end = self.end_day(i + 1, &start)?;
        Ok(Dates { start, end })
    }
}
