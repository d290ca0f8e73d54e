ghost use Rattle.std.specs.Prelude.{◌≡◌, OnOk, true};
ghost use Rattle.gaz_fields.specs.Appending.{AddsLine, Grows};
ghost use Rattle.gaz_records.specs.Streets.{is_street, read_street, street_texts};

use crate::street_type::StreetType;
use gaz_fields::{Day, FieldFault, Fields, add_number, next_dates, next_number};
use gaz_ids::Usrn;
use std::alloc::AllocError;
use std::marker::Model;

/// A street (BS 7666:2006, Part 1; all but its USRN is our profile's).
///
/// One with an end date is closed; `end` isn't before `start`.
#[derive(Drop)]
pub struct Street {
    pub usrn: Usrn,
    pub street_type: StreetType,
    pub start: Day,
    pub end: Option<Day>,
}

impl Model for Street {
    ghost use Rattle.std.specs.Prelude.{◌≡◌, true};
    ghost use Rattle.gaz_fields.specs.Days.{ends_by};
    ghost use Rattle.gaz_records.specs.Streets.{StreetValue, type_number};

    ghost Value = { StreetValue };

    ghost view = { λ x. record {
      usrn = x.usrn;
      street_type = type_number x.street_type;
      start = x.start;
      end = x.end;
    } };

    ghost invariant = { λ x. ends_by x.start x.end ≡ true };
}

impl Street {
    #[tactic(auto, using(std::proofs::lemmas::Bool::Decides::nat_tests), unfolding(crate::specs::Streets::read_street))]
    /// The street that the fields say.
    pub(crate) fn read(fields: &Fields) -> Result<Street, FieldFault>
        ensures { result ≡ read_street fields.now }
    {
        fields.count_is(4)?;
        let usrn = fields.number(0)?;
        let street_type = StreetType::of(fields.number(1)?);
        let dates = fields.dates(2)?;
        Ok(Street {
            usrn,
            street_type,
            start: dates.start,
            end: dates.end,
        })
    }

    #[tactic(auto, using(std::proofs::lemmas::Bool::Decides::nat_tests))]
    /// What each street holds, for callers, who see its value alone.
    pub fn known(&self)
        ensures { is_street self.now ≡ true }
    {
        let _ = self.usrn.number();
        let _ = self.street_type.number();
        self.start.known();
        if let Some(end) = &self.end {
            end.known();
        }
    }

    /// Adds the row of the fields as `csv` writes it, without a line end.
    pub(crate) fn write(&self, out: &mut Vec<u8>) -> Result<(), AllocError>
        ensures row { OnOk result (AddsLine out.old.items out.new.items (street_texts self.now)) }
        ensures kept { Grows out.old.items out.new.items }
    {
        add_number(out, self.usrn.number())?;
        next_number(out, self.street_type.number())?;
        next_dates(out, &self.start, &self.end)?;
        Ok(())
    }
}
