ghost use Rattle.std.specs.Prelude.{◌≡◌, None, OnOk, true};
ghost use Rattle.gaz_fields.specs.Fields.{OrMemory};
ghost use Rattle.gaz_fields.specs.Appending.{AddsFields, AddsLine, Grows};
ghost use Rattle.gaz_records.specs.Lpis.{is_lpi, lpi_texts, read_lpi, secondary_texts};

use gaz_addressable::Object;
use gaz_fields::{
    Day, EndDay, FieldFault, Fields, RecordKey, add_field, next_dates, next_field, next_number,
    next_object,
};
use gaz_ids::{Lang, Status, Uprn, Usrn};
use std::alloc::{AllocError, Global};
use std::marker::Model;

/// A land and property identifier: an address of a BLPU on a street (BS 7666:2006, Part 2; its key,
/// language, status and dates are our profile's).
///
/// Its end date isn't before its start date.
#[derive(Drop)]
pub struct Lpi {
    pub key: RecordKey,
    pub lang: Lang,
    pub status: Status,
    pub uprn: Uprn,
    pub usrn: Usrn,
    pub secondary: Option<Object>,
    pub primary: Object,
    pub start: Day,
    pub end: EndDay,
}

// No kind of item takes more room, and each item takes as much. Fields lie in the order of the
// source, so the two codes stand where they fill up the 14 bytes of the key.
const _: () = prove!(size_of::<Lpi>() == 128);

impl Model for Lpi {
    ghost use Rattle.std.specs.Prelude.{◌≡◌, true};
    ghost use Rattle.gaz_fields.specs.Days.{ends_by};
    ghost use Rattle.gaz_records.specs.Lpis.{LpiValue};

    ghost Value = { LpiValue };

    ghost view = { λ x. record {
      key = x.key;
      uprn = x.uprn;
      lang = x.lang;
      status = x.status;
      usrn = x.usrn;
      secondary = x.secondary;
      primary = x.primary;
      start = x.start;
      end = x.end;
    } };

    ghost invariant = { λ x. ends_by x.start x.end ≡ true };
}

#[tactic(auto, using(gaz_fields::proofs::Growing::growing), unfolding(csv::specs::Writing::fields_text))]
// Adds five empty fields, each behind a comma.
fn next_blank(out: &mut Vec<u8>) -> Result<(), AllocError>
    ensures row { OnOk result (AddsFields out.old.items out.new.items (secondary_texts None)) }
    ensures kept { Grows out.old.items out.new.items }
{
    out.extend_from_slice(b",,,,,")
}

// Adds the five fields of an object, if there is one, each behind a comma.
fn next_secondary(out: &mut Vec<u8>, object: &Option<Object>) -> Result<(), AllocError>
    ensures row { OnOk result
        (AddsFields out.old.items out.new.items (secondary_texts object.now)) }
    ensures kept { Grows out.old.items out.new.items }
{
    match object {
        Some(object) => next_object(out, object),
        None => next_blank(out),
    }
}

impl Lpi {
    #[tactic(auto, using(std::proofs::lemmas::Bool::Decides::nat_tests), unfolding(crate::specs::Lpis::read_lpi))]
    /// The LPI that the fields say.
    pub(crate) fn read(alloc: Global, fields: &Fields) -> Result<Lpi, FieldFault>
        ensures { OrMemory result (read_lpi fields.now) }
    {
        fields.count_is(17)?;
        let key = fields.label(0)?;
        let uprn = fields.number(1)?;
        let lang = fields.lang(2)?;
        let status = fields.lpi_status(3)?;
        let usrn = fields.number(4)?;
        let secondary = fields.opt_object(alloc, 5)?;
        let primary = fields.object(alloc, 10)?;
        let dates = fields.dates(15)?;
        Ok(Lpi {
            key,
            uprn,
            lang,
            status,
            usrn,
            secondary,
            primary,
            start: dates.start,
            end: EndDay::of(dates.end),
        })
    }

    #[tactic(auto, using(std::proofs::lemmas::Bool::Decides::nat_tests))]
    /// What each LPI holds, for callers, who see its value alone.
    pub fn known(&self)
        ensures { is_lpi self.now ≡ true }
    {
        let _ = self.key.as_bytes();
        let _ = self.uprn.number();
        let _ = self.usrn.number();
        if let Some(object) = &self.secondary {
            object.known();
        }
        self.primary.known();
        self.start.known();
        self.end.known();
    }

    /// Adds the row of the fields as `csv` writes it, without a line end.
    pub(crate) fn write(&self, out: &mut Vec<u8>) -> Result<(), AllocError>
        ensures row { OnOk result (AddsLine out.old.items out.new.items (lpi_texts self.now)) }
        ensures kept { Grows out.old.items out.new.items }
    {
        add_field(out, self.key.as_bytes())?;
        next_number(out, self.uprn.number())?;
        next_field(out, self.lang.text())?;
        next_field(out, self.status.text())?;
        next_number(out, self.usrn.number())?;
        next_secondary(out, &self.secondary)?;
        next_object(out, &self.primary)?;
        next_dates(out, &self.start, &self.end.day())?;
        Ok(())
    }
}
