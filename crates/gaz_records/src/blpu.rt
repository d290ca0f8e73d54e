ghost use Rattle.std.specs.Prelude.{◌≡◌, ◌≤◌, [], ◌∷◌, OnOk, true};
ghost use Rattle.gaz_fields.specs.Fields.{OrMemory};
ghost use Rattle.gaz_fields.specs.Appending.{AddsFields, AddsLine, Grows};
ghost use Rattle.gaz_records.specs.Blpus.{blpu_texts, is_blpu, read_behind, read_blpu};
ghost use Rattle.gaz_records.specs.Blpus.{parent_text, texts_behind};

use gaz_addressable::Text;
use gaz_fields::{
    Day, FieldFault, Fields, add_number, next_dates, next_field, next_number, next_text,
};
use gaz_ids::{Number, Status, Uprn};
use std::alloc::{AllocError, Global};
use std::marker::Model;

/// Metres east of the false origin of the National Grid, 0 to 700,000 (our profile).
pub type Easting = Number<21, 6, 0, 700_000>;

/// Metres north of the false origin of the National Grid, 0 to 1,300,000 (our profile).
pub type Northing = Number<22, 7, 0, 1_300_000>;

/// A basic land and property unit (BS 7666:2006, Part 2; all but its UPRN is our profile's).
///
/// It is no alternative, and its end date isn't before its start date. `parent` is the BLPU of
/// which it is a part.
#[derive(Drop)]
pub struct Blpu {
    pub uprn: Uprn,
    pub status: Status,
    pub easting: Easting,
    pub northing: Northing,
    pub parent: Option<Uprn>,
    pub postcode: Option<Text<8>>,
    pub start: Day,
    pub end: Option<Day>,
}

impl Model for Blpu {
    ghost use Rattle.std.specs.Prelude.{◌≡◌, ◌&&◌, is_some, true};
    ghost use Rattle.gaz_fields.specs.Days.{ends_by};
    ghost use Rattle.gaz_fields.specs.Forms.{of_blpu};
    ghost use Rattle.gaz_records.specs.Blpus.{BlpuValue};

    ghost Value = { BlpuValue };

    ghost view = { λ x. record {
      uprn = x.uprn;
      status = x.status;
      easting = x.easting;
      northing = x.northing;
      parent = x.parent;
      postcode = x.postcode;
      start = x.start;
      end = x.end;
    } };

    ghost invariant = { λ x. (is_some (of_blpu x.status) && ends_by x.start x.end) ≡ true };
}

// Adds a comma and the digits of a UPRN, if there is one.
fn next_parent(out: &mut Vec<u8>, parent: Option<Uprn>) -> Result<(), AllocError>
    ensures row { OnOk result (AddsFields out.old.items out.new.items (parent_text parent ∷ [])) }
    ensures kept { Grows out.old.items out.new.items }
{
    match parent {
        Some(uprn) => next_number(out, uprn.number()),
        None => next_field(out, b""),
    }
}

impl Blpu {
    #[tactic(auto, using(std::proofs::lemmas::Bool::Decides::nat_tests), unfolding(crate::specs::Blpus::read_blpu, crate::specs::Blpus::read_behind))]
    /// The BLPU that the fields say.
    pub(crate) fn read(alloc: Global, fields: &Fields) -> Result<Blpu, FieldFault>
        ensures { OrMemory result (read_blpu fields.now) }
    {
        fields.count_is(8)?;
        let uprn = fields.number(0)?;
        Blpu::read_behind(alloc, fields, uprn, 1)
    }

    #[tactic(auto, using(std::proofs::lemmas::Bool::Decides::nat_tests), unfolding(crate::specs::Blpus::read_behind))]
    /// The BLPU of a number and of the fields behind it, the first of which is at a place.
    pub(crate) fn read_behind(
        alloc: Global,
        fields: &Fields,
        uprn: Uprn,
        at: usize,
    ) -> Result<Blpu, FieldFault>
        requires { at ≤ 3 }
        ensures { OrMemory result (read_behind uprn fields.now at) }
    {
        let status = fields.blpu_status(at)?;
        let easting = fields.number(at + 1)?;
        let northing = fields.number(at + 2)?;
        let parent = fields.opt_number(at + 3)?;
        let postcode = fields.opt_text(alloc, at + 4)?;
        let dates = fields.dates(at + 5)?;
        Ok(Blpu {
            uprn,
            status,
            easting,
            northing,
            parent,
            postcode,
            start: dates.start,
            end: dates.end,
        })
    }

    #[tactic(auto, using(std::proofs::lemmas::Bool::Decides::nat_tests))]
    /// What each BLPU holds, for callers, who see its value alone.
    pub fn known(&self)
        ensures { is_blpu self.now ≡ true }
    {
        let _ = self.uprn.number();
        let _ = self.easting.number();
        let _ = self.northing.number();
        if let Some(parent) = &self.parent {
            let _ = parent.number();
        }
        if let Some(postcode) = &self.postcode {
            let _ = postcode.as_bytes();
        }
        self.start.known();
        if let Some(end) = &self.end {
            end.known();
        }
    }

    /// Adds the row of the fields as `csv` writes it, without a line end.
    pub(crate) fn write(&self, out: &mut Vec<u8>) -> Result<(), AllocError>
        ensures row { OnOk result (AddsLine out.old.items out.new.items (blpu_texts self.now)) }
        ensures kept { Grows out.old.items out.new.items }
    {
        add_number(out, self.uprn.number())?;
        self.write_behind(out)?;
        Ok(())
    }

    /// Adds the fields behind the number, each behind a comma.
    pub(crate) fn write_behind(&self, out: &mut Vec<u8>) -> Result<(), AllocError>
        ensures row { OnOk result (AddsFields out.old.items out.new.items (texts_behind self.now)) }
        ensures kept { Grows out.old.items out.new.items }
    {
        next_field(out, self.status.text())?;
        next_number(out, self.easting.number())?;
        next_number(out, self.northing.number())?;
        next_parent(out, self.parent)?;
        next_text(out, &self.postcode)?;
        next_dates(out, &self.start, &self.end)?;
        Ok(())
    }
}
