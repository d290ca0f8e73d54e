ghost use Rattle.std.specs.Prelude.{◌≡◌, OnOk, true};
ghost use Rattle.gaz_fields.specs.Fields.{OrMemory};
ghost use Rattle.gaz_fields.specs.Appending.{AddsLine, Grows};
ghost use Rattle.gaz_records.specs.Xrefs.{is_xref, read_xref, xref_texts};

use gaz_addressable::Text;
use gaz_fields::{
    Day, FieldFault, Fields, RecordKey, Source, add_field, next_dates, next_field, next_number,
};
use gaz_ids::Uprn;
use std::alloc::{AllocError, Global};
use std::marker::Model;

/// A cross reference: by what another source knows a BLPU (our profile).
///
/// Its end date isn't before its start date.
#[derive(Drop)]
pub struct Xref {
    pub key: RecordKey,
    pub uprn: Uprn,
    pub source: Source,
    pub reference: Text<50>,
    pub start: Day,
    pub end: Option<Day>,
}

impl Model for Xref {
    ghost use Rattle.std.specs.Prelude.{◌≡◌, true};
    ghost use Rattle.gaz_fields.specs.Days.{ends_by};
    ghost use Rattle.gaz_records.specs.Xrefs.{XrefValue};

    ghost Value = { XrefValue };

    ghost view = { λ x. record {
      key = x.key;
      uprn = x.uprn;
      source = x.source;
      reference = x.reference;
      start = x.start;
      end = x.end;
    } };

    ghost invariant = { λ x. ends_by x.start x.end ≡ true };
}

impl Xref {
    #[tactic(auto, using(std::proofs::lemmas::Bool::Decides::nat_tests), unfolding(crate::specs::Xrefs::read_xref))]
    /// The cross reference that the fields say.
    pub(crate) fn read(alloc: Global, fields: &Fields) -> Result<Xref, FieldFault>
        ensures { OrMemory result (read_xref fields.now) }
    {
        fields.count_is(6)?;
        let key = fields.label(0)?;
        let uprn = fields.number(1)?;
        let source = fields.label(2)?;
        let reference = fields.text(alloc, 3)?;
        let dates = fields.dates(4)?;
        Ok(Xref {
            key,
            uprn,
            source,
            reference,
            start: dates.start,
            end: dates.end,
        })
    }

    #[tactic(auto, using(std::proofs::lemmas::Bool::Decides::nat_tests))]
    /// What each cross reference holds, for callers, who see its value alone.
    pub fn known(&self)
        ensures { is_xref self.now ≡ true }
    {
        let _ = self.key.as_bytes();
        let _ = self.uprn.number();
        let _ = self.source.as_bytes();
        let _ = self.reference.as_bytes();
        self.start.known();
        if let Some(end) = &self.end {
            end.known();
        }
    }

    /// Adds the row of the fields as `csv` writes it, without a line end.
    pub(crate) fn write(&self, out: &mut Vec<u8>) -> Result<(), AllocError>
        ensures row { OnOk result (AddsLine out.old.items out.new.items (xref_texts self.now)) }
        ensures kept { Grows out.old.items out.new.items }
    {
        add_field(out, self.key.as_bytes())?;
        next_number(out, self.uprn.number())?;
        next_field(out, self.source.as_bytes())?;
        next_field(out, self.reference.as_bytes())?;
        next_dates(out, &self.start, &self.end)?;
        Ok(())
    }
}
