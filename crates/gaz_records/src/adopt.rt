ghost use Rattle.std.specs.Prelude.{◌≡◌, OnOk, true};
ghost use Rattle.gaz_fields.specs.Fields.{OrMemory};
ghost use Rattle.gaz_fields.specs.Appending.{AddsLine, Grows};
ghost use Rattle.gaz_records.specs.Adopts.{adopt_texts, is_adopt, read_adopt};

use crate::blpu::Blpu;
use gaz_fields::{FieldFault, Fields, add_number, next_number};
use gaz_ids::{Code, Hop};
use std::alloc::{AllocError, Global};

/// A custodian takes a property that another released to it (our profile): the BLPU as it is to
/// stand in its gazetteer, who released it, and how often it has passed on then.
#[derive(Drop)]
pub struct Adopt {
    pub blpu: Blpu,
    pub from: Code,
    pub hop: Hop,
}

impl Adopt {
    #[tactic(auto, using(std::proofs::lemmas::Bool::Decides::nat_tests), unfolding(crate::specs::Adopts::read_adopt, crate::specs::Blpus::read_behind))]
    /// The adoption that the fields say.
    pub(crate) fn read(alloc: Global, fields: &Fields) -> Result<Adopt, FieldFault>
        ensures { OrMemory result (read_adopt fields.now) }
    {
        fields.count_is(10)?;
        let uprn = fields.number(0)?;
        let from = fields.number(1)?;
        let hop = fields.number(2)?;
        let blpu = Blpu::read_behind(alloc, fields, uprn, 3)?;
        Ok(Adopt { blpu, from, hop })
    }

    #[tactic(auto, using(std::proofs::lemmas::Bool::Decides::nat_tests))]
    /// What each adoption holds, for callers, who see its value alone.
    pub fn known(&self)
        ensures { is_adopt self.now ≡ true }
    {
        self.blpu.known();
        let _ = self.from.number();
        let _ = self.hop.number();
    }

    /// Adds the row of the fields as `csv` writes it, without a line end.
    pub(crate) fn write(&self, out: &mut Vec<u8>) -> Result<(), AllocError>
        ensures row { OnOk result (AddsLine out.old.items out.new.items (adopt_texts self.now)) }
        ensures kept { Grows out.old.items out.new.items }
    {
        add_number(out, self.blpu.uprn.number())?;
        next_number(out, self.from.number())?;
        next_number(out, self.hop.number())?;
        self.blpu.write_behind(out)?;
        Ok(())
    }
}
