ghost use Rattle.std.specs.Prelude.{◌≡◌, OnOk, true};
ghost use Rattle.gaz_fields.specs.Fields.{OrMemory};
ghost use Rattle.gaz_fields.specs.Appending.{AddsLine, Grows};
ghost use Rattle.gaz_records.specs.Descriptors.{descriptor_texts, is_descriptor, read_descriptor};

use gaz_addressable::Text;
use gaz_fields::{FieldFault, Fields, add_number, next_field, next_text};
use gaz_ids::{Lang, Usrn};
use std::alloc::{AllocError, Global};
use std::marker::Model;

/// A street's descriptor: what it is called in a language, and where it lies (BS 7666:2006, Part 1;
/// its fields and their lengths are our profile's).
#[derive(Drop)]
pub struct Descriptor {
    pub usrn: Usrn,
    pub lang: Lang,
    pub description: Text<100>,
    pub locality: Option<Text<35>>,
    pub town: Option<Text<30>>,
    /// The administrative area.
    pub area: Text<30>,
}

impl Model for Descriptor {
    ghost use Rattle.gaz_records.specs.Descriptors.{DescriptorValue};

    ghost Value = { DescriptorValue };

    ghost view = { λ x. record {
      usrn = x.usrn;
      lang = x.lang;
      description = x.description;
      locality = x.locality;
      town = x.town;
      area = x.area;
    } };
}

impl Descriptor {
    #[tactic(auto, using(std::proofs::lemmas::Bool::Decides::nat_tests), unfolding(crate::specs::Descriptors::read_descriptor))]
    /// The descriptor that the fields say.
    pub(crate) fn read(alloc: Global, fields: &Fields) -> Result<Descriptor, FieldFault>
        ensures { OrMemory result (read_descriptor fields.now) }
    {
        fields.count_is(6)?;
        let usrn = fields.number(0)?;
        let lang = fields.lang(1)?;
        let description = fields.text(alloc, 2)?;
        let locality = fields.opt_text(alloc, 3)?;
        let town = fields.opt_text(alloc, 4)?;
        let area = fields.text(alloc, 5)?;
        Ok(Descriptor {
            usrn,
            lang,
            description,
            locality,
            town,
            area,
        })
    }

    #[tactic(auto, using(std::proofs::lemmas::Bool::Decides::nat_tests))]
    /// What each descriptor holds, for callers, who see its value alone.
    pub fn known(&self)
        ensures { is_descriptor self.now ≡ true }
    {
        let _ = self.usrn.number();
        let _ = self.description.as_bytes();
        if let Some(locality) = &self.locality {
            let _ = locality.as_bytes();
        }
        if let Some(town) = &self.town {
            let _ = town.as_bytes();
        }
        let _ = self.area.as_bytes();
    }

    /// Adds the row of the fields as `csv` writes it, without a line end.
    pub(crate) fn write(&self, out: &mut Vec<u8>) -> Result<(), AllocError>
        ensures row { OnOk result
            (AddsLine out.old.items out.new.items (descriptor_texts self.now)) }
        ensures kept { Grows out.old.items out.new.items }
    {
        add_number(out, self.usrn.number())?;
        next_field(out, self.lang.text())?;
        next_field(out, self.description.as_bytes())?;
        next_text(out, &self.locality)?;
        next_text(out, &self.town)?;
        next_field(out, self.area.as_bytes())?;
        Ok(())
    }
}
