ghost use Rattle.std.specs.Prelude.{◌≡◌, OnOk, true};
ghost use Rattle.gaz_fields.specs.Appending.{AddsLine, Grows};
ghost use Rattle.gaz_records.specs.Releases.{is_release, read_release, release_texts};

use gaz_fields::{FieldFault, Fields, add_number, next_number};
use gaz_ids::{Code, Hop, Uprn};
use std::alloc::AllocError;

/// A custodian gives a property up to another (our profile): its number, who is to have it, and
/// how often it will have passed on then.
#[derive(Drop)]
pub struct Release {
    pub uprn: Uprn,
    pub to: Code,
    pub hop: Hop,
}

impl Release {
    #[tactic(auto, using(std::proofs::lemmas::Bool::Decides::nat_tests), unfolding(crate::specs::Releases::read_release))]
    /// The release that the fields say.
    pub(crate) fn read(fields: &Fields) -> Result<Release, FieldFault>
        ensures { result ≡ read_release fields.now }
    {
        fields.count_is(3)?;
        let uprn = fields.number(0)?;
        let to = fields.number(1)?;
        let hop = fields.number(2)?;
        Ok(Release { uprn, to, hop })
    }

    #[tactic(auto, using(std::proofs::lemmas::Bool::Decides::nat_tests))]
    /// What each release holds, for callers, who see its value alone.
    pub fn known(&self)
        ensures { is_release self.now ≡ true }
    {
        let _ = self.uprn.number();
        let _ = self.to.number();
        let _ = self.hop.number();
    }

    /// Adds the row of the fields as `csv` writes it, without a line end.
    pub(crate) fn write(&self, out: &mut Vec<u8>) -> Result<(), AllocError>
        ensures row { OnOk result (AddsLine out.old.items out.new.items (release_texts self.now)) }
        ensures kept { Grows out.old.items out.new.items }
    {
        add_number(out, self.uprn.number())?;
        next_number(out, self.to.number())?;
        next_number(out, self.hop.number())?;
        Ok(())
    }
}
