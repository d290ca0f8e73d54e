ghost use Rattle.std.specs.Prelude.{◌≡◌, OnErr, OnOk};
ghost use Rattle.gaz_register.specs.Growing.{growth_of, has_blocks, keeps_blocks};
ghost use Rattle.gaz_register.specs.Growing.{keeps_custodians};

use crate::custodian::Custodian;
use crate::register::Register;
use thiserror::Error;

/// Why a register is no growth of another. The faults are looked for in this order.
#[derive(Clone, Copy, Debug, Error)]
pub enum GrowFault {
    #[error("a custodian is no longer there")]
    RemovedCustodian,
    #[error("a custodian has other blocks")]
    ChangedBlocks,
}

fn keeps_custodians(old: &Register, grown: &Register) -> bool
    ensures { result ≡ keeps_custodians old.now grown.now }
{
    old.custodians()
        .iter()
        .all(|custodian| grown.holds(custodian.code()))
}

fn has_blocks(grown: &Register, old: &Custodian) -> bool
    ensures { result ≡ has_blocks grown.now old.now }
{
    match grown.custodian(old.code()) {
        Some(custodian) => custodian.uprn() == old.uprn() && custodian.usrn() == old.usrn(),
        None => false,
    }
}

fn keeps_blocks(old: &Register, grown: &Register) -> bool
    ensures { result ≡ keeps_blocks old.now grown.now }
{
    old.custodians()
        .iter()
        .all(|custodian| has_blocks(grown, custodian))
}

impl Register {
    /// Whether the other register has each custodian of this one, with the same blocks; it may have
    /// more, and other names. All custodians are looked for before any blocks: `RemovedCustodian`
    /// where one is not there, `ChangedBlocks` where one has other blocks.
    pub fn growth(&self, grown: &Register) -> Result<(), GrowFault>
        ensures { result ≡ growth_of self.now grown.now }
    {
        if !keeps_custodians(self, grown) {
            return Err(GrowFault::RemovedCustodian);
        }
        if !keeps_blocks(self, grown) {
            return Err(GrowFault::ChangedBlocks);
        }
        Ok(())
    }

    /// Puts the other register in place of this one, which it must be a growth of. Errors as
    /// `growth`, in its order; the register is then as it was.
    pub fn extend(&mut self, grown: Register) -> Result<(), GrowFault>
        ensures told { result ≡ growth_of self.old grown }
        ensures grown { OnOk result (self.new ≡ grown) }
        ensures unchanged { OnErr result (self.new ≡ self.old) }
    {
        self.growth(&grown)?;
        *self = grown;
        Ok(())
    }
}
