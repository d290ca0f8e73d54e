ghost use Rattle.std.specs.Prelude.{◌≡◌, ◌≤◌, length, true};
ghost use Rattle.std.specs.List.{list_all};
ghost use Rattle.std.specs.Option.{option_copied};
ghost use Rattle.std.specs.List.Sorted.{IsNonDecreasingBy};
ghost use Rattle.gaz_register.specs.Drafts.{OrMemory};
ghost use Rattle.gaz_register.specs.Reading.{checked};
ghost use Rattle.gaz_register.specs.Registers.{IsRegister, blocks_of, code_of, custodian_of};
ghost use Rattle.gaz_register.specs.Registers.{is_custodian, knows, most_custodians, name_of};
ghost use Rattle.gaz_register.specs.Registers.{owner_of_uprn, owner_of_usrn, within};

use crate::custodian::{Custodian, find_custodian, have_own_codes};
use crate::fault::RegFault;
use crate::index::{Holding, Kind, index_of, owner_at};
use gaz_ids::{Code, Uprn, Usrn};
use std::alloc::Global;
use std::marker::Model;

/// The custodians and their blocks: at most 400 custodians with codes of their own, and no number
/// in two blocks.
#[derive(Drop)]
pub struct Register {
    custodians: Vec<Custodian>,
    uprn: Vec<Holding>,
    usrn: Vec<Holding>,
}

impl Model for Register {
    ghost use Rattle.std.specs.Prelude.{List};
    ghost use Rattle.gaz_register.specs.Registers.{CustodianValue};
    ghost use Rattle.gaz_register.specs.Indexes.{IsIndexed};

    ghost Value = { List CustodianValue };

    ghost view = { λ r. r.custodians.items };

    ghost invariant = { λ r. IsIndexed r.custodians.items r.uprn.items r.usrn.items };
}

impl Register {
    #[tactic(auto, unfolding(crate::specs::Reading::checked))]
    /// The register of custodians that stand by rising code.
    pub(crate) fn of(alloc: Global, custodians: Vec<Custodian>) -> Result<Register, RegFault>
        requires few { length custodians.items ≤ most_custodians }
        requires sorted { IsNonDecreasingBy (λ c. c.code) custodians.items }
        requires lawful { list_all is_custodian custodians.items ≡ true }
        ensures { OrMemory result (checked custodians.items) }
    {
        if !have_own_codes(&custodians) {
            return Err(RegFault::SameCode);
        }
        let uprn = index_of(alloc, &custodians, Kind::Uprn)?;
        let usrn = index_of(alloc, &custodians, Kind::Usrn)?;
        Ok(Register {
            custodians,
            uprn,
            usrn,
        })
    }

    /// The custodians by rising code, at most 400.
    pub fn custodians(&self) -> &[Custodian]
        ensures value { result.now ≡ self.now }
        ensures lawful { IsRegister self.now }
    {
        self.custodians.as_slice()
    }

    /// The custodian with this code.
    pub fn custodian(&self, code: Code) -> Option<&Custodian>
        ensures { option_copied result ≡ custodian_of self.now code }
    {
        find_custodian(&self.custodians, code)
    }

    /// Whether the register has a custodian with this code.
    pub fn holds(&self, code: Code) -> bool
        ensures { result ≡ knows self.now code }
    {
        self.custodian(code).is_some()
    }

    /// The code of this number, where the register has a custodian with it.
    pub fn code_of(&self, number: u64) -> Option<Code>
        ensures { result ≡ code_of self.now number }
    {
        let custodians = self.custodians();
        let Some(code) = Code::of(number) else {
            return None;
        };
        match find_custodian(custodians, code) {
            Some(_) => Some(code),
            None => None,
        }
    }

    /// The name of the custodian with this code.
    pub fn name(&self, code: Code) -> Option<&str>
        ensures { option_copied result ≡ name_of self.now code }
    {
        match self.custodian(code) {
            Some(custodian) => Some(custodian.name()),
            None => None,
        }
    }

    /// The custodian whose block holds the UPRN, or nobody. The time grows with the logarithm of
    /// the blocks.
    pub fn owner_uprn(&self, uprn: Uprn) -> Option<Code>
        ensures { result ≡ owner_of_uprn self.now uprn }
    {
        owner_at(&self.uprn, uprn.number())
    }

    /// The custodian whose block holds the USRN, or nobody. The time grows with the logarithm of
    /// the blocks.
    pub fn owner_usrn(&self, usrn: Usrn) -> Option<Code>
        ensures { result ≡ owner_of_usrn self.now usrn }
    {
        owner_at(&self.usrn, usrn.number())
    }

    /// Whether the custodian's own block holds the UPRN; never where the register lacks the
    /// custodian.
    pub fn allotted(&self, code: Code, uprn: Uprn) -> bool
        ensures { result ≡ within (blocks_of self.now code).uprn uprn }
    {
        match self.custodian(code) {
            Some(custodian) => custodian
                .uprn()
                .iter()
                .any(|block| block.holds(uprn.number())),
            None => false,
        }
    }

    /// Whether the custodian's own block holds the USRN; never where the register lacks the
    /// custodian.
    pub fn allotted_usrn(&self, code: Code, usrn: Usrn) -> bool
        ensures { result ≡ within (blocks_of self.now code).usrn usrn }
    {
        match self.custodian(code) {
            Some(custodian) => custodian
                .usrn()
                .iter()
                .any(|block| block.holds(usrn.number())),
            None => false,
        }
    }
}
