ghost use Rattle.std.specs.Prelude.{◌≡◌, ◌<◌, ◌==◌, ◌↔◌, IfOk, IsTrue, length};
ghost use Rattle.std.specs.List.{AllAdjacentBelow, find};
ghost use Rattle.std.specs.List.Sorted.{IsNonDecreasingBy};
ghost use Rattle.std.specs.Option.{option_copied};
ghost use Rattle.gaz_register.specs.Lists.{place};

use crate::block::Block;
use gaz_ids::Code;
use std::alloc::AllocError;
use std::marker::Model;

/// A custodian: its code, its name and its own blocks, which stand by rising first number.
#[derive(Drop)]
pub struct Custodian {
    code: Code,
    name: String,
    uprn: Vec<Block>,
    usrn: Vec<Block>,
}

impl Model for Custodian {
    ghost use Rattle.std.specs.String.{string_bytes};
    ghost use Rattle.gaz_register.specs.Registers.{CustodianValue};

    ghost Value = { CustodianValue };

    ghost view = { λ c. record {
      code = c.code;
      name = string_bytes c.name;
      own = record { uprn = c.uprn.items; usrn = c.usrn.items };
    } };
}

impl Custodian {
    ghost use Rattle.std.specs.String.{string_bytes};

    pub(crate) fn new(code: Code, name: String, uprn: Vec<Block>, usrn: Vec<Block>) -> Self
        ensures { result ≡ record {
          code = code;
          name = string_bytes name;
          own = record { uprn = uprn.items; usrn = usrn.items };
        } }
    {
        Custodian {
            code,
            name,
            uprn,
            usrn,
        }
    }

    /// The code, 1 to 9999.
    pub fn code(&self) -> Code
        ensures { result ≡ self.now.code }
    {
        self.code
    }

    /// The name: 1 to 60 characters, none below U+0020 nor U+007F, with no space at either end.
    pub fn name(&self) -> &str
        ensures { result.now ≡ self.now.name }
    {
        self.name.as_str()
    }

    /// The custodian's own blocks of UPRNs, at most 8, by rising first number.
    pub fn uprn(&self) -> &[Block]
        ensures { result.now ≡ self.now.own.uprn }
    {
        self.uprn.as_slice()
    }

    /// The custodian's own blocks of USRNs, at most 8, by rising first number.
    pub fn usrn(&self) -> &[Block]
        ensures { result.now ≡ self.now.own.usrn }
    {
        self.usrn.as_slice()
    }
}

/// Puts a custodian behind those whose code isn't higher.
pub(crate) fn put_custodian(
    custodians: &mut Vec<Custodian>,
    custodian: Custodian,
) -> Result<(), AllocError>
    requires { IsNonDecreasingBy (λ c. c.code) custodians.old.items }
    ensures placed { IfOk result (λ _.
        custodians.new.items ≡ place (λ c. c.code) custodian custodians.old.items) }
    ensures rises { IfOk result (λ _. IsNonDecreasingBy (λ c. c.code) custodians.new.items) }
{
    let code = custodian.code().number();
    let at = custodians.partition_point(|other| other.code().number() <= code);
    custodians.insert(at, custodian)?;
    Ok(())
}

/// The custodian with this code, of those that stand by rising code.
pub(crate) fn find_custodian(custodians: &[Custodian], code: Code) -> Option<&Custodian>
    requires { IsNonDecreasingBy (λ c. c.code) custodians.now }
    ensures { option_copied result ≡ find (λ c. c.code == code) custodians.now }
{
    let number = code.number();
    let at = custodians.partition_point(|custodian| custodian.code().number() < number);
    if at == custodians.len() {
        return None;
    }
    let found = &custodians[at];
    if found.code().number() == number {
        Some(found)
    } else {
        None
    }
}

/// Whether each code is below the next.
pub(crate) fn have_own_codes(custodians: &[Custodian]) -> bool
    ensures { IsTrue result
        ↔ AllAdjacentBelow (λ a b. a.code < b.code) custodians.now (length custodians.now) }
{
    for i in 1..custodians.len() {
        if custodians[i].code().number() <= custodians[i - 1].code().number() {
            return false;
        }
    }
    true
}
