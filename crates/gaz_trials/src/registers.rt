//! The sample register, one that it grows to, and what it answers.
use crate::wanted::holds;
use gaz_ids::{Code, Uprn, Usrn};
use gaz_register::Register;
use std::alloc::Global;
use std::test::Fail;

/// The sample register.
const SAMPLE: &str = "[[custodian]]\ncode = 1001\nname = \"Upper County\"\n\
    uprn = [[1, 99999], [999999999000, 999999999999]]\n\
    usrn = [[100, 199], [99999999, 99999999]]\n\
    [[custodian]]\ncode = 1002\nname = \"Lower District\"\n\
    uprn = [[100000, 199999]]\nusrn = [[200, 299]]\n\
    [[custodian]]\ncode = 1003\nname = \"Bay District\"\n\
    uprn = [[200000, 299999]]\nusrn = [[300, 399]]\n";

/// One custodian more.
const NEW_TOWN: &str = "[[custodian]]\ncode = 1004\nname = \"New Town\"\n\
    uprn = [[300000, 399999]]\nusrn = [[400, 499]]\n";

pub(crate) fn sample(alloc: Global) -> Result<Register, Fail> {
    Ok(Register::read(alloc, SAMPLE.as_bytes())?)
}

/// The sample register with one custodian more, 1004.
pub(crate) fn grown(alloc: Global) -> Result<Register, Fail> {
    let mut text = String::from_str(alloc, SAMPLE)?;
    text.push_str(NEW_TOWN)?;
    Ok(Register::read(alloc, text.as_bytes())?)
}

fn is_named(register: &Register, code: u64, name: &str) -> bool {
    match Code::of(code) {
        Some(code) => register.name(code) == Some(name),
        None => false,
    }
}

fn owns_property(register: &Register, uprn: u64, owner: u64) -> bool {
    match Uprn::of(uprn) {
        Some(uprn) => register.owner_uprn(uprn) == Code::of(owner),
        None => false,
    }
}

fn is_nobodys_street(register: &Register, usrn: u64) -> bool {
    match Usrn::of(usrn) {
        Some(usrn) => register.owner_usrn(usrn).is_none(),
        None => false,
    }
}

#[test]
fn custodians_and_owners_are_told(rt: HostRuntime) -> Result<(), Fail> {
    let register = sample(rt.alloc())?;
    holds(&rt, is_named(&register, 1003, "Bay District"), "a name");
    holds(&rt, owns_property(&register, 100000, 1002), "an owner");
    holds(&rt, is_nobodys_street(&register, 400), "no owner");
    Ok(())
}
