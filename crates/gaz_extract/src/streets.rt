//! Streets that closed elsewhere, each asked once for all addresses of a custodian on it.
ghost use Rattle.std.specs.Prelude.{◌≡◌, Some, OnOk};
ghost use Rattle.std.specs.BTreeMap.{Updates};
ghost use Rattle.std.specs.Ordering.{nat_cmp};
ghost use Rattle.gaz_extract.specs.Closing.{closed_at_owner, is_closed_elsewhere, is_on_closed};
ghost use Rattle.gaz_extract.specs.Readings.{LooksAtBoard};
ghost use Rattle.gaz_extract.specs.Remembering.{Recalls};
ghost use Rattle.gaz_keeper.specs.Telling.{IsNotJudging};

use crate::find::{has_closed_street, has_street};
use gaz_ids::{Code, Status, Usrn};
use gaz_keeper::{Shelf, ShelfFault};
use gaz_records::Lpi;
use gaz_register::Register;
use std::alloc::AllocError;
use std::collections::BTreeMap;

// Whether a street is closed in the last view of the custodian whose block holds it.
fn closed_at_owner<K: Shelf>(
    keeper: &mut K,
    register: &Register,
    usrn: Usrn,
) -> Result<bool, ShelfFault>
    requires { IsNotJudging K.seen keeper.old }
    ensures tells { LooksAtBoard K.seen keeper.old keeper.new result
        (λ board b. b ≡ closed_at_owner board register.now usrn) }
    ensures not_open { IsNotJudging K.seen keeper.new }
{
    match register.owner_usrn(usrn) {
        Some(owner) => has_closed_street(keeper, owner, usrn),
        None => Ok(false),
    }
}

// Asks whether a street isn't in the own last view and is closed in its owner's.
fn ask_street<K: Shelf>(
    keeper: &mut K,
    register: &Register,
    code: Code,
    usrn: Usrn,
) -> Result<bool, ShelfFault>
    requires { IsNotJudging K.seen keeper.old }
    ensures tells { LooksAtBoard K.seen keeper.old keeper.new result
        (λ board b. b ≡ is_closed_elsewhere board register.now code usrn) }
    ensures not_open { IsNotJudging K.seen keeper.new }
{
    if has_street(keeper, code, usrn)? {
        return Ok(false);
    }
    closed_at_owner(keeper, register, usrn)
}

// Remembers what was told of a street.
fn remember(asked: &mut BTreeMap<Usrn, bool>, usrn: Usrn, closed: bool) -> Result<(), AllocError>
    ensures { OnOk result (Updates nat_cmp asked.old asked.new usrn (Some closed)) }
{
    asked.insert(usrn, closed)?;
    Ok(())
}

// Whether a street isn't in the own last view and is closed in its owner's: as it is remembered,
// else as the keeper tells, and remembered from then on.
fn is_closed_elsewhere<K: Shelf>(
    keeper: &mut K,
    register: &Register,
    code: Code,
    usrn: Usrn,
    asked: &mut BTreeMap<Usrn, bool>,
) -> Result<bool, ShelfFault>
    requires { IsNotJudging K.seen keeper.old }
    ensures tells { LooksAtBoard K.seen keeper.old keeper.new result
        (λ board b. Recalls board register.now code asked.old.entries asked.new.entries
        (b ≡ is_closed_elsewhere board register.now code usrn)) }
    ensures not_open { IsNotJudging K.seen keeper.new }
{
    if let Some(closed) = asked.get(&usrn) {
        return Ok(*closed);
    }
    let closed = ask_street(keeper, register, code, usrn)?;
    remember(asked, usrn, closed)?;
    Ok(closed)
}

/// Whether an address is approved, and its street closed elsewhere.
pub fn is_on_closed<K: Shelf>(
    keeper: &mut K,
    register: &Register,
    code: Code,
    lpi: &Lpi,
    asked: &mut BTreeMap<Usrn, bool>,
) -> Result<bool, ShelfFault>
    requires { IsNotJudging K.seen keeper.old }
    ensures tells { LooksAtBoard K.seen keeper.old keeper.new result
        (λ board b. Recalls board register.now code asked.old.entries asked.new.entries
        (b ≡ is_on_closed board register.now code lpi.now)) }
    ensures not_open { IsNotJudging K.seen keeper.new }
{
    if !matches!(lpi.status, Status::Approved) {
        return Ok(false);
    }
    is_closed_elsewhere(keeper, register, code, lpi.usrn, asked)
}
