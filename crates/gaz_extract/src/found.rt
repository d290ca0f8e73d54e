ghost use Rattle.std.specs.Prelude.{◌≡◌, option_map};
ghost use Rattle.std.specs.Option.{option_and_then};
ghost use Rattle.gaz_extract.specs.Finding.{as_descriptor};
ghost use Rattle.gaz_extract.specs.Readings.{LooksAtBoard};
ghost use Rattle.gaz_keeper.specs.Telling.{IsNotJudging};
ghost use Rattle.gaz_extract.specs.Lookups.{descriptor_now, line_at, lookup, owner_of_street};
ghost use Rattle.gaz_extract.specs.Lookups.{said_by};

use crate::address::{AddressLine, line};
use crate::find::{descriptor_item, has_street, property_now};
use crate::lend::{descriptor_in, lpi_in};
use gaz_ids::{Code, Status, Uprn, Usrn};
use gaz_keeper::{Shelf, ShelfFault};
use gaz_records::{Blpu, Item, Lpi, SharedItem};
use gaz_register::Register;
use std::alloc::Global;

/// Where a property stands, and how it is addressed.
#[derive(Drop)]
pub struct Found {
    pub custodian: Code,
    pub uprn: Uprn,
    pub status: Status,
    /// None without an approved address, or without its street's descriptor in its language.
    pub line: Option<AddressLine>,
}

// Whose last view tells of a street now.
fn owner_of_street<K: Shelf>(
    keeper: &mut K,
    register: &Register,
    code: Code,
    usrn: Usrn,
) -> Result<Option<Code>, ShelfFault>
    requires { IsNotJudging K.seen keeper.old }
    ensures tells { LooksAtBoard K.seen keeper.old keeper.new result
        (λ board d. d ≡ owner_of_street board register.now code usrn) }
    ensures not_open { IsNotJudging K.seen keeper.new }
{
    let owner = register.owner_usrn(usrn);
    // Within its own block it is the custodian either way, and the keeper isn't asked.
    if owner == Some(code) || has_street(keeper, code, usrn)? {
        return Ok(Some(code));
    }
    Ok(owner)
}

// The item that is the descriptor of an address's street in its language.
fn descriptor_for<K: Shelf>(
    keeper: &mut K,
    register: &Register,
    code: Code,
    lpi: &Lpi,
) -> Result<Option<SharedItem>, ShelfFault>
    requires { IsNotJudging K.seen keeper.old }
    ensures tells { LooksAtBoard K.seen keeper.old keeper.new result
        (λ board i. option_and_then as_descriptor i
        ≡ descriptor_now board register.now code lpi.now) }
    ensures not_open { IsNotJudging K.seen keeper.new }
{
    match owner_of_street(keeper, register, code, lpi.usrn)? {
        Some(owner) => descriptor_item(keeper, owner, lpi.usrn, lpi.lang),
        None => Ok(None),
    }
}

// The line of a property at the address that it has.
fn line_at<K: Shelf>(
    alloc: Global,
    keeper: &mut K,
    register: &Register,
    code: Code,
    address: Option<&Lpi>,
    blpu: &Blpu,
) -> Result<Option<AddressLine>, ShelfFault>
    requires { IsNotJudging K.seen keeper.old }
    ensures tells { LooksAtBoard K.seen keeper.old keeper.new result
        (λ board l. l
        ≡ line_at board register.now code (option_map (λ a. a.now) address.entry) blpu.now) }
    ensures not_open { IsNotJudging K.seen keeper.new }
{
    let Some(lpi) = address else {
        return Ok(None);
    };
    let item = descriptor_for(keeper, register, code, lpi)?;
    let Some(descriptor) = descriptor_in(&item) else {
        return Ok(None);
    };
    Ok(Some(line(alloc, lpi, descriptor, blpu)?))
}

/// Where a property stands now with one custodian: what that one's last view says of it, whoever
/// else has it in theirs.
///
/// None where the BLPU isn't in that view. The line is as in `lookup`, and so are the faults.
pub fn lookup_with<K: Shelf>(
    alloc: Global,
    keeper: &mut K,
    register: &Register,
    code: Code,
    uprn: Uprn,
) -> Result<Option<Found>, ShelfFault>
    requires { IsNotJudging K.seen keeper.old }
    ensures tells { LooksAtBoard K.seen keeper.old keeper.new result
        (λ board f. f ≡ said_by board register.now uprn code) }
    ensures not_open { IsNotJudging K.seen keeper.new }
{
    let Some(property) = property_now(keeper, code, uprn)? else {
        return Ok(None);
    };
    let Item::Blpu(blpu) = property.blpu.as_item() else {
        return Ok(None);
    };
    let address = lpi_in(&property.address);
    let line = line_at(alloc, keeper, register, code, address, blpu)?;
    Ok(Some(Found {
        custodian: code,
        uprn,
        status: blpu.status,
        line,
    }))
}

/// Where a property stands now: with the least custodian of the register in whose last view its
/// BLPU does.
///
/// The line is that of the property's approved LPI of the least key, with the descriptor of that
/// LPI's street in its language: from the own last view where the street is there, else from the
/// last view of the custodian whose block holds the USRN (our profile, docs/extracts.md). None
/// where the BLPU stands in no last view. A fault is the keeper's, or `Memory` for the line.
pub fn lookup<K: Shelf>(
    alloc: Global,
    keeper: &mut K,
    register: &Register,
    uprn: Uprn,
) -> Result<Option<Found>, ShelfFault>
    requires { IsNotJudging K.seen keeper.old }
    ensures { LooksAtBoard K.seen keeper.old keeper.new result
        (λ board f. f ≡ lookup board register.now uprn) }
{
    for custodian in register.custodians() {
        let found = lookup_with(alloc, keeper, register, custodian.code(), uprn)?;
        if found.is_some() {
            return Ok(found);
        }
    }
    Ok(None)
}
