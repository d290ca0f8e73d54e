//! Who holds a number that may have passed on, and what that one says of its property.
ghost use Rattle.std.specs.Prelude.{◌≡◌, ◌==◌, None};
ghost use Rattle.std.specs.Option.{option_and_then};
ghost use Rattle.gaz_chains.specs.Finding.{asked};
ghost use Rattle.gaz_extract.specs.Lookups.{said_by};
ghost use Rattle.gaz_extract.specs.Readings.{LooksAtBoard, LooksAtLast};
ghost use Rattle.gaz_keeper.specs.Board.{last_view};
ghost use Rattle.gaz_keeper.specs.Telling.{IsNotJudging};
ghost use Rattle.gaz_views.specs.Custody.{hop_of};
ghost use Rattle.gaz_views.specs.View.{custody_at};
ghost use Rattle.gaz_steps.specs.Chains.{holder_from};
ghost use Rattle.gaz_steps.specs.Following.{as_asked};
ghost use Rattle.gaz_steps.specs.Owners.{said_by_known, told_by_holder};

use gaz_extract::{Found, lookup_with};
use gaz_ids::{Code, Uprn};
use gaz_keeper::{Shelf, ShelfFault};
use gaz_register::Register;
use gaz_views::{Custody, hop_of};
use std::alloc::Global;

/// A turn for the first custodian and for each hop.
const MOST_TURNS: u64 = 10_000;

/// Whom to ask after a custodian, or whether it holds the number itself.
#[derive(Clone, Copy)]
pub enum Asked {
    Here,
    Nobody,
    Next(Code),
}

// What last became of a number, in a custodian's last view.
fn custody_now<K: Shelf>(
    keeper: &mut K,
    code: Code,
    uprn: Uprn,
) -> Result<Option<Custody>, ShelfFault>
    requires { IsNotJudging K.seen keeper.old }
    ensures tells { LooksAtLast K.seen keeper.old keeper.new result code
        (λ view c. c ≡ custody_at view uprn) }
    ensures not_open { IsNotJudging K.seen keeper.new }
{
    keeper.custody(code, uprn)
}

// Whom to ask after a custodian, where the number is in the blocks of this owner.
fn ask<K: Shelf>(keeper: &mut K, owner: Code, code: Code, uprn: Uprn) -> Result<Asked, ShelfFault>
    requires { IsNotJudging K.seen keeper.old }
    ensures tells { LooksAtBoard K.seen keeper.old keeper.new result
        (λ board a. as_asked a ≡ asked (λ c. custody_at (last_view board c) uprn)
        (code == owner) (custody_at (last_view board code) uprn)) }
    ensures not_open { IsNotJudging K.seen keeper.new }
{
    let custody = custody_now(keeper, code, uprn)?;
    match &custody {
        None if code == owner => Ok(Asked::Here),
        None => Ok(Asked::Nobody),
        Some(Custody::Adopted { .. }) => Ok(Asked::Here),
        Some(Custody::Released { to, hop }) => {
            let there = custody_now(keeper, *to, uprn)?;
            if hop_of(&there) < hop.number() {
                Ok(Asked::Nobody)
            } else {
                Ok(Asked::Next(*to))
            }
        }
    }
}

// Who is found to hold a number, from the custodian on in whose blocks it lies. On a board that is
// judged by the rules hops rise from each to the next, so that the turns are enough.
fn holder_from<K: Shelf>(
    keeper: &mut K,
    owner: Code,
    uprn: Uprn,
) -> Result<Option<Code>, ShelfFault>
    requires { IsNotJudging K.seen keeper.old }
    ensures tells { LooksAtBoard K.seen keeper.old keeper.new result
        (λ board c. c ≡ holder_from board uprn owner) }
    ensures not_open { IsNotJudging K.seen keeper.new }
{
    let mut code = owner;
    for _turn in 0..MOST_TURNS {
        match ask(keeper, owner, code, uprn)? {
            Asked::Here => return Ok(Some(code)),
            Asked::Nobody => return Ok(None),
            Asked::Next(to) => code = to,
        }
    }
    Ok(None)
}

// What a custodian says of a property, where the register has it.
fn ask_known<K: Shelf>(
    alloc: Global,
    register: &Register,
    keeper: &mut K,
    code: Code,
    uprn: Uprn,
) -> Result<Option<Found>, ShelfFault>
    requires { IsNotJudging K.seen keeper.old }
    ensures { LooksAtBoard K.seen keeper.old keeper.new result
        (λ board found. found ≡ said_by_known board register.now uprn code) }
{
    match register.code_of(code.number()) {
        Some(code) => lookup_with(alloc, keeper, register, code, uprn),
        None => Ok(None),
    }
}

// What is found of a property that isn't with the custodian in whose blocks its number lies.
fn ask_further<K: Shelf>(
    alloc: Global,
    register: &Register,
    keeper: &mut K,
    owner: Code,
    uprn: Uprn,
) -> Result<Option<Found>, ShelfFault>
    requires { IsNotJudging K.seen keeper.old }
    ensures { LooksAtBoard K.seen keeper.old keeper.new result
        (λ board found. said_by board register.now uprn owner ≡ None
        → found ≡ option_and_then (said_by_known board register.now uprn)
        (holder_from board uprn owner)) }
{
    match holder_from(keeper, owner, uprn)? {
        // It is asked already.
        Some(holder) if holder == owner => Ok(None),
        Some(holder) => ask_known(alloc, register, keeper, holder, uprn),
        None => Ok(None),
    }
}

/// What the holder of a number says of its property. The custodian in whose blocks the number lies
/// is asked first: where it has the property nobody else can have it, and only where it hasn't are
/// its releases followed.
pub fn ask_holder<K: Shelf>(
    alloc: Global,
    register: &Register,
    keeper: &mut K,
    uprn: Uprn,
) -> Result<Option<Found>, ShelfFault>
    requires { IsNotJudging K.seen keeper.old }
    ensures { LooksAtBoard K.seen keeper.old keeper.new result
        (λ board found. found ≡ told_by_holder board register.now uprn) }
{
    let Some(owner) = register.owner_uprn(uprn) else {
        return Ok(None);
    };
    match lookup_with(alloc, keeper, register, owner, uprn)? {
        Some(found) => Ok(Some(found)),
        None => ask_further(alloc, register, keeper, owner, uprn),
    }
}
