//! The rules on numbers that pass between custodians, asked of any keeper.
ghost use Rattle.std.specs.Prelude.{◌≡◌, ◌≤◌, ◌==◌, ◌+◌, false, Some, None, if◌then◌else◌, nat_lt};
ghost use Rattle.std.specs.List.{find};
ghost use Rattle.std.specs.Option.{option_map_or};
ghost use Rattle.gaz_register.specs.Registers.{blocks_of};
ghost use Rattle.gaz_views.specs.Custody.{hop_of, is_holding};
ghost use Rattle.gaz_views.specs.View.{custody_at};
ghost use Rattle.gaz_keeper.specs.Board.{reached, view_after};
ghost use Rattle.gaz_rules.specs.CustodyRules.{adopt_breach, holds_number, is_released_to};
ghost use Rattle.gaz_rules.specs.CustodyRules.{release_breach, was_released};
ghost use Rattle.gaz_end_rules.specs.Working.{IsJudging, ReadsContent, ReadsView, ReadsViews};

use crate::rule;
use gaz_changefile::Basis;
use gaz_ids::{Code, Hop, Uprn};
use gaz_keeper::{Shelf, ShelfFault};
use gaz_records::{Adopt, Release};
use gaz_register::Register;
use gaz_views::{Custody, hop_of};

// Whether a number is held of which this became last, and which is or isn't of the own blocks.
fn is_holding(allotted: bool, custody: &Option<Custody>) -> bool
    ensures { result ≡ is_holding allotted custody.now }
{
    match custody {
        None => allotted,
        Some(Custody::Released { .. }) => false,
        Some(Custody::Adopted { .. }) => true,
    }
}

/// Whether a custodian holds a number in the view that is judged.
pub(crate) fn holds_number<K: Shelf>(
    keeper: &mut K,
    register: &Register,
    code: Code,
    uprn: Uprn,
) -> Result<bool, ShelfFault>
    requires { IsJudging K.seen keeper.old code }
    ensures { ReadsView K.seen keeper.old keeper.new result
        (λ v b. b ≡ holds_number (blocks_of register.now code) v uprn) }
{
    let custody = keeper.custody(code, uprn)?;
    Ok(is_holding(register.allotted(code, uprn), &custody))
}

// The least rule that a release at a hop breaks of a number of which this became last.
fn release_rule(allotted: bool, custody: &Option<Custody>, hop: Hop) -> Option<u8>
    ensures { result ≡ (if is_holding allotted custody.now
        then (if hop == hop_of custody.now + 1 then None else Some 40) else Some 20) }
{
    if !is_holding(allotted, custody) {
        return Some(rule::OUTSIDE);
    }
    if hop.number() != hop_of(custody) + 1 {
        return Some(rule::WRONG_HOP);
    }
    None
}

/// The least rule that a release breaks.
pub(crate) fn release_breach<K: Shelf>(
    keeper: &mut K,
    register: &Register,
    code: Code,
    release: &Release,
) -> Result<Option<u8>, ShelfFault>
    requires { IsJudging K.seen keeper.old code }
    ensures { ReadsView K.seen keeper.old keeper.new result (λ v r.
        r ≡ release_breach (blocks_of register.now code) v release.now.uprn release.now.hop) }
{
    let custody = keeper.custody(code, release.uprn)?;
    let allotted = register.allotted(code, release.uprn);
    Ok(release_rule(allotted, &custody, release.hop))
}

// The first basis line of a custodian.
fn basis_of(bases: &[Basis], from: Code) -> Option<Basis>
    ensures { result ≡ find (λ b. b.custodian == from) bases.now }
{
    for basis in bases {
        if basis.custodian.number() == from.number() {
            return Some(*basis);
        }
    }
    None
}

// Whether this says that a number was released to a custodian at a hop.
fn is_released_to(code: Code, hop: Hop, custody: &Option<Custody>) -> bool
    ensures { result ≡ option_map_or (is_released_to code hop) custody.now false }
{
    match custody {
        Some(Custody::Released { to, hop: at }) => {
            to.number() == code.number() && at.number() == hop.number()
        }
        _ => false,
    }
}

// What last became of a number after the volume that a basis line names, and never a newer one.
fn basis_custody<K: Shelf>(
    keeper: &mut K,
    basis: Basis,
    uprn: Uprn,
) -> Result<Option<Custody>, ShelfFault>
    ensures { ReadsContent K.seen keeper.old keeper.new result (λ content x.
        basis.volume ≤ reached content.board basis.custodian
        → x ≡ custody_at (view_after content.board basis.custodian basis.volume) uprn) }
{
    let volume = basis.volume.number();
    keeper.custody_at(basis.custodian, volume, uprn)
}

// Whether a number was released to a custodian at a hop, in the view on which the first basis line
// of the other one rests.
fn was_released<K: Shelf>(
    keeper: &mut K,
    code: Code,
    bases: &[Basis],
    adopt: &Adopt,
) -> Result<bool, ShelfFault>
    requires { IsJudging K.seen keeper.old code }
    ensures { ReadsViews K.seen keeper.old keeper.new result bases.now
        (λ _ others b. b ≡ was_released code others adopt.now.blpu.uprn adopt.now.from
        adopt.now.hop) }
{
    let Some(basis) = basis_of(bases, adopt.from) else {
        return Ok(false);
    };
    let custody = basis_custody(keeper, basis, adopt.blpu.uprn)?;
    Ok(is_released_to(code, adopt.hop, &custody))
}

// Whether a hop is greater than the own one of a number in the view that is judged.
fn is_later<K: Shelf>(keeper: &mut K, code: Code, uprn: Uprn, hop: Hop) -> Result<bool, ShelfFault>
    requires { IsJudging K.seen keeper.old code }
    ensures { ReadsView K.seen keeper.old keeper.new result
        (λ v b. b ≡ nat_lt (hop_of (custody_at v uprn)) hop) }
{
    let custody = keeper.custody(code, uprn)?;
    Ok(hop_of(&custody) < hop.number())
}

/// The least rule that an adoption breaks.
pub(crate) fn adopt_breach<K: Shelf>(
    keeper: &mut K,
    code: Code,
    bases: &[Basis],
    adopt: &Adopt,
) -> Result<Option<u8>, ShelfFault>
    requires { IsJudging K.seen keeper.old code }
    ensures { ReadsViews K.seen keeper.old keeper.new result bases.now (λ v others r.
        r ≡ adopt_breach code v others adopt.now.blpu.uprn adopt.now.from adopt.now.hop) }
{
    if !was_released(keeper, code, bases, adopt)? {
        return Ok(Some(rule::UNRELEASED));
    }
    let is_later = is_later(keeper, code, adopt.blpu.uprn, adopt.hop)?;
    Ok(if is_later { None } else { Some(rule::STALE) })
}
