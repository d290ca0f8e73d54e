//! Numbers that the volume after those reached passes on.
ghost use Rattle.std.specs.Prelude.{◌≡◌, ◌≤◌, ◌<◌, ◌+◌, ◌-◌, ◌^◌, ◌++◌, ◌∷◌, [], ℕ, OnOk, OnErr};
ghost use Rattle.gaz_ledger.specs.Custodies.{IsPassing, custody_after};

use crate::custodies::Custodies;
use gaz_ids::Uprn;
use std::alloc::AllocError;

/// Adds a number to those that the next volume has passed on.
pub fn touch_number(passed: &mut Vec<Uprn>, uprn: Uprn) -> Result<(), AllocError>
    ensures ok { OnOk result (passed.new.items ≡ passed.old.items ++ uprn ∷ []) }
    ensures err { OnErr result (passed.new.items ≡ passed.old.items) }
{
    passed.push(uprn)?;
    Ok(())
}

/// What became of all numbers that were passed on is what the last view has. What the views so far
/// have stays.
pub fn undo_passing(custodies: &mut Custodies, reached: u64, passed: &mut Vec<Uprn>)
    requires bound { reached < 2 ^ 64 - 1 }
    requires passing { IsPassing reached custodies.old passed.old.items }
    ensures passing { IsPassing reached custodies.new passed.new.items }
    ensures undone { passed.new.items ≡ [] }
    ensures past { (volume : ℕ) → volume ≤ reached
        → custody_after custodies.new volume ≡ custody_after custodies.old volume }
{
    while let Some(uprn) = passed.pop() {
        custodies.cut(reached + 1, uprn);
    }
}
