//! What the door turns away before the keeper is called.
ghost use Rattle.std.specs.Prelude.{◌≡◌, IfOk, IfErr, Some, None, true, false};
ghost use Rattle.gaz_register.specs.Registers.{knows};
ghost use Rattle.gaz_steps.specs.Hubs.{door_of, is_foreign};
ghost use Rattle.gaz_steps.specs.Step.{turned_away};

use gaz_changefile::{is_known_profile, profile_of};
use gaz_ids::{Code, MOST_BYTES, Volume};
use gaz_register::Register;
use gaz_steps::DoorRefusal;
use std::alloc::{AllocError, Global};

/// The code, where the register has it.
pub fn known_code(register: &Register, code: u64) -> Result<Code, DoorRefusal>
    ensures refused { IfErr result (λ why. (why ≡ DoorRefusal.UnknownCustodian)
        × (knows register.now code ≡ false)) }
    ensures known { IfOk result (λ c. (c ≡ code) × (knows register.now code ≡ true)) }
{
    register.code_of(code).ok_or(DoorRefusal::UnknownCustodian)
}

/// The pair under which a file of this size came, or the first refusal of the door.
pub fn at_door(
    register: &Register,
    code: u64,
    volume: u64,
    size: usize,
) -> Result<(Code, Volume), DoorRefusal>
    ensures refused { IfErr result (λ why.
        turned_away (door_of register.now) code volume size ≡ Some why) }
    ensures let_in { IfOk result (λ p.
        (turned_away (door_of register.now) code volume size ≡ None) × (p ≡ (code, volume))) }
{
    let code = known_code(register, code)?;
    let Some(volume) = Volume::of(volume) else {
        return Err(DoorRefusal::BadVolume);
    };
    if size as u64 > MOST_BYTES {
        return Err(DoorRefusal::TooLarge);
    }
    Ok((code, volume))
}

/// Whether the file names a profile that no reader of files knows.
/// A reader of CSV takes 32 KiB of the stack, which no other request should touch.
#[inline(never)]
pub fn names_unknown_profile(alloc: Global, file: &[u8]) -> Result<bool, AllocError>
    ensures { IfOk result (λ foreign. foreign ≡ is_foreign file.now) }
{
    match profile_of(alloc, file)? {
        Some(profile) => Ok(!is_known_profile(profile)),
        None => Ok(false),
    }
}
