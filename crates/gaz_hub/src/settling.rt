//! Judging what is ready, until nothing is.
ghost use Rattle.std.specs.Prelude.{◌≡◌, ◌≤◌, [], ◌∷◌, ⊤, Some, IfErr, IfOk, OnOk};
ghost use Rattle.gaz_steps.specs.Hubs.{door_of};
ghost use Rattle.gaz_hub.specs.Settling.{Tells, Tries};
ghost use Rattle.gaz_hub.specs.Waiting.{RestAfter, remembering};
ghost use Rattle.gaz_keeper.specs.Telling.{IsNotJudging};

use crate::looking::{Next, look};
use gaz_ids::{Code, LAST_VOLUME};
use gaz_keeper::{Inbox, ShelfFault};
use gaz_register::Register;
use gaz_rules::judge;
use gaz_waiters::Waiters;
use std::alloc::Global;

// Whether one more may be judged. No lawful content asks past the last.
fn ask_room(left: u64) -> Result<(), ShelfFault>
    ensures room { OnOk result (1 ≤ left) }
    ensures none { IfErr result (λ e. left ≡ 0) }
{
    if left == 0 {
        return Err(ShelfFault::Store);
    }
    Ok(())
}

// Judges a custodian's next volume, where it is ready, and remembers what it waits for, where it
// waits; how many were judged, of at most `left`.
fn judge_next<K: Inbox>(
    alloc: Global,
    register: &Register,
    keeper: &mut K,
    waiters: &mut Waiters,
    code: Code,
    left: u64,
) -> Result<u64, ShelfFault>
    requires { IsNotJudging K.seen keeper.old }
    ensures tries { Tries (door_of register.now) left (K.seen keeper.old) (K.seen keeper.new) result
        (λ c. c ≡ code) }
    ensures rest { OnOk result (RestAfter (code ∷ []) (door_of register.now)
        waiters.old (K.seen keeper.old) waiters.new (K.seen keeper.new)) }
    ensures ahead { IfOk result (λ n. n ≡ 0 → waiters.new.ahead ≡ waiters.old.ahead) }
{
    let next = look(alloc, keeper, code)?;
    match &next {
        Next::Good(volume, file) => {
            ask_room(left)?;
            judge(alloc, keeper, register, code, file)?;
            waiters.wake(code, *volume)?;
            Ok(1)
        }
        Next::Bad {
            volume,
            place,
            rule,
        } => {
            ask_room(left)?;
            keeper.skip(code, *place, *rule)?;
            waiters.wake(code, *volume)?;
            Ok(1)
        }
        Next::Waits(custodian, volume) => {
            waiters.wait(code, *custodian, *volume)?;
            Ok(0)
        }
        Next::Done => {
            waiters.want_nothing(code);
            Ok(0)
        }
    }
}

// Looks at these custodians one after another, and judges the next volume of each that is ready;
// how many were judged, of at most `left`.
fn judge_each<K: Inbox>(
    alloc: Global,
    register: &Register,
    keeper: &mut K,
    waiters: &mut Waiters,
    codes: &[Code],
    left: u64,
) -> Result<u64, ShelfFault>
    requires { IsNotJudging K.seen keeper.old }
    ensures tries { Tries (door_of register.now) left (K.seen keeper.old) (K.seen keeper.new) result
        (λ c. ⊥) }
    ensures rest { OnOk result (RestAfter codes.now (door_of register.now)
        waiters.old (K.seen keeper.old) waiters.new (K.seen keeper.new)) }
    ensures ahead { IfOk result (λ n. n ≡ 0 → waiters.new.ahead ≡ waiters.old.ahead) }
{
    let mut judged = 0;
    for code in codes {
        judged += judge_next(alloc, register, keeper, waiters, *code, left - judged)?;
    }
    Ok(judged)
}

// Looks at all who are to be looked at, and judges the next volume of each that is ready; how many
// were judged, of at most `left`. Where none was, nobody is to be looked at any more.
fn settle_round<K: Inbox>(
    alloc: Global,
    register: &Register,
    keeper: &mut K,
    waiters: &mut Waiters,
    left: u64,
) -> Result<u64, ShelfFault>
    requires { IsNotJudging K.seen keeper.old }
    ensures tries { Tries (door_of register.now) left (K.seen keeper.old) (K.seen keeper.new) result
        (λ c. ⊥) }
    ensures rest { OnOk result (RestAfter [] (door_of register.now)
        waiters.old (K.seen keeper.old) waiters.new (K.seen keeper.new)) }
    ensures ahead { IfOk result (λ n. n ≡ 0 → waiters.new.ahead ≡ []) }
{
    let codes = waiters.take_ahead();
    judge_each(alloc, register, keeper, waiters, codes.as_slice(), left)
}

/// Judges until nothing is ready. Only they are looked at who are to be, and who waited for a
/// volume that was judged.
///
/// At most 999,999 volumes of each custodian are judged, 399,999,600 in all; a content with more of
/// them ready isn't lawful, and is answered `Store`.
/// Each round but the last judges a file, so that the rounds end by themselves.
pub fn settle<K: Inbox>(
    alloc: Global,
    register: &Register,
    keeper: &mut K,
    waiters: &mut Waiters,
) -> Result<(), ShelfFault>
    requires { IsNotJudging K.seen keeper.old }
    ensures tells { Tells (door_of register.now)
        (remembering register.now (Some waiters.old) (K.seen keeper.old)) (K.seen keeper.new) result
        (λ done. ⊤) }
    ensures rest { OnOk result (RestAfter [] (door_of register.now)
        waiters.old (K.seen keeper.old) waiters.new (K.seen keeper.new)) }
{
    let most = LAST_VOLUME * register.custodians().len() as u64;
    let mut left = most;
    for _round in 0..most + 1 {
        let judged = settle_round(alloc, register, keeper, waiters, left)?;
        if judged == 0 {
            return Ok(());
        }
        left -= judged;
    }
    Err(ShelfFault::Store)
}
