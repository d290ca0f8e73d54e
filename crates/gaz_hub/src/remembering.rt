//! What is done with a keeper while it is remembered who waits for what.
ghost use Rattle.std.specs.Prelude.{◌≡◌, ⊤, None, IfOk, OnErr};
ghost use Rattle.std.specs.Fn.{FnOnceReturnsAtMut, FnOnceTakesAtMut};
ghost use Rattle.std.specs.Option.{unwrap_or};
ghost use Rattle.gaz_keeper.specs.Keeper.{Enters, IsNew, IsOpen, with_received};
ghost use Rattle.gaz_keeper.specs.Telling.{IsNotJudging};
ghost use Rattle.gaz_waiters.specs.Remembered.{all_ahead, known_in};
ghost use Rattle.gaz_steps.specs.Hubs.{door_of};
ghost use Rattle.gaz_hub.specs.Knowing.{CallsKnowing, ReturnsKnowing, TakesIdleKnowing};
ghost use Rattle.gaz_hub.specs.Knowing.{TakesKnowing};
ghost use Rattle.gaz_hub.specs.Seen.{CallsKeeper, IsAfterComing, IsSured, kept_seen};
ghost use Rattle.gaz_hub.specs.Settling.{AnswersSettled, SettlesAndCalls, TakesIdle, Tells};

use crate::settling::settle;
use gaz_ids::{Code, Volume};
use gaz_keeper::{Inbox, ShelfFault};
use gaz_register::Register;
use gaz_steps::Refusal;
use gaz_waiters::Waiters;
use std::alloc::{AllocError, Global};

// What was remembered, and else that everyone is to be looked at. It is remembered no more.
fn recall(
    alloc: Global,
    register: &Register,
    waiters: &mut Option<Waiters>,
) -> Result<Waiters, AllocError>
    ensures recalled { IfOk result (λ w. w ≡ unwrap_or waiters.old (all_ahead register.now)) }
    ensures left { waiters.new ≡ None }
{
    match waiters.take() {
        Some(waiters) => Ok(waiters),
        None => Waiters::of(alloc, register),
    }
}

// Remembers that a file came as this volume. Where memory runs out, all is forgotten.
fn remember_coming(waiters: &mut Option<Waiters>, code: Code, volume: Volume)
    ensures { IsAfterComing (code, volume) waiters.old waiters.new }
{
    let Some(mut known) = waiters.take() else {
        return;
    };
    if known.come(code, volume).is_ok() {
        *waiters = Some(known);
    }
}

/// Receives a file. After a fault nothing is remembered.
pub fn receive<K: Inbox>(
    register: &Register,
    keeper: &mut K,
    waiters: &mut Option<Waiters>,
    code: Code,
    volume: Volume,
    file: &[u8],
) -> Result<(), ShelfFault>
    requires { IsNotJudging K.seen keeper.old }
    ensures enters { Enters (kept_seen K.seen register.now (keeper.old, waiters.old))
        (kept_seen K.seen register.now (keeper.new, waiters.new)) result
        (IsNew (K.seen keeper.old).content code volume)
        (with_received (K.seen keeper.old).content code volume file.now) }
    ensures open { IsOpen (K.seen keeper.new) result }
    ensures forgets { OnErr result (waiters.new ≡ None) }
{
    let received = keeper.receive(code, volume, file);
    match &received {
        Ok(()) => remember_coming(waiters, code, volume),
        Err(_) => *waiters = None,
    }
    received
}

// Judges until nothing is ready. After a fault nothing is remembered.
fn settle_all<K: Inbox>(
    alloc: Global,
    register: &Register,
    keeper: &mut K,
    waiters: &mut Option<Waiters>,
) -> Result<(), ShelfFault>
    requires { IsNotJudging K.seen keeper.old }
    ensures tells { Tells (door_of register.now)
        (kept_seen K.seen register.now (keeper.old, waiters.old))
        (kept_seen K.seen register.now (keeper.new, waiters.new)) result (λ done. ⊤) }
    ensures forgets { OnErr result (waiters.new ≡ None) }
{
    let mut known = recall(alloc, register, waiters)?;
    settle(alloc, register, keeper, &mut known)?;
    *waiters = Some(known);
    Ok(())
}

/// What a reading tells, once all is settled. It may be any that can be made while no judgement is
/// open. After a fault nothing is remembered.
pub fn settled<K: Inbox, T: Drop, F: FnOnce(&mut K) -> Result<T, ShelfFault>>(
    alloc: Global,
    register: &Register,
    keeper: &mut K,
    waiters: &mut Option<Waiters>,
    read: F,
) -> Result<T, ShelfFault>
    requires idle { IsNotJudging K.seen keeper.old }
    requires callable { TakesIdle K.seen (λ mid. FnOnceTakesAtMut F.FnOnce read mid) }
    ensures calls { SettlesAndCalls (door_of register.now) (kept_seen K.seen register.now)
        (CallsKeeper K.seen (λ mid told after. FnOnceReturnsAtMut F.FnOnce read mid told after))
        (keeper.old, waiters.old) (keeper.new, waiters.new) result }
    ensures open { IsOpen (K.seen keeper.new) result }
    ensures forgets { OnErr result (waiters.new ≡ None) }
{
    settle_all(alloc, register, keeper, waiters)?;
    read_kept(keeper, waiters, read)
}

// What is remembered of what a custodian waits for.
fn known_of(waiters: &Option<Waiters>, code: Code) -> Option<(Code, Volume)>
    ensures { result ≡ known_in waiters.now code }
{
    waiters.as_ref()?.known(code)
}

/// What a reading tells that is given what a custodian is known to wait for, once all is settled.
/// It may be any that can be made while no judgement is open. After a fault nothing is remembered.
pub fn settled_knowing<
    K: Inbox,
    T: Drop,
    F: FnOnce(&mut K, Option<(Code, Volume)>) -> Result<T, ShelfFault>,
>(
    alloc: Global,
    register: &Register,
    keeper: &mut K,
    waiters: &mut Option<Waiters>,
    code: Code,
    read: F,
) -> Result<T, ShelfFault>
    requires idle { IsNotJudging K.seen keeper.old }
    requires callable { TakesIdleKnowing K.seen F.FnOnce read }
    ensures calls { SettlesAndCalls (door_of register.now) (kept_seen K.seen register.now)
        (CallsKnowing K.seen F.FnOnce read code)
        (keeper.old, waiters.old) (keeper.new, waiters.new) result }
    ensures open { IsOpen (K.seen keeper.new) result }
    ensures forgets { OnErr result (waiters.new ≡ None) }
{
    settle_all(alloc, register, keeper, waiters)?;
    let known = known_of(waiters, code);
    let knowing = move |keeper: &mut K| -> Result<T, ShelfFault>
        requires { TakesKnowing F.FnOnce read keeper.old known }
        ensures { ReturnsKnowing F.FnOnce read keeper.old known result keeper.new }
    { read(keeper, known) };
    read_kept(keeper, waiters, knowing)
}

/// The reply to a question whose reading is given what a custodian is known to wait for, once all
/// is settled: a fault is `NotReceived` (51).
pub fn answered_knowing<
    K: Inbox,
    T: Drop,
    F: FnOnce(&mut K, Option<(Code, Volume)>) -> Result<T, ShelfFault>,
>(
    alloc: Global,
    register: &Register,
    keeper: &mut K,
    waiters: &mut Option<Waiters>,
    code: Code,
    read: F,
) -> Result<T, Refusal>
    requires idle { IsNotJudging K.seen keeper.old }
    requires callable { TakesIdleKnowing K.seen F.FnOnce read }
    ensures answers { AnswersSettled (door_of register.now) (kept_seen K.seen register.now)
        (CallsKnowing K.seen F.FnOnce read code)
        (keeper.old, waiters.old) (keeper.new, waiters.new) result }
    ensures forgets { OnErr result (waiters.new ≡ None) }
{
    settled_knowing(alloc, register, keeper, waiters, code, read).map_err(Refusal::NotReceived)
}

// What was told, where it is sure that the keeper could still be asked.
fn once_sure<K: Inbox, T: Drop>(
    keeper: &mut K,
    told: Result<T, ShelfFault>,
) -> Result<T, ShelfFault>
    ensures sured { IsSured K.seen keeper.old keeper.new told result }
    ensures open { IsOpen (K.seen keeper.new) result }
{
    let told = told?;
    keeper.sure()?;
    Ok(told)
}

// What a reading tells, once it is sure that the keeper could be asked. After a fault nothing is
// remembered.
fn read_kept<K: Inbox, T: Drop, F: FnOnce(&mut K) -> Result<T, ShelfFault>>(
    keeper: &mut K,
    waiters: &mut Option<Waiters>,
    read: F,
) -> Result<T, ShelfFault>
    requires callable { FnOnceTakesAtMut F.FnOnce read keeper.old }
    ensures calls { CallsKeeper K.seen
        (λ mid told after. FnOnceReturnsAtMut F.FnOnce read mid told after)
        (keeper.old, waiters.old) result (keeper.new, waiters.new) }
    ensures open { IsOpen (K.seen keeper.new) result }
    ensures forgets { OnErr result (waiters.new ≡ None) }
{
    let read = read(keeper);
    let told = once_sure(keeper, read);
    if told.is_err() {
        *waiters = None;
    }
    told
}

/// What a reading tells, once all is settled, as the reply to a question: a fault is `NotReceived`
/// (51).
pub fn answered<K: Inbox, T: Drop, F: FnOnce(&mut K) -> Result<T, ShelfFault>>(
    alloc: Global,
    register: &Register,
    keeper: &mut K,
    waiters: &mut Option<Waiters>,
    read: F,
) -> Result<T, Refusal>
    requires idle { IsNotJudging K.seen keeper.old }
    requires callable { TakesIdle K.seen (λ mid. FnOnceTakesAtMut F.FnOnce read mid) }
    ensures answers { AnswersSettled (door_of register.now) (kept_seen K.seen register.now)
        (CallsKeeper K.seen (λ mid told after. FnOnceReturnsAtMut F.FnOnce read mid told after))
        (keeper.old, waiters.old) (keeper.new, waiters.new) result }
    ensures forgets { OnErr result (waiters.new ≡ None) }
{
    settled(alloc, register, keeper, waiters, read).map_err(Refusal::NotReceived)
}
