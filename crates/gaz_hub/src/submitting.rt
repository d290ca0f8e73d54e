//! How a submission is answered.
ghost use Rattle.std.specs.Prelude.{◌≡◌, ◌↔◌, IfOk, IsSome, IsTrue, OnErr, Some, None, true, false};
ghost use Rattle.gaz_register.specs.Registers.{knows};
ghost use Rattle.gaz_hub.specs.Asked.{AnyIsOfBefore, IsAgain, IsOutcome, IsPastDoor, TakesIn};
ghost use Rattle.gaz_steps.specs.Hubs.{MeetsDoor, cause_in_answer, door_of};
ghost use Rattle.gaz_hub.specs.Seen.{ForgetsTaking, RemembersNothing, hub_seen};
ghost use Rattle.gaz_steps.specs.Step.{Submit, Submitted, file_refusal};
ghost use Rattle.gaz_keeper.specs.Keeper.{IsOpen};
ghost use Rattle.gaz_keeper.specs.Telling.{IsNotJudging};
ghost use Rattle.gaz_hub.specs.Telling.{LooksAtKept, StepsTo, TellsKept};
ghost use Rattle.gaz_hub.specs.Waiting.{IsSo};

use crate::admission::{at_door, names_unknown_profile};
use crate::hub::Hub;
use crate::remembering::{receive, settled_knowing};
use crate::reply::{digest_of, tell};
use gaz_ids::{Code, Volume};
use gaz_keeper::{Inbox, ShelfFault};
use gaz_steps::{Answer, DoorRefusal, Outcome, Refusal};
use std::alloc::Global;

fn are_same(a: &[u8], b: &[u8]) -> bool
    ensures { IsTrue result ↔ (a.now ≡ b.now) }
{
    a == b
}

// The answer to a file whose pair was received before; none where it wasn't.
fn answer_again<K: Inbox>(
    alloc: Global,
    keeper: &mut K,
    code: Code,
    volume: Volume,
    file: &[u8],
    known: Option<(Code, Volume)>,
) -> Result<Option<Answer>, ShelfFault>
    ensures looks { LooksAtKept K.seen keeper.old keeper.new result
        (λ files board told. IsSo files board code known
        → IsAgain files board code volume file.now told) }
    ensures of_before { IfOk result AnyIsOfBefore }
{
    let Some(there) = keeper.received(code, volume)? else {
        return Ok(None);
    };
    if !are_same(&there, file) {
        return Ok(Some(Answer::Taken {
            digest: digest_of(&there),
        }));
    }
    Ok(Some(Answer::Repeat(tell(alloc, keeper, code, volume, known)?)))
}

impl<K: Inbox + Drop> Hub<K> {
    // The answer to a file whose pair was received before, once all is settled; none where it
    // wasn't.
    fn settle_and_answer(
        &mut self,
        code: Code,
        volume: Volume,
        file: &[u8],
    ) -> Result<Option<Answer>, ShelfFault>
        requires idle { IsNotJudging K.seen self.old.keeper }
        requires known { knows self.old.register code ≡ true }
        ensures tells { TellsKept (hub_seen K.seen) self.old.register self.old self.new result
            (λ files board. IsAgain files board code volume file.now) }
        ensures of_before { IfOk result AnyIsOfBefore }
        ensures open { IsOpen (hub_seen K.seen self.new) result }
        ensures forgets { OnErr result (RemembersNothing self.new) }
        ensures register { self.new.register ≡ self.old.register }
    {
        let alloc = self.alloc;
        let again = |keeper: &mut K, known: Option<(Code, Volume)>| {
            answer_again(alloc, keeper, code, volume, file, known)
        };
        settled_knowing(
            alloc,
            &self.register,
            &mut self.keeper,
            &mut self.waiters,
            code,
            again,
        )
    }

    // The outcome of a received file once all is settled.
    fn settle_and_tell(&mut self, code: Code, volume: Volume) -> Result<Outcome, ShelfFault>
        requires idle { IsNotJudging K.seen self.old.keeper }
        requires known { knows self.old.register code ≡ true }
        ensures tells { TellsKept (hub_seen K.seen) self.old.register self.old self.new result
            (λ files board. IsOutcome files board code volume) }
        ensures open { IsOpen (hub_seen K.seen self.new) result }
        ensures forgets { OnErr result (RemembersNothing self.new) }
        ensures register { self.new.register ≡ self.old.register }
    {
        let alloc = self.alloc;
        let anew = |keeper: &mut K, known: Option<(Code, Volume)>| {
            tell(alloc, keeper, code, volume, known)
        };
        settled_knowing(
            alloc,
            &self.register,
            &mut self.keeper,
            &mut self.waiters,
            code,
            anew,
        )
    }

    // The answer to a file whose pair wasn't received before.
    fn take_in(&mut self, code: Code, volume: Volume, file: &[u8]) -> Answer
        requires idle { IsNotJudging K.seen self.old.keeper }
        requires let_in { file_refusal (door_of self.old.register) code volume file.now ≡ None }
        ensures takes_in { TakesIn (door_of self.old.register) (hub_seen K.seen self.old)
            (hub_seen K.seen self.new) code volume file.now result }
        ensures past_door { IsPastDoor result }
        ensures forgets { IsSome (cause_in_answer result) → RemembersNothing self.new }
        ensures register { self.new.register ≡ self.old.register }
    {
        let received = receive(
            &self.register,
            &mut self.keeper,
            &mut self.waiters,
            code,
            volume,
            file,
        );
        if let Err(fault) = received {
            return Answer::Refused(Refusal::NotReceived(fault));
        }
        match self.settle_and_tell(code, volume) {
            Ok(told) => Answer::New(told),
            Err(fault) => Answer::Refused(Refusal::ReceivedUnsettled(fault)),
        }
    }

    // The answer to a file that the door lets in.
    fn submit_let_in(&mut self, code: Code, volume: Volume, file: &[u8]) -> Answer
        requires idle { IsNotJudging K.seen self.old.keeper }
        requires let_in { file_refusal (door_of self.old.register) code volume file.now ≡ None }
        ensures steps { StepsTo (hub_seen K.seen) self.old.register self.old self.new
            (Submit code volume file.now) (Submitted result) }
        ensures past_door { IsPastDoor result }
        ensures forgets { IsSome (cause_in_answer result) → RemembersNothing self.new }
        ensures register { self.new.register ≡ self.old.register }
    {
        match self.settle_and_answer(code, volume, file) {
            Ok(Some(answer)) => answer,
            Ok(None) => self.take_in(code, volume, file),
            Err(fault) => Answer::Refused(Refusal::NotReceived(fault)),
        }
    }

    /// Submits a file as a volume of a custodian.
    ///
    /// The first file of a pair that passes the door is received, whatever it holds, and stays. A
    /// file has at most 1,048,576 bytes, and names no profile but 1 and 2. `NotReceived` and
    /// `ReceivedUnsettled` carry the keeper's fault, or want of memory.
    pub fn submit(&mut self, code: u64, volume: u64, file: &[u8]) -> Answer
        requires idle { IsNotJudging K.seen self.old.keeper }
        ensures steps { StepsTo (hub_seen K.seen) self.old.register self.old self.new
            (Submit code volume file.now) (Submitted result) }
        ensures door { MeetsDoor (door_of self.old.register) self.old.keeper self.new.keeper
            (Submit code volume file.now) (Submitted result) }
        ensures forgets { ForgetsTaking code volume file.now result self.new }
        ensures register { self.new.register ≡ self.old.register }
    {
        let (code, volume) = match at_door(&self.register, code, volume, file.len()) {
            Ok(pair) => pair,
            Err(why) => return Answer::Refused(Refusal::Door(why)),
        };
        match names_unknown_profile(self.alloc, file) {
            Ok(false) => self.submit_let_in(code, volume, file),
            Ok(true) => Answer::Refused(Refusal::Door(DoorRefusal::UnknownProfile)),
            Err(_) => Answer::Refused(Refusal::NotReceived(ShelfFault::Memory)),
        }
    }
}
