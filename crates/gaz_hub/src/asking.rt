//! How questions of outcomes and standings are answered.
ghost use Rattle.std.specs.Prelude.{◌≡◌, Some, None};
ghost use Rattle.gaz_keeper.specs.Board.{reached};
ghost use Rattle.gaz_hub.specs.Asked.{IsToldNow};
ghost use Rattle.gaz_steps.specs.Hubs.{MeetsDoor, door_of};
ghost use Rattle.gaz_steps.specs.Outcomes.{held_count, status};
ghost use Rattle.gaz_hub.specs.Seen.{ForgetsOver, hub_seen};
ghost use Rattle.gaz_steps.specs.Step.{Pose, Replied};
ghost use Rattle.gaz_keeper.specs.Telling.{IsNotJudging};
ghost use Rattle.gaz_hub.specs.Telling.{LooksAtKept, RepliesTo};
ghost use Rattle.gaz_hub.specs.Waiting.{IsSo};
ghost use Rattle.gaz_steps.specs.declared.question.Question.TheVariants.{Ask, Stand};

use crate::admission::{at_door, known_code};
use crate::hub::Hub;
use crate::looking::wants_as_known;
use crate::remembering::answered_knowing;
use crate::reply::{digest_of, tell};
use gaz_ids::{Code, Volume};
use gaz_keeper::{Inbox, ShelfFault};
use gaz_steps::{Digest as FileDigest, Outcome, Refusal, Standing};
use std::alloc::Global;

// The digest and the outcome of a volume, read off the board as it is.
fn tell_of<K: Inbox>(
    alloc: Global,
    keeper: &mut K,
    code: Code,
    volume: Volume,
    known: Option<(Code, Volume)>,
) -> Result<Option<(FileDigest, Outcome)>, ShelfFault>
    ensures { LooksAtKept K.seen keeper.old keeper.new result
        (λ files board told. IsSo files board code known
        → IsToldNow files board code volume told) }
{
    let Some(there) = keeper.received(code, volume)? else {
        return Ok(None);
    };
    let told = tell(alloc, keeper, code, volume, known)?;
    Ok(Some((digest_of(&there), told)))
}

// How many files of a custodian are judged, and how many aren't.
fn count_files<K: Inbox>(keeper: &mut K, code: Code) -> Result<(u64, u64), ShelfFault>
    ensures { LooksAtKept K.seen keeper.old keeper.new result
        (λ files board n. n ≡ (reached board code, held_count files board code)) }
{
    let judged = keeper.reached(code)?;
    let held = keeper.held(code)?;
    Ok((judged, held))
}

// How far a custodian's files are judged on the board as it is.
fn status_of<K: Inbox>(
    alloc: Global,
    keeper: &mut K,
    custodian: Code,
    known: Option<(Code, Volume)>,
) -> Result<Standing, ShelfFault>
    ensures { LooksAtKept K.seen keeper.old keeper.new result
        (λ files board s. IsSo files board custodian known → s ≡ status files board custodian) }
{
    let (judged, held) = count_files(keeper, custodian)?;
    let wants = wants_as_known(alloc, keeper, custodian, known)?;
    Ok(Standing {
        custodian,
        held,
        judged,
        wants,
    })
}

impl<K: Inbox + Drop> Hub<K> {
    /// The digest and the outcome of a volume, where it was received.
    pub fn outcome(
        &mut self,
        code: u64,
        volume: u64,
    ) -> Result<Option<(FileDigest, Outcome)>, Refusal>
        requires idle { IsNotJudging K.seen self.old.keeper }
        ensures steps { RepliesTo (hub_seen K.seen) self.old.register self.old self.new
            (Ask code volume) result }
        ensures forgets { ForgetsOver (Ask code volume) result self.new }
        ensures door { MeetsDoor (door_of self.old.register) self.old.keeper self.new.keeper
            (Pose (Ask code volume)) (Replied (Ask code volume) result) }
        ensures register { self.new.register ≡ self.old.register }
    {
        let (code, volume) = match at_door(&self.register, code, volume, 0) {
            Ok(pair) => pair,
            Err(why) => return Err(Refusal::Door(why)),
        };
        let alloc = self.alloc;
        let read = |keeper: &mut K, known: Option<(Code, Volume)>| {
            tell_of(alloc, keeper, code, volume, known)
        };
        answered_knowing(
            alloc,
            &self.register,
            &mut self.keeper,
            &mut self.waiters,
            code,
            read,
        )
    }

    /// How far a custodian's files are judged.
    pub fn status(&mut self, code: u64) -> Result<Standing, Refusal>
        requires idle { IsNotJudging K.seen self.old.keeper }
        ensures steps { RepliesTo (hub_seen K.seen) self.old.register self.old self.new
            (Stand code) result }
        ensures forgets { ForgetsOver (Stand code) result self.new }
        ensures door { MeetsDoor (door_of self.old.register) self.old.keeper self.new.keeper
            (Pose (Stand code)) (Replied (Stand code) result) }
        ensures register { self.new.register ≡ self.old.register }
    {
        let custodian = match known_code(&self.register, code) {
            Ok(custodian) => custodian,
            Err(why) => return Err(Refusal::Door(why)),
        };
        let alloc = self.alloc;
        let read = |keeper: &mut K, known: Option<(Code, Volume)>| {
            status_of(alloc, keeper, custodian, known)
        };
        answered_knowing(
            alloc,
            &self.register,
            &mut self.keeper,
            &mut self.waiters,
            custodian,
            read,
        )
    }
}
