//! What is read off a settled board: where a property stands, whole views, and addresses on closed
//! streets.
ghost use Rattle.std.specs.Prelude.{◌≡◌};
ghost use Rattle.gaz_steps.specs.Hubs.{MeetsDoor, door_of, told, told_all};
ghost use Rattle.gaz_hub.specs.Seen.{ForgetsOver, hub_seen};
ghost use Rattle.gaz_steps.specs.Step.{Pose, Replied};
ghost use Rattle.gaz_keeper.specs.Telling.{IsNotJudging};
ghost use Rattle.gaz_hub.specs.Telling.{RepliesTo};
ghost use Rattle.gaz_steps.specs.declared.question.Question.TheVariants.{Extract, ListClosed};
ghost use Rattle.gaz_steps.specs.declared.question.Question.TheVariants.{LookUp};

use crate::admission::at_door;
use crate::hub::Hub;
use crate::remembering::answered;
use gaz_extract::{Closed, Found, closed_streets, extract};
use gaz_ids::Uprn;
use gaz_keeper::Inbox;
use gaz_steps::{Refusal, ask_holder};

impl<K: Inbox + Drop> Hub<K> {
    /// Where a property stands now and how it is addressed; none where it stands with no custodian.
    pub fn lookup(&mut self, uprn: Uprn) -> Result<Option<Found>, Refusal>
        requires idle { IsNotJudging K.seen self.old.keeper }
        ensures steps { RepliesTo (hub_seen K.seen) self.old.register self.old self.new
            (LookUp uprn) result }
        ensures forgets { ForgetsOver (LookUp uprn) result self.new }
        ensures door { MeetsDoor (door_of self.old.register) self.old.keeper self.new.keeper
            (Pose (LookUp uprn)) (Replied (LookUp uprn) result) }
        ensures register { self.new.register ≡ self.old.register }
    {
        let (alloc, register) = (self.alloc, &self.register);
        // Each number is allotted to one custodian at most.
        let _custodians = register.custodians();
        let read = |keeper: &mut K| ask_holder(alloc, register, keeper, uprn);
        answered(alloc, register, &mut self.keeper, &mut self.waiters, read)
    }

    /// A custodian's view after a volume, as the text of an extract; none where the volume isn't
    /// reached.
    pub fn extract(&mut self, code: u64, volume: u64) -> Result<Option<Vec<u8>>, Refusal>
        requires idle { IsNotJudging K.seen self.old.keeper }
        ensures steps { RepliesTo (hub_seen K.seen) self.old.register self.old self.new
            (Extract code volume) (told result) }
        ensures forgets { ForgetsOver (Extract code volume) result self.new }
        ensures door { MeetsDoor (door_of self.old.register) self.old.keeper self.new.keeper
            (Pose (Extract code volume)) (Replied (Extract code volume) (told result)) }
        ensures register { self.new.register ≡ self.old.register }
    {
        let (code, volume) = match at_door(&self.register, code, volume, 0) {
            Ok(pair) => pair,
            Err(why) => return Err(Refusal::Door(why)),
        };
        let alloc = self.alloc;
        let read = |keeper: &mut K| extract(alloc, keeper, code, volume);
        answered(
            alloc,
            &self.register,
            &mut self.keeper,
            &mut self.waiters,
            read,
        )
    }

    /// The approved addresses on streets that other custodians closed, by custodian and then by the
    /// LPI's key.
    pub fn closed_streets(&mut self) -> Result<Vec<Closed>, Refusal>
        requires idle { IsNotJudging K.seen self.old.keeper }
        ensures steps { RepliesTo (hub_seen K.seen) self.old.register self.old self.new
            ListClosed (told_all result) }
        ensures forgets { ForgetsOver ListClosed result self.new }
        ensures door { MeetsDoor (door_of self.old.register) self.old.keeper self.new.keeper
            (Pose ListClosed) (Replied ListClosed (told_all result)) }
        ensures register { self.new.register ≡ self.old.register }
    {
        let (alloc, register) = (self.alloc, &self.register);
        let read = |keeper: &mut K| closed_streets(alloc, keeper, register);
        answered(alloc, register, &mut self.keeper, &mut self.waiters, read)
    }
}
