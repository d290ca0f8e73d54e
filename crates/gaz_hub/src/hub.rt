ghost use Rattle.std.specs.Prelude.{◌≡◌, OnErr};
ghost use Rattle.gaz_keeper.specs.Telling.{IsNotJudging};
ghost use Rattle.gaz_hub.specs.Seen.{RemembersNothing, hub_seen};
ghost use Rattle.gaz_steps.specs.Hubs.{MeetsDoor, door_of, or_not_received};
ghost use Rattle.gaz_steps.specs.Step.{Pose, Replied};
ghost use Rattle.gaz_hub.specs.Telling.{RepliesTo};
ghost use Rattle.gaz_steps.specs.declared.question.Question.TheVariants.{Settle};

use crate::remembering::settled;
use gaz_keeper::{Inbox, ShelfFault};
use gaz_register::Register;
use gaz_waiters::Waiters;
use std::alloc::Global;

/// A hub of the custodians of a register, which keeps files and board in a keeper.
///
/// Each call that the door lets in settles first: it judges what is ready, until nothing is. What a
/// call does is said of the content of the keeper, where it stands for one that the hub may have,
/// and nobody else wrote on it nor did a failure shut it up to the call's end. Whom the door
/// refuses, and by what, is said whatever the keeper stands for; the keeper isn't called then.
///
/// What each custodian's next volume waits for is remembered from one call to the next, so that
/// nobody is looked at in vain. A fault, and want of memory for it, lets the hub forget; the next
/// settling looks at everyone.
#[derive(Drop)]
pub struct Hub<K: Inbox + Drop> {
    pub(crate) alloc: Global,
    pub(crate) register: Register,
    pub(crate) keeper: K,
    pub(crate) waiters: Option<Waiters>,
}

impl<K: Inbox + Drop> Hub<K> {
    /// A hub over a keeper in which no judgement is in progress.
    pub fn new(alloc: Global, register: Register, keeper: K) -> Hub<K>
        requires { IsNotJudging K.seen keeper }
        ensures register { result.register ≡ register }
        ensures keeper { result.keeper ≡ keeper }
        ensures remembers { RemembersNothing result }
    {
        Hub {
            alloc,
            register,
            keeper,
            waiters: None,
        }
    }

    /// Judges until nothing is ready: whoever may be ready is looked at, again and again, until
    /// nobody is.
    pub fn settle(&mut self) -> Result<(), ShelfFault>
        requires idle { IsNotJudging K.seen self.old.keeper }
        ensures steps { RepliesTo (hub_seen K.seen) self.old.register self.old self.new
            Settle (or_not_received result) }
        ensures forgets { OnErr result (RemembersNothing self.new) }
        ensures door { MeetsDoor (door_of self.old.register) self.old.keeper self.new.keeper
            (Pose Settle) (Replied Settle (or_not_received result)) }
        ensures register { self.new.register ≡ self.old.register }
    {
        let read = |_keeper: &mut K| Ok(());
        settled(
            self.alloc,
            &self.register,
            &mut self.keeper,
            &mut self.waiters,
            read,
        )
    }

    /// The register of the hub's custodians.
    pub fn register(&self) -> &Register
        ensures { result.now ≡ self.now.register }
    {
        &self.register
    }

    /// The keeper.
    pub fn shelf(&self) -> &K
        ensures { result.now ≡ self.now.keeper }
    {
        &self.keeper
    }

    /// The register and the keeper, as they stand.
    pub fn into_parts(self) -> (Register, K)
        ensures { result ≡ (self.register, self.keeper) }
    {
        (self.register, self.keeper)
    }
}
