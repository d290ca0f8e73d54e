//! A keeper for tests, around another.
ghost use Rattle.std.specs.Prelude.{◌≡◌, ◌≢◌, ◌≤◌, ◌<◌, ◌-◌, ◌==◌, ◌||◌, if◌then◌else◌, true};
ghost use Rattle.std.specs.Prelude.{false, Some, IfErr, OnErr, OnOk};
ghost use Rattle.gaz_faulty.specs.Calls.{CountsAs, counted, failure_of, plan_from};
ghost use Rattle.gaz_faulty.specs.Faulting.{BreaksOff, around, progress_around};
ghost use Rattle.gaz_keeper.specs.Keeper.{Idle, IsNotOpen};

use crate::calls::{Calls, Counted, Plan};
use gaz_keeper::{Inbox, ShelfFault};

/// Passes every call on to another keeper and counts it; one call, chosen by its number, fails as
/// if the store did.
///
/// The call that is to fail answers `Store`, and isn't passed on. Within a judgement it breaks it:
/// the inner keeper's is given up at once. Whether a judgement is broken this keeper says itself,
/// also after a fault of the inner one.
#[derive(Drop)]
pub struct Faulty<K: Inbox + Drop> {
    pub(crate) inner: K,
    pub(crate) plan: Plan,
    pub(crate) broken: bool,
    ghost given_up: { broken ≡ true → IsNotOpen (K.seen inner).progress },
}

impl<K: Inbox + Drop> Faulty<K> {
    /// Around a keeper. `fails_at` is the number of the call that is to fail, from 1 over all
    /// calls, and 0 for none.
    #[tactic(auto, using(crate::proofs::Faulting::idle_around))]
    pub fn new(inner: K, fails_at: u64) -> Faulty<K>
        ensures inner { result.inner ≡ inner }
        ensures plan { result.plan ≡ plan_from fails_at }
        ensures whole { result.broken ≡ false }
        ensures idle { IsNotOpen (K.seen inner).progress
            → progress_around result.broken (K.seen result.inner).progress ≡ Idle }
    {
        Faulty {
            inner,
            plan: Plan::new(fails_at),
            broken: false,
        }
    }

    /// How often each call was made.
    pub fn counted(&self) -> Calls
        ensures { result ≡ self.now.plan.calls }
    {
        self.plan.calls()
    }

    /// The call that failed, where its number has come.
    pub fn failed(&self) -> Option<Counted>
        ensures { result ≡ self.now.plan.failed }
    {
        self.plan.failed()
    }

    /// Counts a call outside a judgement: an error where it is to fail; else a broken judgement is
    /// cleared.
    pub(crate) fn admit(&mut self, call: Counted) -> Result<(), ShelfFault>
        ensures counts { CountsAs call self.old.plan self.new.plan self.old.broken result }
        ensures inner { self.new.inner ≡ self.old.inner }
        ensures ok { OnOk result ((self.new.broken ≡ false)
            × (self.new.plan.failures ≡ self.old.plan.failures)) }
        ensures due { OnOk result (self.old.plan.left ≢ 1) }
        ensures err { OnErr result (self.new.broken ≡ self.old.broken) }
        ensures kept { self.old.plan.failures ≤ self.new.plan.failures }
        ensures store { IfErr result (λ e. e ≡ ShelfFault.Store
            → self.old.plan.failures < self.new.plan.failures) }
    {
        if self.plan.is_due(call) {
            return Err(self.plan.fail());
        }
        self.broken = false;
        Ok(())
    }

    /// Counts a call of a judgement, and tells whether it is to fail or the judgement is broken
    /// already.
    pub(crate) fn is_stopped(&mut self, call: Counted) -> bool
        ensures calls { self.new.plan.calls ≡ counted call self.old.plan.calls }
        ensures left { self.new.plan.left ≡ self.old.plan.left - 1 }
        ensures failed { self.new.plan.failed
            ≡ (if self.old.plan.left == 1 then Some call else self.old.plan.failed) }
        ensures failures { self.new.plan.failures ≡ self.old.plan.failures }
        ensures inner { self.new.inner ≡ self.old.inner }
        ensures broken { self.new.broken ≡ self.old.broken }
        ensures stopped { result ≡ (self.old.plan.left == 1 || self.old.broken) }
    {
        self.plan.is_due(call) || self.broken
    }

    /// Breaks the judgement, where it isn't broken already, and counts a failure.
    pub(crate) fn break_off(&mut self) -> ShelfFault
        requires { progress_around self.old.broken (K.seen self.old.inner).progress ≢ Idle }
        ensures breaks { BreaksOff (K.seen self.old.inner).content
            (around (K.seen self.old.inner) self.old.broken self.old.plan.failures)
            (around (K.seen self.new.inner) self.new.broken self.new.plan.failures) result }
        ensures fault { result ≡ failure_of self.old.plan }
        ensures calls { self.new.plan.calls ≡ self.old.plan.calls }
        ensures left { self.new.plan.left ≡ self.old.plan.left }
        ensures failed { self.new.plan.failed ≡ self.old.plan.failed }
    {
        if !self.broken {
            // The keeper within counts a fault of its own.
            let _ = self.inner.abandon();
            self.broken = true;
        }
        self.plan.fail()
    }
}
