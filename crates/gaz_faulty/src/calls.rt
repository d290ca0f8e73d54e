//! How often each call of a keeper was made, and which call is to fail.
ghost use Rattle.std.specs.Prelude.{◌≡◌, ◌≤◌, ◌<◌, ◌-◌, ◌==◌, if◌then◌else◌, Some};
ghost use Rattle.gaz_faulty.specs.Calls.{counted, failure_of, no_calls, plan_from};

use gaz_keeper::ShelfFault;

/// A call of a keeper.
#[derive(Clone, Copy)]
pub enum Counted {
    Reached,
    Verdict,
    Current,
    At,
    Ever,
    ApprovedOf,
    PropertyOf,
    ApprovedOn,
    Children,
    Custody,
    CustodyAt,
    Tied,
    Page,
    Begin,
    Put,
    Take,
    Release,
    Adopt,
    Keep,
    Abandon,
    Skip,
    Received,
    Receive,
    Held,
    Sure,
}

/// How often each call was made; a count stays at its last value.
#[derive(Clone, Copy)]
pub struct Calls {
    pub reached: u64,
    pub verdict: u64,
    pub current: u64,
    pub at: u64,
    pub ever: u64,
    pub approved_of: u64,
    pub property_of: u64,
    pub approved_on: u64,
    pub children: u64,
    pub custody: u64,
    pub custody_at: u64,
    pub tied: u64,
    pub page: u64,
    pub begin: u64,
    pub put: u64,
    pub take: u64,
    pub release: u64,
    pub adopt: u64,
    pub keep: u64,
    pub abandon: u64,
    pub skip: u64,
    pub received: u64,
    pub receive: u64,
    pub held: u64,
    pub sure: u64,
}

impl Calls {
    /// No call so far.
    pub fn none() -> Calls
        ensures { result ≡ no_calls }
    {
        Calls {
            reached: 0,
            verdict: 0,
            current: 0,
            at: 0,
            ever: 0,
            approved_of: 0,
            property_of: 0,
            approved_on: 0,
            children: 0,
            custody: 0,
            custody_at: 0,
            tied: 0,
            page: 0,
            begin: 0,
            put: 0,
            take: 0,
            release: 0,
            adopt: 0,
            keep: 0,
            abandon: 0,
            skip: 0,
            received: 0,
            receive: 0,
            held: 0,
            sure: 0,
        }
    }

    // Counts a call of this kind.
    fn add(&mut self, call: Counted)
        ensures { self.new ≡ counted call self.old }
    {
        match call {
            Counted::Reached => self.reached = self.reached.saturating_add(1),
            Counted::Verdict => self.verdict = self.verdict.saturating_add(1),
            Counted::Current => self.current = self.current.saturating_add(1),
            Counted::At => self.at = self.at.saturating_add(1),
            Counted::Ever => self.ever = self.ever.saturating_add(1),
            Counted::ApprovedOf => self.approved_of = self.approved_of.saturating_add(1),
            Counted::PropertyOf => self.property_of = self.property_of.saturating_add(1),
            Counted::ApprovedOn => self.approved_on = self.approved_on.saturating_add(1),
            Counted::Children => self.children = self.children.saturating_add(1),
            Counted::Custody => self.custody = self.custody.saturating_add(1),
            Counted::CustodyAt => self.custody_at = self.custody_at.saturating_add(1),
            Counted::Tied => self.tied = self.tied.saturating_add(1),
            Counted::Page => self.page = self.page.saturating_add(1),
            Counted::Begin => self.begin = self.begin.saturating_add(1),
            Counted::Put => self.put = self.put.saturating_add(1),
            Counted::Take => self.take = self.take.saturating_add(1),
            Counted::Release => self.release = self.release.saturating_add(1),
            Counted::Adopt => self.adopt = self.adopt.saturating_add(1),
            Counted::Keep => self.keep = self.keep.saturating_add(1),
            Counted::Abandon => self.abandon = self.abandon.saturating_add(1),
            Counted::Skip => self.skip = self.skip.saturating_add(1),
            Counted::Received => self.received = self.received.saturating_add(1),
            Counted::Receive => self.receive = self.receive.saturating_add(1),
            Counted::Held => self.held = self.held.saturating_add(1),
            Counted::Sure => self.sure = self.sure.saturating_add(1),
        }
    }
}

/// What is counted of the calls, and which of them is to fail.
#[derive(Clone, Copy)]
pub(crate) struct Plan {
    calls: Calls,
    /// How many calls there are up to the one that is to fail, and that one; 0 where none is.
    left: u64,
    failed: Option<Counted>,
    /// How often a call failed here; the count stays at its last value.
    failures: u64,
}

impl Plan {
    /// The call of this number is to fail, from 1; none where it is 0.
    pub(crate) fn new(fails_at: u64) -> Plan
        ensures { result ≡ plan_from fails_at }
    {
        Plan {
            calls: Calls::none(),
            left: fails_at,
            failed: None,
            failures: 0,
        }
    }

    pub(crate) fn calls(&self) -> Calls
        ensures { result ≡ self.now.calls }
    {
        self.calls
    }

    pub(crate) fn failed(&self) -> Option<Counted>
        ensures { result ≡ self.now.failed }
    {
        self.failed
    }

    /// Counts a call, and tells whether it is the one to fail.
    pub(crate) fn is_due(&mut self, call: Counted) -> bool
        ensures due { result ≡ (self.old.left == 1) }
        ensures calls { self.new.calls ≡ counted call self.old.calls }
        ensures left { self.new.left ≡ self.old.left - 1 }
        ensures failed { self.new.failed
            ≡ (if self.old.left == 1 then Some call else self.old.failed) }
        ensures failures { self.new.failures ≡ self.old.failures }
    {
        self.calls.add(call);
        let is_due = self.left == 1;
        self.left = self.left.saturating_sub(1);
        if is_due {
            self.failed = Some(call);
        }
        is_due
    }

    /// Counts a failure, where the count isn't at its last value.
    pub(crate) fn fail(&mut self) -> ShelfFault
        ensures fault { result ≡ failure_of self.old }
        ensures kept { self.old.failures ≤ self.new.failures }
        ensures store { result ≡ ShelfFault.Store → self.old.failures < self.new.failures }
        ensures calls { self.new.calls ≡ self.old.calls }
        ensures left { self.new.left ≡ self.old.left }
        ensures failed { self.new.failed ≡ self.old.failed }
    {
        if self.failures == u64::MAX {
            return ShelfFault::Memory;
        }
        self.failures += 1;
        ShelfFault::Store
    }
}
