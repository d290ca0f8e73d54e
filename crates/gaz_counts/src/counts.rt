//! What is at hand of each custodian.
ghost use Rattle.std.specs.Prelude.{◌≡◌, ℕ, None};
ghost use Rattle.gaz_counts.specs.Counts.{Notes, OneJudged, OneMore, Recounts, noted};

use crate::at_hand::AtHand;
use gaz_ids::Code;
use std::alloc::Global;
use std::collections::BTreeMap;

/// What is at hand of each custodian of whom something is.
#[derive(Drop)]
pub struct Counts {
    pub(crate) by_code: BTreeMap<Code, AtHand>,
}

impl Counts {
    /// Nothing is at hand. Takes no memory.
    pub fn new(alloc: Global) -> Counts
        ensures { (c : ℕ) → noted result c ≡ None }
    {
        Counts {
            by_code: BTreeMap::new(alloc),
        }
    }

    /// What is at hand of a custodian.
    pub fn of(&self, code: Code) -> Option<AtHand>
        ensures { result ≡ noted self.now code }
    {
        self.by_code.get(&code).copied()
    }

    /// This is at hand of a custodian from now on; where there is no memory for it, nothing is of it.
    pub fn note(&mut self, code: Code, at_hand: AtHand)
        ensures { Notes code at_hand self.old self.new }
    {
        let _ = self.by_code.insert(code, at_hand);
    }

    /// One more file of the custodian waits.
    pub fn has_come(&mut self, code: Code)
        ensures { Recounts code OneMore self.old self.new }
    {
        let Some(was) = self.of(code) else {
            return;
        };
        self.note(code, was.one_more());
    }

    /// One that waited is judged.
    pub fn was_judged(&mut self, code: Code)
        ensures { Recounts code OneJudged self.old self.new }
    {
        let Some(was) = self.of(code) else {
            return;
        };
        match was.one_judged() {
            Some(now) => self.note(code, now),
            None => self.by_code.clear(),
        }
    }
}
