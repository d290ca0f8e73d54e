//! The keys that break no end rule. One that comes time and again in a file is asked once.
ghost use Rattle.std.specs.Prelude.{◌≡◌, ◌||◌, not, ℕ, IfOk, List, OnOk};
ghost use Rattle.gaz_records.specs.declared.key.Key.{Key};
ghost use Rattle.gaz_views.specs.View.{View};
ghost use Rattle.gaz_end_rules.specs.EndRules.{same_key};
ghost use Rattle.gaz_end_rules.specs.Knowing.{HavePassed, has_passed};

use gaz_records::{Key, SortKey};
use std::alloc::{AllocError, Global};
use std::collections::BTreeSet;

/// The keys that were asked so far and break no end rule in one view and its basis views. One that
/// turns out to break a rule stands among them too: it is the last that is asked.
#[derive(Drop)]
pub(crate) struct Passed {
    keys: BTreeSet<SortKey>,
}

impl Passed {
    /// None so far, which is right of any views.
    pub(crate) fn new(alloc: Global) -> Passed
        ensures passed { (v : View) (others : List (ℕ × View)) → HavePassed v others result }
    {
        Passed {
            keys: BTreeSet::new(alloc),
        }
    }

    /// Adds a key, and tells whether it is new, so that it has to be asked.
    pub(crate) fn add(&mut self, key: &Key) -> Result<bool, AllocError>
        ensures is_new { IfOk result (λ is_new. is_new ≡ not (has_passed self.old key.now)) }
        ensures added { OnOk result ((k : Key)
            → has_passed self.new k ≡ (same_key key.now k || has_passed self.old k)) }
    {
        let is_new = self.keys.insert(SortKey::of(key))?;
        Ok(is_new)
    }
}
