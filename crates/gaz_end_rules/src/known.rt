//! What is known already while the end rules are asked.
ghost use Rattle.std.specs.Prelude.{ℕ, List};
ghost use Rattle.gaz_views.specs.View.{View};
ghost use Rattle.gaz_end_rules.specs.Knowing.{IsRight};

use crate::last_street::LastStreet;
use crate::passed::Passed;
use crate::rings::Walked;
use std::alloc::Global;

/// What was found so far in one view and its basis views.
#[derive(Drop)]
pub struct Known {
    pub(crate) walked: Walked,
    pub(crate) street: LastStreet,
    pub(crate) passed: Passed,
}

impl Known {
    /// Nothing so far, which is right of any views.
    pub fn new(alloc: Global) -> Known
        ensures { (v : View) (others : List (ℕ × View)) → IsRight v others result }
    {
        Known {
            walked: Walked::new(alloc),
            street: LastStreet::new(),
            passed: Passed::new(alloc),
        }
    }
}
