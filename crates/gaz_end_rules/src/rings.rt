//! Rings of parents. Over a whole file each BLPU's parent is looked up at most once.
ghost use Rattle.std.specs.Prelude.{◌≡◌, ◌<◌, ◌≤◌, ◌^◌, ◌++◌, ◌∷◌, [], ℕ, Bool, false, true, cond};
ghost use Rattle.std.specs.Prelude.{is_some, length, slice_get, None, OnOk, Some};
ghost use Rattle.std.specs.Ordering.{nat_cmp};
ghost use Rattle.std.specs.BTreeMap as tree;
ghost use Rattle.gaz_records.specs.declared.key.Key.TheVariants as key;
ghost use Rattle.gaz_views.specs.View.{View};
ghost use Rattle.gaz_end_rules.specs.EndRules.{is_own_ancestor, parent_of};
ghost use Rattle.gaz_end_rules.specs.Rings.{Knows, visit_of};
ghost use Rattle.gaz_end_rules.specs.Working.{IsJudging, ReadsView};

use gaz_ids::{Code, Uprn};
use gaz_keeper::{Shelf, ShelfFault};
use gaz_records::{Item, Key, item_in};
use std::alloc::{AllocError, Global};
use std::collections::BTreeMap;

/// The BLPUs whose chains of parents were walked so far in one view.
#[derive(Drop)]
pub(crate) struct Walked {
    /// When each was visited, from 0.
    visits: BTreeMap<Uprn, usize>,
    /// By visit, whether the BLPU is on a ring.
    on_ring: Vec<bool>,
}

impl Walked {
    /// None so far, which is right of any view.
    pub(crate) fn new(alloc: Global) -> Walked
        ensures knows { (v : View) → Knows v result }
    {
        Walked {
            visits: BTreeMap::new(alloc),
            on_ring: Vec::new(alloc),
        }
    }

    // Visits a BLPU, of which no ring is known so far. There is room for at most so many visits.
    fn visit(&mut self, uprn: Uprn) -> Result<(), AllocError>
        ensures visits { OnOk result ((q : ℕ) → visit_of self.new q
            ≡ cond (tree.is_at (nat_cmp uprn) q) (Some (length self.old.on_ring.items))
            (visit_of self.old q)) }
        ensures on_ring { OnOk result
            (self.new.on_ring.items ≡ self.old.on_ring.items ++ false ∷ []) }
        ensures room { length self.old.on_ring.items < 2 ^ 64 }
    {
        let visit = self.on_ring.len();
        self.on_ring.push(false)?;
        self.visits.insert(uprn, visit)?;
        Ok(())
    }

    // When a BLPU was visited.
    fn visit_of(&self, uprn: Uprn) -> Option<usize>
        ensures { result ≡ visit_of self.now uprn }
    {
        self.visits.get(&uprn).copied()
    }

    // Whether a BLPU is on a ring, as far as it was visited.
    fn is_on_ring(&self, uprn: Uprn) -> bool
        ensures visited { (i : ℕ) (b : Bool) → visit_of self.now uprn ≡ Some i
            → slice_get self.now.on_ring.items i ≡ Some b → result ≡ b }
        ensures never { visit_of self.now uprn ≡ None → result ≡ false }
    {
        let Some(visit) = self.visit_of(uprn) else {
            return false;
        };
        self.on_ring.get(visit).copied().unwrap_or(false)
    }

    // The BLPUs that were visited from here on are on a ring.
    fn close_ring(&mut self, from: usize)
        ensures visits { self.new.visits ≡ self.old.visits }
        ensures before { (i : ℕ) → i < from
            → slice_get self.new.on_ring.items i ≡ slice_get self.old.on_ring.items i }
        ensures after { (i : ℕ) → from ≤ i → i < length self.old.on_ring.items
            → slice_get self.new.on_ring.items i ≡ Some true }
    {
        mark_from(&mut self.on_ring, from);
    }
}

// Sets the marks from one on.
fn mark_from(marks: &mut [bool], from: usize)
    ensures len { length marks.new ≡ length marks.old }
    ensures before { (i : ℕ) → i < from → slice_get marks.new i ≡ slice_get marks.old i }
    ensures after { (i : ℕ) → from ≤ i → i < length marks.old → slice_get marks.new i ≡ Some true }
{
    for i in from..marks.len() {
        marks[i] = true;
    }
}

// The parent of a BLPU.
fn parent_of<K: Shelf>(keeper: &mut K, code: Code, uprn: Uprn) -> Result<Option<Uprn>, ShelfFault>
    requires { IsJudging K.seen keeper.old code }
    ensures { ReadsView K.seen keeper.old keeper.new result (λ view p. p ≡ parent_of view uprn) }
{
    let stored = keeper.current(code, &Key::Blpu(uprn))?;
    let Some(Item::Blpu(blpu)) = item_in(&stored) else {
        return Ok(None);
    };
    Ok(blpu.parent)
}

// Walks up from a BLPU, to the top or to one that was visited, and marks those on a ring that this
// closes. Each turn visits one that wasn't, and takes memory for it: so the walk ends whatever the
// keeper answers.
fn walk<K: Shelf>(
    keeper: &mut K,
    code: Code,
    walked: &mut Walked,
    uprn: Uprn,
) -> Result<(), ShelfFault>
    requires { IsJudging K.seen keeper.old code }
    ensures { ReadsView K.seen keeper.old keeper.new result (λ view _. Knows view walked.old
        → Knows view walked.new × (is_some (visit_of walked.new uprn) ≡ true)) }
{
    let mut at = uprn;
    let start = walked.on_ring.len();
    'up: loop {
        if let Some(visit) = walked.visit_of(at) {
            if visit < start {
                return Ok(());
            }
            walked.close_ring(visit);
            return Ok(());
        }
        walked.visit(at)?;
        let Some(parent) = parent_of(keeper, code, at)? else {
            return Ok(());
        };
        at = parent;
    }
}

/// Whether a chain of parents leads from a BLPU with this parent back to it.
pub(crate) fn is_on_ring<K: Shelf>(
    keeper: &mut K,
    code: Code,
    walked: &mut Walked,
    uprn: Uprn,
    parent: Uprn,
) -> Result<bool, ShelfFault>
    requires { IsJudging K.seen keeper.old code }
    ensures { ReadsView K.seen keeper.old keeper.new result (λ view b. Knows view walked.old
        → Knows view walked.new
        × (parent_of view uprn ≡ Some parent → b ≡ is_own_ancestor view (key.Blpu uprn))) }
{
    walk(keeper, code, walked, parent)?;
    Ok(walked.is_on_ring(uprn))
}
