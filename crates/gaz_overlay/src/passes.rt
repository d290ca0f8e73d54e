//! The numbers that a judgement has passed on, in their order.
ghost use Rattle.std.specs.Prelude.{◌≡◌, ◌↔◌, false, true, IfOk, OnErr, OnOk};
ghost use Rattle.std.specs.BTreeMap.{keys};
ghost use Rattle.std.specs.FinMap as map;
ghost use Rattle.std.specs.List.Sorted.{IsStrictlySortedBy};
ghost use Rattle.gaz_overlay.specs.Changes.{born_before, noted};

use gaz_ids::Uprn;
use std::alloc::{AllocError, Global};
use std::collections::BTreeMap;
use std::marker::Model;

/// Of each number that the volume has passed on, in which volume its current passage was born,
/// where it had one.
#[derive(Drop)]
pub struct Passes {
    by_uprn: BTreeMap<Uprn, Option<u64>>,
}

impl Model for Passes {
    ghost use Rattle.std.specs.FinMap as map;
    ghost use Rattle.gaz_overlay.specs.Changes.{Passed};
    ghost use Rattle.gaz_overlay.specs.ChangesCode.{passed_code};

    ghost Value = { Passed };

    ghost coded = { passed_code };

    ghost view = { λ p. map.from_entries p.by_uprn.entries };
}

impl Passes {
    /// No number.
    pub fn new(alloc: Global) -> Passes
        ensures { result ≡ map.empty }
    {
        Passes {
            by_uprn: BTreeMap::new(alloc),
        }
    }

    /// Whether a number was passed on.
    pub fn has(&self, uprn: Uprn) -> bool
        ensures { result ≡ map.contains_key self.now uprn }
    {
        match self.by_uprn.get(&uprn) {
            Some(_) => true,
            None => false,
        }
    }

    /// In which volume a number's current passage was born before, where it had one.
    pub fn born_before(&self, uprn: Uprn) -> Option<u64>
        ensures { result ≡ born_before self.now uprn }
    {
        match self.by_uprn.get(&uprn) {
            Some(since) => *since,
            None => None,
        }
    }

    // Notes a number for the first time. Where memory runs out, nothing changes.
    fn add(&mut self, uprn: Uprn, since: Option<u64>) -> Result<(), AllocError>
        ensures ok { OnOk result (self.new ≡ map.insert self.old uprn since) }
        ensures err { OnErr result (self.new ≡ self.old) }
    {
        self.by_uprn.insert(uprn, since)?;
        Ok(())
    }

    /// Notes a number with what is told when it is passed on first, and answers whether it is the
    /// first time. Where memory runs out, nothing changes.
    pub fn note(&mut self, uprn: Uprn, since: Option<u64>) -> Result<bool, AllocError>
        ensures ok { OnOk result (self.new ≡ noted self.old uprn since) }
        ensures first { IfOk result (λ first. first ≡ true
            ↔ (map.contains_key self.old uprn ≡ false)) }
        ensures err { OnErr result (self.new ≡ self.old) }
    {
        if self.has(uprn) {
            return Ok(false);
        }
        self.add(uprn, since)?;
        Ok(true)
    }

    /// Forgets a number.
    pub fn forget(&mut self, uprn: Uprn)
        ensures { self.new ≡ map.remove self.old uprn }
    {
        self.by_uprn.remove(&uprn);
    }

    /// The numbers, in their order.
    pub fn numbers(&self, alloc: Global) -> Result<Vec<Uprn>, AllocError>
        ensures { IfOk result (λ numbers. numbers.items ≡ map.keys self.now) }
    {
        in_order(&self.by_uprn);
        Ok(numbers_of(alloc, &self.by_uprn)?)
    }
}

// The numbers stand in their order.
fn in_order(by_uprn: &BTreeMap<Uprn, Option<u64>>)
    ensures { IsStrictlySortedBy ⟦<Uprn as Ord>⟧.cmp (keys by_uprn.now) }
{
    let _count = by_uprn.len();
}

// The numbers as they stand.
fn numbers_of(alloc: Global, by_uprn: &BTreeMap<Uprn, Option<u64>>) -> Result<Vec<Uprn>, AllocError>
    ensures { IfOk result (λ found. found.items ≡ keys by_uprn.now) }
{
    let mut found = Vec::new(alloc);
    for uprn in by_uprn.keys() {
        found.push(*uprn)?;
    }
    Ok(found)
}
