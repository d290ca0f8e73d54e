//! Properties that are at hand.
ghost use Rattle.std.specs.Prelude.{◌≡◌, ℕ, is_some, None, OnErr, OnOk, option_map, Some};
ghost use Rattle.gaz_ledger.specs.Changing.{KnowsOf};
ghost use Rattle.gaz_ledger.specs.Properties.{known_in};

use gaz_ids::Uprn;
use gaz_standing::Seed;
use gaz_views::Property;
use std::alloc::{AllocError, Global};
use std::collections::HashMap;

/// Properties by their numbers.
#[derive(Drop)]
pub struct Properties {
    by_uprn: HashMap<Uprn, Property, Seed>,
}

impl Properties {
    /// None.
    pub fn new(alloc: Global, seed: Seed) -> Properties
        ensures { (uprn : ℕ) → known_in result uprn ≡ None }
    {
        Properties {
            by_uprn: HashMap::with_hasher(alloc, seed),
        }
    }

    /// The property of a number, where it is known.
    pub fn get(&self, uprn: Uprn) -> Option<&Property>
        ensures { option_map (λ p. p.now) result ≡ known_in self.now uprn }
    {
        self.by_uprn.get(&uprn)
    }

    /// Makes a property known. Where memory runs out, nothing changes.
    pub fn set(&mut self, uprn: Uprn, property: Property) -> Result<(), AllocError>
        ensures ok { OnOk result (KnowsOf self.old self.new uprn (Some property)) }
        ensures err { OnErr result ((n : ℕ) → known_in self.new n ≡ known_in self.old n) }
    {
        self.by_uprn.insert(uprn, property)?;
        Ok(())
    }

    /// Makes a property unknown. Whether it was known.
    pub fn forget(&mut self, uprn: Uprn) -> bool
        ensures known { KnowsOf self.old self.new uprn None }
        ensures was { result ≡ is_some (known_in self.old uprn) }
    {
        // Mostly it isn't, and looking costs less than removing.
        if self.by_uprn.get(&uprn).is_none() {
            return false;
        }
        self.by_uprn.remove(&uprn);
        true
    }
}
