//! Keys by the BLPU that their items name.
ghost use Rattle.std.specs.Prelude.{◌≡◌, [], OnOk, ℕ};
ghost use Rattle.std.specs.Option.{option_map_or};
ghost use Rattle.gaz_standing.specs.Ties.{AddsTie, IsTiedTo, KeepsTies, keys_in, keys_tied};

use crate::seed::Seed;
use crate::tied::Tied;
use gaz_ids::Uprn;
use gaz_records::SortKey;
use std::alloc::{AllocError, Global};
use std::collections::HashMap;

/// Keys of cross references and LPIs, and some at which none stands any more.
#[derive(Drop)]
pub struct TiedKeys {
    alloc: Global,
    by_uprn: HashMap<Uprn, Tied, Seed>,
}

impl TiedKeys {
    /// No keys.
    pub fn new(alloc: Global, seed: Seed) -> TiedKeys
        ensures { (n : ℕ) → keys_tied result n ≡ [] }
    {
        TiedKeys {
            alloc,
            by_uprn: HashMap::with_hasher(alloc, seed),
        }
    }

    /// The keys under a BLPU.
    pub fn get(&self, uprn: Uprn) -> Option<&Tied>
        ensures { option_map_or (λ ks. keys_in ks.now) result [] ≡ keys_tied self.now uprn }
    {
        self.by_uprn.get(&uprn)
    }

    // Adds a key under a BLPU.
    fn add(&mut self, uprn: Uprn, key: SortKey) -> Result<(), AllocError>
        ensures { OnOk result (AddsTie self.old self.new uprn key) }
    {
        let keys = self.by_uprn.entry(uprn)?.or_insert(Tied::One(key));
        keys.insert(self.alloc, key)
    }

    /// Adds a key under a BLPU, where one is given.
    pub fn add_some(&mut self, named: Option<Uprn>, key: SortKey) -> Result<(), AllocError>
        ensures kept { OnOk result (KeepsTies self.old self.new) }
        ensures tied { OnOk result (IsTiedTo self.new named key) }
    {
        match named {
            Some(uprn) => self.add(uprn, key),
            None => Ok(()),
        }
    }
}
