//! The keys of the items that name one BLPU.
ghost use Rattle.std.specs.Prelude.{◌∷◌, [], OnOk, IfOk};
ghost use Rattle.gaz_standing.specs.Changing.{AddsKey};
ghost use Rattle.gaz_standing.specs.Ties.{keys_in};

use gaz_records::SortKey;
use std::alloc::{AllocError, Global};
use std::collections::BTreeSet;

/// The keys of the items that name a BLPU, and some at which none stands any more. Mostly there is
/// one, which then takes no memory of its own.
#[derive(Drop)]
pub enum Tied {
    /// This key alone.
    One(SortKey),
    /// These keys.
    Many(BTreeSet<SortKey>),
}

impl Tied {
    /// Adds a key.
    pub fn insert(&mut self, alloc: Global, key: SortKey) -> Result<(), AllocError>
        ensures { OnOk result (AddsKey (keys_in self.old) (keys_in self.new) key) }
    {
        match self {
            Tied::One(one) => {
                if *one == key {
                    return Ok(());
                }
                let both = both_of(alloc, *one, key)?;
                *self = Tied::Many(both);
            }
            Tied::Many(keys) => {
                keys.insert(key)?;
            }
        }
        Ok(())
    }
}

// Two keys.
fn both_of(alloc: Global, one: SortKey, other: SortKey) -> Result<BTreeSet<SortKey>, AllocError>
    ensures { IfOk result (λ keys. AddsKey (one ∷ []) keys.keys other) }
{
    let mut both = BTreeSet::new(alloc);
    both.insert(one)?;
    both.insert(other)?;
    Ok(both)
}
