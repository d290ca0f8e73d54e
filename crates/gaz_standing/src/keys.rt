//! The keys that are found under one mark.
ghost use Rattle.std.specs.Prelude.{◌≡◌, ◌∷◌, [], false, OnOk, OnErr, IfOk, IsTrue, ◌↔◌};
ghost use Rattle.std.specs.List.Sorted.{IsStrictlySortedBy};
ghost use Rattle.gaz_standing.specs.Changing.{AddsKey, TakesKey};
ghost use Rattle.gaz_standing.specs.Indexes.{has_key, listed};

use gaz_records::Key;
use std::alloc::{AllocError, Global};
use std::collections::BTreeSet;

/// The keys under a mark. Mostly there is one, which then takes no memory of its own.
#[derive(Drop)]
pub enum Keys {
    /// This key alone.
    One(Key),
    /// None, one or more.
    Many(BTreeSet<Key>),
}

impl Keys {
    /// This key alone.
    pub(crate) fn one(key: Key) -> Keys
        ensures { listed result ≡ key ∷ [] }
    {
        Keys::One(key)
    }

    /// Adds a key. Where memory runs out, which it does only for a key that is new, the keys are as
    /// they were.
    pub(crate) fn insert(&mut self, alloc: Global, key: Key) -> Result<(), AllocError>
        ensures ok { OnOk result (AddsKey (listed self.old) (listed self.new) key) }
        ensures err { OnErr result (listed self.new ≡ listed self.old) }
        ensures absent { OnErr result (has_key (listed self.old) key ≡ false) }
    {
        match self {
            Keys::One(one) => {
                if one.compare(&key).is_eq() {
                    return Ok(());
                }
                let both = both_of(alloc, *one, key)?;
                *self = Keys::Many(both);
            }
            Keys::Many(keys) => {
                keys.insert(key)?;
            }
        }
        Ok(())
    }

    /// Takes a key out, where it is there.
    pub(crate) fn remove(&mut self, alloc: Global, key: &Key)
        ensures { TakesKey (listed self.old) (listed self.new) key.now }
    {
        match self {
            Keys::One(one) => {
                if one.compare(key).is_eq() {
                    *self = Keys::Many(BTreeSet::new(alloc));
                }
            }
            Keys::Many(keys) => {
                keys.remove(key);
            }
        }
    }

    /// Whether there are none.
    pub(crate) fn is_empty(&self) -> bool
        ensures { IsTrue result ↔ (listed self.now ≡ []) }
    {
        match self {
            Keys::One(_) => false,
            Keys::Many(keys) => keys.is_empty(),
        }
    }

    /// The keys stand in their order.
    pub fn in_order(&self)
        ensures { IsStrictlySortedBy ⟦<Key as Ord>⟧.cmp (listed self.now) }
    {
        match self {
            Keys::One(_) => {}
            Keys::Many(keys) => {
                let _count = keys.len();
            }
        }
    }
}

// Two keys.
fn both_of(alloc: Global, one: Key, other: Key) -> Result<BTreeSet<Key>, AllocError>
    ensures { IfOk result (λ keys. AddsKey (one ∷ []) keys.keys other) }
{
    let mut both = BTreeSet::new(alloc);
    both.insert(one)?;
    both.insert(other)?;
    Ok(both)
}
