//! Keys of lists, in their order.
ghost use Rattle.std.specs.Prelude.{◌≡◌, ◌||◌, ◌++◌, IfOk, OnOk};
ghost use Rattle.std.specs.List.Sorted.{IsStrictlySortedBy};
ghost use Rattle.gaz_records.specs.declared.key.Key.{Key};
ghost use Rattle.gaz_overlay.specs.Questions.{in_order};
ghost use Rattle.gaz_standing.specs.Indexes.{has_key};

use gaz_records::Key;
use std::alloc::{AllocError, Global};
use std::collections::BTreeSet;

/// The keys, each once, in key order.
pub fn in_order(alloc: Global, keys: &[Key]) -> Result<Vec<Key>, AllocError>
    ensures { IfOk result (λ sorted. sorted.items ≡ in_order keys.now) }
{
    merged(alloc, keys, &[])
}

/// The keys of two lists, each once, in key order.
pub(crate) fn merged(alloc: Global, first: &[Key], second: &[Key]) -> Result<Vec<Key>, AllocError>
    ensures { IfOk result (λ keys. keys.items ≡ in_order (first.now ++ second.now)) }
{
    let mut keys = BTreeSet::new(alloc);
    add_all(&mut keys, first)?;
    add_all(&mut keys, second)?;
    stand_in_order(&keys);
    Ok(listed(alloc, &keys)?)
}

// Adds keys to a set.
fn add_all(set: &mut BTreeSet<Key>, keys: &[Key]) -> Result<(), AllocError>
    ensures { OnOk result ((k : Key)
        → has_key set.new.keys k ≡ (has_key set.old.keys k || has_key keys.now k)) }
{
    for key in keys {
        set.insert(*key)?;
    }
    Ok(())
}

// The keys of a set stand in their order.
fn stand_in_order(set: &BTreeSet<Key>)
    ensures { IsStrictlySortedBy ⟦<Key as Ord>⟧.cmp set.now.keys }
{
    let _count = set.len();
}

// The keys of a set as they stand.
fn listed(alloc: Global, set: &BTreeSet<Key>) -> Result<Vec<Key>, AllocError>
    ensures { IfOk result (λ keys. keys.items ≡ set.now.keys) }
{
    let mut keys = Vec::new(alloc);
    for key in set {
        keys.push(*key)?;
    }
    Ok(keys)
}
