//! The touched keys in their order.
ghost use Rattle.std.specs.Prelude.{◌≡◌, IfOk, IsSome, None, OnErr, OnOk, Some, option_map};
ghost use Rattle.std.specs.BTreeMap.{keys};
ghost use Rattle.std.specs.FinMap as map;
ghost use Rattle.std.specs.List.Sorted.{IsStrictlySortedBy};
ghost use Rattle.gaz_overlay.specs.Changes.{stood_in};

use crate::touch::{Stood, Touch};
use gaz_records::{Key, SharedItem};
use std::alloc::{AllocError, Global};
use std::collections::BTreeMap;
use std::marker::Model;

/// What is kept of each key that the volume has touched.
#[derive(Drop)]
pub struct Touches {
    by_key: BTreeMap<Key, Touch>,
}

impl Model for Touches {
    ghost use Rattle.std.specs.FinMap as map;
    ghost use Rattle.gaz_overlay.specs.Changes.{Touched};
    ghost use Rattle.gaz_overlay.specs.ChangesCode.{touched_code};

    ghost Value = { Touched };

    ghost coded = { touched_code };

    ghost view = { λ t. map.from_entries t.by_key.entries };
}

impl Touches {
    /// No key.
    pub fn new(alloc: Global) -> Touches
        ensures { result ≡ map.empty }
    {
        Touches {
            by_key: BTreeMap::new(alloc),
        }
    }

    /// What is kept of a key, where it is touched.
    pub fn get(&self, key: &Key) -> Option<&Touch>
        ensures { option_map (λ t. t.now) result ≡ map.get self.now key.now }
    {
        self.by_key.get(key)
    }

    // Sets what is kept of a key. Where memory runs out, which it does only for a new key, nothing
    // changes.
    fn set(&mut self, key: Key, touch: Touch) -> Result<(), AllocError>
        ensures ok { OnOk result (self.new ≡ map.insert self.old key touch) }
        ensures err { OnErr result (self.new ≡ self.old) }
        ensures absent { OnErr result (map.get self.old key ≡ None) }
    {
        self.by_key.insert(key, touch)?;
        Ok(())
    }

    /// Notes a key with what stood there. Where memory runs out, nothing changes.
    pub fn note(&mut self, key: &Key, stood: Stood) -> Result<(), AllocError>
        ensures ok { OnOk result (self.new
            ≡ map.insert self.old key.now (record { stood = stood; last = None })) }
        ensures err { OnErr result (self.new ≡ self.old) }
    {
        self.set(*key, Touch { stood, last: None })
    }

    /// Forgets a key.
    pub fn forget(&mut self, key: &Key)
        ensures { self.new ≡ map.remove self.old key.now }
    {
        self.by_key.remove(key);
    }

    /// What stood at a touched key before.
    pub fn stood(&self, key: &Key) -> Stood
        ensures { result ≡ stood_in self.now key.now }
    {
        match self.by_key.get(key) {
            Some(touch) => touch.stood,
            None => Stood::NoRow,
        }
    }

    /// Notes the item that was put last at a touched key.
    pub fn note_last(&mut self, key: &Key, item: SharedItem)
        requires { IsSome (map.get self.old key.now) }
        ensures { self.new ≡ map.insert self.old key.now
            (record { stood = stood_in self.old key.now; last = Some item }) }
    {
        let touch = Touch {
            stood: self.stood(key),
            last: Some(item),
        };
        let _ = self.set(*key, touch);
    }

    /// The keys, in their order.
    pub fn keys(&self, alloc: Global) -> Result<Vec<Key>, AllocError>
        ensures { IfOk result (λ keys. keys.items ≡ map.keys self.now) }
    {
        in_order(&self.by_key);
        Ok(keys_of(alloc, &self.by_key)?)
    }
}

// The keys stand in their order.
fn in_order(by_key: &BTreeMap<Key, Touch>)
    ensures { IsStrictlySortedBy ⟦<Key as Ord>⟧.cmp (keys by_key.now) }
{
    let _count = by_key.len();
}

// The keys as they stand.
fn keys_of(alloc: Global, by_key: &BTreeMap<Key, Touch>) -> Result<Vec<Key>, AllocError>
    ensures { IfOk result (λ found. found.items ≡ keys by_key.now) }
{
    let mut found = Vec::new(alloc);
    for key in by_key.keys() {
        found.push(*key)?;
    }
    Ok(found)
}
