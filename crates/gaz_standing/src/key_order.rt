//! The keys that were ever used, in an order that is made when a page asks for it.
ghost use Rattle.std.specs.Prelude.{◌≡◌, ◌&&◌, [], is_some, length, OnErr, OnOk};
ghost use Rattle.std.specs.List.Sorted.{IsStrictlySortedBy};
ghost use Rattle.std.specs.Map.{lookup};
ghost use Rattle.std.specs.Ordering.{eq_by_cmp};
ghost use Rattle.gaz_records.specs.Keys.{key_cmp};
ghost use Rattle.gaz_records.specs.declared.key.Key.{Key};
ghost use Rattle.gaz_standing.specs.Changing.{AddsKey};
ghost use Rattle.gaz_standing.specs.Indexes.{has_key};

use crate::seed::Seed;
use gaz_histories::History;
use gaz_records::{SharedItem, SortKey};
use std::alloc::{AllocError, Global};
use std::collections::HashMap;
use std::marker::Model;

/// Keys, of which some may stand there several times until they are put in order.
#[derive(Drop)]
pub struct KeyOrder {
    keys: Vec<SortKey>,
    // Whether they ascend, so that nothing is left to do for a page.
    is_in_order: bool,
}

impl Model for KeyOrder {
    ghost use Rattle.std.specs.Prelude.{List};
    ghost use Rattle.std.specs.Bool.{OnTrue};
    ghost use Rattle.std.specs.List.Sorted.{IsStrictlySortedBy};
    ghost use Rattle.gaz_records.specs.Keys.{key_cmp};
    ghost use Rattle.gaz_records.specs.declared.key.Key.{Key};

    ghost Value = { List Key };

    ghost view = { λ o. o.keys.items };

    ghost invariant = { λ o. OnTrue o.is_in_order (IsStrictlySortedBy key_cmp o.keys.items) };
}

impl KeyOrder {
    /// No keys.
    pub fn new(alloc: Global) -> KeyOrder
        ensures { result ≡ [] }
    {
        KeyOrder {
            keys: Vec::new(alloc),
            is_in_order: false,
        }
    }

    /// How many there are, each counted as often as it stands there.
    pub fn len(&self) -> usize
        ensures { result ≡ length self.now }
    {
        self.keys.len()
    }

    /// Notes a key behind the others. Where memory runs out, nothing changes.
    pub fn note(&mut self, key: SortKey) -> Result<(), AllocError>
        ensures ok { OnOk result (AddsKey self.old self.new key) }
        ensures err { OnErr result (self.new ≡ self.old) }
    {
        self.keys.push(key)?;
        self.is_in_order = false;
        Ok(())
    }

    /// Puts the keys in order, each once. It costs little where most of them are in order. Where
    /// memory runs out, nothing changes.
    pub fn arrange(&mut self) -> Result<(), AllocError>
        ensures ok { OnOk result (IsStrictlySortedBy key_cmp self.new) }
        ensures same { (k : Key) → has_key self.new k ≡ has_key self.old k }
    {
        if self.is_in_order {
            return Ok(());
        }
        self.keys.sort()?;
        self.keys.dedup();
        self.is_in_order = true;
        Ok(())
    }

    /// The keys as they stand.
    pub fn as_slice(&self) -> &[SortKey]
        ensures { result.now ≡ self.now }
    {
        &self.keys
    }

    /// Keeps the keys at which there is a history, each once.
    pub fn keep(&mut self, histories: &HashMap<SortKey, History<SharedItem>, Seed>)
        ensures { (k : Key) → has_key self.new k
            ≡ (is_some (lookup (eq_by_cmp key_cmp k) histories.now.entries)
            && has_key self.old k) }
    {
        self.keys.sort_unstable();
        self.keys.dedup();
        self.keys.retain(|key| histories.contains_key(key));
        self.is_in_order = true;
    }
}
