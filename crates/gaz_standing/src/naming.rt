//! What the items at keys name after a volume.
ghost use Rattle.std.specs.Prelude.{◌≡◌, ◌<◌, ◌+◌, ◌-◌, ◌^◌, IfOk, OnOk};
ghost use Rattle.std.specs.List.{list_any};
ghost use Rattle.std.specs.Option.{option_and_then};
ghost use Rattle.gaz_histories.specs.Histories.{standing_at};
ghost use Rattle.gaz_records.specs.declared.key.Key.{Key};
ghost use Rattle.gaz_views.specs.Words.{blpu_named};
ghost use Rattle.gaz_standing.specs.Ties.{IsTiedTo, KeepsTies, keys_in, named_at, names_at};

use crate::histories::Histories;
use crate::seed::Seed;
use crate::tied::Tied;
use crate::tied_keys::TiedKeys;
use crate::words::blpu_named;
use gaz_histories::History;
use gaz_ids::Uprn;
use gaz_records::{SharedItem, SortKey};
use std::alloc::AllocError;

impl Histories {
    // The BLPU that the item at a key names after a volume.
    fn named(&self, volume: u64, key: &SortKey) -> Option<Uprn>
        ensures { result ≡ named_at self.now volume key.now }
    {
        match self.by_key.get(key) {
            Some(history) => named_in(history, volume),
            None => None,
        }
    }

    // Whether the item at a key names a BLPU after a volume.
    fn names(&self, volume: u64, uprn: Uprn, key: &SortKey) -> bool
        ensures { result ≡ names_at self.now volume uprn key.now }
    {
        match self.named(volume, key) {
            Some(named) => named == uprn,
            None => false,
        }
    }

    /// Whether the item at one of these keys names a BLPU after a volume.
    pub(crate) fn any_names(&self, volume: u64, uprn: Uprn, keys: &Tied) -> bool
        ensures { result ≡ list_any (names_at self.now volume uprn) (keys_in keys.now) }
    {
        match keys {
            Tied::One(key) => self.names(volume, uprn, key),
            Tied::Many(keys) => {
                for key in keys {
                    if self.names(volume, uprn, key) {
                        return true;
                    }
                }
                false
            }
        }
    }

    // Adds a key under the BLPUs that its items name after a volume and after the next one.
    fn add_named(&self, keys: &mut TiedKeys, volume: u64, key: &SortKey) -> Result<(), AllocError>
        requires { volume < 2 ^ 64 - 1 }
        ensures kept { OnOk result (KeepsTies keys.old keys.new) }
        ensures first { OnOk result (IsTiedTo keys.new (named_at self.now volume key.now) key.now) }
        ensures next { OnOk result
            (IsTiedTo keys.new (named_at self.now (volume + 1) key.now) key.now) }
    {
        let first = self.named(volume, key);
        let next = self.named(volume + 1, key);
        keys.add_some(first, *key)?;
        keys.add_some(next, *key)
    }

    /// The keys of all items that name a BLPU after a volume or after the next one.
    pub(crate) fn tied_keys(&self, seed: Seed, volume: u64) -> Result<TiedKeys, AllocError>
        requires { volume < 2 ^ 64 - 1 }
        ensures first { IfOk result (λ t.
            (k : Key) → IsTiedTo t (named_at self.now volume k) k) }
        ensures next { IfOk result (λ t.
            (k : Key) → IsTiedTo t (named_at self.now (volume + 1) k) k) }
    {
        let mut keys = TiedKeys::new(self.alloc, seed);
        for key in self.order.as_slice() {
            self.add_named(&mut keys, volume, key)?;
        }
        Ok(keys)
    }
}

// The BLPU that the item in a history names after a volume.
fn named_in(history: &History<SharedItem>, volume: u64) -> Option<Uprn>
    ensures { result ≡ option_and_then blpu_named (standing_at history.now volume) }
{
    match history.standing_at(volume) {
        Some(item) => blpu_named(item),
        None => None,
    }
}
