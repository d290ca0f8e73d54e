//! What stood at each key through the volumes of a gazetteer.
ghost use Rattle.std.specs.Prelude.{◌≡◌, ◌++◌, ◌∷◌, [], IfOk, IsOk, OnOk, OnErr, option_map};
ghost use Rattle.std.specs.Bool.{OnTrue};
ghost use Rattle.std.specs.FinMap as finite;
ghost use Rattle.gaz_histories.specs.Histories.{before, standing_at, was_used_at};
ghost use Rattle.gaz_views.specs.Words.{page};
ghost use Rattle.gaz_standing.specs.Changing.{AreMarksAt, CutsAt, HasMarksIn, SetsAt};
ghost use Rattle.gaz_standing.specs.KeyHistories.{versions_at, view_at};

use crate::index::{Marks, marks_of};
use crate::key_order::KeyOrder;
use crate::seed::Seed;
use crate::words::page_of;
use gaz_histories::History;
use gaz_records::{Key, Kind, SharedItem, SortKey};
use std::alloc::{AllocError, Global};
use std::collections::HashMap;
use std::collections::hash_map::Entry;
use std::marker::Model;

/// The history of each key that was ever used.
#[derive(Drop)]
pub struct Histories {
    pub(crate) alloc: Global,
    pub(crate) by_key: HashMap<SortKey, History<SharedItem>, Seed>,
    // The keys of `by_key`, and some that aren't there any more: pages go by their order, and all
    // else by the hashes.
    pub(crate) order: KeyOrder,
}

impl Model for Histories {
    ghost use Rattle.std.specs.FinMap as finite;
    ghost use Rattle.gaz_standing.specs.KeyHistories.{KeyHistories, HasTheKeysOf};
    ghost use Rattle.gaz_standing.specs.KeyHistoriesCode.{key_histories_code};

    ghost Value = { KeyHistories };

    ghost coded = { key_histories_code };

    ghost view = { λ h. finite.from_entries h.by_key.entries };

    ghost invariant = { λ h. HasTheKeysOf h.order h.by_key.entries };
}

impl Histories {
    /// No key was used.
    pub fn new(alloc: Global, seed: Seed) -> Histories
        ensures { result ≡ finite.empty }
    {
        Histories {
            alloc,
            by_key: HashMap::with_hasher(alloc, seed),
            order: KeyOrder::new(alloc),
        }
    }

    /// How many keys were ever used.
    pub fn len(&self) -> usize
        ensures { result ≡ finite.len self.now }
    {
        self.by_key.len()
    }

    /// The item at a key after a volume.
    pub fn item(&self, volume: u64, key: &Key) -> Option<&SharedItem>
        ensures { option_map (λ i. i.now) result
            ≡ standing_at (versions_at self.now key.now) volume }
    {
        match self.by_key.get(&SortKey::of(key)) {
            Some(history) => history.standing_at(volume),
            None => None,
        }
    }

    /// Whether the key was used at a volume or before it.
    pub fn was_used(&self, volume: u64, key: &Key) -> bool
        ensures { result ≡ was_used_at (versions_at self.now key.now) volume }
    {
        match self.by_key.get(&SortKey::of(key)) {
            Some(history) => history.was_used(volume),
            None => false,
        }
    }

    /// The first `most` items of a kind after a key, or from the start, in key order, after a
    /// volume.
    pub fn page(
        &mut self,
        alloc: Global,
        volume: u64,
        kind: Kind,
        after: Option<Key>,
        most: usize,
    ) -> Result<Vec<SharedItem>, AllocError>
        ensures page { IfOk result (λ items. items.items
            ≡ page (view_at self.old volume) kind after most) }
        ensures same { self.new ≡ self.old }
    {
        self.order.arrange()?;
        let order = self.order.as_slice();
        Ok(page_of(alloc, order, &self.by_key, volume, kind, after, most)?)
    }

    /// From a volume on this item stands at a key, or none any more. What began there at the volume
    /// or after it is forgotten. Answers the marks of the item that stood there.
    pub fn set(
        &mut self,
        volume: u64,
        key: Key,
        item: Option<SharedItem>,
    ) -> Result<Marks, AllocError>
        ensures ok { OnOk result (SetsAt self.old self.new volume key item) }
        ensures err { OnErr result (self.new ≡ self.old) }
        ensures marks { IfOk result (AreMarksAt (view_at self.old volume) key) }
    {
        let key = SortKey::of(&key);
        match self.by_key.entry(key)? {
            Entry::Occupied(entry) => Ok(set_in(entry.into_mut(), volume, item)?),
            Entry::Vacant(entry) => {
                let Ok(()) = self.order.note(key) else {
                    // The map is given back as it was.
                    entry.into_key();
                    return Err(AllocError);
                };
                Ok(set_in(entry.insert(History::new(self.alloc)), volume, item)?)
            }
        }
    }

    /// Forgets what began at a key at a volume or after it.
    pub fn cut(&mut self, volume: u64, key: &Key)
        ensures { CutsAt self.old self.new volume key.now }
    {
        if self.cut_there(volume, key) {
            // Keeps nothing of a key that was never used.
            self.by_key.remove(&SortKey::of(key));
            // Else the keys of files that are rejected time and again would pile up.
            if self.order.len() / 2 > self.by_key.len() {
                self.order.keep(&self.by_key);
            }
        }
    }

    // Forgets what began at a key at a volume or after it, and answers whether a history without
    // versions is left.
    fn cut_there(&mut self, volume: u64, key: &Key) -> bool
        ensures changes { CutsAt self.old self.new volume key.now }
        ensures empty { OnTrue result (versions_at self.new key.now ≡ []) }
    {
        let Some(history) = self.by_key.get_mut(&SortKey::of(key)) else {
            return false;
        };
        history.cut(volume);
        history.is_empty()
    }
}

// From a volume on this item stands in a history, or none any more. Answers the marks of the item
// that stood there. The first version of all needs no memory.
fn set_in(
    history: &mut History<SharedItem>,
    volume: u64,
    item: Option<SharedItem>,
) -> Result<Marks, AllocError>
    ensures ok { OnOk result (history.new ≡ before history.old volume ++ (volume, item) ∷ []) }
    ensures err { OnErr result (history.new ≡ history.old) }
    ensures first { history.old ≡ [] → IsOk result }
    ensures marks { IfOk result (HasMarksIn (standing_at history.old volume)) }
{
    let was = marks_in(history, volume);
    history.set(volume, item)?;
    Ok(was)
}

// The marks of the item that a history has after a volume.
fn marks_in(history: &History<SharedItem>, volume: u64) -> Marks
    ensures { HasMarksIn (standing_at history.now volume) result }
{
    match history.standing_at(volume) {
        Some(item) => marks_of(item),
        None => (None, None),
    }
}
