//! Which items have a mark after a volume, among those at some keys.
ghost use Rattle.std.specs.Prelude.{◌≡◌, filter, IfOk, option_map};
ghost use Rattle.std.specs.List.{filter_map, list_any};
ghost use Rattle.gaz_views.specs.Words.{entries, first_of};
ghost use Rattle.gaz_standing.specs.Changing.{AreMarksAt};
ghost use Rattle.gaz_standing.specs.Indexes.{listed, marked_at, marked_item};
ghost use Rattle.gaz_standing.specs.KeyHistories.{view_at};

use crate::histories::Histories;
use crate::index::{Mark, Marks, marks_of};
use crate::keys::Keys;
use gaz_records::{Key, SharedItem};
use std::alloc::{AllocError, Global};

/// Whether an item with the mark stands under the key after a volume.
pub fn is_marked(histories: &Histories, volume: u64, mark: &Mark, key: &Key) -> bool
    ensures { result ≡ marked_at (entries (view_at histories.now volume)) mark.now key.now }
{
    match histories.item(volume, key) {
        Some(item) => mark.is_on(item),
        None => false,
    }
}

/// The marks of the item under the key after a volume.
pub fn marks_at(histories: &Histories, volume: u64, key: &Key) -> Marks
    ensures { AreMarksAt (view_at histories.now volume) key.now result }
{
    match histories.item(volume, key) {
        Some(item) => marks_of(item),
        None => (None, None),
    }
}

/// Those of these keys under which an item with the mark stands after a volume.
pub fn keys_marked(
    alloc: Global,
    histories: &Histories,
    volume: u64,
    mark: &Mark,
    keys: &Keys,
) -> Result<Vec<Key>, AllocError>
    ensures { IfOk result (λ ks. ks.items
        ≡ filter (marked_at (entries (view_at histories.now volume)) mark.now) (listed keys.now)) }
{
    let mut found = Vec::new(alloc);
    match keys {
        Keys::One(key) => {
            if is_marked(histories, volume, mark, key) {
                found.push(*key)?;
            }
        }
        Keys::Many(keys) => {
            for key in keys {
                if is_marked(histories, volume, mark, key) {
                    found.push(*key)?;
                }
            }
        }
    }
    Ok(found)
}

/// Whether an item with the mark stands under one of these keys after a volume.
pub fn any_marked(histories: &Histories, volume: u64, mark: &Mark, keys: &Keys) -> bool
    ensures { result
        ≡ list_any (marked_at (entries (view_at histories.now volume)) mark.now) (listed keys.now) }
{
    match keys {
        Keys::One(key) => is_marked(histories, volume, mark, key),
        Keys::Many(keys) => {
            for key in keys {
                if is_marked(histories, volume, mark, key) {
                    return true;
                }
            }
            false
        }
    }
}

// The item under the key after a volume, where it has the mark.
fn item_marked<'a>(
    histories: &'a Histories,
    volume: u64,
    mark: &Mark,
    key: &Key,
) -> Option<&'a SharedItem>
    ensures { option_map (λ i. i.now) result
        ≡ marked_item (entries (view_at histories.now volume)) mark.now key.now }
{
    let item = histories.item(volume, key)?;
    if mark.is_on(item) { Some(item) } else { None }
}

/// The first item with the mark under these keys after a volume.
pub fn first_marked<'a>(
    histories: &'a Histories,
    volume: u64,
    mark: &Mark,
    keys: &Keys,
) -> Option<&'a SharedItem>
    ensures { option_map (λ i. i.now) result ≡ first_of (filter_map
        (marked_item (entries (view_at histories.now volume)) mark.now) (listed keys.now)) }
{
    match keys {
        Keys::One(key) => item_marked(histories, volume, mark, key),
        Keys::Many(keys) => {
            for key in keys {
                let found = item_marked(histories, volume, mark, key);
                if found.is_some() {
                    return found;
                }
            }
            None
        }
    }
}
