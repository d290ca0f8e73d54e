//! What is asked of a view, over its entries as they stand.
ghost use Rattle.std.specs.Prelude.{◌≡◌, ◌≤◌, drop, filter, length, map, take};
ghost use Rattle.std.specs.Prelude.{IfOk, None, option_map};
ghost use Rattle.std.specs.List.Sorted.{IsStrictlySortedBy};
ghost use Rattle.gaz_records.specs.Keys.{key_cmp};
ghost use Rattle.gaz_views.specs.Words.{blpu_named, comes_after, is_approved_of};
ghost use Rattle.gaz_views.specs.Words.{is_approved_on, is_child_of};
ghost use Rattle.gaz_views.specs.Words.{is_in, is_of};
ghost use Rattle.gaz_standing.specs.KeyHistories.{item_of_kind, items_after, rows_at};
ghost use Rattle.gaz_standing.specs.KeyHistories.{with_versions};
ghost use Rattle.gaz_standing.specs.Ranges.{is_past};

use crate::seed::Seed;
use gaz_histories::History;
use gaz_ids::{Lang, Status, Uprn, Usrn};
use gaz_records::{Item, Key, Kind, SharedItem, SortKey};
use std::alloc::{AllocError, Global};
use std::collections::HashMap;

/// Whether an item is an approved LPI of a BLPU.
pub fn is_approved_of(uprn: Uprn, item: &Item) -> bool
    ensures { result ≡ is_approved_of uprn item.now }
{
    let Item::Lpi(lpi) = item else {
        return false;
    };
    matches!(lpi.status, Status::Approved) && lpi.uprn == uprn
}

fn is_in(lang: Option<Lang>, of: Lang) -> bool
    ensures { result ≡ is_in lang of }
{
    match lang {
        None => true,
        Some(lang) => lang == of,
    }
}

/// Whether an item is an approved LPI on a street, in this language where one is given.
pub fn is_approved_on(usrn: Usrn, lang: Option<Lang>, item: &Item) -> bool
    ensures { result ≡ is_approved_on usrn lang item.now }
{
    let Item::Lpi(lpi) = item else {
        return false;
    };
    matches!(lpi.status, Status::Approved) && lpi.usrn == usrn && is_in(lang, lpi.lang)
}

/// Whether an item is a BLPU that is a part of this one.
pub fn is_child_of(uprn: Uprn, item: &Item) -> bool
    ensures { result ≡ is_child_of uprn item.now }
{
    let Item::Blpu(blpu) = item else {
        return false;
    };
    match blpu.parent {
        None => false,
        Some(parent) => parent == uprn,
    }
}

/// The BLPU that a cross reference or an LPI names.
pub fn blpu_named(item: &Item) -> Option<Uprn>
    ensures { result ≡ blpu_named item.now }
{
    match item {
        Item::Xref(xref) => Some(xref.uprn),
        Item::Lpi(lpi) => Some(lpi.uprn),
        _ => None,
    }
}

fn is_of(kind: Kind, key: &SortKey) -> bool
    ensures { result ≡ is_of kind key.now }
{
    key.kind_number() == kind.number()
}

// Whether all keys from this one on are of later kinds.
fn is_past(kind: Kind, key: &SortKey) -> bool
    ensures { result ≡ is_past kind key.now }
{
    kind.number() < key.kind_number()
}

// How many of these keys a page passes over: those up to the key that it comes after.
fn count_until(order: &[SortKey], after: Option<Key>) -> usize
    requires { IsStrictlySortedBy key_cmp order.now }
    ensures start { drop result order.now ≡ filter (comes_after after) order.now }
    ensures bound { result ≤ length order.now }
{
    match after {
        Some(after) => {
            let after = SortKey::of(&after);
            order.partition_point(|key| !after.cmp(key).is_lt())
        }
        None => 0,
    }
}

// The item that stands at a key of the kind after a volume.
fn wanted<'a>(
    kind: Kind,
    volume: u64,
    key: &SortKey,
    histories: &'a HashMap<SortKey, History<SharedItem>, Seed>,
) -> Option<&'a SharedItem>
    ensures { option_map (λ i. i.now) result
        ≡ item_of_kind kind histories.now.entries key.now volume }
{
    if !is_of(kind, key) {
        return None;
    }
    match histories.get(key) {
        Some(history) => history.standing_at(volume),
        None => None,
    }
}

// The first items of a kind, as they stand after a volume at keys in this order.
fn first_items(
    alloc: Global,
    order: &[SortKey],
    histories: &HashMap<SortKey, History<SharedItem>, Seed>,
    volume: u64,
    kind: Kind,
    most: usize,
) -> Result<Vec<SharedItem>, AllocError>
    requires { IsStrictlySortedBy key_cmp order.now }
    ensures { IfOk result (λ found. found.items ≡ take most (map (λ e. e.1)
        (filter (λ e. is_of kind e.0)
        (rows_at (with_versions order.now histories.now.entries) volume)))) }
{
    let mut found = Vec::new(alloc);
    for key in order {
        if found.len() == most || is_past(kind, key) {
            return Ok(found);
        }
        if let Some(item) = wanted(kind, volume, key, histories) {
            found.push(item.share()?)?;
        }
    }
    Ok(found)
}

/// The first items of a kind after a key, as they stand after a volume at keys in this order.
pub fn page_of(
    alloc: Global,
    order: &[SortKey],
    histories: &HashMap<SortKey, History<SharedItem>, Seed>,
    volume: u64,
    kind: Kind,
    after: Option<Key>,
    most: usize,
) -> Result<Vec<SharedItem>, AllocError>
    requires { IsStrictlySortedBy key_cmp order.now }
    ensures { IfOk result (λ found. found.items ≡ take most (items_after kind after
        (rows_at (with_versions order.now histories.now.entries) volume))) }
{
    let start = count_until(order, after);
    Ok(first_items(alloc, &order[start..], histories, volume, kind, most)?)
}
