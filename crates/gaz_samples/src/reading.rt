//! Reading over any keeper.
ghost use Rattle.std.specs.Prelude.{◌≡◌, ◌+◌, ◌<◌, ◌≤◌, ◌^◌, if◌then◌else◌, IfOk, is_some, vec_len};
ghost use Rattle.std.specs.Prelude.{true};
ghost use Rattle.gaz_records.specs.Kinds.{is_entry_kind};
ghost use Rattle.gaz_views.specs.Reading.{next_after};
ghost use Rattle.gaz_samples.specs.Reading.{AddsPage, TellsAll};

use gaz_ids::Code;
use gaz_keeper::{Shelf, ShelfFault};
use gaz_records::{Key, Kind, SharedItem, key_of};
use std::alloc::Global;

/// All items of a kind of entries after a volume, which is to be reached, in key order, read `most`
/// at a time, which is at least 1.
///
/// `Memory` too where a keeper answers more items than memory holds.
pub fn read_kind<S: Shelf>(
    alloc: Global,
    keeper: &mut S,
    code: Code,
    volume: u64,
    kind: Kind,
    most: usize,
) -> Result<Vec<SharedItem>, ShelfFault>
    requires size { 1 ≤ most }
    requires entry { is_entry_kind kind ≡ true }
    ensures { TellsAll S.seen keeper.old keeper.new result code volume kind }
{
    let mut items = Vec::new(alloc);
    let mut next = add_page(keeper, code, volume, kind, None, most, &mut items)?;
    while let Some(after) = next {
        next = add_page(keeper, code, volume, kind, Some(after), most, &mut items)?;
    }
    Ok(items)
}

// Adds a page, and answers the key after which the next page begins, or none after the last page.
fn add_page<S: Shelf>(
    keeper: &mut S,
    code: Code,
    volume: u64,
    kind: Kind,
    after: Option<Key>,
    most: usize,
    items: &mut Vec<SharedItem>,
) -> Result<Option<Key>, ShelfFault>
    requires size { 1 ≤ most }
    requires entry { is_entry_kind kind ≡ true }
    ensures reads { AddsPage S.seen keeper.old keeper.new result code volume kind after
        items.old items.new }
    ensures goes_on { IfOk result (λ next.
        vec_len items.old + (if is_some next then 1 else 0) ≤ vec_len items.new) }
    ensures fits { vec_len items.new < 2 ^ 64 }
{
    let mut page = keeper.page(code, volume, kind, after, most)?;
    let next = next_after(page.as_slice(), most);
    items.append(&mut page)?;
    let _count = items.len();
    Ok(next)
}

// The key of a full page's last item, and none after a page that isn't full.
fn next_after(page: &[SharedItem], most: usize) -> Option<Key>
    ensures { result ≡ next_after most page.now }
{
    if page.len() < most {
        return None;
    }
    match page.last() {
        Some(item) => Some(key_of(item)),
        None => None,
    }
}
