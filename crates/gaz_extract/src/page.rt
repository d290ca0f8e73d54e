//! Views page by page.
ghost use Rattle.std.specs.Prelude.{◌≡◌, ◌<◌, ◌++◌, true, is_some, IfOk, Some};
ghost use Rattle.gaz_fields.specs.Labels.{seven_bytes};
ghost use Rattle.gaz_records.specs.Keys.{number_in};
ghost use Rattle.gaz_records.specs.Kinds.{is_entry_kind};
ghost use Rattle.gaz_records.specs.SortKeys.{has_label};
ghost use Rattle.gaz_views.specs.Reading.{left_after, next_after};
ghost use Rattle.gaz_views.specs.Words.{comes_after, rest_of};
ghost use Rattle.gaz_extract.specs.Paging.{most_page, pages_left, rising};
ghost use Rattle.gaz_extract.specs.Readings.{LooksAfter};
ghost use Rattle.gaz_keeper.specs.Telling.{IsNotJudging};

use gaz_ids::Code;
use gaz_keeper::{Shelf, ShelfFault};
use gaz_records::{Key, Kind, SharedItem, key_of};

/// How many items are read at a time.
pub const MOST: usize = 512;

/// Some items of a kind, and the key after which the next page begins, if there is one.
#[derive(Drop)]
pub struct Page {
    pub items: Vec<SharedItem>,
    pub next: Option<Key>,
}

// Does nothing: it promises of a key what its parts promise, a number of at most 12 digits, a text
// that is a label.
fn read_ranges(key: &Key)
    ensures number { number_in key.now < seven_bytes }
    ensures label { has_label key.now ≡ true }
{
    match key {
        Key::Street(usrn) => {
            usrn.number();
        }
        Key::Descriptor(usrn, _) => {
            usrn.number();
        }
        Key::Blpu(uprn) => {
            uprn.number();
        }
        Key::Xref(label) => {
            label.as_bytes();
        }
        Key::Lpi(label) => {
            label.as_bytes();
        }
    }
}

// Whether a key comes after another. There are only so many keys, so each time less is left.
fn is_later(before: &Key, key: &Key) -> bool
    ensures later { result ≡ comes_after (Some before.now) key.now }
    ensures fewer { result ≡ true → pages_left (Some key.now) < pages_left (Some before.now) }
{
    read_ranges(before);
    read_ranges(key);
    before.compare(key).is_lt()
}

// The key of a page's last item, where the page is full.
fn last_key(items: &[SharedItem]) -> Option<Key>
    ensures { result ≡ next_after most_page items.now }
{
    if items.len() < MOST {
        return None;
    }
    match items.last() {
        Some(item) => Some(key_of(item)),
        None => None,
    }
}

// The key after which the next page begins, where this one is full and its last key comes after the
// one after which it began.
fn next_after(items: &[SharedItem], after: &Option<Key>) -> Option<Key>
    ensures next { result ≡ rising after.now (next_after most_page items.now) }
    ensures fewer { is_some after.now ≡ true → pages_left result < pages_left after.now }
{
    let key = last_key(items)?;
    let Some(before) = after else {
        return Some(key);
    };
    if is_later(before, &key) {
        return Some(key);
    }
    None
}

/// The page of a kind of entries after a key, or from the start, after a volume, which is to be
/// reached. With what comes after it, it is what there is after that key. Whatever the keeper
/// answers, less is left for the pages that follow: a page whose last key doesn't come after the
/// one before is taken as the last, and no keeper that stands for a content answers such a one.
pub fn read_page<K: Shelf>(
    keeper: &mut K,
    code: Code,
    volume: u64,
    kind: Kind,
    after: Option<Key>,
) -> Result<Page, ShelfFault>
    requires idle { IsNotJudging K.seen keeper.old }
    requires entry { is_entry_kind kind ≡ true }
    ensures tells { LooksAfter K.seen keeper.old keeper.new result code volume
        (λ view p. p.items.items ++ left_after view kind p.next ≡ rest_of view kind after) }
    ensures fewer { is_some after ≡ true → IfOk result (λ p. pages_left p.next < pages_left after) }
    ensures not_open { IsNotJudging K.seen keeper.new }
{
    let items = keeper.page(code, volume, kind, after, MOST)?;
    let next = next_after(items.as_slice(), &after);
    Ok(Page { items, next })
}
