ghost use Rattle.std.specs.Prelude.{◌≡◌, ◌<◌, None, true, is_some, option_map, IfOk};
ghost use Rattle.gaz_records.specs.Kinds.{is_entry_kind};
ghost use Rattle.gaz_views.specs.Reading.{left_after};
ghost use Rattle.gaz_views.specs.Words.{rest_of};
ghost use Rattle.gaz_extract.specs.Drafts.{by_kind, with_items};
ghost use Rattle.gaz_extract.specs.Extracts.{extract};
ghost use Rattle.gaz_extract.specs.Paging.{pages_left};
ghost use Rattle.gaz_extract.specs.Readings.{LooksAfter, LooksAtBoard};
ghost use Rattle.gaz_keeper.specs.Telling.{IsNotJudging};

use crate::draft::ExtractDraft;
use crate::page::read_page;
use gaz_ids::{Code, Volume};
use gaz_keeper::{Shelf, ShelfFault};
use gaz_records::{Key, Kind};
use std::alloc::Global;

/// A draft, and the key after which the next page begins, if there is one.
#[derive(Drop)]
struct Written {
    draft: ExtractDraft,
    next: Option<Key>,
}

// The draft with the records of the page after a key.
fn add_page<K: Shelf>(
    keeper: &mut K,
    code: Code,
    volume: u64,
    kind: Kind,
    after: Option<Key>,
    draft: ExtractDraft,
) -> Result<Written, ShelfFault>
    requires idle { IsNotJudging K.seen keeper.old }
    requires entry { is_entry_kind kind ≡ true }
    ensures tells { LooksAfter K.seen keeper.old keeper.new result code volume
        (λ view w. with_items w.draft (left_after view kind w.next)
        ≡ with_items draft (rest_of view kind after)) }
    ensures fewer { is_some after ≡ true → IfOk result (λ w. pages_left w.next < pages_left after) }
    ensures not_open { IsNotJudging K.seen keeper.new }
{
    let page = read_page(keeper, code, volume, kind, after)?;
    let draft = draft.append(page.items.as_slice())?;
    Ok(Written {
        draft,
        next: page.next,
    })
}

// The draft with the records of a kind.
fn add_kind<K: Shelf>(
    keeper: &mut K,
    code: Code,
    volume: u64,
    kind: Kind,
    draft: ExtractDraft,
) -> Result<ExtractDraft, ShelfFault>
    requires idle { IsNotJudging K.seen keeper.old }
    requires entry { is_entry_kind kind ≡ true }
    ensures tells { LooksAfter K.seen keeper.old keeper.new result code volume
        (λ view d. d ≡ with_items draft (rest_of view kind None)) }
    ensures not_open { IsNotJudging K.seen keeper.new }
{
    let mut written = add_page(keeper, code, volume, kind, None, draft)?;
    'pages: loop {
        let Written { draft, next } = written;
        if next.is_none() {
            return Ok(draft);
        }
        written = add_page(keeper, code, volume, kind, next, draft)?;
    }
}

// The draft with the records of a view.
fn add_view<K: Shelf>(
    keeper: &mut K,
    code: Code,
    volume: u64,
    draft: ExtractDraft,
) -> Result<ExtractDraft, ShelfFault>
    requires { IsNotJudging K.seen keeper.old }
    ensures tells { LooksAfter K.seen keeper.old keeper.new result code volume
        (λ view d. d ≡ with_items draft (by_kind view)) }
    ensures not_open { IsNotJudging K.seen keeper.new }
{
    let draft = add_kind(keeper, code, volume, Kind::Street, draft)?;
    let draft = add_kind(keeper, code, volume, Kind::Descriptor, draft)?;
    let draft = add_kind(keeper, code, volume, Kind::Blpu, draft)?;
    let draft = add_kind(keeper, code, volume, Kind::Xref, draft)?;
    let draft = add_kind(keeper, code, volume, Kind::Lpi, draft)?;
    Ok(draft)
}

/// The view of a custodian after a volume, as a file: the header `10,E,code,volume`, a record of
/// the change type `I` for each item in the order of keys, with orders 1, 2, 3, .. without limit,
/// and the trailer `99,count`; rows as `csv` writes them, each ended by LF (our profile,
/// docs/extracts.md). None where the volume isn't reached.
///
/// It takes memory for itself and a page. That `Memory` isn't answered without need no clause says:
/// `checks/large.py` asks it of 5,000 items.
pub fn extract<K: Shelf>(
    alloc: Global,
    keeper: &mut K,
    code: Code,
    volume: Volume,
) -> Result<Option<Vec<u8>>, ShelfFault>
    requires { IsNotJudging K.seen keeper.old }
    ensures { LooksAtBoard K.seen keeper.old keeper.new result
        (λ board text. option_map (λ t. t.items) text ≡ extract board code volume) }
{
    if keeper.reached(code)? < volume.number() {
        return Ok(None);
    }
    let draft = ExtractDraft::new(alloc, code, volume)?;
    let draft = add_view(keeper, code, volume.number(), draft)?;
    let text = draft.finish(alloc)?;
    Ok(Some(text))
}
