//! Where a page of a gazetteer's items begins, and which items its rows say.
ghost use Rattle.std.specs.Prelude.{◌≡◌, IfOk, Some, option_map};
ghost use Rattle.std.specs.String.{string_bytes};
ghost use Rattle.gaz_row_items.specs.Decoding.{Each, IsToldOrMemory, ShowsItem};
ghost use Rattle.gaz_answers.specs.Paging.{IsStart, SayItems, item_said};

use gaz_cells::{Bodies, id_of};
use gaz_records::{Key, Kind, SharedItem};
use gaz_row_items::decoding::{body_lines, key_in, kind_in, next_item_in};
use gaz_row_items::fault::RowFault;
use sqlite::Row;
use std::alloc::{AllocError, Global};

// The text behind which the ids of a kind stand that name the keys after this one; none where no
// key of the kind comes after it.
fn start_after(alloc: Global, kind: Kind, key: &Key) -> Result<Option<String>, AllocError>
    ensures { IfOk result (λ start. IsStart kind (Some key.now) (option_map string_bytes start)) }
{
    let own = kind_in(key).number();
    if kind.number() < own {
        return Ok(None);
    }
    if own < kind.number() {
        return Ok(Some(String::new(alloc)));
    }
    let name = id_of(alloc, key)?;
    Ok(Some(name))
}

/// The text behind which the ids of a kind stand after a key, or from the start; none where no key
/// of the kind comes after it.
pub fn start_of(alloc: Global, kind: Kind, after: Option<Key>) -> Result<Option<String>, AllocError>
    ensures { IfOk result (λ start. IsStart kind after (option_map string_bytes start)) }
{
    match after {
        Some(key) => start_after(alloc, kind, &key),
        None => Ok(Some(String::new(alloc))),
    }
}

// The item of a kind that a row of id and body says.
fn said(
    alloc: Global,
    bodies: &mut Bodies<'_>,
    kind: Kind,
    row: &Row,
) -> Result<SharedItem, RowFault>
    ensures said { IfOk result (λ item. item_said kind row.now ≡ Some item) }
    ensures told { IsToldOrMemory (ShowsItem kind row.now) result }
{
    let key = key_in(kind, row, 0)?;
    next_item_in(alloc, bodies, &key, row, 1)
}

/// The items of a kind that rows of id and body say, in turn.
///
/// Never `Wrong` where each row says one, as a store's do; `Memory` where there is none for the
/// items.
pub fn items_in(alloc: Global, kind: Kind, rows: &[Row]) -> Result<Vec<SharedItem>, RowFault>
    ensures said { IfOk result (λ items. SayItems kind rows.now items.items) }
    ensures told { IsToldOrMemory (Each (ShowsItem kind) rows.now) result }
{
    let lines = body_lines(alloc, rows, 1)?;
    let mut bodies = Bodies::of(alloc, &lines);
    let mut items = Vec::new(alloc);
    for row in rows {
        let item = said(alloc, &mut bodies, kind, row)?;
        if items.push(item).is_err() {
            return Err(RowFault::Memory);
        }
    }
    Ok(items)
}
