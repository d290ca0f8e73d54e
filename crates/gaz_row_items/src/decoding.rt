//! What the cells of a found row say: keys by their ids, and items by their bodies.
ghost use Rattle.std.specs.Prelude.{◌≡◌, ◌↔◌, pos, true, IfOk, Ok, Err, Some};
ghost use Rattle.sqlite.specs.Order.{column};
ghost use Rattle.sqlite.specs.declared.types.Value.TheVariants.{Int, Text};
ghost use Rattle.gaz_records.specs.Keys.{key_of};
ghost use Rattle.gaz_cells.specs.Ids.{key_named, kind_in};
ghost use Rattle.gaz_row_items.specs.Decoding.{Each, HasBody, HasItemAt, IsBodyOf, IsItemAt};
ghost use Rattle.gaz_row_items.specs.Decoding.{IsTold, IsToldOrMemory, NamesKey, ReadsAt};
ghost use Rattle.gaz_row_items.specs.Versions.{IsText, IsWhole, text_in};

use crate::fault::{RowFault, WrongRow};
use gaz_cells::{Bodies, key_named};
use gaz_records::{FieldFault, Item, Key, Kind, SharedItem, item_of_text, key_of};
use sqlite::Row;
use sqlite::types::ValueRef;
use std::alloc::Global;

/// The kind of a key.
pub fn kind_in(key: &Key) -> Kind
    ensures { result ≡ kind_in key.now }
{
    match key {
        Key::Street(_) => Kind::Street,
        Key::Descriptor(_, _) => Kind::Descriptor,
        Key::Blpu(_) => Kind::Blpu,
        Key::Xref(_) => Kind::Xref,
        Key::Lpi(_) => Kind::Lpi,
    }
}

/// The whole number from 0 on in a column. `WrongRow` where none stands there.
pub fn number(row: &Row, at: usize) -> Result<u64, WrongRow>
    ensures said { IfOk result (λ n. column row.now at ≡ Int (pos n)) }
    ensures told { IsTold (IsWhole (column row.now at)) result }
{
    match row.get_ref(at) {
        Ok(ValueRef::Int(n)) if n >= 0 => Ok(n as u64),
        _ => Err(WrongRow),
    }
}

/// The text in a column. `WrongRow` where none stands there.
pub fn text(row: &Row, at: usize) -> Result<&[u8], WrongRow>
    ensures said { IfOk result (λ t. column row.now at ≡ Text t.now) }
    ensures told { IsTold (IsText (column row.now at)) result }
{
    match row.get_ref(at) {
        Ok(ValueRef::Text(text)) => Ok(text),
        _ => Err(WrongRow),
    }
}

/// The key of a kind that the id in a column names. `WrongRow` where it names none.
pub fn key_in(kind: Kind, row: &Row, at: usize) -> Result<Key, WrongRow>
    ensures said { IfOk result (λ k. key_named kind (text_in (column row.now at)) ≡ Some k) }
    ensures told { IsTold (NamesKey kind row.now at) result }
{
    match key_named(kind, text(row, at)?) {
        Some(key) => Ok(key),
        None => Err(WrongRow),
    }
}

/// Whether two keys are one.
pub(crate) fn are_one(a: &Key, b: &Key) -> bool
    ensures { (result ≡ true) ↔ (a.now ≡ b.now) }
{
    a.compare(b).is_eq()
}

// An item, where it stands at the key.
fn item_at(key: &Key, item: Item) -> Result<Item, WrongRow>
    ensures said { IfOk result (λ x. (x ≡ item) × (key_of x ≡ key.now)) }
    ensures told { IsTold (key_of item ≡ key.now) result }
{
    if are_one(&key_of(&item), key) {
        Ok(item)
    } else {
        Err(WrongRow)
    }
}

// The item that was read, where it stands at the key.
fn read_at(key: &Key, read: Result<Item, FieldFault>) -> Result<Item, RowFault>
    ensures said { IfOk result (λ x. (read ≡ Ok x) × (key_of x ≡ key.now)) }
    ensures told { IsTold (ReadsAt key.now read) result }
    ensures memory { read ≡ Err FieldFault.Memory → result ≡ Err RowFault.Memory }
{
    match read {
        Ok(item) => Ok(item_at(key, item)?),
        Err(FieldFault::Memory) => Err(RowFault::Memory),
        Err(_) => Err(RowFault::Wrong),
    }
}

// The item of a body, where it stands at the key.
fn item_of(alloc: Global, key: &Key, body: &[u8]) -> Result<Item, RowFault>
    ensures said { IfOk result (IsBodyOf key.now body.now) }
    ensures told { IsToldOrMemory (HasBody key.now body.now) result }
{
    read_at(key, item_of_text(alloc, kind_in(key), body))
}

// The item of a body, read by a reader of many bodies, where it stands at the key.
fn next_item(bodies: &mut Bodies<'_>, key: &Key, body: &[u8]) -> Result<Item, RowFault>
    ensures said { IfOk result (IsBodyOf key.now body.now) }
    ensures told { IsToldOrMemory (HasBody key.now body.now) result }
{
    read_at(key, bodies.item(kind_in(key), body))
}

/// The item at a key that the body in a column says.
///
/// Never `Wrong` where it says one at this key, as in a store's row; `Memory` where there is none
/// for the item.
pub fn item_in(alloc: Global, key: &Key, row: &Row, at: usize) -> Result<SharedItem, RowFault>
    ensures said { IfOk result (IsItemAt row.now at key.now) }
    ensures told { IsToldOrMemory (HasItemAt row.now at key.now) result }
{
    let item = item_of(alloc, key, text(row, at)?)?;
    match SharedItem::new(alloc, item) {
        Ok(item) => Ok(item),
        Err(_) => Err(RowFault::Memory),
    }
}

/// The item at a key that the body in a column says, read by a reader of the bodies of many rows.
///
/// Never `Wrong` where it says one at this key, as in a store's row; `Memory` where there is none
/// for the item.
pub fn next_item_in(
    alloc: Global,
    bodies: &mut Bodies<'_>,
    key: &Key,
    row: &Row,
    at: usize,
) -> Result<SharedItem, RowFault>
    ensures said { IfOk result (IsItemAt row.now at key.now) }
    ensures told { IsToldOrMemory (HasItemAt row.now at key.now) result }
{
    let item = next_item(bodies, key, text(row, at)?)?;
    match SharedItem::new(alloc, item) {
        Ok(item) => Ok(item),
        Err(_) => Err(RowFault::Memory),
    }
}

/// The bodies in a column of rows, each ended by LF, as lines for one reader.
///
/// Never `Wrong` where a text stands there in each row, as in a store's; `Memory` where there is
/// none for the lines.
pub fn body_lines(alloc: Global, rows: &[Row], at: usize) -> Result<Vec<u8>, RowFault>
    ensures { IsToldOrMemory (Each (λ r. IsText (column r at)) rows.now) result }
{
    let mut lines = Vec::new(alloc);
    for row in rows {
        let body = text(row, at)?;
        if lines.extend_from_slice(body).is_err() || lines.push(b'\n').is_err() {
            return Err(RowFault::Memory);
        }
    }
    Ok(lines)
}
