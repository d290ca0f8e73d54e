//! Items as text, and numbers.
use crate::keepers::Refusal;
use gaz_ids::{Code, Uprn, Volume};
use gaz_records::{Kind, SharedItem, item_of_text};
use std::alloc::Global;

/// The code of a number. `Misused` where it is none.
pub(crate) fn custodian(number: u64) -> Result<Code, Refusal> {
    Code::of(number).ok_or(Refusal::Misused)
}

/// The volume of a number. `Misused` where it is none.
pub(crate) fn volume(number: u64) -> Result<Volume, Refusal> {
    Volume::of(number).ok_or(Refusal::Misused)
}

/// The UPRN of a number. `Misused` where it is none.
pub(crate) fn uprn_of(number: u64) -> Result<Uprn, Refusal> {
    Uprn::of(number).ok_or(Refusal::Misused)
}

/// The kind and the row of an item.
pub(crate) type Row = (Kind, &'static str);

/// The item of a kind that a row writes. `Misused` where it writes none.
pub(crate) fn item(alloc: Global, kind: Kind, row: &str) -> Result<SharedItem, Refusal> {
    let item = item_of_text(alloc, kind, row.as_bytes())?;
    Ok(SharedItem::new(alloc, item)?)
}

/// The item that a kind with its row writes. `Misused` where it writes none.
pub(crate) fn item_of(alloc: Global, row: Row) -> Result<SharedItem, Refusal> {
    item(alloc, row.0, row.1)
}

/// The items that kinds with their rows write, in their order. `Misused` where one writes none.
pub(crate) fn items_of(alloc: Global, rows: &[Row]) -> Result<Vec<SharedItem>, Refusal> {
    let mut items = Vec::new(alloc);
    for row in rows {
        items.push(item_of(alloc, *row)?)?;
    }
    Ok(items)
}
