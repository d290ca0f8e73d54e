//! Whether items are those of rows.
use crate::keepers::refusal::Refusal;
use gaz_keeper::Property;
use gaz_records::{SharedItem, item_text};
use std::alloc::Global;

/// This row is written of an item.
pub(crate) fn reads(alloc: Global, item: &SharedItem, row: &str) -> Result<bool, Refusal> {
    Ok(item_text(alloc, item)?.as_slice() == row.as_bytes())
}

/// The item is there, and this row is written of it, or none is where none is given.
pub(crate) fn is_row(
    alloc: Global,
    found: &Option<SharedItem>,
    row: Option<&str>,
) -> Result<bool, Refusal> {
    match (found, row) {
        (None, None) => Ok(true),
        (Some(item), Some(row)) => reads(alloc, item, row),
        _ => Ok(false),
    }
}

/// The BLPU and its address are there, and these rows are written of them, or none are where none
/// are given.
pub(crate) fn is_property(
    alloc: Global,
    found: Option<Property>,
    rows: Option<(&str, &str)>,
) -> Result<bool, Refusal> {
    let Some(found) = found else {
        return Ok(rows.is_none());
    };
    match rows {
        Some((blpu, address)) => {
            let is_address = is_row(alloc, &found.address, Some(address))?;
            Ok(reads(alloc, &found.blpu, blpu)? && is_address)
        }
        None => Ok(false),
    }
}

/// These items are these rows.
pub(crate) fn are_rows(
    alloc: Global,
    items: &[SharedItem],
    rows: &[&str],
) -> Result<bool, Refusal> {
    let mut are_so = items.len() == rows.len();
    for (item, row) in items.iter().zip(rows) {
        are_so = reads(alloc, item, row)? && are_so;
    }
    Ok(are_so)
}
