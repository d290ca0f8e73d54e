//! What found rows of addresses say, of id and body.
ghost use Rattle.std.specs.Prelude.{◌≡◌, map, IfOk, Some};
ghost use Rattle.sqlite.specs.Order.{column};
ghost use Rattle.gaz_cells.specs.Ids.{key_named};
ghost use Rattle.gaz_row_items.specs.Addresses.{NamesAddress, SaysAddress, SaysFirst};
ghost use Rattle.gaz_row_items.specs.Addresses.{SaysKeys, SaysLeast, ShowsAddress, ShowsFirst};
ghost use Rattle.gaz_row_items.specs.Decoding.{Each, IsToldOrMemory, ShowsItem};
ghost use Rattle.gaz_row_items.specs.Versions.{text_in};

use crate::decoding::{are_one, item_in, key_in};
use crate::fault::RowFault;
use gaz_overlay::in_order;
use gaz_records::{Key, Kind, SharedItem};
use sqlite::Row;
use std::alloc::Global;

// The keys that the rows name, row by row.
fn keys_in(alloc: Global, rows: &[Row]) -> Result<Vec<Key>, RowFault>
    ensures said { IfOk result (λ keys.
        map (λ r. key_named Kind.Lpi (text_in (column r 0))) rows.now ≡ map Some keys.items) }
    ensures told { IsToldOrMemory (Each NamesAddress rows.now) result }
{
    let mut keys = Vec::new(alloc);
    for row in rows {
        let key = key_in(Kind::Lpi, row, 0)?;
        if keys.push(key).is_err() {
            return Err(RowFault::Memory);
        }
    }
    Ok(keys)
}

/// The keys that the rows name, in key order. A key that two rows name, as no store writes them,
/// stands there once.
///
/// Never `Wrong` where each row names one, as a store's do; `Memory` where there is none for the
/// keys.
pub fn keys_said(alloc: Global, rows: &[Row]) -> Result<Vec<Key>, RowFault>
    ensures said { IfOk result (λ keys. SaysKeys rows.now keys.items) }
    ensures told { IsToldOrMemory (Each NamesAddress rows.now) result }
{
    let named = keys_in(alloc, rows)?;
    match in_order(alloc, &named) {
        Ok(keys) => Ok(keys),
        Err(_) => Err(RowFault::Memory),
    }
}

// The address of a key, of which there is a row.
fn address_said(alloc: Global, key: &Key, rows: &[Row]) -> Result<SharedItem, RowFault>
    ensures said { IfOk result (SaysAddress rows.now key.now) }
    ensures told { IsToldOrMemory (ShowsAddress rows.now key.now) result }
{
    for row in rows {
        let found = key_in(Kind::Lpi, row, 0)?;
        if are_one(&found, key) {
            return item_in(alloc, key, row, 1);
        }
    }
    Err(RowFault::Wrong)
}

// The address of the first key, where there is one.
fn first_said(alloc: Global, keys: &[Key], rows: &[Row]) -> Result<Option<SharedItem>, RowFault>
    ensures said { IfOk result (SaysFirst rows.now keys.now) }
    ensures told { IsToldOrMemory (ShowsFirst rows.now keys.now) result }
{
    match keys.first() {
        Some(key) => Ok(Some(address_said(alloc, key, rows)?)),
        None => Ok(None),
    }
}

/// The address of the least key that the rows name, where there are rows.
///
/// Never `Wrong` where each row says an address, as a store's do; `Memory` where there is none for
/// the keys or the address.
pub fn least_said(alloc: Global, rows: &[Row]) -> Result<Option<SharedItem>, RowFault>
    ensures said { IfOk result (SaysLeast rows.now) }
    ensures told { IsToldOrMemory (Each (ShowsItem Kind.Lpi) rows.now) result }
{
    let keys = keys_said(alloc, rows)?;
    first_said(alloc, &keys, rows)
}
