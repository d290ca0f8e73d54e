//! The row of a key that was born last.
ghost use Rattle.std.specs.Prelude.{◌≡◌, IfOk};
ghost use Rattle.gaz_row_items.specs.Decoding.{IsTold, IsToldOrMemory};
ghost use Rattle.gaz_row_items.specs.Newest.{HasLife, HasNewest, HasStood};
ghost use Rattle.gaz_row_items.specs.Newest.{SaysLife, SaysNewest, SaysStood, current_in};
ghost use Rattle.gaz_row_items.specs.Newest.{item_after, stood_by, stood_of};

use crate::decoding::{item_in, number};
use crate::fault::{RowFault, WrongRow};
use gaz_ids::LAST_VOLUME;
use gaz_overlay::Stood;
use gaz_records::{Key, SharedItem};
use sqlite::Row;
use std::alloc::Global;

/// `gone` of a row that is current: behind the last volume that a custodian can send.
pub const NEVER: u64 = LAST_VOLUME + 1;

/// An item at its key, and the volumes in which it stands there.
#[derive(Drop)]
pub struct Life {
    /// The volume in which it came, from 1.
    pub born: u64,
    /// The volume in which it went, or 1,000,000 while it is current.
    pub gone: u64,
    pub item: SharedItem,
}

// The item at a key that a row of born, gone and body says.
fn life_in(alloc: Global, key: &Key, row: &Row) -> Result<Life, RowFault>
    ensures said { IfOk result (SaysLife key.now row.now) }
    ensures told { IsToldOrMemory (HasLife key.now row.now) result }
{
    Ok(Life {
        born: number(row, 0)?,
        gone: number(row, 1)?,
        item: item_in(alloc, key, row, 2)?,
    })
}

/// What the first row says, where there is one.
///
/// Never `Wrong` where it says a life at the key, as a store's do; `Memory` where there is none for
/// the item.
pub fn newest_said(alloc: Global, key: &Key, rows: &[Row]) -> Result<Option<Life>, RowFault>
    ensures said { IfOk result (SaysNewest key.now rows.now) }
    ensures told { IsToldOrMemory (HasNewest key.now rows.now) result }
{
    match rows.first() {
        Some(row) => Ok(Some(life_in(alloc, key, row)?)),
        None => Ok(None),
    }
}

/// The item that holds after a volume.
pub fn item_after(volume: u64, life: Option<Life>) -> Option<SharedItem>
    ensures { result ≡ item_after volume life }
{
    match life {
        Some(life) if volume < life.gone => Some(life.item),
        _ => None,
    }
}

/// The item that is current.
pub fn current_in(life: Option<Life>) -> Option<SharedItem>
    ensures { result ≡ current_in life }
{
    match life {
        Some(life) if life.gone == NEVER => Some(life.item),
        _ => None,
    }
}

// What stands at a key whose newest row is of these volumes.
fn stood_of(born: u64, gone: u64) -> Stood
    ensures { result ≡ stood_of born gone }
{
    if gone == NEVER {
        Stood::Since(born)
    } else {
        Stood::Past
    }
}

/// What stands at the key.
pub fn stood_by(life: &Option<Life>) -> Stood
    ensures { result ≡ stood_by life.now }
{
    match life {
        None => Stood::NoRow,
        Some(life) => stood_of(life.born, life.gone),
    }
}

/// What stands at the key of which the first row is the newest; its item isn't read. `WrongRow`
/// where no number stands for born or for gone.
pub fn stood_said(rows: &[Row]) -> Result<Stood, WrongRow>
    ensures said { IfOk result (SaysStood rows.now) }
    ensures told { IsTold (HasStood rows.now) result }
{
    let Some(row) = rows.first() else {
        return Ok(Stood::NoRow);
    };
    let born = number(row, 0)?;
    let gone = number(row, 1)?;
    Ok(stood_of(born, gone))
}
