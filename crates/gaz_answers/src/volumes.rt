//! Which volumes rows say, and up to which a statement asks.
ghost use Rattle.std.specs.Prelude.{◌≡◌, ◌≤◌, pos, IfOk};
ghost use Rattle.sqlite.specs.Order.{column};
ghost use Rattle.sqlite.specs.declared.types.Value.TheVariants.{Int};
ghost use Rattle.gaz_row_items.specs.Decoding.{Each, IsTold, IsToldOrMemory};
ghost use Rattle.gaz_answers.specs.Volumes.{SayVolumes, ShowsVolume};

use gaz_ids::{LAST_VOLUME, Volume};
use gaz_row_items::decoding::number;
use gaz_row_items::fault::{RowFault, WrongRow};
use sqlite::Row;
use std::alloc::Global;

// The volume that a row says.
fn volume_in(row: &Row) -> Result<Volume, WrongRow>
    ensures said { IfOk result (λ volume. column row.now 0 ≡ Int (pos volume)) }
    ensures told { IsTold (ShowsVolume row.now) result }
{
    match Volume::of(number(row, 0)?) {
        Some(volume) => Ok(volume),
        None => Err(WrongRow),
    }
}

/// The volumes that rows say in their first column, in turn.
///
/// Never `Wrong` where each says one from 1 to `LAST_VOLUME`, as a store's do; `Memory` where there
/// is none for the volumes.
pub fn volumes_in(alloc: Global, rows: &[Row]) -> Result<Vec<Volume>, RowFault>
    ensures said { IfOk result (λ volumes. SayVolumes rows.now volumes.items) }
    ensures told { IsToldOrMemory (Each ShowsVolume rows.now) result }
{
    let mut volumes = Vec::new(alloc);
    for row in rows {
        let volume = volume_in(row)?;
        if volumes.push(volume).is_err() {
            return Err(RowFault::Memory);
        }
    }
    Ok(volumes)
}

/// The volume, or `LAST_VOLUME` where it is beyond: none behind that is reached.
pub fn capped(volume: u64) -> u32
    ensures within { volume ≤ LAST_VOLUME → result ≡ volume }
    ensures beyond { LAST_VOLUME ≤ volume → result ≡ LAST_VOLUME }
{
    volume.min(LAST_VOLUME) as u32
}
