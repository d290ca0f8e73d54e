//! What has become of keys, written as a custodian's next volume.
ghost use Rattle.std.specs.Prelude.{◌≡◌, if◌then◌else◌};
ghost use Rattle.gaz_cells.specs.Ids.{id_of};
ghost use Rattle.gaz_overlay.specs.Rows.{never};
ghost use Rattle.gaz_overlay.specs.Writings.{writing_at};
ghost use Rattle.gaz_tables.specs.Stores.{AddsRow, StaysInside};
ghost use Rattle.gaz_tables.specs.Versions.{Closes};
ghost use Rattle.gaz_row_items.specs.Cells.{row_values};
ghost use Rattle.gaz_row_items.specs.Versions.{values_of};
ghost use Rattle.gaz_kept.specs.Keeping.{AddsItem, ClosesRow, WritesKey, WritesKeys};
ghost use Rattle.gaz_kept.specs.Keeping.{WritesVersions};
ghost use Rattle.gaz_kept.specs.Kept.{IsCode};

use gaz_cells::id_of;
use gaz_ids::{Code, Volume};
use gaz_overlay::{NewRow, Overlay};
use gaz_records::{Item, Key};
use gaz_row_items::decoding::kind_in;
use gaz_row_items::newest::NEVER;
use gaz_row_items::row_cells::{RowCells, cells_of, narrow};
use gaz_tables::versions;
use sqlite::{Alter, Error, Transaction};
use std::alloc::Global;

// A code is a custodian's.
pub(crate) fn code_known(code: Code)
    ensures { IsCode code }
{
    let _number = code.number();
}

// Adds a row of these cells, within a transaction.
pub(crate) fn insert_cells<S: Alter>(
    tx: &mut Transaction<'_, S>,
    code: Code,
    born: Volume,
    gone: u32,
    cells: RowCells,
) -> Result<(), Error>
    ensures same_reference { tx.new.conn.ghost_name ≡ tx.old.conn.ghost_name }
    ensures added { WritesVersions S.Store tx.old.conn.now tx.new.conn.now result
        (AddsRow (row_values code born gone cells)) }
    ensures inside { StaysInside S.Store tx.old.conn.now tx.new.conn.now result }
{
    let cust = code.number() as u32;
    let born = born.number() as u32;
    versions::insert(
        tx,
        cust,
        cells.kind,
        &cells.id,
        &cells.blpu,
        cells.street,
        cells.lang,
        cells.live,
        born,
        gone,
        &cells.body,
        cells.hop,
    )?;
    Ok(())
}

// Adds an item's row, within a transaction.
fn add_row<S: Alter>(
    tx: &mut Transaction<'_, S>,
    alloc: Global,
    code: Code,
    born: Volume,
    gone: u32,
    item: &Item,
) -> Result<(), Error>
    ensures same_reference { tx.new.conn.ghost_name ≡ tx.old.conn.ghost_name }
    ensures added { WritesVersions S.Store tx.old.conn.now tx.new.conn.now result
        (AddsRow (values_of code born gone item.now)) }
    ensures inside { StaysInside S.Store tx.old.conn.now tx.new.conn.now result }
{
    let cells = cells_of(alloc, item)?;
    insert_cells(tx, code, born, gone, cells)
}

// The volume with which a new row is gone, unless it is current.
fn gone_of(row: &NewRow, volume: Volume) -> u32
    ensures { result ≡ (if row.now.current then never else volume) }
{
    if row.current {
        NEVER as u32
    } else {
        volume.number() as u32
    }
}

// Adds the row of an item that was put, within a transaction: current, or gone with the volume.
fn add_item<S: Alter>(
    tx: &mut Transaction<'_, S>,
    alloc: Global,
    code: Code,
    volume: Volume,
    adds: &Option<NewRow>,
) -> Result<(), Error>
    ensures same_reference { tx.new.conn.ghost_name ≡ tx.old.conn.ghost_name }
    ensures added { WritesVersions S.Store tx.old.conn.now tx.new.conn.now result
        (AddsItem code volume adds.now) }
    ensures inside { StaysInside S.Store tx.old.conn.now tx.new.conn.now result }
{
    let Some(row) = adds else {
        return Ok(());
    };
    code_known(code);
    row.item.known();
    let gone = gone_of(row, volume);
    add_row(tx, alloc, code, volume, gone, &row.item)
}

// Ends the row of a kind that was born in a volume under the name of a key, within a transaction.
pub(crate) fn end_born<S: Alter>(
    tx: &mut Transaction<'_, S>,
    alloc: Global,
    code: Code,
    volume: Volume,
    kind: u32,
    key: &Key,
    born: u64,
) -> Result<(), Error>
    ensures same_reference { tx.new.conn.ghost_name ≡ tx.old.conn.ghost_name }
    ensures ended { WritesVersions S.Store tx.old.conn.now tx.new.conn.now result
        (Closes code kind (id_of key.now) born volume) }
    ensures inside { StaysInside S.Store tx.old.conn.now tx.new.conn.now result }
{
    let born = narrow(born)?;
    let name = id_of(alloc, key)?;
    let cust = code.number() as u32;
    versions::close(tx, cust, kind, &name, born, volume.number() as u32)?;
    Ok(())
}

// Ends the row of a key that was born in a volume, where one is to end, within a transaction.
fn close_row<S: Alter>(
    tx: &mut Transaction<'_, S>,
    alloc: Global,
    code: Code,
    volume: Volume,
    key: &Key,
    closes: Option<u64>,
) -> Result<(), Error>
    ensures same_reference { tx.new.conn.ghost_name ≡ tx.old.conn.ghost_name }
    ensures closed { WritesVersions S.Store tx.old.conn.now tx.new.conn.now result
        (ClosesRow code volume key.now closes) }
    ensures inside { StaysInside S.Store tx.old.conn.now tx.new.conn.now result }
{
    match closes {
        Some(born) => {
            let kind = kind_in(key).number() as u32;
            end_born(tx, alloc, code, volume, kind, key, born)
        }
        None => Ok(()),
    }
}

// Writes what has become of a key, within a transaction.
fn write_key<S: Alter>(
    tx: &mut Transaction<'_, S>,
    alloc: Global,
    code: Code,
    volume: Volume,
    key: &Key,
    changes: &Overlay,
) -> Result<(), Error>
    ensures same_reference { tx.new.conn.ghost_name ≡ tx.old.conn.ghost_name }
    ensures written { WritesVersions S.Store tx.old.conn.now tx.new.conn.now result
        (WritesKey code volume key.now (writing_at changes.now key.now)) }
    ensures inside { StaysInside S.Store tx.old.conn.now tx.new.conn.now result }
{
    let writing = changes.writing(key)?;
    close_row(tx, alloc, code, volume, key, writing.closes)?;
    add_item(tx, alloc, code, volume, &writing.adds)
}

/// Writes what has become of these keys, one after another, within a transaction.
pub(crate) fn write_keys<S: Alter>(
    tx: &mut Transaction<'_, S>,
    alloc: Global,
    code: Code,
    volume: Volume,
    keys: &[Key],
    changes: &Overlay,
) -> Result<(), Error>
    ensures same_reference { tx.new.conn.ghost_name ≡ tx.old.conn.ghost_name }
    ensures written { WritesVersions S.Store tx.old.conn.now tx.new.conn.now result
        (WritesKeys code volume changes.now keys.now) }
    ensures inside { StaysInside S.Store tx.old.conn.now tx.new.conn.now result }
{
    for key in keys {
        write_key(tx, alloc, code, volume, key, changes)?;
    }
    Ok(())
}
