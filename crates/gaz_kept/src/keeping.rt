//! A judgement's changes, written into the tables as a custodian's next volume.
ghost use Rattle.std.specs.Prelude.{◌≡◌, false, OnOk};
ghost use Rattle.sqlite.specs.Held.{state};
ghost use Rattle.gaz_sql_facts.specs.Changes.{LeavesTheCommit};
ghost use Rattle.gaz_tables.specs.Receiveds.{Applies};
ghost use Rattle.gaz_tables.specs.Schema.{received};
ghost use Rattle.gaz_tables.specs.Stores.{StaysInside, Undoes, WasOpen, WritesInside};
ghost use Rattle.gaz_kept.specs.Keeping.{Keeps, MayKeep, WritesAll, WritesVersions, WritesVolume};

use crate::keeping_keys::write_keys;
use crate::keeping_passages::write_numbers;
use gaz_ids::{Code, Volume};
use gaz_overlay::Overlay;
use gaz_tables::receiveds;
use sqlite::{Alter, Connection, Error, Transaction};
use std::alloc::Global;

// Writes what has become of each touched key, and of each number that was passed on, within a
// transaction.
fn write_rows<S: Alter>(
    tx: &mut Transaction<'_, S>,
    alloc: Global,
    code: Code,
    volume: Volume,
    changes: &Overlay,
) -> Result<(), Error>
    ensures same_reference { tx.new.conn.ghost_name ≡ tx.old.conn.ghost_name }
    ensures written { WritesVersions S.Store tx.old.conn.now tx.new.conn.now result
        (WritesAll code volume changes.now) }
    ensures inside { StaysInside S.Store tx.old.conn.now tx.new.conn.now result }
{
    let keys = changes.touched(alloc)?;
    write_keys(tx, alloc, code, volume, &keys, changes)?;
    let numbers = changes.passed(alloc)?;
    write_numbers(tx, alloc, code, volume, &numbers, changes)
}

// Marks the volume applied, within a transaction.
fn mark_applied<S: Alter>(
    tx: &mut Transaction<'_, S>,
    code: Code,
    volume: Volume,
) -> Result<usize, Error>
    ensures same_reference { tx.new.conn.ghost_name ≡ tx.old.conn.ghost_name }
    ensures applied { WritesInside S.Store tx.old.conn.now tx.new.conn.now
        received result (Applies code volume) }
    ensures inside { StaysInside S.Store tx.old.conn.now tx.new.conn.now result }
{
    receiveds::apply(tx, code.number() as u32, volume.number() as u32)
}

// Writes the rows, and marks the volume applied, within a transaction.
fn write_volume<S: Alter>(
    tx: &mut Transaction<'_, S>,
    alloc: Global,
    code: Code,
    volume: Volume,
    changes: &Overlay,
) -> Result<(), Error>
    ensures same_reference { tx.new.conn.ghost_name ≡ tx.old.conn.ghost_name }
    ensures written { WritesVolume S.Store tx.old.conn.now tx.new.conn.now result
        code volume changes.now }
    ensures inside { StaysInside S.Store tx.old.conn.now tx.new.conn.now result }
{
    write_rows(tx, alloc, code, volume, changes)?;
    mark_applied(tx, code, volume)?;
    Ok(())
}

/// Writes what a judgement has changed as a custodian's next volume, and marks the volume applied,
/// in one transaction.
pub fn keep<S: Alter>(
    alloc: Global,
    conn: &mut Connection<S>,
    code: Code,
    volume: Volume,
    changes: &Overlay,
) -> Result<(), Error>
    requires { conn.old.in_transaction ≡ false }
    ensures over { conn.new.in_transaction ≡ false }
    ensures open { WasOpen S.Store conn.old conn.new result }
    ensures kept { Keeps S.Store conn.old conn.new result code volume changes.now }
    ensures undone { Undoes S.Store conn.old conn.new result }
    ensures leaves { MayKeep S.Store conn.old conn.new code volume changes.now }
    ensures certain { OnOk result (LeavesTheCommit (state S.Store conn.new)) }
{
    let mut tx = conn.transaction();
    write_volume(&mut tx, alloc, code, volume, changes)?;
    tx.commit()
}
