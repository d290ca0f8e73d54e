//! A database of schema 1 becomes one of schema 2.
ghost use Rattle.std.specs.Prelude.{◌≡◌, false, OnOk};
ghost use Rattle.sqlite.specs.Held.{state};
ghost use Rattle.gaz_sql_facts.specs.Changes.{LeavesTheCommit};
ghost use Rattle.gaz_sql_facts.specs.Emptied.{IsEmptied};
ghost use Rattle.gaz_tables.specs.Migrating.{CopiesRows, MayMigrate, MigratesAlone};
ghost use Rattle.gaz_tables.specs.Migrating.{MigratesInside, MovesInside, WritesFour};
ghost use Rattle.gaz_tables.specs.Schema.{version, version2};
ghost use Rattle.gaz_tables.specs.Stores.{StaysInside, Undoes, WasOpen};

use crate::creating::make_second;
use crate::metas;
use sqlite::{Alter, Connection, Error, Transaction};

// Copies each row of `version` into `version2`, with hop 0, within a transaction.
fn copy_rows<S: Alter>(tx: &mut Transaction<'_, S>) -> Result<usize, Error>
    ensures same_reference { tx.new.conn.ghost_name ≡ tx.old.conn.ghost_name }
    ensures copied { WritesFour S.Store tx.old.conn.now tx.new.conn.now
        version2 result (CopiesRows (state S.Store tx.old.conn.now).now) }
    ensures inside { StaysInside S.Store tx.old.conn.now tx.new.conn.now result }
{
    tx.execute(
        "INSERT INTO version2 SELECT cust, kind, id, blpu, street, lang, live, born, gone, body, 0 FROM version",
        &[],
    )
}

// Takes out every row of `version`, within a transaction.
fn empty_rows<S: Alter>(tx: &mut Transaction<'_, S>) -> Result<usize, Error>
    ensures same_reference { tx.new.conn.ghost_name ≡ tx.old.conn.ghost_name }
    ensures emptied { WritesFour S.Store tx.old.conn.now tx.new.conn.now
        version result IsEmptied }
    ensures inside { StaysInside S.Store tx.old.conn.now tx.new.conn.now result }
{
    tx.execute("DELETE FROM version", &[])
}

// Moves the rows of `version` into `version2`, within a transaction.
fn move_rows<S: Alter>(tx: &mut Transaction<'_, S>) -> Result<(), Error>
    ensures same_reference { tx.new.conn.ghost_name ≡ tx.old.conn.ghost_name }
    ensures moved { MovesInside S.Store tx.old.conn.now tx.new.conn.now result }
    ensures inside { StaysInside S.Store tx.old.conn.now tx.new.conn.now result }
{
    copy_rows(tx)?;
    empty_rows(tx)?;
    Ok(())
}

// Makes what schema 2 has beside schema 1, moves the rows there, and says so in `meta`, within a
// transaction.
fn refit<S: Alter>(tx: &mut Transaction<'_, S>, number: u32, register: &str) -> Result<(), Error>
    ensures same_reference { tx.new.conn.ghost_name ≡ tx.old.conn.ghost_name }
    ensures migrated { MigratesInside S.Store tx.old.conn.now tx.new.conn.now
        number register.now result }
    ensures inside { StaysInside S.Store tx.old.conn.now tx.new.conn.now result }
{
    make_second(tx)?;
    move_rows(tx)?;
    metas::rewrite(tx, number, register)?;
    Ok(())
}

/// Makes of a database of schema 1 one of schema 2 with the same rows and files, and gives its row
/// of `meta` this number and register, in a transaction of its own.
pub fn migrate<S: Alter>(conn: &mut Connection<S>, number: u32, register: &str) -> Result<(), Error>
    requires { conn.old.in_transaction ≡ false }
    ensures over { conn.new.in_transaction ≡ false }
    ensures open { WasOpen S.Store conn.old conn.new result }
    ensures migrated { MigratesAlone S.Store conn.old conn.new number register.now result }
    ensures undone { Undoes S.Store conn.old conn.new result }
    ensures leaves { MayMigrate S.Store conn.old conn.new number register.now }
    ensures certain { OnOk result (LeavesTheCommit (state S.Store conn.new)) }
{
    let mut tx = conn.transaction();
    refit(&mut tx, number, register)?;
    tx.commit()
}
