//! The tables and indexes of a new store, beside whatever is there.
ghost use Rattle.std.specs.Prelude.{◌≡◌, false, OnOk};
ghost use Rattle.sqlite.specs.Held.{state};
ghost use Rattle.gaz_sql_facts.specs.Changes.{LeavesTheCommit};
ghost use Rattle.gaz_tables.specs.Creating.{Creates, Furnishes, MayCreate, Widens};
ghost use Rattle.gaz_tables.specs.Creating.{HasRoomForFirst, HasRoomForOthers};
ghost use Rattle.gaz_tables.specs.Creating.{HasRoomForSecond, HasRoomForVersions};
ghost use Rattle.gaz_tables.specs.Creating.{TakesIndex, TakesTable};
ghost use Rattle.gaz_tables.specs.Creating.{first_in, index_put, others_in, second_in};
ghost use Rattle.gaz_tables.specs.Creating.{table_put, versions_in};
ghost use Rattle.gaz_tables.specs.Schema.{by_blpu, by_blpu2, by_street, by_street2};
ghost use Rattle.gaz_tables.specs.Schema.{meta, received, version, version2};
ghost use Rattle.gaz_tables.specs.Stores.{StaysInside, Undoes, WasOpen};

use crate::metas;
use sqlite::{Alter, Connection, Error, Transaction};

// Makes the table `version`, within a transaction.
fn make_version<S: Alter>(tx: &mut Transaction<'_, S>) -> Result<usize, Error>
    ensures same_reference { tx.new.conn.ghost_name ≡ tx.old.conn.ghost_name }
    ensures made { Widens S.Store tx.old.conn.now tx.new.conn.now
        (TakesTable version) (table_put version) result }
    ensures inside { StaysInside S.Store tx.old.conn.now tx.new.conn.now result }
{
    tx.execute(
        "CREATE TABLE version (cust INTEGER NOT NULL, \
         kind INTEGER NOT NULL CHECK (kind IN (11, 15, 21, 23, 24)), id TEXT NOT NULL, \
         blpu INTEGER NOT NULL, street INTEGER NOT NULL, lang INTEGER NOT NULL, \
         live INTEGER NOT NULL, born INTEGER NOT NULL, gone INTEGER NOT NULL, \
         body TEXT NOT NULL, PRIMARY KEY (cust, kind, id, born)) STRICT",
        &[],
    )
}

// Makes the index of `blpu`, within a transaction.
fn make_by_blpu<S: Alter>(tx: &mut Transaction<'_, S>) -> Result<usize, Error>
    ensures same_reference { tx.new.conn.ghost_name ≡ tx.old.conn.ghost_name }
    ensures made { Widens S.Store tx.old.conn.now tx.new.conn.now
        (TakesIndex version by_blpu) (index_put version by_blpu) result }
    ensures inside { StaysInside S.Store tx.old.conn.now tx.new.conn.now result }
{
    tx.execute(
        "CREATE INDEX by_blpu ON version (cust, kind, blpu, gone)",
        &[],
    )
}

// Makes the index of `street`, within a transaction.
fn make_by_street<S: Alter>(tx: &mut Transaction<'_, S>) -> Result<usize, Error>
    ensures same_reference { tx.new.conn.ghost_name ≡ tx.old.conn.ghost_name }
    ensures made { Widens S.Store tx.old.conn.now tx.new.conn.now
        (TakesIndex version by_street) (index_put version by_street) result }
    ensures inside { StaysInside S.Store tx.old.conn.now tx.new.conn.now result }
{
    tx.execute(
        "CREATE INDEX by_street ON version (cust, kind, street, gone)",
        &[],
    )
}

// Makes the table `received`, within a transaction.
fn make_received<S: Alter>(tx: &mut Transaction<'_, S>) -> Result<usize, Error>
    ensures same_reference { tx.new.conn.ghost_name ≡ tx.old.conn.ghost_name }
    ensures made { Widens S.Store tx.old.conn.now tx.new.conn.now
        (TakesTable received) (table_put received) result }
    ensures inside { StaysInside S.Store tx.old.conn.now tx.new.conn.now result }
{
    tx.execute(
        "CREATE TABLE received (cust INTEGER NOT NULL, volume INTEGER NOT NULL, bytes BLOB NOT NULL, \
         state INTEGER NOT NULL, place INTEGER NOT NULL, rule INTEGER NOT NULL, \
         PRIMARY KEY (cust, volume)) STRICT",
        &[],
    )
}

// Makes the table `meta`, within a transaction.
fn make_meta<S: Alter>(tx: &mut Transaction<'_, S>) -> Result<usize, Error>
    ensures same_reference { tx.new.conn.ghost_name ≡ tx.old.conn.ghost_name }
    ensures made { Widens S.Store tx.old.conn.now tx.new.conn.now
        (TakesTable meta) (table_put meta) result }
    ensures inside { StaysInside S.Store tx.old.conn.now tx.new.conn.now result }
{
    tx.execute(
        "CREATE TABLE meta (id INTEGER NOT NULL PRIMARY KEY, number INTEGER NOT NULL, \
         register TEXT NOT NULL) STRICT",
        &[],
    )
}

// Makes the table `version2`, within a transaction.
fn make_version2<S: Alter>(tx: &mut Transaction<'_, S>) -> Result<usize, Error>
    ensures same_reference { tx.new.conn.ghost_name ≡ tx.old.conn.ghost_name }
    ensures made { Widens S.Store tx.old.conn.now tx.new.conn.now
        (TakesTable version2) (table_put version2) result }
    ensures inside { StaysInside S.Store tx.old.conn.now tx.new.conn.now result }
{
    tx.execute(
        "CREATE TABLE version2 (cust INTEGER NOT NULL, \
         kind INTEGER NOT NULL CHECK (kind IN (11, 15, 21, 23, 24, 92)), id TEXT NOT NULL, \
         blpu INTEGER NOT NULL, street INTEGER NOT NULL, lang INTEGER NOT NULL, \
         live INTEGER NOT NULL, born INTEGER NOT NULL, gone INTEGER NOT NULL, \
         body TEXT NOT NULL, hop INTEGER NOT NULL, PRIMARY KEY (cust, kind, id, born)) STRICT",
        &[],
    )
}

// Makes the index of `blpu` in `version2`, within a transaction.
fn make_by_blpu2<S: Alter>(tx: &mut Transaction<'_, S>) -> Result<usize, Error>
    ensures same_reference { tx.new.conn.ghost_name ≡ tx.old.conn.ghost_name }
    ensures made { Widens S.Store tx.old.conn.now tx.new.conn.now
        (TakesIndex version2 by_blpu2) (index_put version2 by_blpu2) result }
    ensures inside { StaysInside S.Store tx.old.conn.now tx.new.conn.now result }
{
    tx.execute(
        "CREATE INDEX by_blpu2 ON version2 (cust, kind, blpu, gone)",
        &[],
    )
}

// Makes the index of `street` in `version2`, within a transaction.
fn make_by_street2<S: Alter>(tx: &mut Transaction<'_, S>) -> Result<usize, Error>
    ensures same_reference { tx.new.conn.ghost_name ≡ tx.old.conn.ghost_name }
    ensures made { Widens S.Store tx.old.conn.now tx.new.conn.now
        (TakesIndex version2 by_street2) (index_put version2 by_street2) result }
    ensures inside { StaysInside S.Store tx.old.conn.now tx.new.conn.now result }
{
    tx.execute(
        "CREATE INDEX by_street2 ON version2 (cust, kind, street, gone)",
        &[],
    )
}

// Makes the table `version` and its indexes, within a transaction.
fn make_versions<S: Alter>(tx: &mut Transaction<'_, S>) -> Result<(), Error>
    ensures same_reference { tx.new.conn.ghost_name ≡ tx.old.conn.ghost_name }
    ensures made { Widens S.Store tx.old.conn.now tx.new.conn.now
        HasRoomForVersions versions_in result }
    ensures inside { StaysInside S.Store tx.old.conn.now tx.new.conn.now result }
{
    make_version(tx)?;
    make_by_blpu(tx)?;
    make_by_street(tx)?;
    Ok(())
}

// Makes the tables `received` and `meta`, within a transaction.
fn make_others<S: Alter>(tx: &mut Transaction<'_, S>) -> Result<(), Error>
    ensures same_reference { tx.new.conn.ghost_name ≡ tx.old.conn.ghost_name }
    ensures made { Widens S.Store tx.old.conn.now tx.new.conn.now
        HasRoomForOthers others_in result }
    ensures inside { StaysInside S.Store tx.old.conn.now tx.new.conn.now result }
{
    make_received(tx)?;
    make_meta(tx)?;
    Ok(())
}

// Makes the tables of schema 1 and their indexes, within a transaction.
fn make_first<S: Alter>(tx: &mut Transaction<'_, S>) -> Result<(), Error>
    ensures same_reference { tx.new.conn.ghost_name ≡ tx.old.conn.ghost_name }
    ensures made { Widens S.Store tx.old.conn.now tx.new.conn.now
        HasRoomForFirst first_in result }
    ensures inside { StaysInside S.Store tx.old.conn.now tx.new.conn.now result }
{
    make_versions(tx)?;
    make_others(tx)?;
    Ok(())
}

/// Makes the table `version2` and its indexes, within a transaction.
pub(crate) fn make_second<S: Alter>(tx: &mut Transaction<'_, S>) -> Result<(), Error>
    ensures same_reference { tx.new.conn.ghost_name ≡ tx.old.conn.ghost_name }
    ensures made { Widens S.Store tx.old.conn.now tx.new.conn.now
        HasRoomForSecond second_in result }
    ensures inside { StaysInside S.Store tx.old.conn.now tx.new.conn.now result }
{
    make_version2(tx)?;
    make_by_blpu2(tx)?;
    make_by_street2(tx)?;
    Ok(())
}

// Makes the tables, their indexes and the row of `meta`, within a transaction.
fn furnish<S: Alter>(tx: &mut Transaction<'_, S>, number: u32, register: &str) -> Result<(), Error>
    ensures same_reference { tx.new.conn.ghost_name ≡ tx.old.conn.ghost_name }
    ensures made { Furnishes S.Store tx.old.conn.now tx.new.conn.now number register.now result }
    ensures inside { StaysInside S.Store tx.old.conn.now tx.new.conn.now result }
{
    make_first(tx)?;
    make_second(tx)?;
    metas::insert(tx, number, register)?;
    Ok(())
}

/// Makes the four tables, their indexes and the row of `meta`, in a transaction of its own.
pub fn create<S: Alter>(conn: &mut Connection<S>, number: u32, register: &str) -> Result<(), Error>
    requires { conn.old.in_transaction ≡ false }
    ensures over { conn.new.in_transaction ≡ false }
    ensures open { WasOpen S.Store conn.old conn.new result }
    ensures created { Creates S.Store conn.old conn.new number register.now result }
    ensures undone { Undoes S.Store conn.old conn.new result }
    ensures leaves { MayCreate S.Store conn.old conn.new number register.now }
    ensures certain { OnOk result (LeavesTheCommit (state S.Store conn.new)) }
{
    let mut tx = conn.transaction();
    furnish(&mut tx, number, register)?;
    tx.commit()
}
