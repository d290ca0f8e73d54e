//! The statements of the table `received`.
ghost use Rattle.gaz_tables.specs.Schema.{received};
ghost use Rattle.std.specs.Prelude.{◌≡◌, false};
ghost use Rattle.gaz_tables.specs.Stores.{AddsRow, Finds, Queries, SparesInside, StaysInside};
ghost use Rattle.gaz_tables.specs.Stores.{WasOpen, WritesInside};
ghost use Rattle.gaz_tables.specs.Receiveds.{Applies, AtMostOne, FindsAbove, FindsFile};
ghost use Rattle.gaz_tables.specs.Receiveds.{FindsVerdict, Rejects, unjudged};

use sqlite::{Alter, Connection, Error, Row, Transaction, params};

/// `bytes`, `state`, `place` and `rule` of a volume, or no row.
pub fn file<S: Alter>(conn: &mut Connection<S>, cust: u32, volume: u32) -> Result<Vec<Row>, Error>
    ensures asked { Queries S.Store conn.old conn.new received result (FindsFile cust volume) }
    ensures one { Finds S.Store conn.old conn.new received result AtMostOne }
    ensures mode { conn.old.in_transaction ≡ false → conn.new.in_transaction ≡ false }
{
    conn.query_all(
        "SELECT bytes, state, place, rule FROM received WHERE cust = ?1 AND volume = ?2",
        params![cust, volume],
    )
}

/// `state`, `place` and `rule` of a volume, or no row.
pub fn verdict<S: Alter>(
    conn: &mut Connection<S>,
    cust: u32,
    volume: u32,
) -> Result<Vec<Row>, Error>
    ensures asked { Queries S.Store conn.old conn.new received result (FindsVerdict cust volume) }
    ensures one { Finds S.Store conn.old conn.new received result AtMostOne }
    ensures mode { conn.old.in_transaction ≡ false → conn.new.in_transaction ≡ false }
{
    conn.query_all(
        "SELECT state, place, rule FROM received WHERE cust = ?1 AND volume = ?2",
        params![cust, volume],
    )
}

/// The volumes above one, rising: at most so many.
pub fn above<S: Alter>(
    conn: &mut Connection<S>,
    cust: u32,
    volume: u32,
    most: u32,
) -> Result<Vec<Row>, Error>
    ensures asked { Queries S.Store conn.old conn.new received result
        (FindsAbove cust volume most) }
    ensures mode { conn.old.in_transaction ≡ false → conn.new.in_transaction ≡ false }
{
    conn.query_all(
        "SELECT volume FROM received WHERE cust = ?1 AND volume > ?2 ORDER BY volume LIMIT ?3",
        params![cust, volume, most],
    )
}

/// Adds the bytes of a volume, which nobody has judged, within a transaction.
pub fn receive<S: Alter>(
    tx: &mut Transaction<'_, S>,
    cust: u32,
    volume: u32,
    bytes: &[u8],
) -> Result<usize, Error>
    ensures same_reference { tx.new.conn.ghost_name ≡ tx.old.conn.ghost_name }
    ensures added { WritesInside S.Store tx.old.conn.now tx.new.conn.now
        received result (AddsRow (unjudged cust volume bytes.now)) }
    ensures spared { SparesInside S.Store tx.old.conn.now tx.new.conn.now result }
    ensures open { WasOpen S.Store tx.old.conn.now tx.new.conn.now result }
    ensures inside { StaysInside S.Store tx.old.conn.now tx.new.conn.now result }
{
    tx.execute(
        "INSERT INTO received VALUES (?1, ?2, ?3, 0, 0, 0)",
        params![cust, volume, bytes],
    )
}

/// Marks a volume applied, within a transaction.
pub fn apply<S: Alter>(tx: &mut Transaction<'_, S>, cust: u32, volume: u32) -> Result<usize, Error>
    ensures same_reference { tx.new.conn.ghost_name ≡ tx.old.conn.ghost_name }
    ensures applied { WritesInside S.Store tx.old.conn.now tx.new.conn.now
        received result (Applies cust volume) }
    ensures spared { SparesInside S.Store tx.old.conn.now tx.new.conn.now result }
    ensures open { WasOpen S.Store tx.old.conn.now tx.new.conn.now result }
    ensures inside { StaysInside S.Store tx.old.conn.now tx.new.conn.now result }
{
    tx.execute(
        "UPDATE received SET state = 1, place = 0, rule = 0 WHERE cust = ?1 AND volume = ?2",
        params![cust, volume],
    )
}

/// Marks a volume rejected at a place by a rule, within a transaction.
pub fn reject<S: Alter>(
    tx: &mut Transaction<'_, S>,
    cust: u32,
    volume: u32,
    place: &i64,
    rule: u32,
) -> Result<usize, Error>
    ensures same_reference { tx.new.conn.ghost_name ≡ tx.old.conn.ghost_name }
    ensures rejected { WritesInside S.Store tx.old.conn.now tx.new.conn.now
        received result (Rejects cust volume place.now rule) }
    ensures spared { SparesInside S.Store tx.old.conn.now tx.new.conn.now result }
    ensures open { WasOpen S.Store tx.old.conn.now tx.new.conn.now result }
    ensures inside { StaysInside S.Store tx.old.conn.now tx.new.conn.now result }
{
    tx.execute(
        "UPDATE received SET state = 2, place = ?3, rule = ?4 WHERE cust = ?1 AND volume = ?2",
        params![cust, volume, place, rule],
    )
}
