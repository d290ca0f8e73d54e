//! The statements of the table `version2`.
ghost use Rattle.gaz_tables.specs.Schema.{version2};
ghost use Rattle.std.specs.Prelude.{◌≡◌, false};
ghost use Rattle.gaz_tables.specs.Stores.{AddsRow, Queries, SparesInside, StaysInside, WasOpen};
ghost use Rattle.gaz_tables.specs.Stores.{WritesInside};
ghost use Rattle.gaz_tables.specs.Versions.{Closes, FindsApprovedOf, FindsApprovedOn, FindsHolding};
ghost use Rattle.gaz_tables.specs.Versions.{FindsNewest, FindsNewestUntil, FindsParts};
ghost use Rattle.gaz_tables.specs.Versions.{version_values};

use sqlite::{Alter, Connection, Error, Row, Transaction, params};

/// `born`, `gone` and `body` of the newest row of a key, or no row.
pub fn newest<S: Alter>(
    conn: &mut Connection<S>,
    cust: u32,
    kind: u32,
    id: &str,
) -> Result<Vec<Row>, Error>
    ensures asked { Queries S.Store conn.old conn.new version2 result
        (FindsNewest cust kind id.now) }
    ensures mode { conn.old.in_transaction ≡ false → conn.new.in_transaction ≡ false }
{
    conn.query_all(
        "SELECT born, gone, body FROM version2 \
         WHERE cust = ?1 AND kind = ?2 AND id = ?3 ORDER BY born DESC LIMIT 1",
        params![cust, kind, id],
    )
}

/// `born`, `gone` and `body` of the newest row of a key that was born in a volume or before, or no
/// row.
pub fn newest_until<S: Alter>(
    conn: &mut Connection<S>,
    cust: u32,
    kind: u32,
    id: &str,
    volume: u32,
) -> Result<Vec<Row>, Error>
    ensures asked { Queries S.Store conn.old conn.new version2 result
        (FindsNewestUntil cust kind id.now volume) }
    ensures mode { conn.old.in_transaction ≡ false → conn.new.in_transaction ≡ false }
{
    conn.query_all(
        "SELECT born, gone, body FROM version2 \
         WHERE cust = ?1 AND kind = ?2 AND id = ?3 AND born <= ?4 ORDER BY born DESC LIMIT 1",
        params![cust, kind, id, volume],
    )
}

/// `id` and `body` of the rows of a kind that hold after a volume, behind an id, by rising ids: at
/// most so many.
pub fn holding<S: Alter>(
    conn: &mut Connection<S>,
    cust: u32,
    kind: u32,
    after: &str,
    volume: u32,
    most: u32,
) -> Result<Vec<Row>, Error>
    ensures asked { Queries S.Store conn.old conn.new version2 result
        (FindsHolding cust kind after.now volume most) }
    ensures mode { conn.old.in_transaction ≡ false → conn.new.in_transaction ≡ false }
{
    conn.query_all(
        "SELECT id, body FROM version2 \
         WHERE cust = ?1 AND kind = ?2 AND id > ?3 AND born <= ?4 AND gone > ?4 ORDER BY id LIMIT ?5",
        params![cust, kind, after, volume, most],
    )
}

/// `id` and `body` of the current rows of kind 24 that are live and have this `blpu`.
pub fn approved_of<S: Alter>(
    conn: &mut Connection<S>,
    cust: u32,
    blpu: &i64,
) -> Result<Vec<Row>, Error>
    ensures asked { Queries S.Store conn.old conn.new version2 result
        (FindsApprovedOf cust blpu.now) }
    ensures mode { conn.old.in_transaction ≡ false → conn.new.in_transaction ≡ false }
{
    conn.query_all(
        "SELECT id, body FROM version2 \
         WHERE cust = ?1 AND kind = 24 AND blpu = ?2 AND live = 1 AND gone = 1000000",
        params![cust, blpu],
    )
}

/// `id` and `lang` of the current rows of kind 24 that are live and on this street, behind an id,
/// by rising ids: at most so many.
pub fn approved_on<S: Alter>(
    conn: &mut Connection<S>,
    cust: u32,
    street: u32,
    after: &str,
    most: u32,
) -> Result<Vec<Row>, Error>
    ensures asked { Queries S.Store conn.old conn.new version2 result
        (FindsApprovedOn cust street after.now most) }
    ensures mode { conn.old.in_transaction ≡ false → conn.new.in_transaction ≡ false }
{
    conn.query_all(
        "SELECT id, lang FROM version2 \
         WHERE cust = ?1 AND kind = 24 AND street = ?2 AND live = 1 AND gone = 1000000 AND id > ?3 ORDER BY id LIMIT ?4",
        params![cust, street, after, most],
    )
}

/// `id` of the current rows of a kind that have this `blpu`, behind an id, by rising ids: at most
/// so many.
pub fn parts_of<S: Alter>(
    conn: &mut Connection<S>,
    cust: u32,
    kind: u32,
    blpu: &i64,
    after: &str,
    most: u32,
) -> Result<Vec<Row>, Error>
    ensures asked { Queries S.Store conn.old conn.new version2 result
        (FindsParts cust kind blpu.now after.now most) }
    ensures mode { conn.old.in_transaction ≡ false → conn.new.in_transaction ≡ false }
{
    conn.query_all(
        "SELECT id FROM version2 \
         WHERE cust = ?1 AND kind = ?2 AND blpu = ?3 AND gone = 1000000 AND id > ?4 ORDER BY id LIMIT ?5",
        params![cust, kind, blpu, after, most],
    )
}

/// Adds a row, within a transaction.
pub fn insert<S: Alter>(
    tx: &mut Transaction<'_, S>,
    cust: u32,
    kind: u32,
    id: &str,
    blpu: &i64,
    street: u32,
    lang: u32,
    live: bool,
    born: u32,
    gone: u32,
    body: &str,
    hop: u32,
) -> Result<usize, Error>
    ensures same_reference { tx.new.conn.ghost_name ≡ tx.old.conn.ghost_name }
    ensures added { WritesInside S.Store tx.old.conn.now tx.new.conn.now
        version2 result (AddsRow
        (version_values cust kind id.now blpu.now street lang live born gone body.now hop)) }
    ensures spared { SparesInside S.Store tx.old.conn.now tx.new.conn.now result }
    ensures open { WasOpen S.Store tx.old.conn.now tx.new.conn.now result }
    ensures inside { StaysInside S.Store tx.old.conn.now tx.new.conn.now result }
{
    tx.execute(
        "INSERT INTO version2 (cust, kind, id, blpu, street, lang, live, born, gone, body, hop) VALUES (?1, ?2, ?3, ?4, ?5, ?6, ?7, ?8, ?9, ?10, ?11)",
        params![
            cust, kind, id, blpu, street, lang, live, born, gone, body, hop
        ],
    )
}

/// Sets `gone` of the row of a key that was born in a volume, within a transaction.
pub fn close<S: Alter>(
    tx: &mut Transaction<'_, S>,
    cust: u32,
    kind: u32,
    id: &str,
    born: u32,
    gone: u32,
) -> Result<usize, Error>
    ensures same_reference { tx.new.conn.ghost_name ≡ tx.old.conn.ghost_name }
    ensures closed { WritesInside S.Store tx.old.conn.now tx.new.conn.now
        version2 result (Closes cust kind id.now born gone) }
    ensures spared { SparesInside S.Store tx.old.conn.now tx.new.conn.now result }
    ensures open { WasOpen S.Store tx.old.conn.now tx.new.conn.now result }
    ensures inside { StaysInside S.Store tx.old.conn.now tx.new.conn.now result }
{
    tx.execute(
        "UPDATE version2 SET gone = ?5 WHERE cust = ?1 AND kind = ?2 AND id = ?3 AND born = ?4",
        params![cust, kind, id, born, gone],
    )
}
