//! The statements that read the rows of kind 92 of the table `version2`.
ghost use Rattle.gaz_tables.specs.Schema.{version2};
ghost use Rattle.std.specs.Prelude.{◌≡◌, false};
ghost use Rattle.gaz_tables.specs.Custody.{FindsCustody, FindsCustodyBehind, FindsCustodyUntil};
ghost use Rattle.gaz_tables.specs.Stores.{Queries};

use sqlite::{Alter, Connection, Error, Row, params};

/// `born`, `gone`, `live`, `street`, `hop`, `lang` and `body` of the newest row of a number, or no
/// row.
pub fn newest<S: Alter>(conn: &mut Connection<S>, cust: u32, id: &str) -> Result<Vec<Row>, Error>
    ensures asked { Queries S.Store conn.old conn.new version2 result (FindsCustody cust id.now) }
    ensures mode { conn.old.in_transaction ≡ false → conn.new.in_transaction ≡ false }
{
    conn.query_all(
        "SELECT born, gone, live, street, hop, lang, body FROM version2 \
         WHERE cust = ?1 AND kind = 92 AND id = ?2 ORDER BY born DESC LIMIT 1",
        params![cust, id],
    )
}

/// `born`, `gone`, `live`, `street`, `hop`, `lang` and `body` of the newest row of a number that
/// was born in a volume or before, or no row.
pub fn newest_until<S: Alter>(
    conn: &mut Connection<S>,
    cust: u32,
    id: &str,
    volume: u32,
) -> Result<Vec<Row>, Error>
    ensures asked { Queries S.Store conn.old conn.new version2 result
        (FindsCustodyUntil cust id.now volume) }
    ensures mode { conn.old.in_transaction ≡ false → conn.new.in_transaction ≡ false }
{
    conn.query_all(
        "SELECT born, gone, live, street, hop, lang, body FROM version2 \
         WHERE cust = ?1 AND kind = 92 AND id = ?2 AND born <= ?3 ORDER BY born DESC LIMIT 1",
        params![cust, id, volume],
    )
}

/// `id`, and those of a custodian's rows behind an id and a volume, by rising ids and for each by
/// rising births: at most so many.
pub fn behind<S: Alter>(
    conn: &mut Connection<S>,
    cust: u32,
    id: &str,
    born: u32,
    most: u32,
) -> Result<Vec<Row>, Error>
    ensures asked { Queries S.Store conn.old conn.new version2 result
        (FindsCustodyBehind cust id.now born most) }
    ensures mode { conn.old.in_transaction ≡ false → conn.new.in_transaction ≡ false }
{
    conn.query_all(
        "SELECT id, born, gone, live, street, hop, lang, body FROM version2 \
         WHERE cust = ?1 AND kind = 92 AND id >= ?2 \
         AND (id > ?2 OR born > ?3) ORDER BY id, born LIMIT ?4",
        params![cust, id, born, most],
    )
}
