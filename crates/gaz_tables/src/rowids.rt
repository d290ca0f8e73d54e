//! The statements that go through the table `version2` in the order of its rowids.
ghost use Rattle.gaz_tables.specs.Schema.{version2};
ghost use Rattle.std.specs.Prelude.{◌≡◌, false};
ghost use Rattle.gaz_tables.specs.Stores.{Queries};
ghost use Rattle.gaz_tables.specs.Rowids.{FindsBehind, FindsFirst};

use sqlite::{Alter, Connection, Error, Row, params};

/// Rowid and columns of the rows, by rising rowids: at most so many.
pub fn first<S: Alter>(conn: &mut Connection<S>, most: u32) -> Result<Vec<Row>, Error>
    ensures asked { Queries S.Store conn.old conn.new version2 result (FindsFirst most) }
    ensures mode { conn.old.in_transaction ≡ false → conn.new.in_transaction ≡ false }
{
    conn.query_all(
        "SELECT rowid, cust, kind, id, blpu, street, lang, live, born, gone, body, hop FROM version2 ORDER BY rowid LIMIT ?1",
        params![most],
    )
}

/// Rowid and columns of the rows behind a rowid, by rising rowids: at most so many.
pub fn behind<S: Alter>(conn: &mut Connection<S>, after: &i64, most: u32) -> Result<Vec<Row>, Error>
    ensures asked { Queries S.Store conn.old conn.new version2 result (FindsBehind after.now most) }
    ensures mode { conn.old.in_transaction ≡ false → conn.new.in_transaction ≡ false }
{
    conn.query_all(
        "SELECT rowid, cust, kind, id, blpu, street, lang, live, born, gone, body, hop FROM version2 \
         WHERE rowid > ?1 ORDER BY rowid LIMIT ?2",
        params![after, most],
    )
}
