//! Whether a connection is open.
ghost use Rattle.std.specs.Prelude.{◌≡◌, false, IfErr, OnErr, OnOk};
ghost use Rattle.sqlite.specs.Held.{state};
ghost use Rattle.sqlite.specs.State.{HasCleanDisk, IsUnchanged, Survives};
ghost use Rattle.gaz_sql_facts.specs.Changes.{IsSpared};
ghost use Rattle.gaz_sql_facts.specs.Reasons.{HasReason};

use sqlite::{Alter, Connection, Error, Row};

/// Asks for nothing of any table: an answer tells that the connection was open and is.
pub fn probe<S: Alter>(conn: &mut Connection<S>) -> Result<Vec<Row>, Error>
    ensures stays { HasCleanDisk (state S.Store conn.new)
        → OnOk result (IsUnchanged (state S.Store conn.old) (state S.Store conn.new)) }
    ensures spared { HasCleanDisk (state S.Store conn.new)
        → OnErr result (IsSpared (state S.Store conn.old) (state S.Store conn.new)) }
    ensures reason { HasCleanDisk (state S.Store conn.new)
        → IfErr result (HasReason (state S.Store conn.old) (state S.Store conn.new)) }
    ensures leaves { Survives (state S.Store conn.old) (state S.Store conn.new) (λ _. ⊥) }
    ensures mode { conn.old.in_transaction ≡ false → conn.new.in_transaction ≡ false }
{
    conn.query_all("SELECT 1", &[])
}
