//! A store's row of `meta` gets another register.
ghost use Rattle.std.specs.Prelude.{◌≡◌, false, OnOk};
ghost use Rattle.sqlite.specs.Held.{state};
ghost use Rattle.gaz_sql_facts.specs.Changes.{LeavesTheCommit};
ghost use Rattle.gaz_tables.specs.Metas.{Rewrites};
ghost use Rattle.gaz_tables.specs.Schema.{meta};
ghost use Rattle.gaz_tables.specs.Stores.{Commits, MayLeave, Undoes, WasOpen};
ghost use Rattle.gaz_kept.specs.Opening.{schema_number};

use crate::opening::NUMBER;
use gaz_tables::alone;
use sqlite::{Alter, Connection, Error};

/// Gives the row of `meta` this text of a register, in a transaction of its own.
pub fn rewrite<S: Alter>(conn: &mut Connection<S>, register: &str) -> Result<(), Error>
    requires { conn.old.in_transaction ≡ false }
    ensures over { conn.new.in_transaction ≡ false }
    ensures open { WasOpen S.Store conn.old conn.new result }
    ensures written { Commits S.Store conn.old conn.new meta result
        (Rewrites schema_number register.now) }
    ensures undone { Undoes S.Store conn.old conn.new result }
    ensures leaves { MayLeave S.Store conn.old conn.new meta
        (Rewrites schema_number register.now) }
    ensures certain { OnOk result (LeavesTheCommit (state S.Store conn.new)) }
{
    alone::rewrite(conn, NUMBER, register)
}
