//! Single statements that write, each in a transaction of its own, which is over when the call
//! returns.
ghost use Rattle.std.specs.Prelude.{◌≡◌, false, OnOk};
ghost use Rattle.sqlite.specs.Held.{state};
ghost use Rattle.gaz_sql_facts.specs.Changes.{LeavesTheCommit};
ghost use Rattle.gaz_tables.specs.Metas.{Rewrites};
ghost use Rattle.gaz_tables.specs.Receiveds.{Rejects, unjudged};
ghost use Rattle.gaz_tables.specs.Schema.{meta, received};
ghost use Rattle.gaz_tables.specs.Stores.{AddsRow, Commits, MayLeave, Undoes, WasOpen};

use crate::{metas, receiveds};
use sqlite::{Alter, Connection, Error};

/// Adds the bytes of a volume, which nobody has judged.
pub fn receive<S: Alter>(
    conn: &mut Connection<S>,
    cust: u32,
    volume: u32,
    bytes: &[u8],
) -> Result<(), Error>
    requires { conn.old.in_transaction ≡ false }
    ensures over { conn.new.in_transaction ≡ false }
    ensures open { WasOpen S.Store conn.old conn.new result }
    ensures written { Commits S.Store conn.old conn.new received result
        (AddsRow (unjudged cust volume bytes.now)) }
    ensures undone { Undoes S.Store conn.old conn.new result }
    ensures leaves { MayLeave S.Store conn.old conn.new received
        (AddsRow (unjudged cust volume bytes.now)) }
    ensures certain { OnOk result (LeavesTheCommit (state S.Store conn.new)) }
{
    let mut tx = conn.transaction();
    receiveds::receive(&mut tx, cust, volume, bytes)?;
    tx.commit()
}

/// Marks a volume rejected at a place by a rule.
pub fn reject<S: Alter>(
    conn: &mut Connection<S>,
    cust: u32,
    volume: u32,
    place: &i64,
    rule: u32,
) -> Result<(), Error>
    requires { conn.old.in_transaction ≡ false }
    ensures over { conn.new.in_transaction ≡ false }
    ensures open { WasOpen S.Store conn.old conn.new result }
    ensures written { Commits S.Store conn.old conn.new received result
        (Rejects cust volume place.now rule) }
    ensures undone { Undoes S.Store conn.old conn.new result }
    ensures leaves { MayLeave S.Store conn.old conn.new received
        (Rejects cust volume place.now rule) }
    ensures certain { OnOk result (LeavesTheCommit (state S.Store conn.new)) }
{
    let mut tx = conn.transaction();
    receiveds::reject(&mut tx, cust, volume, place, rule)?;
    tx.commit()
}

/// Gives the row of `meta` this number and register.
pub fn rewrite<S: Alter>(conn: &mut Connection<S>, number: u32, register: &str) -> Result<(), Error>
    requires { conn.old.in_transaction ≡ false }
    ensures over { conn.new.in_transaction ≡ false }
    ensures open { WasOpen S.Store conn.old conn.new result }
    ensures written { Commits S.Store conn.old conn.new meta result
        (Rewrites number register.now) }
    ensures undone { Undoes S.Store conn.old conn.new result }
    ensures leaves { MayLeave S.Store conn.old conn.new meta (Rewrites number register.now) }
    ensures certain { OnOk result (LeavesTheCommit (state S.Store conn.new)) }
{
    let mut tx = conn.transaction();
    metas::rewrite(&mut tx, number, register)?;
    tx.commit()
}
