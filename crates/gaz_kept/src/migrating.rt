//! A database of schema 1 becomes a store.
ghost use Rattle.std.specs.Prelude.{◌≡◌, false, true, Err, IfErr, OnOk};
ghost use Rattle.sqlite.specs.Held.{state};
ghost use Rattle.gaz_register.specs.Texts.{register_text};
ghost use Rattle.gaz_sql_facts.specs.Changes.{LeavesTheCommit};
ghost use Rattle.gaz_kept.specs.Opening.{IsOpen, Judges, RestsRefused, Tells, Untouched, has_all};
ghost use Rattle.gaz_kept.specs.OpeningFirst.{JudgesFirst, MayMove, Moves, TellsFirst, has_first};

use crate::naming::has_first;
use crate::opening::{NUMBER, check, compared, known};
use crate::probing::probe;
use crate::refusal::StoreRefusal;
use gaz_register::Register;
use gaz_tables::migrating;
use sqlite::{Alter, Connection};
use std::alloc::Global;

// The number of schema 1.
const FIRST: u32 = 1;

// Makes of a database of schema 1 one of schema 2 with this text of a register, once it is known
// that the connection is open.
fn moved<S: Alter>(conn: &mut Connection<S>, text: &str) -> Result<(), StoreRefusal>
    requires { conn.old.in_transaction ≡ false }
    ensures over { conn.new.in_transaction ≡ false }
    ensures open { IsOpen S.Store conn.old conn.new result }
    ensures moved { Moves S.Store conn.old conn.new result text.now }
    ensures causes { IfErr result (λ e. e ≡ StoreRefusal.Fault) }
    ensures rests { RestsRefused S.Store conn.old conn.new result }
    ensures leaves { MayMove S.Store conn.old conn.new result text.now }
    ensures certain { OnOk result (LeavesTheCommit (state S.Store conn.new)) }
{
    known(conn);
    if probe(conn).is_err() {
        return Err(StoreRefusal::Fault);
    }
    match migrating::migrate(conn, NUMBER, text) {
        Ok(()) => Ok(()),
        Err(_) => Err(StoreRefusal::Fault),
    }
}

// Makes of a database of schema 1 that is of a register a store of it, in one transaction: each row
// of `version` moves to `version2`, and `meta` says schema 2.
fn from_first<S: Alter>(
    alloc: Global,
    conn: &mut Connection<S>,
    register: &Register,
) -> Result<(), StoreRefusal>
    requires { conn.old.in_transaction ≡ false }
    ensures over { conn.new.in_transaction ≡ false }
    ensures open { IsOpen S.Store conn.old conn.new result }
    ensures moved { Moves S.Store conn.old conn.new result (register_text register.now) }
    ensures told { TellsFirst S.Store conn.old conn.new result (register_text register.now) }
    ensures judged { JudgesFirst S.Store conn.old conn.new result (register_text register.now) }
    ensures rests { RestsRefused S.Store conn.old conn.new result }
    ensures leaves { MayMove S.Store conn.old conn.new result (register_text register.now) }
    ensures certain { OnOk result (LeavesTheCommit (state S.Store conn.new)) }
{
    let Ok(text) = register.text(alloc) else {
        return Err(StoreRefusal::Fault);
    };
    match compared(conn, FIRST, &text) {
        Ok(()) => moved(conn, &text),
        Err(refusal) => Err(refusal),
    }
}

/// Whether the tables of schema 1 are there, with their columns, and nothing is named `version2`.
pub fn is_first<S: Alter>(conn: &Connection<S>) -> bool
    ensures { result ≡ has_first (state S.Store conn.now).now.schema }
{
    has_first(conn.schema())
}

/// Tells that the database is a store of a register, as `check` does, or makes one of it where it
/// is of schema 1, in one transaction: each row of `version` moves to `version2`, and `meta` says
/// schema 2. A store is left as it is.
///
/// In this order: `BadSchema` where neither the tables of schema 2 are there nor those of schema 1
/// alone, with their columns, or the rows of `meta` aren't just one, of id 1 and of that schema's
/// number; `OtherRegister` where its text isn't the register's canonical one; `Fault` where memory
/// or the database failed. After a refusal the database holds what it held. A stop within the call
/// leaves what was there, or the store whole.
pub fn migrate<S: Alter>(
    alloc: Global,
    conn: &mut Connection<S>,
    register: &Register,
) -> Result<(), StoreRefusal>
    requires { conn.old.in_transaction ≡ false }
    ensures over { conn.new.in_transaction ≡ false }
    ensures moved { Moves S.Store conn.old conn.new result (register_text register.now) }
    ensures lacking { has_all (state S.Store conn.old).now.schema ≡ false
        → has_first (state S.Store conn.old).now.schema ≡ false
        → result ≡ Err StoreRefusal.BadSchema }
    ensures told { Tells S.Store conn.old conn.new result (register_text register.now) }
    ensures judged { Judges S.Store conn.old conn.new result (register_text register.now) }
    ensures told_first { TellsFirst S.Store conn.old conn.new result (register_text register.now) }
    ensures judged_first { JudgesFirst S.Store conn.old conn.new result
        (register_text register.now) }
    ensures rests { RestsRefused S.Store conn.old conn.new result }
    ensures leaves { MayMove S.Store conn.old conn.new result (register_text register.now) }
    ensures untouched { has_first (state S.Store conn.old).now.schema ≡ false
        → Untouched S.Store conn.old conn.new }
    ensures certain { has_first (state S.Store conn.old).now.schema ≡ true
        → OnOk result (LeavesTheCommit (state S.Store conn.new)) }
{
    if is_first(conn) {
        from_first(alloc, conn, register)
    } else {
        check(alloc, conn, register)
    }
}
