//! What a store in a database is made from and opened with.
ghost use Rattle.std.specs.Prelude.{◌≡◌, ◌≢◌, ◌↔◌, false, true, pos, Ok, Err, IfOk};
ghost use Rattle.std.specs.Prelude.{IsTrue, OnOk};
ghost use Rattle.sqlite.specs.Held.{state};
ghost use Rattle.sqlite.specs.Order.{column};
ghost use Rattle.sqlite.specs.State.{HasCleanDisk, Survives};
ghost use Rattle.sqlite.specs.declared.types.Value.TheVariants.{Int, Text};
ghost use Rattle.gaz_sql_facts.specs.Changes.{IsUndone, LeavesTheCommit};
ghost use Rattle.gaz_tables.specs.Creating.{MayCreate};
ghost use Rattle.gaz_tables.specs.Stores.{FailsByOthers};
ghost use Rattle.gaz_kept.specs.Numbered.{FindsMeta, IsAnswer, IsTold, JudgesMeta, JudgesRead};
ghost use Rattle.gaz_kept.specs.Numbered.{TellsRows, ToldRows};
ghost use Rattle.gaz_kept.specs.Opening.{IsOpen, IsSettled, Judges, Makes, Rests};
ghost use Rattle.gaz_kept.specs.Opening.{RestsRefused, Tells, TellsWhether, UnreadByOthers};
ghost use Rattle.gaz_kept.specs.Opening.{Untouched, WasOpen, has_all, has_any, schema_number};
ghost use Rattle.gaz_register.specs.Texts.{register_text};

use crate::naming::{has_all, has_any};
use crate::refusal::{StoreRefusal, Unread};
use gaz_register::Register;
use gaz_tables::{creating, metas};
use sqlite::types::ValueRef;
use sqlite::{Alter, Connection, Error, Row};
use std::alloc::Global;

// The number of the schema of a store.
pub(crate) const NUMBER: u32 = 2;

// Outside a transaction a connection shows what was committed.
pub(crate) fn known<S: Alter>(conn: &Connection<S>)
    requires { conn.now.in_transaction ≡ false }
    ensures { IsSettled (state S.Store conn.now) }
{
    let _ = conn.is_autocommit();
}

// `id`, `number` and `register` of at most two rows of `meta`. It writes nothing, whatever tables
// there are: the transaction is taken back.
fn asked<S: Alter>(conn: &mut Connection<S>) -> Result<Vec<Row>, Error>
    requires { conn.old.in_transaction ≡ false }
    ensures over { conn.new.in_transaction ≡ false }
    ensures answered { HasCleanDisk (state S.Store conn.new)
        → IfOk result (λ rows. IsAnswer S.Store conn.old rows.items) }
    ensures found { FindsMeta S.Store conn.old conn.new result }
    ensures open { WasOpen S.Store conn.old conn.new result }
    ensures reason { FailsByOthers S.Store conn.old conn.new result }
    ensures undone { HasCleanDisk (state S.Store conn.new)
        → IsUndone (state S.Store conn.old) (state S.Store conn.new) }
    ensures leaves { Survives (state S.Store conn.old) (state S.Store conn.new) (λ _. ⊥) }
{
    let mut tx = conn.transaction();
    let found = metas::rows(&mut tx);
    tx.rollback();
    found
}

// Whether a number stands in a column.
fn is_number(row: &Row, at: usize, number: u32) -> bool
    ensures { IsTrue result ↔ (column row.now at ≡ Int (pos number)) }
{
    match row.get_ref(at) {
        Ok(ValueRef::Int(n)) => n == i64::from(number),
        _ => false,
    }
}

// Whether a text stands in a column.
fn is_text(row: &Row, at: usize, text: &str) -> bool
    ensures { IsTrue result ↔ (column row.now at ≡ Text text.now) }
{
    match row.get_ref(at) {
        Ok(ValueRef::Text(found)) => found == text.as_bytes(),
        _ => false,
    }
}

// What the rows of `meta` tell of a schema's number and a register, of which at most two are shown.
fn told(rows: &[Row], number: u32, register: &str) -> Result<(), StoreRefusal>
    ensures { IsTold number register.now rows.now result }
{
    let Some(row) = rows.first() else {
        return Err(StoreRefusal::BadSchema);
    };
    if rows.len() > 1 || !is_number(row, 0, 1) || !is_number(row, 1, number) {
        return Err(StoreRefusal::BadSchema);
    }
    if is_text(row, 2, register) {
        Ok(())
    } else {
        Err(StoreRefusal::OtherRegister)
    }
}

// What the rows of `meta` tell of a schema's number and a register with this canonical text, where
// they are read.
fn read_meta<S: Alter>(
    conn: &mut Connection<S>,
    number: u32,
    text: &str,
) -> Result<Result<(), StoreRefusal>, Error>
    requires { conn.old.in_transaction ≡ false }
    ensures over { conn.new.in_transaction ≡ false }
    ensures open { WasOpen S.Store conn.old conn.new result }
    ensures told { HasCleanDisk (state S.Store conn.new)
        → IfOk result (ToldRows number S.Store conn.old text.now) }
    ensures judged { JudgesRead number S.Store conn.old conn.new text.now result }
    ensures reason { FailsByOthers S.Store conn.old conn.new result }
    ensures rests { HasCleanDisk (state S.Store conn.new)
        → Rests (state S.Store conn.old) (state S.Store conn.new) }
    ensures leaves { Survives (state S.Store conn.old) (state S.Store conn.new) (λ _. ⊥) }
{
    known(conn);
    let rows = asked(conn)?;
    Ok(told(&rows, number, text))
}

// What the rows of `meta` tell of a number and a register; a failure is told as a refusal.
pub(crate) fn compared<S: Alter>(
    conn: &mut Connection<S>,
    number: u32,
    text: &str,
) -> Result<(), StoreRefusal>
    requires { conn.old.in_transaction ≡ false }
    ensures over { conn.new.in_transaction ≡ false }
    ensures open { WasOpen S.Store conn.old conn.new result }
    ensures told { HasCleanDisk (state S.Store conn.new)
        → TellsRows number S.Store conn.old text.now result }
    ensures judged { JudgesMeta number S.Store conn.old conn.new text.now result }
    ensures rests { HasCleanDisk (state S.Store conn.new)
        → Rests (state S.Store conn.old) (state S.Store conn.new) }
    ensures leaves { Survives (state S.Store conn.old) (state S.Store conn.new) (λ _. ⊥) }
{
    match read_meta(conn, number, text) {
        Ok(told) => told,
        Err(_) => Err(StoreRefusal::Fault),
    }
}

/// Makes the tables of a new store for a register.
///
/// `BadSchema` where a table named as one of a store's is there: nothing is written then. `Fault`
/// where memory or the database failed. After a refusal the database holds what it held.
pub fn create<S: Alter>(
    alloc: Global,
    conn: &mut Connection<S>,
    register: &Register,
) -> Result<(), StoreRefusal>
    requires { conn.old.in_transaction ≡ false }
    ensures over { conn.new.in_transaction ≡ false }
    ensures open { IsOpen S.Store conn.old conn.new result }
    ensures created { Makes S.Store conn.old conn.new result (register_text register.now) }
    ensures refused { (result ≡ Err StoreRefusal.BadSchema)
        ↔ IsTrue (has_any (state S.Store conn.old).now.schema) }
    ensures causes { result ≢ Err StoreRefusal.OtherRegister }
    ensures rests { RestsRefused S.Store conn.old conn.new result }
    ensures leaves { MayCreate S.Store conn.old conn.new schema_number
        (register_text register.now) }
    ensures untouched { IsTrue (has_any (state S.Store conn.old).now.schema)
        → Untouched S.Store conn.old conn.new }
    ensures certain { OnOk result (LeavesTheCommit (state S.Store conn.new)) }
{
    if has_any(conn.schema()) {
        return Err(StoreRefusal::BadSchema);
    }
    known(conn);
    let Ok(text) = register.text(alloc) else {
        return Err(StoreRefusal::Fault);
    };
    match creating::create(conn, NUMBER, &text) {
        Ok(()) => Ok(()),
        Err(_) => Err(StoreRefusal::Fault),
    }
}

/// Tells that the database is a store of a register. It changes nothing, whatever the answer.
///
/// In this order: `BadSchema` where a table of a store or a column of one is missing, or the rows
/// of `meta` aren't just one, of id 1 and number 2; `OtherRegister` where its text isn't the
/// register's canonical one; `Fault` where memory or the database failed, so that this isn't known.
pub fn check<S: Alter>(
    alloc: Global,
    conn: &mut Connection<S>,
    register: &Register,
) -> Result<(), StoreRefusal>
    requires { conn.old.in_transaction ≡ false }
    ensures over { conn.new.in_transaction ≡ false }
    ensures open { WasOpen S.Store conn.old conn.new result }
    ensures lacking { has_all (state S.Store conn.old).now.schema ≡ false
        → result ≡ Err StoreRefusal.BadSchema }
    ensures told { Tells S.Store conn.old conn.new result (register_text register.now) }
    ensures judged { Judges S.Store conn.old conn.new result (register_text register.now) }
    ensures rests { HasCleanDisk (state S.Store conn.new)
        → Rests (state S.Store conn.old) (state S.Store conn.new) }
    ensures leaves { Survives (state S.Store conn.old) (state S.Store conn.new) (λ _. ⊥) }
{
    if !has_all(conn.schema()) {
        return Err(StoreRefusal::BadSchema);
    }
    match register.text(alloc) {
        Ok(text) => compared(conn, NUMBER, &text),
        Err(_) => Err(StoreRefusal::Fault),
    }
}

/// Whether the database is a store of a register. It changes nothing, whatever the answer.
///
/// It isn't where `check` refuses it. `Memory` or `Failed` where memory or the database failed:
/// `Failed`, of a store's tables, only where the disk failed, or the connection was shut before or
/// its steps are limited.
pub fn is_of<S: Alter>(
    alloc: Global,
    conn: &mut Connection<S>,
    register: &Register,
) -> Result<bool, Unread>
    requires { conn.old.in_transaction ≡ false }
    ensures over { conn.new.in_transaction ≡ false }
    ensures open { has_all (state S.Store conn.old).now.schema ≡ true
        → WasOpen S.Store conn.old conn.new result }
    ensures lacking { has_all (state S.Store conn.old).now.schema ≡ false → result ≡ Ok false }
    ensures told { TellsWhether S.Store conn.old conn.new (register_text register.now) result }
    ensures reason { UnreadByOthers S.Store conn.old conn.new result }
    ensures rests { HasCleanDisk (state S.Store conn.new)
        → Rests (state S.Store conn.old) (state S.Store conn.new) }
    ensures leaves { Survives (state S.Store conn.old) (state S.Store conn.new) (λ _. ⊥) }
{
    if !has_all(conn.schema()) {
        return Ok(false);
    }
    let text = register.text(alloc)?;
    let told = read_meta(conn, NUMBER, &text)?;
    Ok(told.is_ok())
}
