//! How a store begins.
ghost use Rattle.std.specs.Prelude.{◌≡◌, ◌≢◌, ◌↔◌, false, Err, IfErr, IfOk, IsTrue};
ghost use Rattle.sqlite.specs.Held.{state};
ghost use Rattle.sqlite.specs.State.{Survives};
ghost use Rattle.gaz_register.specs.Texts.{register_text};
ghost use Rattle.gaz_tables.specs.Creating.{MayCreate};
ghost use Rattle.gaz_kept.specs.Opening.{Judges, Tells, Untouched, has_all, has_any};
ghost use Rattle.gaz_kept.specs.Opening.{schema_number};
ghost use Rattle.gaz_store.specs.Opened.{IsMade, IsOpened, IsRefused, answer_of, conn_of};
ghost use Rattle.gaz_store.specs.Store.{seen_in};

use crate::naming::OfRegister;
use crate::store::Store;
use gaz_kept::{StoreRefusal, opening};
use gaz_ledger::Seed;
use gaz_register::Register;
use sqlite::{Alter, Connection};
use std::alloc::Global;

impl<S: Alter, R: OfRegister> Store<S, R> {
    /// Makes a store of a register in the database behind a connection outside a transaction,
    /// beside whatever is there. Who picks keys is not to foresee the seed.
    ///
    /// `BadSchema` where a table named as one of a store's is there, and nothing is written then;
    /// `Fault` where memory or the database failed. After a refusal the connection is handed back,
    /// over what was there. A stop within the call leaves what was there, or the new store whole.
    pub fn create(
        alloc: Global,
        seed: Seed,
        conn: Connection<S>,
        register: &Register,
    ) -> Result<Store<S, R>, (Connection<S>, StoreRefusal)>
        requires { conn.in_transaction ≡ false }
        ensures made { IfOk result (λ s. IsMade (state S.Store conn) (state S.Store s.tables.conn)
            (register_text register.now) (seen_in (register_text register.now) s)) }
        ensures named { (answer_of result ≡ Err StoreRefusal.BadSchema)
            ↔ IsTrue (has_any (state S.Store conn).now.schema) }
        ensures causes { answer_of result ≢ Err StoreRefusal.OtherRegister }
        ensures refused { IfErr result (λ e. IsRefused S.Store conn e.0) }
        ensures leaves { MayCreate S.Store conn (conn_of result) schema_number
            (register_text register.now) }
        ensures untouched { IsTrue (has_any (state S.Store conn).now.schema)
            → Untouched S.Store conn (conn_of result) }
    {
        let mut conn = conn;
        match opening::create(alloc, &mut conn, register) {
            Ok(()) => Ok(Store::over(alloc, seed, conn)),
            Err(refusal) => Err((conn, refusal)),
        }
    }

    /// Takes the database behind a connection outside a transaction as the store of a register.
    ///
    /// In this order: `BadSchema` where a table of a store or a column of one is missing, or the
    /// rows of `meta` aren't just one, of id 1 and number 2; `OtherRegister` where its text isn't
    /// the register's canonical one; `Fault` where memory or the database failed, so that this
    /// isn't known. After a refusal the connection is handed back, over what was there. A stop
    /// within the call leaves what was there.
    pub fn open(
        alloc: Global,
        seed: Seed,
        conn: Connection<S>,
        register: &Register,
    ) -> Result<Store<S, R>, (Connection<S>, StoreRefusal)>
        requires { conn.in_transaction ≡ false }
        ensures opened { IfOk result (λ s. IsOpened (state S.Store conn)
            (state S.Store s.tables.conn) (register_text register.now)
            (seen_in (register_text register.now) s)) }
        ensures lacking { has_all (state S.Store conn).now.schema ≡ false
            → answer_of result ≡ Err StoreRefusal.BadSchema }
        ensures told { Tells S.Store conn (conn_of result) (answer_of result)
            (register_text register.now) }
        ensures judged { Judges S.Store conn (conn_of result) (answer_of result)
            (register_text register.now) }
        ensures refused { IfErr result (λ e. IsRefused S.Store conn e.0) }
        ensures leaves { Survives (state S.Store conn) (state S.Store (conn_of result)) (λ _. ⊥) }
    {
        let mut conn = conn;
        match opening::check(alloc, &mut conn, register) {
            Ok(()) => Ok(Store::over(alloc, seed, conn)),
            Err(refusal) => Err((conn, refusal)),
        }
    }
}
