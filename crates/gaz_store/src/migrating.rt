//! How a store begins in a database of schema 1.
ghost use Rattle.std.specs.Prelude.{◌≡◌, false, Err, IfErr, IfOk};
ghost use Rattle.sqlite.specs.Held.{state};
ghost use Rattle.gaz_register.specs.Texts.{register_text};
ghost use Rattle.gaz_kept.specs.Opening.{Judges, Tells, Untouched, has_all};
ghost use Rattle.gaz_kept.specs.OpeningFirst.{JudgesFirst, MayMove, TellsFirst, has_first};
ghost use Rattle.gaz_store.specs.Migrating.{IsMoved};
ghost use Rattle.gaz_store.specs.Opened.{IsOpened, IsRefused, answer_of, conn_of};
ghost use Rattle.gaz_store.specs.Store.{seen_in};

use crate::naming::OfRegister;
use crate::store::Store;
use gaz_kept::{StoreRefusal, migrating};
use gaz_ledger::Seed;
use gaz_register::Register;
use sqlite::{Alter, Connection};
use std::alloc::Global;

impl<S: Alter, R: OfRegister> Store<S, R> {
    /// Takes the database behind a connection outside a transaction as the store of a register, as
    /// `open` does, and writes nothing then. One of schema 1 becomes a store first, in one
    /// transaction, with what is received and judged as it was; no judgement is made again.
    ///
    /// In this order: `BadSchema` where neither the tables of a store are there nor those of schema
    /// 1 alone, with their columns, or the rows of `meta` aren't just one, of id 1 and of that
    /// schema's number; `OtherRegister` where its text isn't the register's canonical one; `Fault`
    /// where memory or the database failed. After a refusal the connection is handed back, over
    /// what was there. A stop within the call leaves what was there, or the store whole.
    pub fn migrate(
        alloc: Global,
        seed: Seed,
        conn: Connection<S>,
        register: &Register,
    ) -> Result<Store<S, R>, (Connection<S>, StoreRefusal)>
        requires { conn.in_transaction ≡ false }
        ensures opened { IfOk result (λ s. has_first (state S.Store conn).now.schema ≡ false
            → IsOpened (state S.Store conn) (state S.Store s.tables.conn)
            (register_text register.now) (seen_in (register_text register.now) s)) }
        ensures moved { IfOk result (λ s. IsMoved (state S.Store conn)
            (state S.Store s.tables.conn) (register_text register.now)
            (seen_in (register_text register.now) s)) }
        ensures lacking { has_all (state S.Store conn).now.schema ≡ false
            → has_first (state S.Store conn).now.schema ≡ false
            → answer_of result ≡ Err StoreRefusal.BadSchema }
        ensures told { Tells S.Store conn (conn_of result) (answer_of result)
            (register_text register.now) }
        ensures judged { Judges S.Store conn (conn_of result) (answer_of result)
            (register_text register.now) }
        ensures told_first { TellsFirst S.Store conn (conn_of result) (answer_of result)
            (register_text register.now) }
        ensures judged_first { JudgesFirst S.Store conn (conn_of result) (answer_of result)
            (register_text register.now) }
        ensures refused { IfErr result (λ e. IsRefused S.Store conn e.0) }
        ensures leaves { MayMove S.Store conn (conn_of result) (answer_of result)
            (register_text register.now) }
        ensures untouched { has_first (state S.Store conn).now.schema ≡ false
            → Untouched S.Store conn (conn_of result) }
    {
        let mut conn = conn;
        match migrating::migrate(alloc, &mut conn, register) {
            Ok(()) => Ok(Store::over(alloc, seed, conn)),
            Err(refusal) => Err((conn, refusal)),
        }
    }
}
