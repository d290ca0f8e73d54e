//! The keeper in the tables of a database.
ghost use Rattle.std.specs.Prelude.{◌≡◌, false, List};
ghost use Rattle.sqlite.specs.Order.{Row};
ghost use Rattle.gaz_calls.specs.Remembered.{AreSo};

use crate::naming::OfRegister;
use crate::progress::Judging;
use gaz_calls::Tables;
use gaz_ledger::Seed;
use sqlite::{Alter, Connection};
use std::alloc::Global;
use std::marker::{Brand, PhantomData};

/// Keeps received files and boards in the tables of a database, and what a judgement has changed
/// beside them, until it is kept.
///
/// No transaction is open between its calls. It answers as `MemShelf` does. As a keeper it is seen
/// as a store of the register that `R` names: where its row of `meta` is of that one, each call
/// leaves it so.
pub struct Store<S: Alter, R: OfRegister = Brand> {
    pub(crate) tables: Tables<S>,
    pub(crate) judging: Judging,
    pub(crate) seed: Seed,
    pub(crate) of: PhantomData<R>,
}

impl<S: Alter + Drop, R: OfRegister> Drop for Store<S, R> {
    fn drop(self) {
        let Store {
            tables: _,
            judging: _,
            seed: _,
            of: _,
        } = self;
    }
}

impl<S: Alter, R: OfRegister> Store<S, R> {
    /// The store in the tables behind a connection that is outside a transaction. No judgement is
    /// in progress, no failure is counted yet, and nothing is at hand.
    pub(crate) fn over(alloc: Global, seed: Seed, conn: Connection<S>) -> Store<S, R>
        requires { conn.in_transaction ≡ false }
        ensures conn { result.tables.conn ≡ conn }
        ensures failures { result.tables.failures ≡ 0 }
        ensures so { (files : List Row) → AreSo result.tables.at_hand files }
        ensures idle { result.judging ≡ Judging.Idle }
    {
        Store {
            tables: Tables::over(alloc, conn),
            judging: Judging::Idle,
            seed,
            of: PhantomData,
        }
    }

    /// The same store, seen as one of the register that another name is for.
    pub fn named<N: OfRegister>(self) -> Store<S, N>
        ensures tables { result.tables ≡ self.tables }
        ensures judging { result.judging ≡ self.judging }
    {
        let Store {
            tables,
            judging,
            seed,
            of: _,
        } = self;
        Store {
            tables,
            judging,
            seed,
            of: PhantomData,
        }
    }

    /// The connection, outside a transaction. A judgement in progress is lost.
    pub fn into_connection(self) -> Connection<S>
        ensures conn { result ≡ self.tables.conn }
        ensures over { result.in_transaction ≡ false }
    {
        let Store {
            tables,
            judging: _,
            seed: _,
            of: _,
        } = self;
        tables.into_connection()
    }
}
