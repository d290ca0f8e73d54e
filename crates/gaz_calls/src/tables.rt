//! The tables of a store behind their connection.
ghost use Rattle.std.specs.Prelude.{◌≡◌, true, false, IsTrue, List};
ghost use Rattle.sqlite.specs.Held.{state};
ghost use Rattle.sqlite.specs.Order.{Row};
ghost use Rattle.sqlite.specs.State.{HasCleanDisk};
ghost use Rattle.gaz_calls.specs.Remembered.{AreSo};

use gaz_counts::Counts;
use sqlite::{Alter, Connection};
use std::alloc::Global;

/// The connection of a store, outside a transaction between calls; whether it answered last, so
/// that it is known to be open; how often the store failed; and what is at hand of each custodian
/// that was asked for.
pub struct Tables<S: Alter> {
    pub(crate) conn: Connection<S>,
    pub(crate) alloc: Global,
    pub(crate) sure: bool,
    pub(crate) failures: u64,
    pub(crate) at_hand: Counts,
    ghost over: { conn.in_transaction ≡ false },
    ghost is_open: { sure ≡ true → HasCleanDisk (state S.Store conn)
        → IsTrue (state S.Store conn).is_open },
}

impl<S: Alter + Drop> Drop for Tables<S> {
    fn drop(self) {
        let Tables {
            conn: _,
            alloc: _,
            sure: _,
            failures: _,
            at_hand: _,
        } = self;
    }
}

impl<S: Alter> Tables<S> {
    /// The tables behind a connection that is outside a transaction. No failure is counted yet, and
    /// nothing is at hand.
    pub fn over(alloc: Global, conn: Connection<S>) -> Tables<S>
        requires { conn.in_transaction ≡ false }
        ensures conn { result.conn ≡ conn }
        ensures failures { result.failures ≡ 0 }
        ensures so { (files : List Row) → AreSo result.at_hand files }
    {
        Tables {
            conn,
            alloc,
            sure: false,
            failures: 0,
            at_hand: Counts::new(alloc),
        }
    }

    /// Where its memory comes from.
    pub fn alloc(&self) -> Global
        ensures { result ≡ self.now.alloc }
    {
        self.alloc
    }

    /// The connection, outside a transaction.
    pub fn into_connection(self) -> Connection<S>
        ensures conn { result ≡ self.conn }
        ensures over { result.in_transaction ≡ false }
    {
        let Tables {
            conn,
            alloc: _,
            sure: _,
            failures: _,
            at_hand: _,
        } = self;
        conn
    }
}
