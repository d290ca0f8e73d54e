//! What each call on the tables begins and ends with.
ghost use Rattle.std.specs.Prelude.{◌≡◌, ◌≢◌, true, IsTrue, OnOk};
ghost use Rattle.sqlite.specs.Held.{state};
ghost use Rattle.sqlite.specs.State.{HasCleanDisk};
ghost use Rattle.gaz_calls.specs.Asking.{AreReady, AsksTables, Fails, IsAnyway, IsNever, Tells};
ghost use Rattle.gaz_calls.specs.Asking.{failure_behind};
ghost use Rattle.gaz_kept.specs.Opening.{IsSettled};

use crate::tables::Tables;
use gaz_keeper::ShelfFault;
use gaz_kept::probing::probe;
use gaz_row_items::fault::{RowFault, WrongRow};
use sqlite::{Alter, Error, ErrorCode};

impl<S: Alter> Tables<S> {
    /// Counts a failure, where the count isn't at its last value.
    pub fn fail(&mut self) -> ShelfFault
        ensures fails { Fails self.old self.new result }
        ensures fault { result ≡ failure_behind self.old.failures }
    {
        if self.failures == u64::MAX {
            return ShelfFault::Memory;
        }
        self.failures += 1;
        ShelfFault::Store
    }

    /// The fault that an error of the connection is.
    pub(crate) fn fault(&mut self, error: Error) -> ShelfFault
        ensures fails { Fails self.old self.new result }
        ensures memory { error ≡ Error.SqliteFailure ErrorCode.OutOfMemory
            → result ≡ ShelfFault.Memory }
        ensures failure { error ≢ Error.SqliteFailure ErrorCode.OutOfMemory
            → result ≡ failure_behind self.old.failures }
    {
        match error {
            Error::SqliteFailure(ErrorCode::OutOfMemory) => ShelfFault::Memory,
            _ => self.fail(),
        }
    }

    /// Outside a transaction a connection shows what was committed.
    pub(crate) fn known(&self)
        ensures { IsSettled (state S.Store self.now.conn) }
    {
        let _ = self.conn.is_autocommit();
    }

    /// Asks whether the connection is open, where that isn't known since it answered last.
    pub fn make_sure(&mut self) -> Result<(), ShelfFault>
        ensures asks { AsksTables self.old self.new result IsAnyway }
        ensures sure { OnOk result (self.new.sure ≡ true) }
    {
        if self.sure {
            return Ok(());
        }
        self.known();
        let answer = probe(&mut self.conn);
        self.told(answer)?;
        Ok(())
    }

    /// Makes sure that the connection is open, for one statement: `told` says of its answer whether
    /// that is still known.
    pub(crate) fn ready(&mut self) -> Result<(), ShelfFault>
        ensures asks { AsksTables self.old self.new result IsAnyway }
        ensures ready { OnOk result (AreReady self.new) }
    {
        self.make_sure()?;
        self.known();
        self.sure = false;
        Ok(())
    }

    /// What the connection answered, which is open then, or the fault that its error is.
    pub(crate) fn told<T>(&mut self, answer: Result<T, Error>) -> Result<T, ShelfFault>
        requires { HasCleanDisk (state S.Store self.old.conn)
            → OnOk answer (IsTrue (state S.Store self.old.conn).is_open) }
        ensures tells { Tells (λ e. e ≡ Error.SqliteFailure ErrorCode.OutOfMemory)
            self.old self.new answer result }
        ensures sure { OnOk result (self.new.sure ≡ true) }
    {
        match answer {
            Ok(found) => {
                self.sure = true;
                Ok(found)
            }
            Err(error) => Err(self.fault(error)),
        }
    }

    /// What was read off rows. Where one can't be read it is none that a store writes, which counts
    /// as a failure.
    pub(crate) fn read<T>(&mut self, read: Result<T, RowFault>) -> Result<T, ShelfFault>
        ensures { Tells (λ fault. fault ≡ RowFault.Memory) self.old self.new read result }
    {
        match read {
            Ok(found) => Ok(found),
            Err(RowFault::Memory) => Err(ShelfFault::Memory),
            Err(RowFault::Wrong) => Err(self.fail()),
        }
    }

    /// What was read off rows without taking memory. A row that can't be read counts as a failure
    /// here too.
    pub(crate) fn read_without_memory<T>(
        &mut self,
        read: Result<T, WrongRow>,
    ) -> Result<T, ShelfFault>
        ensures { Tells IsNever self.old self.new read result }
    {
        match read {
            Ok(found) => Ok(found),
            Err(WrongRow) => Err(self.fail()),
        }
    }
}
