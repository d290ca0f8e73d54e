//! How a store's register grows.
ghost use Rattle.std.specs.Prelude.{◌≡◌, false, Err, OnErr, OnOk};
ghost use Rattle.sqlite.specs.Held.{state};
ghost use Rattle.gaz_register.specs.Texts.{register_text};
ghost use Rattle.gaz_keeper.specs.Keeper.{IsNotOpen};
ghost use Rattle.gaz_kept.specs.Opening.{has_all};
ghost use Rattle.gaz_calls.specs.Growing.{SparesUngrown, TellsGrowth, TellsRegisters};
ghost use Rattle.gaz_calls.specs.Growing.{register_then};
ghost use Rattle.gaz_store.specs.Extending.{KeepsContent, LeavesEither, WritesRegister};
ghost use Rattle.gaz_store.specs.Store.{progress_of, seen_in};

use crate::naming::OfRegister;
use crate::store::Store;
use gaz_calls::ExtendFault;
use gaz_register::Register;
use sqlite::Alter;

impl<S: Alter, R: OfRegister> Store<S, R> {
    /// Puts a grown register in place of the store's, in its tables and in the caller's hands. No
    /// judgement is in progress.
    ///
    /// Refused, in this order: `OtherRegister` where the store isn't of the given register,
    /// `RemovedCustodian` where one of its custodians isn't in the grown one, `ChangedBlocks` where
    /// one has other blocks there. `Fault` where the database failed: before all of these where it
    /// failed while it was asked whose the store is, behind them else. `Memory` may come in place
    /// of any. After each of them tables and register are as they were. What is received and judged
    /// stays, whatever the answer. A stop within the call leaves what it could before or, where the
    /// grown register is a growth, the same under that.
    pub fn extend(&mut self, register: &mut Register, grown: Register) -> Result<(), ExtendFault>
        requires { IsNotOpen (progress_of self.old.judging) }
        ensures keeps { KeepsContent (seen_in (register_text register.old) self.old)
            (seen_in (register_text (register_then register.old grown result)) self.new) result }
        ensures stops { LeavesEither (seen_in (register_text register.old) self.old)
            (state S.Store self.new.tables.conn) (register_text register.old)
            (register_text grown) }
        ensures writes { WritesRegister (state S.Store self.old.tables.conn)
            (state S.Store self.new.tables.conn) grown result }
        ensures growth { TellsGrowth register.old grown result }
        ensures told { TellsRegisters S.Store self.old.tables.conn self.new.tables.conn
            register.old grown result }
        ensures spares { SparesUngrown S.Store self.old.tables.conn self.new.tables.conn
            register.old grown }
        ensures lacking { has_all (state S.Store self.old.tables.conn).now.schema ≡ false
            → result ≡ Err ExtendFault.OtherRegister }
        ensures grown { OnOk result (register.new ≡ grown) }
        ensures unchanged { OnErr result (register.new ≡ register.old) }
    {
        self.judging.clear();
        match self.tables.grow(register, &grown) {
            Ok(()) => {
                *register = grown;
                Ok(())
            }
            Err(fault) => Err(fault),
        }
    }
}
