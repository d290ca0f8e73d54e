//! How a store's register grows.
ghost use Rattle.std.specs.Prelude.{◌≡◌, false, Ok, Err};
ghost use Rattle.sqlite.specs.Held.{state};
ghost use Rattle.gaz_register.specs.Texts.{register_text};
ghost use Rattle.gaz_kept.specs.Opening.{has_all};
ghost use Rattle.gaz_kept.specs.Rewriting.{Registers};
ghost use Rattle.gaz_calls.specs.Altering.{AltersTables};
ghost use Rattle.gaz_calls.specs.Asking.{AsksTables, IsAnyway};
ghost use Rattle.gaz_calls.specs.Growing.{SparesUngrown, TellsGrowth};
ghost use Rattle.gaz_calls.specs.Growing.{TellsRegisters, TellsWhose, as_kept};

use crate::tables::Tables;
use gaz_keeper::ShelfFault;
use gaz_kept::{Unread, opening, rewriting};
use gaz_register::{GrowFault, Register};
use sqlite::Alter;
use thiserror::Error;

/// Why a store's register didn't grow, in the order in which that is looked for. But `Fault` comes
/// first where the database failed while it was asked whose the store is, and `Memory` may come in
/// place of any.
#[derive(Clone, Copy, Debug, Error)]
pub enum ExtendFault {
    #[error("the store is of another register")]
    OtherRegister,
    #[error("a custodian is no longer there")]
    RemovedCustodian,
    #[error("a custodian has other blocks")]
    ChangedBlocks,
    /// The database failed.
    #[error("the database failed")]
    Fault,
    #[error("out of memory")]
    Memory,
}

impl From<ShelfFault> for ExtendFault {
    ghost use Rattle.std.specs.Prelude.{◌≡◌};
    ghost use Rattle.gaz_calls.specs.Growing.{of_keeper};

    ghost from_gives = { λ fault e. e ≡ of_keeper fault };

    fn from(fault: ShelfFault) -> ExtendFault {
        match fault {
            ShelfFault::Memory => ExtendFault::Memory,
            ShelfFault::Store => ExtendFault::Fault,
        }
    }
}

impl From<GrowFault> for ExtendFault {
    ghost use Rattle.std.specs.Prelude.{◌≡◌};
    ghost use Rattle.gaz_calls.specs.Growing.{of_growth};

    ghost from_gives = { λ fault e. e ≡ of_growth fault };

    fn from(fault: GrowFault) -> ExtendFault {
        match fault {
            GrowFault::RemovedCustodian => ExtendFault::RemovedCustodian,
            GrowFault::ChangedBlocks => ExtendFault::ChangedBlocks,
        }
    }
}

impl<S: Alter> Tables<S> {
    // Whether the row of `meta` is of this register.
    fn is_of(&mut self, register: &Register) -> Result<bool, ShelfFault>
        ensures asks { AsksTables self.old self.new result IsAnyway }
        ensures told { TellsWhose S.Store self.old.conn self.new.conn
            (register_text register.now) result }
        ensures lacking { has_all (state S.Store self.old.conn).now.schema ≡ false
            → result ≡ Ok false }
    {
        self.sure = false;
        match opening::is_of(self.alloc, &mut self.conn, register) {
            Ok(own) => Ok(own),
            Err(Unread::Memory) => Err(ShelfFault::Memory),
            Err(Unread::Failed) => Err(self.fail()),
        }
    }

    // Gives the row of `meta` this text of a register.
    fn rewrite(&mut self, register: &str) -> Result<(), ShelfFault>
        ensures { AltersTables self.old self.new result (Registers register.now) }
    {
        self.ready()?;
        let done = rewriting::rewrite(&mut self.conn, register);
        self.told(done)
    }

    // Gives the row of `meta` the text of this register.
    fn write_register(&mut self, register: &Register) -> Result<(), ShelfFault>
        ensures { AltersTables self.old self.new result (Registers (register_text register.now)) }
    {
        let text = register.text(self.alloc)?;
        self.rewrite(&text)
    }

    /// Gives the row of `meta`, where it is of this register, one that the register grew to.
    ///
    /// In this order: `OtherRegister` where the row isn't of this register, `RemovedCustodian`
    /// where one of its custodians isn't in the grown one, `ChangedBlocks` where one has other
    /// blocks there. `Fault` where the database failed, before all of these where it failed while
    /// it was asked whose the row is; `Memory` may come in place of any.
    pub fn grow(&mut self, register: &Register, grown: &Register) -> Result<(), ExtendFault>
        ensures alters { AltersTables self.old self.new (as_kept result)
            (Registers (register_text grown.now)) }
        ensures growth { TellsGrowth register.now grown.now result }
        ensures told { TellsRegisters S.Store self.old.conn self.new.conn
            register.now grown.now result }
        ensures spares { SparesUngrown S.Store self.old.conn self.new.conn
            register.now grown.now }
        ensures lacking { has_all (state S.Store self.old.conn).now.schema ≡ false
            → result ≡ Err ExtendFault.OtherRegister }
    {
        let own = self.is_of(register)?;
        if !own {
            return Err(ExtendFault::OtherRegister);
        }
        register.growth(grown)?;
        self.write_register(grown)?;
        Ok(())
    }
}
