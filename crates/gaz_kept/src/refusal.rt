use sqlite::{Error as SqlError, ErrorCode};
use std::alloc::AllocError;
use thiserror::Error;

/// Why a database isn't taken as a store.
#[derive(Clone, Copy, Debug, Error)]
pub enum StoreRefusal {
    #[error("the tables aren't those of a store")]
    BadSchema,
    #[error("the store is of another register")]
    OtherRegister,
    /// Memory or the database failed.
    #[error("the database failed")]
    Fault,
}

/// Why the rows of a store weren't read.
#[derive(Clone, Copy, Debug, Error)]
pub enum Unread {
    #[error("out of memory")]
    Memory,
    #[error("the database failed")]
    Failed,
}

impl From<AllocError> for Unread {
    ghost use Rattle.std.specs.Prelude.{◌≡◌};
    ghost use Rattle.gaz_kept.specs.declared.refusal.Unread.TheVariants.{Memory};

    ghost from_gives = { λ _ e. e ≡ Memory };

    fn from(_: AllocError) -> Unread {
        Unread::Memory
    }
}

impl From<SqlError> for Unread {
    ghost use Rattle.std.specs.Prelude.{◌≡◌};
    ghost use Rattle.gaz_kept.specs.Refusals.{unread_of};

    ghost from_gives = { λ error e. e ≡ unread_of error };

    fn from(error: SqlError) -> Unread {
        match error {
            SqlError::SqliteFailure(ErrorCode::OutOfMemory) => Unread::Memory,
            _ => Unread::Failed,
        }
    }
}
