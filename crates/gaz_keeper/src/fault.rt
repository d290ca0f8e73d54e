use std::alloc::AllocError;
use thiserror::Error;

/// Why a keeper couldn't answer.
#[derive(Clone, Copy, Debug, PartialEq, Eq, Error)]
pub enum ShelfFault {
    #[error("out of memory")]
    Memory,
    /// What keeps the tables failed.
    #[error("the store failed")]
    Store,
}

impl From<AllocError> for ShelfFault {
    ghost use Rattle.std.specs.Prelude.{◌≡◌};
    ghost use Rattle.gaz_keeper.specs.declared.fault.ShelfFault.TheVariants.{Memory};

    ghost from_gives = { λ _ e. e ≡ Memory };

    fn from(_: AllocError) -> ShelfFault {
        ShelfFault::Memory
    }
}
