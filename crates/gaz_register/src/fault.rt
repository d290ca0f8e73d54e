ghost use Rattle.std.specs.Prelude.{◌≡◌};
ghost use Rattle.gaz_register.specs.declared.fault.RegFault.TheVariants as fault;

use std::alloc::{AllocError, AllocFailed};
use thiserror::Error;

/// Why a text is no register. The faults are looked for in this order; `Memory` may come in place
/// of any other answer.
#[derive(Clone, Copy, Debug, Error)]
pub enum RegFault {
    #[error("not TOML")]
    NotToml,
    #[error("a key is missing, unknown or of a wrong type, or there is no custodian")]
    Shape,
    #[error("more than 400 custodians")]
    TooMany,
    #[error("a code that is not from 1 to 9999")]
    BadCode,
    #[error("a name that is not 1 to 60 characters, or with a control character or a space at an end")]
    BadName,
    #[error("a block out of range or with its last number below its first, or more than 8 blocks")]
    BadBlock,
    #[error("two custodians with one code")]
    SameCode,
    #[error("two blocks with a number in common")]
    Overlap,
    #[error("out of memory")]
    Memory,
}

impl From<AllocError> for RegFault {
    ghost from_gives = { λ _ e. e ≡ fault.Memory };

    fn from(_error: AllocError) -> RegFault {
        RegFault::Memory
    }
}

impl<T: Drop> From<AllocFailed<T>> for RegFault {
    ghost from_gives = { λ _ e. e ≡ fault.Memory };

    fn from(_error: AllocFailed<T>) -> RegFault {
        RegFault::Memory
    }
}
