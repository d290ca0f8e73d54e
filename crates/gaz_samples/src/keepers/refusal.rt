//! Why a call of a test came to nothing.
use gaz_keeper::ShelfFault;
use gaz_records::FieldFault;
use std::alloc::{AllocError, AllocFailed};

/// Why a call came to nothing.
#[derive(Debug, Drop)]
pub enum Refusal {
    /// The test made it where it is not to be made.
    Misused,
    /// The keeper's answer.
    Fault(ShelfFault),
    /// The keeper answered otherwise than it is to at this place of a part, from 1.
    Otherwise(u64),
}

impl From<ShelfFault> for Refusal {
    fn from(fault: ShelfFault) -> Refusal {
        Refusal::Fault(fault)
    }
}

impl From<AllocError> for Refusal {
    fn from(_: AllocError) -> Refusal {
        Refusal::Fault(ShelfFault::Memory)
    }
}

impl<T: Drop> From<AllocFailed<T>> for Refusal {
    fn from(_: AllocFailed<T>) -> Refusal {
        Refusal::Fault(ShelfFault::Memory)
    }
}

/// A text of the test's is no item.
impl From<FieldFault> for Refusal {
    fn from(_: FieldFault) -> Refusal {
        Refusal::Misused
    }
}
