use thiserror::Error;

/// Why a text is no number of its kind. The faults are looked for in this order.
#[derive(Clone, Copy, Debug, Error)]
pub enum IdFault {
    #[error("no digit")]
    Empty,
    #[error("a byte that is no digit")]
    NotDigits,
    #[error("more digits than the number may have")]
    TooLong,
    #[error("out of range")]
    OutOfRange,
}
