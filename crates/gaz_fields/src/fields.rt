use thiserror::Error;

/// Why fields are no item.
#[derive(Clone, Copy, Debug, PartialEq, Eq, Error)]
pub enum FieldFault {
    /// Too few fields, or too many.
    #[error("wrong number of fields")]
    Count,
    /// The first field of a wrong form, from 1.
    #[error("field {field} has a wrong form")]
    Form { field: u8 },
    #[error("out of memory")]
    Memory,
}
