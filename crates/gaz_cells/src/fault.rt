use thiserror::Error;

/// Why the cells of a row are no item: the first cell that disagrees, in this order.
#[derive(Clone, Copy, Debug, Error)]
pub enum CellFault {
    /// No kind has this record identifier.
    #[error("no kind has this number")]
    Kind,
    /// The body is not an item's row as `csv` writes it.
    #[error("the body is no row of an item of its kind")]
    Body,
    #[error("the id is another key's")]
    Id,
    #[error("another property than that of the body")]
    Blpu,
    #[error("another street than that of the body")]
    Street,
    #[error("another language than that of the body")]
    Lang,
    #[error("the body says otherwise whether it is an approved LPI")]
    Live,
    #[error("out of memory")]
    Memory,
}
