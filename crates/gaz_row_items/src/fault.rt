//! Why a row isn't read.

/// No store writes such a row: all that can go wrong where no memory is taken.
#[derive(Clone, Copy)]
pub struct WrongRow;

/// Why a row isn't read.
#[derive(Clone, Copy)]
pub enum RowFault {
    /// Out of memory.
    Memory,
    /// No store writes such a row.
    Wrong,
}

impl From<WrongRow> for RowFault {
    ghost use Rattle.std.specs.Prelude.{◌≡◌};
    ghost use Rattle.gaz_row_items.specs.declared.fault.RowFault.TheVariants.{Wrong};

    ghost from_gives = { λ _ e. e ≡ Wrong };

    fn from(_: WrongRow) -> RowFault {
        RowFault::Wrong
    }
}
