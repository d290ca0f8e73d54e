//! The cells of an item's row, or of a passage's, as an INSERT takes them.
ghost use Rattle.std.specs.Prelude.{◌≡◌, ◌<◌, ◌^◌, IfOk, Ok};
ghost use Rattle.gaz_cells.specs.Columns.{AreInRange};
ghost use Rattle.gaz_row_items.specs.Cells.{AreCellsOf, ArePassageCells, HasCells};

use gaz_cells::{Cells, CustodyCells};
use gaz_ids::Uprn;
use gaz_records::Item;
use gaz_views::Custody;
use sqlite::Error;
use std::alloc::{AllocError, Global};

/// The cells of a row, as the INSERT takes them.
#[derive(Drop)]
pub struct RowCells {
    pub kind: u32,
    pub id: String,
    pub blpu: i64,
    pub street: u32,
    pub lang: u32,
    pub live: bool,
    pub body: String,
    pub hop: u32,
}

/// A number as the tables take it. An error from 4,294,967,296 on.
pub fn narrow(number: u64) -> Result<u32, Error>
    ensures same { IfOk result (λ n. n ≡ number) }
    ensures fits { number < 2 ^ 32 → result ≡ Ok number }
{
    match u32::try_from(number) {
        Ok(n) => Ok(n),
        Err(_) => Err(Error::IntegralValueOutOfRange(0)),
    }
}

// These cells, with a hop.
fn with_hop(cells: Cells, hop: u32) -> RowCells
    requires { AreInRange cells.links }
    ensures { HasCells cells hop result }
{
    let Cells {
        kind,
        id,
        links,
        body,
    } = cells;
    RowCells {
        kind,
        id,
        blpu: links.blpu as i64,
        street: links.street as u32,
        lang: u32::from(links.lang),
        live: links.live == 1,
        body,
        hop,
    }
}

/// The cells of an item's row.
pub fn cells_of(alloc: Global, item: &Item) -> Result<RowCells, AllocError>
    ensures { IfOk result (AreCellsOf item.now) }
{
    let cells = Cells::of(alloc, item)?;
    Ok(with_hop(cells, 0))
}

/// The cells of the row of kind 92 that says what became of a number.
pub fn passage_cells(alloc: Global, uprn: Uprn, custody: &Custody) -> Result<RowCells, AllocError>
    ensures { IfOk result (ArePassageCells uprn custody.now) }
{
    let cells = CustodyCells::of(alloc, uprn, custody)?;
    let CustodyCells { cells, hop } = cells;
    Ok(with_hop(cells, hop))
}
