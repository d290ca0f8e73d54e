//! The row of kind 92 of a number that was born last.
ghost use Rattle.std.specs.Prelude.{◌≡◌, IfOk};
ghost use Rattle.gaz_row_items.specs.Decoding.{Each, IsTold};
ghost use Rattle.gaz_row_items.specs.NewestPassages.{IsBare, SaysPassage, SaysPassed};
ghost use Rattle.gaz_row_items.specs.NewestPassages.{ShowsPassage, born_of, custody_of};

use crate::decoding::{number, text};
use crate::fault::WrongRow;
use gaz_cells::custody_told;
use gaz_views::Custody;
use sqlite::Row;

/// What last became of a number, and the volume in which it did.
#[derive(Clone, Copy)]
pub struct Passed {
    /// From 1.
    pub born: u64,
    pub custody: Custody,
}

// No language and no text stand in a row from a column on, as in none of kind 92.
fn check_bare(row: &Row, at: u8) -> Result<(), WrongRow>
    ensures said { IfOk result (λ done. IsBare at row.now) }
    ensures told { IsTold (IsBare at row.now) result }
{
    let first = usize::from(at);
    if number(row, first + 5)? == 0 && text(row, first + 6)?.is_empty() {
        Ok(())
    } else {
        Err(WrongRow)
    }
}

/// What a row says from a column on, which has born, gone, live, street, hop, lang and body there.
/// `WrongRow` where it doesn't say what became of a number.
pub fn passed_in(row: &Row, at: u8) -> Result<Passed, WrongRow>
    ensures said { IfOk result (SaysPassed at row.now) }
    ensures told { IsTold (ShowsPassage at row.now) result }
{
    check_bare(row, at)?;
    let first = usize::from(at);
    let born = number(row, first)?;
    let live = number(row, first + 2)?;
    let other = number(row, first + 3)?;
    let hop = number(row, first + 4)?;
    let custody = custody_told(live, other, hop).ok_or(WrongRow)?;
    Ok(Passed { born, custody })
}

/// What the first row says, where there is one. `WrongRow` where it doesn't say what became of a
/// number.
pub fn passage_said(rows: &[Row]) -> Result<Option<Passed>, WrongRow>
    ensures said { IfOk result (SaysPassage rows.now) }
    ensures told { IsTold (Each (ShowsPassage 0) rows.now) result }
{
    match rows.first() {
        Some(row) => Ok(Some(passed_in(row, 0)?)),
        None => Ok(None),
    }
}

/// What became of the number.
pub fn custody_of(passed: &Option<Passed>) -> Option<Custody>
    ensures { result ≡ custody_of passed.now }
{
    match passed {
        Some(passed) => Some(passed.custody),
        None => None,
    }
}

/// In which volume the newest passage was born.
pub fn born_of(passed: &Option<Passed>) -> Option<u64>
    ensures { result ≡ born_of passed.now }
{
    match passed {
        Some(passed) => Some(passed.born),
        None => None,
    }
}
