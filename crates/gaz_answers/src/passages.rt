//! What rows of kind 92 say, and behind what those stand that come behind one.
ghost use Rattle.std.specs.Prelude.{◌≡◌, IfOk, Some};
ghost use Rattle.std.specs.String.{string_bytes};
ghost use Rattle.sqlite.specs.Order.{column};
ghost use Rattle.gaz_cells.specs.Ids.{key_named};
ghost use Rattle.gaz_row_items.specs.Decoding.{Each, IsTold, IsToldOrMemory, NamesKey};
ghost use Rattle.gaz_row_items.specs.Versions.{text_in};
ghost use Rattle.gaz_answers.specs.Passages.{IsStartOf, SayPassages, ShowsPassed};

use gaz_cells::id_of;
use gaz_ids::{LAST_VOLUME, Uprn};
use gaz_loaded::Passage;
use gaz_records::{Key, Kind};
use gaz_row_items::decoding::key_in;
use gaz_row_items::fault::{RowFault, WrongRow};
use gaz_row_items::passages::passed_in;
use sqlite::Row;
use std::alloc::{AllocError, Global};

// Which number a row names.
fn uprn_in(row: &Row) -> Result<Uprn, WrongRow>
    ensures said { IfOk result (λ uprn.
        key_named Kind.Blpu (text_in (column row.now 0)) ≡ Some (Key.Blpu uprn)) }
    ensures told { IsTold (NamesKey Kind.Blpu row.now 0) result }
{
    match key_in(Kind::Blpu, row, 0)? {
        Key::Blpu(uprn) => Ok(uprn),
        _ => Err(WrongRow),
    }
}

/// What rows say, in turn: each has id, born, gone, live, street, hop, lang and body.
///
/// Never `Wrong` where each says what became of a number, as a store's of kind 92 do; `Memory`
/// where there is none for what they say.
pub fn passages_in(alloc: Global, rows: &[Row]) -> Result<Vec<Passage>, RowFault>
    ensures said { IfOk result (λ passages. SayPassages rows.now passages.items) }
    ensures told { IsToldOrMemory (Each ShowsPassed rows.now) result }
{
    let mut passages = Vec::new(alloc);
    for row in rows {
        let uprn = uprn_in(row)?;
        let passed = passed_in(row, 1)?;
        let passage = Passage {
            uprn,
            born: passed.born,
            custody: passed.custody,
        };
        if passages.push(passage).is_err() {
            return Err(RowFault::Memory);
        }
    }
    Ok(passages)
}

/// The id and the volume behind which the rows stand that come behind a passage, or all where none
/// is given: an id without a byte and 0. The volume is at most `LAST_VOLUME`.
pub fn start_of(alloc: Global, after: Option<Passage>) -> Result<(String, u32), AllocError>
    ensures { IfOk result (λ start. IsStartOf after (string_bytes start.0, start.1)) }
{
    match after {
        Some(passage) => {
            let name = id_of(alloc, &Key::Blpu(passage.uprn))?;
            Ok((name, passage.born.min(LAST_VOLUME) as u32))
        }
        None => Ok((String::new(alloc), 0)),
    }
}
