//! What rows of received files say.
ghost use Rattle.std.specs.Prelude.{◌≡◌, ◌≤◌, IfOk};
ghost use Rattle.gaz_kept.specs.Files.{verdict_of};
ghost use Rattle.gaz_row_items.specs.Decoding.{Each, IsTold, IsToldOrMemory};
ghost use Rattle.gaz_answers.specs.Answers.{SaysBytes, SaysVerdict, ShowsBytes, ShowsVerdict};

use gaz_row_items::decoding::number;
use gaz_row_items::fault::{RowFault, WrongRow};
use gaz_views::Verdict;
use sqlite::{Error, ErrorCode, Row};

// The verdict of a state with its place and rule.
fn verdict_of(state: u64, place: u64, rule: u64) -> Result<Option<Verdict>, WrongRow>
    ensures said { IfOk result (λ v. v ≡ verdict_of state place rule) }
    ensures told { IsTold ((state ≤ 2) × (rule ≤ 255)) result }
{
    if state == 0 {
        return Ok(None);
    }
    if state == 1 {
        return Ok(Some(Verdict::Applied));
    }
    if state != 2 || rule > 255 {
        return Err(WrongRow);
    }
    Ok(Some(Verdict::Rejected {
        place,
        rule: rule as u8,
    }))
}

/// The verdict that the first row says, of state, place and rule; none where it waits, or where
/// there is no row. Never `WrongRow` where each row says whether a file waits, or its verdict, as in
/// a store's.
pub fn verdict_said(rows: &[Row]) -> Result<Option<Verdict>, WrongRow>
    ensures said { IfOk result (SaysVerdict rows.now) }
    ensures told { IsTold (Each ShowsVerdict rows.now) result }
{
    let Some(row) = rows.first() else {
        return Ok(None);
    };
    let state = number(row, 0)?;
    let place = number(row, 1)?;
    let rule = number(row, 2)?;
    verdict_of(state, place, rule)
}

// What an error of reading a column is told as.
fn fault_of(error: Error) -> RowFault
    ensures { error ≡ Error.SqliteFailure ErrorCode.OutOfMemory → result ≡ RowFault.Memory }
{
    match error {
        Error::SqliteFailure(ErrorCode::OutOfMemory) => RowFault::Memory,
        _ => RowFault::Wrong,
    }
}

/// The bytes in the first column of the first row, where there is one.
///
/// Never `Wrong` where bytes stand there in each row, as in a store's; `Memory` where there is none
/// for them.
pub fn first_bytes(rows: &[Row]) -> Result<Option<Vec<u8>>, RowFault>
    ensures said { IfOk result (SaysBytes rows.now) }
    ensures told { IsToldOrMemory (Each ShowsBytes rows.now) result }
{
    let Some(row) = rows.first() else {
        return Ok(None);
    };
    match row.get::<Vec<u8>>(0) {
        Ok(bytes) => Ok(Some(bytes)),
        Err(error) => Err(fault_of(error)),
    }
}
