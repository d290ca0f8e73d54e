//! What pages of a street, and of what names a BLPU, tell.
ghost use Rattle.std.specs.Prelude.{◌≡◌, IfOk, option_map};
ghost use Rattle.std.specs.List.{list_any};
ghost use Rattle.std.specs.String.{string_bytes};
ghost use Rattle.sqlite.specs.Order.{column};
ghost use Rattle.gaz_cells.specs.Ids.{key_named};
ghost use Rattle.gaz_row_items.specs.Decoding.{Each, IsTold, IsToldOrMemory, NamesKey};
ghost use Rattle.gaz_row_items.specs.Versions.{IsWhole, text_in};
ghost use Rattle.gaz_answers.specs.Paging.{says_lang};
ghost use Rattle.gaz_answers.specs.Streets.{Decides, HasId, HasLastId, IsIdOf, IsStepOf};
ghost use Rattle.gaz_answers.specs.Streets.{ShowsOnStreet, ShowsPart};
ghost use Rattle.gaz_answers.specs.Streets.{leaves, names_left, says_left};

use crate::sizes::MOST;
use gaz_ids::Lang;
use gaz_overlay::Overlay;
use gaz_records::Kind;
use gaz_row_items::decoding::{key_in, number, text};
use gaz_row_items::fault::{RowFault, WrongRow};
use sqlite::Row;
use std::alloc::Global;

/// What a page tells of whether there is what is looked for.
pub enum Step {
    /// Whether there is one.
    Told(bool),
    /// None up to this id, the last of a full page: the next page is behind it.
    Behind(String),
}

// Whether a row of id and language says this language, or any where none is given.
fn says_lang(row: &Row, lang: Option<Lang>) -> Result<bool, WrongRow>
    ensures said { IfOk result (λ b. b ≡ says_lang lang row.now) }
    ensures told { IsTold (IsWhole (column row.now 1)) result }
{
    let said = number(row, 1)?;
    match lang {
        Some(lang) => Ok(said == lang.number() as u64),
        None => Ok(true),
    }
}

// Whether the key that a row names isn't passed over.
fn leaves(passed: Option<&Overlay>, kind: Kind, row: &Row) -> Result<bool, WrongRow>
    ensures said { IfOk result (λ b. b ≡ leaves
        (option_map (λ c. c.now) passed.entry) (key_named kind (text_in (column row.now 0)))) }
    ensures told { IsTold (NamesKey kind row.now 0) result }
{
    match passed {
        Some(changes) => Ok(!changes.is_touched(&key_in(kind, row, 0)?)),
        None => Ok(true),
    }
}

// Whether a row of a street says this language, at a key that isn't passed over.
fn says_left(row: &Row, lang: Option<Lang>, passed: Option<&Overlay>) -> Result<bool, WrongRow>
    ensures said { IfOk result
        (λ b. b ≡ says_left lang (option_map (λ c. c.now) passed.entry) row.now) }
    ensures told { IsTold (ShowsOnStreet row.now) result }
{
    let says = says_lang(row, lang)?;
    let left = leaves(passed, Kind::Lpi, row)?;
    Ok(says && left)
}

// Whether one of these rows says it.
fn any_says(rows: &[Row], lang: Option<Lang>, passed: Option<&Overlay>) -> Result<bool, WrongRow>
    ensures said { IfOk result (λ b. b ≡ list_any
        (says_left lang (option_map (λ c. c.now) passed.entry)) rows.now) }
    ensures told { IsTold (Each ShowsOnStreet rows.now) result }
{
    for row in rows {
        if says_left(row, lang, passed)? {
            return Ok(true);
        }
    }
    Ok(false)
}

// Whether one of these rows names a key of a kind that isn't passed over.
fn any_names(rows: &[Row], kind: Kind, passed: Option<&Overlay>) -> Result<bool, WrongRow>
    ensures said { IfOk result (λ b. b ≡ list_any
        (names_left kind (option_map (λ c. c.now) passed.entry)) rows.now) }
    ensures told { IsTold (Each (ShowsPart kind) rows.now) result }
{
    for row in rows {
        if leaves(passed, kind, row)? {
            return Ok(true);
        }
    }
    Ok(false)
}

// The id of the last row.
fn last_id(alloc: Global, rows: &[Row]) -> Result<String, RowFault>
    ensures said { IfOk result (λ id. IsIdOf rows.now (string_bytes id)) }
    ensures told { IsToldOrMemory (HasLastId rows.now) result }
{
    let Some(row) = rows.last() else {
        return Err(RowFault::Wrong);
    };
    let Ok(id) = Vec::from_slice(alloc, text(row, 0)?) else {
        return Err(RowFault::Memory);
    };
    match String::from_utf8(id) {
        Ok(id) => Ok(id),
        Err(_) => Err(RowFault::Wrong),
    }
}

// What is told where this was found on a page of at most `MOST` rows.
fn step_of(alloc: Global, rows: &[Row], found: bool) -> Result<Step, RowFault>
    ensures said { IfOk result (λ step. Decides MOST rows.now found step) }
    ensures told { IsToldOrMemory (Each HasId rows.now) result }
{
    if found {
        return Ok(Step::Told(true));
    }
    if rows.len() < MOST as usize {
        return Ok(Step::Told(false));
    }
    Ok(Step::Behind(last_id(alloc, rows)?))
}

/// What a page of a street tells, of at most `MOST` rows of id and language: whether one says this
/// language, or any where none is given, at a key that `passed` hasn't touched.
///
/// Never `Wrong` where each row says a key and a language, as a store's do; `Memory` where there is
/// none for the last row's id.
pub fn street_told(
    alloc: Global,
    rows: &[Row],
    lang: Option<Lang>,
    passed: Option<&Overlay>,
) -> Result<Step, RowFault>
    ensures said { IfOk result
        (IsStepOf MOST rows.now (says_left lang (option_map (λ c. c.now) passed.entry))) }
    ensures told { IsToldOrMemory (Each ShowsOnStreet rows.now) result }
{
    let found = any_says(rows, lang, passed)?;
    step_of(alloc, rows, found)
}

/// What a page of what names a BLPU tells, of one kind and of at most `MOST` rows of id: whether
/// one names a key that `passed` hasn't touched.
///
/// Never `Wrong` where each row says a key of the kind, as a store's do; `Memory` where there is
/// none for the last row's id.
pub fn parts_told(
    alloc: Global,
    rows: &[Row],
    kind: Kind,
    passed: Option<&Overlay>,
) -> Result<Step, RowFault>
    ensures said { IfOk result
        (IsStepOf MOST rows.now (names_left kind (option_map (λ c. c.now) passed.entry))) }
    ensures told { IsToldOrMemory (Each (ShowsPart kind) rows.now) result }
{
    let found = any_names(rows, kind, passed)?;
    step_of(alloc, rows, found)
}
