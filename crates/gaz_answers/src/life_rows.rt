//! What the rows of `version2` say, each with all its columns.
ghost use Rattle.std.specs.Prelude.{◌≡◌, pos, true, All, IfOk, Some};
ghost use Rattle.sqlite.specs.Order.{column};
ghost use Rattle.sqlite.specs.declared.types.Value.TheVariants.{Int};
ghost use Rattle.gaz_records.specs.Items.{is_entry};
ghost use Rattle.gaz_tables.specs.Versions.{hop_of, kind_of};
ghost use Rattle.gaz_row_items.specs.Decoding.{Each, IsTold, IsToldOrMemory};
ghost use Rattle.gaz_row_items.specs.Versions.{IsWhole, cells_in, item_in};
ghost use Rattle.gaz_kept.specs.Kept.{IsItemRow};
ghost use Rattle.gaz_answers.specs.Lives.{AreEntries, HasCode, HasLinks, HasNumber, IsLifePage};
ghost use Rattle.gaz_answers.specs.Lives.{IsSmall, SayLives, ShowsLife, ShowsVersion};
ghost use Rattle.gaz_answers.specs.Lives.{gone_in, is_items, life_in};

use gaz_cells::{Bodies, CUSTODY, CellFault, Links, Row as Cells};
use gaz_ids::Code;
use gaz_loaded::Life;
use gaz_records::SharedItem;
use gaz_row_items::decoding::{body_lines, number, text};
use gaz_row_items::fault::{RowFault, WrongRow};
use gaz_row_items::newest::NEVER;
use sqlite::Row;
use sqlite::types::ValueRef;
use std::alloc::Global;

// The column of the body.
const BODY: usize = 10;

/// What is told of the rows of a page, which stand as their rowids rise.
pub enum LifePage {
    /// Their lives in turn, none only where there is no row.
    Lives(Vec<Life>),
    /// No life up to this rowid, which is the last row's: each row says what became of a number.
    Behind(i64),
}

// The whole number in a column, also one below 0, where one stands there.
fn signed(row: &Row, at: usize) -> Result<i64, WrongRow>
    ensures said { IfOk result (λ n. column row.now at ≡ Int n) }
    ensures told { IsTold (HasNumber row.now at) result }
{
    match row.get_ref(at) {
        Ok(ValueRef::Int(n)) => Ok(n),
        _ => Err(WrongRow),
    }
}

// A number below 256.
fn small(row: &Row, at: usize) -> Result<u8, WrongRow>
    ensures said { IfOk result (λ n. column row.now at ≡ Int (pos n)) }
    ensures told { IsTold (IsSmall (column row.now at)) result }
{
    let said = number(row, at)?;
    if said > 255 {
        return Err(WrongRow);
    }
    Ok(said as u8)
}

// The numbers by which the item is looked for.
fn links_in(row: &Row) -> Result<Links, WrongRow>
    ensures said { IfOk result (λ links. links ≡ (cells_in row.now).links) }
    ensures told { IsTold (HasLinks row.now) result }
{
    Ok(Links {
        blpu: number(row, 4)?,
        street: number(row, 5)?,
        lang: small(row, 6)?,
        live: small(row, 7)?,
    })
}

// The item that the cells say, all of which are its own.
fn item_in(alloc: Global, bodies: &mut Bodies<'_>, row: &Row) -> Result<SharedItem, RowFault>
    ensures said { IfOk result (λ item. item_in row.now ≡ Some item) }
    ensures entry { IfOk result (λ item. is_entry item ≡ true) }
    ensures told { IsToldOrMemory (IsItemRow row.now) result }
{
    let kind = number(row, 2)?;
    let id = text(row, 3)?;
    let links = links_in(row)?;
    let body = text(row, BODY)?;
    let cells = Cells {
        kind,
        id,
        links,
        body,
    };
    match bodies.item_in(&cells) {
        Ok(item) => match SharedItem::new(alloc, item) {
            Ok(item) => Ok(item),
            Err(_) => Err(RowFault::Memory),
        },
        Err(CellFault::Memory) => Err(RowFault::Memory),
        Err(_) => Err(RowFault::Wrong),
    }
}

// The custodian of this number.
fn code_in(row: &Row) -> Result<Code, WrongRow>
    ensures said { IfOk result (λ code. column row.now 1 ≡ Int (pos code)) }
    ensures told { IsTold (HasCode row.now) result }
{
    match Code::of(number(row, 1)?) {
        Some(code) => Ok(code),
        None => Err(WrongRow),
    }
}

// The volume in which an item went, unless it is current.
fn gone_in(gone: u64) -> Option<u64>
    ensures { result ≡ gone_in gone }
{
    if gone == NEVER { None } else { Some(gone) }
}

// Nothing was handed on, as of every item.
fn check_hop(row: &Row) -> Result<(), WrongRow>
    ensures said { IfOk result (λ done. hop_of row.now ≡ Int (pos 0)) }
    ensures told { IsTold (hop_of row.now ≡ Int (pos 0)) result }
{
    if number(row, 11)? == 0 {
        Ok(())
    } else {
        Err(WrongRow)
    }
}

// What a row says.
fn life_in(alloc: Global, bodies: &mut Bodies<'_>, row: &Row) -> Result<Life, RowFault>
    ensures said { IfOk result (λ life. life_in row.now ≡ Some life) }
    ensures entry { IfOk result (λ life. is_entry life.item ≡ true) }
    ensures hop { IfOk result (λ life. hop_of row.now ≡ Int (pos 0)) }
    ensures told { IsToldOrMemory (ShowsLife row.now) result }
{
    let place = signed(row, 0)?;
    let code = code_in(row)?;
    let born = number(row, 8)?;
    let gone = number(row, 9)?;
    check_hop(row)?;
    let item = item_in(alloc, bodies, row)?;
    Ok(Life {
        place,
        code,
        born,
        gone: gone_in(gone),
        item,
    })
}

// Whether a row is an item's, and doesn't say what became of a number.
fn is_items(row: &Row) -> Result<bool, WrongRow>
    ensures said { IfOk result (λ b. b ≡ is_items row.now) }
    ensures told { IsTold (IsWhole (kind_of row.now)) result }
{
    let kind = number(row, 2)?;
    Ok(kind != CUSTODY)
}

// What the rows of items say, in turn.
fn lives_in(alloc: Global, rows: &[Row]) -> Result<Vec<Life>, RowFault>
    ensures said { IfOk result (λ lives. SayLives rows.now lives.items) }
    ensures entries { IfOk result (λ lives. All (λ life. is_entry life.item ≡ true) lives.items) }
    ensures told { IsToldOrMemory (Each ShowsVersion rows.now) result }
{
    let lines = body_lines(alloc, rows, BODY)?;
    let mut bodies = Bodies::of(alloc, &lines);
    let mut lives = Vec::new(alloc);
    for row in rows {
        if is_items(row)? {
            let life = life_in(alloc, &mut bodies, row)?;
            if lives.push(life).is_err() {
                return Err(RowFault::Memory);
            }
        }
    }
    Ok(lives)
}

/// What is told of the rows of a page, each with all columns of `version2`, as their rowids rise.
///
/// Never `Wrong` where each row is an item's or says what became of a number, as a store's do;
/// `Memory` where there is none for the lives.
pub fn page_told(alloc: Global, rows: &[Row]) -> Result<LifePage, RowFault>
    ensures said { IfOk result (IsLifePage rows.now) }
    ensures entries { IfOk result AreEntries }
    ensures told { IsToldOrMemory (Each ShowsVersion rows.now) result }
{
    let lives = lives_in(alloc, rows)?;
    if !lives.is_empty() {
        return Ok(LifePage::Lives(lives));
    }
    match rows.last() {
        Some(row) => Ok(LifePage::Behind(signed(row, 0)?)),
        None => Ok(LifePage::Lives(lives)),
    }
}
