//! The bodies of a page of rows, read one after another.
ghost use Rattle.std.specs.Prelude.{◌≡◌, true, IfSome};
ghost use Rattle.gaz_fields.specs.Fields.{OrMemory as OrMemoryOf};
ghost use Rattle.gaz_records.specs.Items.{item_of_text, item_text, kind_of};
ghost use Rattle.gaz_cells.specs.Reading.{OrMemory, read_cells};

use crate::fault::CellFault;
use crate::reading::{Row, kind_numbered};
use csv::ByteRecord;
use gaz_records::{FieldFault, Item, Kind, item_of_text, read_item, write_item};
use gaz_rows::{Rows, next_row, open_rows};
use std::alloc::Global;

/// One reader of the bodies of a page.
///
/// What its lines say is only proposed, and taken where it writes back as the body that is asked
/// for; else that body is read alone. So no answer rests on which lines were given.
#[derive(Drop)]
pub struct Bodies<'a> {
    alloc: Global,
    lines: Rows<'a>,
    fields: ByteRecord,
    written: Vec<u8>,
}

impl<'a> Bodies<'a> {
    /// A reader of these lines: the bodies in the order in which they will be asked for, each ended
    /// by LF.
    pub fn of(alloc: Global, lines: &'a [u8]) -> Self {
        Bodies {
            alloc,
            lines: open_rows(alloc, lines),
            fields: ByteRecord::new(alloc),
            written: Vec::new(alloc),
        }
    }

    // The item of a kind that the next line says, where it says one.
    fn proposed(&mut self, kind: Kind) -> Option<Item>
        ensures { IfSome result (λ item. kind_of item ≡ kind) }
    {
        match next_row(&mut self.lines, &mut self.fields) {
            Ok(true) => match read_item(self.alloc, kind, &self.fields, 0) {
                Ok(item) => Some(item),
                Err(_) => None,
            },
            _ => None,
        }
    }

    // Whether an item writes back as this body.
    fn writes_back(&mut self, item: &Item, body: &[u8]) -> bool
        ensures { result ≡ true → item_text item.now ≡ body.now }
    {
        self.written.clear();
        match write_item(item, &mut self.written) {
            Ok(()) => self.written.as_slice() == body,
            Err(_) => false,
        }
    }

    // The item of the next line, where it writes back as the body.
    fn fitting(&mut self, kind: Kind, body: &[u8]) -> Option<Item>
        ensures kind { IfSome result (λ item. kind_of item ≡ kind) }
        ensures body { IfSome result (λ item. item_text item ≡ body.now) }
    {
        match self.proposed(kind) {
            Some(item) if self.writes_back(&item, body) => Some(item),
            _ => None,
        }
    }

    /// The item of a kind that a body says, as `item_of_text` reads it.
    pub fn item(&mut self, kind: Kind, body: &[u8]) -> Result<Item, FieldFault>
        ensures { OrMemoryOf result (item_of_text kind body.now) }
    {
        match self.fitting(kind, body) {
            Some(item) => {
                item.known();
                Ok(item)
            }
            None => item_of_text(self.alloc, kind, body),
        }
    }

    #[tactic(auto, unfolding(crate::specs::Reading::read_cells))]
    /// The item that the cells of a row say, as `Row::item` reads them.
    pub fn item_in(&mut self, row: &Row<'_>) -> Result<Item, CellFault>
        ensures { OrMemory result (read_cells row.now) }
    {
        let Some(kind) = kind_numbered(row.kind) else {
            return Err(CellFault::Kind);
        };
        match self.fitting(kind, row.body) {
            Some(item) => {
                item.known();
                row.compared(self.alloc, item)
            }
            None => row.item(self.alloc),
        }
    }
}
