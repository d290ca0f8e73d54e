ghost use Rattle.std.specs.Prelude.{◌≡◌, ◌≤◌, ◌++◌, ◌-◌, ◌∷◌, [], length, map, decimal, IfOk, OnOk};
ghost use Rattle.csv.specs.Writing.{default_writer, row_text};
ghost use Rattle.gaz_extract.specs.Drafts.{begun_draft, ended_text, with_items};
ghost use Rattle.gaz_extract.specs.Extracts.{record_of};

use gaz_ids::{Code, Volume};
use gaz_records::{Item, SharedItem, write_item};
use gaz_rows::write_row;
use itoa::Buffer;
use std::alloc::{AllocError, Global};
use std::marker::Model;

/// An extract that is being written: its text so far, and the order of the next record.
#[derive(Drop)]
pub struct ExtractDraft {
    text: Vec<u8>,
    next: u64,
}

impl Model for ExtractDraft {
    ghost use Rattle.std.specs.Prelude.{◌≤◌, ◌+◌, length};
    ghost use Rattle.gaz_extract.specs.Drafts.{DraftValue};

    ghost Value = { DraftValue };

    ghost view = { λ d. record { text = d.text.items; next = d.next } };

    // Each record takes more than one byte, so the next order fits.
    ghost invariant = { λ d. (1 ≤ d.next) × (d.next + d.next ≤ length d.text.items) };
}

// Adds the digits of a number.
fn add_number(out: &mut Vec<u8>, number: u64) -> Result<(), AllocError>
    ensures { OnOk result (out.new.items ≡ out.old.items ++ decimal number) }
{
    let mut buffer = Buffer::new();
    out.extend_from_slice(buffer.format(number).as_bytes())
}

// Adds the record that inserts an item, with its line end.
fn add_record(out: &mut Vec<u8>, order: u64, item: &Item) -> Result<(), AllocError>
    ensures { OnOk result (out.new.items ≡ out.old.items
        ++ row_text default_writer (record_of order item.now)) }
{
    out.extend_from_slice(item.kind().text())?;
    out.extend_from_slice(b",I,")?;
    add_number(out, order)?;
    out.push(b',')?;
    write_item(item, out)?;
    out.push(b'\n')?;
    Ok(())
}

// Adds a row and its line end.
fn add_row(alloc: Global, out: &mut Vec<u8>, fields: &[&[u8]]) -> Result<(), AllocError>
    requires { 2 ≤ length fields.now }
    ensures { OnOk result (out.new.items ≡ out.old.items
        ++ row_text default_writer (map (λ f. f.now) fields.now)) }
{
    let row = write_row(alloc, fields)?;
    out.extend_from_slice(&row)?;
    out.push(b'\n')?;
    Ok(())
}

impl ExtractDraft {
    /// The header alone.
    pub fn new(alloc: Global, code: Code, volume: Volume) -> Result<ExtractDraft, AllocError>
        ensures { IfOk result (λ d. d ≡ begun_draft code volume) }
    {
        let mut text = Vec::new(alloc);
        let code = format!(in alloc; "{code}")?;
        let volume = format!(in alloc; "{volume}")?;
        let fields: [&[u8]; 4] = [b"10", b"E", code.as_bytes(), volume.as_bytes()];
        add_row(alloc, &mut text, &fields)?;
        Ok(ExtractDraft { text, next: 1 })
    }

    // The draft with an item's record.
    fn push(self, item: &Item) -> Result<ExtractDraft, AllocError>
        ensures { IfOk result (λ d. d ≡ with_items self (item.now ∷ [])) }
    {
        let ExtractDraft { mut text, next } = self;
        add_record(&mut text, next, item)?;
        Ok(ExtractDraft {
            text,
            next: next + 1,
        })
    }

    /// The draft with the records of these items.
    pub fn append(self, items: &[SharedItem]) -> Result<ExtractDraft, AllocError>
        ensures { IfOk result (λ d. d ≡ with_items self items.now) }
    {
        let mut draft = self;
        for item in items {
            draft = draft.push(item)?;
        }
        Ok(draft)
    }

    /// The text with the trailer.
    pub fn finish(self, alloc: Global) -> Result<Vec<u8>, AllocError>
        ensures { IfOk result (λ t. t.items ≡ ended_text self) }
    {
        let ExtractDraft { mut text, next } = self;
        let count = format!(in alloc; "{}", next - 1)?;
        let fields: [&[u8]; 2] = [b"99", count.as_bytes()];
        add_row(alloc, &mut text, &fields)?;
        Ok(text)
    }
}
