ghost use Rattle.std.specs.Prelude.{◌≡◌, ◌≤◌, length, IfErr, IfOk, OnOk, List, Some, ℕ};
ghost use Rattle.std.specs.Str.{IsUtf8};
ghost use Rattle.gaz_rows.specs.Rows.{Fields, rows_of};
ghost use Rattle.gaz_changefile.specs.Allowed.{AreAllowed};
ghost use Rattle.gaz_changefile.specs.Fault.{IsFault, IsReadAs};
ghost use Rattle.gaz_changefile.specs.Files.{AreBases, ArePlaced};
ghost use Rattle.gaz_changefile.specs.Reading.{Good, reading};
ghost use Rattle.gaz_changefile.specs.Steps.{ReadsOn};

use crate::draft::FileDraft;
use crate::file::{ChangeFile, FileFault};
use crate::header::read_header;
use crate::rule;
use csv::ByteRecord;
use gaz_ids::{Code, MOST_CHANGES, Volume};
use gaz_rows::{Rows, next_row, open_rows};
use std::alloc::Global;
use std::str;

// Goes on with the record at `place`, if there is one.
fn read_on(
    alloc: Global,
    rows: &mut Rows,
    row: &mut ByteRecord,
    draft: &mut FileDraft,
    place: u64,
) -> Result<bool, FileFault>
    requires { length draft.old.changes.items ≤ MOST_CHANGES }
    ensures few { OnOk result (length draft.new.changes.items ≤ MOST_CHANGES) }
    ensures read { (left : List Fields) → rows.old ≡ Some left
        → ReadsOn place left rows.new draft.old draft.new result }
{
    if !next_row(rows, row)? {
        return Ok(false);
    }
    draft.add(alloc, row, place)?;
    Ok(true)
}

// Reads the file whose rows these are.
fn read_rows(
    alloc: Global,
    rows: &mut Rows,
    code: Code,
    volume: Volume,
) -> Result<ChangeFile, FileFault>
    ensures { (bytes : List ℕ) → IsUtf8 bytes → rows.old ≡ Some (rows_of bytes)
        → IsReadAs bytes code volume result }
{
    let mut row = ByteRecord::new(alloc);
    if !next_row(rows, &mut row)? {
        return Err(FileFault::at(1, rule::TEXT));
    }
    let header = read_header(&row, code, volume)?;
    let mut draft = FileDraft::new(alloc, code, header);
    for place in 2..u64::MAX {
        if !read_on(alloc, rows, &mut row, &mut draft, place)? {
            return draft.finish(place);
        }
    }
    // No file has so many records.
    Err(FileFault::Memory)
}

/// Reads the file of a custodian and volume: its contents, or its first fault (`FileFault`).
///
/// The bytes are CSV in UTF-8, with or without a byte order mark; records are counted without empty
/// lines. After a fault nothing is read on. A file without a fault has at most 16 bases by rising
/// custodian, none the own, and at most 5,000 changes, each placed by the number of its record.
/// Each of its releases and adoptions is an insertion, and names another custodian.
pub fn read_file(
    alloc: Global,
    bytes: &[u8],
    code: Code,
    volume: Volume,
) -> Result<ChangeFile, FileFault>
    ensures good { IfOk result (λ f. reading bytes.now code volume ≡ Good f) }
    ensures bad { IfErr result (IsFault bytes.now code volume) }
    ensures bases { IfOk result (λ f. AreBases code f.bases) }
    ensures changes { IfOk result (λ f. ArePlaced f.bases f.changes) }
    ensures allowed { IfOk result (λ f. AreAllowed code f.changes) }
{
    let Ok(_) = str::from_utf8(bytes) else {
        return Err(FileFault::at(1, rule::TEXT));
    };
    let mut rows = open_rows(alloc, bytes);
    read_rows(alloc, &mut rows, code, volume)
}
