ghost use Rattle.std.specs.Prelude.{◌≡◌, List, [], Err, IfOk, OnErr, Some, None};
ghost use Rattle.std.specs.Prelude.{alloc_error};
ghost use Rattle.std.specs.Bool.{MatchBool};
ghost use Rattle.csv.specs.Records.{fields_of};
ghost use Rattle.gaz_rows.specs.Rows.{Fields, rows_of};
ghost use Rattle.gaz_rows.specs.Reader.{FindsEnd, IsOpen, ReadsFirst, TakesFirst, left_at};

use csv::{ByteRecord, ErrorKind, Reader, ReaderBuilder};
use std::alloc::{AllocError, Global};
use std::marker::Model;

/// How a text was read so far.
#[derive(Clone, Copy)]
pub(crate) enum Progress {
    Open,
    Ended,
    Failed,
}

/// The records of some bytes, read one after another: those that are left, or none where a read
/// failed.
#[derive(Drop)]
pub struct Rows<'a> {
    rdr: Reader<&'a [u8]>,
    progress: Progress,
}

impl<'a> Model for Rows<'a> {
    ghost use Rattle.std.specs.Prelude.{List, Option};
    ghost use Rattle.gaz_rows.specs.Rows.{Fields};
    ghost use Rattle.gaz_rows.specs.Reader.{Stands, left_in};

    ghost Value = { Option (List Fields) };

    ghost view = { λ r. left_in r.progress r.rdr };

    ghost invariant = { λ r. Stands r.progress r.rdr };
}

/// All records of the bytes behind a byte order mark, if there is one, of any lengths, before the
/// first is read.
pub fn open_rows<'a>(alloc: Global, bytes: &'a [u8]) -> Rows<'a>
    ensures { result ≡ Some (rows_of bytes.now) }
{
    let rdr = ReaderBuilder::new()
        .has_headers(false)
        .flexible(true)
        .from_reader(alloc, bytes);
    Rows {
        rdr,
        progress: Progress::Open,
    }
}

// The next record of a reader, if there is one.
fn read_next(rdr: &mut Reader<&[u8]>, row: &mut ByteRecord) -> Result<bool, AllocError>
    requires { IsOpen rdr.old }
    ensures { IfOk result (λ found. MatchBool found
        (ReadsFirst rdr.old rdr.new (fields_of row.new)) (left_at rdr.old ≡ [])) }
{
    match rdr.read_byte_record(row) {
        Ok(found) => Ok(found),
        Err(e) => match e.into_kind() {
            ErrorKind::Io(_) | ErrorKind::OutOfMemory => Err(AllocError),
            _ => unreachable!(),
        },
    }
}

/// The next record, if there is one. Only memory may fail it, and then it fails from then on; where
/// no record is left, none is ever left.
pub fn next_row(rows: &mut Rows, row: &mut ByteRecord) -> Result<bool, AllocError>
    ensures read { (left : List Fields) → rows.old ≡ Some left → IfOk result (λ found.
        MatchBool found (TakesFirst left (fields_of row.new) rows.new) (FindsEnd left rows.new)) }
    ensures failed { OnErr result (rows.new ≡ None) }
    ensures stays { rows.old ≡ None → result ≡ Err alloc_error }
{
    match rows.progress {
        Progress::Open => {}
        Progress::Ended => return Ok(false),
        Progress::Failed => return Err(AllocError),
    }
    match read_next(&mut rows.rdr, row) {
        Ok(true) => Ok(true),
        Ok(false) => {
            rows.progress = Progress::Ended;
            Ok(false)
        }
        Err(e) => {
            rows.progress = Progress::Failed;
            Err(e)
        }
    }
}
