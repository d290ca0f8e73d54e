ghost use Rattle.std.specs.Prelude.{◌≡◌, ◌≤◌, length, IfOk, map, option_map};
ghost use Rattle.csv.specs.Writing as Writing;
ghost use Rattle.csv.specs.Records.{fields_of};
ghost use Rattle.gaz_rows.specs.Rows.{line_of, one_row};

use crate::reader::{next_row, open_rows};
use csv::{ByteRecord, Error, WriterBuilder};
use std::alloc::{AllocError, Global};

// The text of a row, with its line end.
fn row_bytes(alloc: Global, fields: &[&[u8]]) -> Result<Vec<u8>, Error>
    ensures { IfOk result (λ v.
        v.items ≡ Writing.row_text Writing.default_writer (map (λ f. f.now) fields.now)) }
{
    let mut wtr = WriterBuilder::new().from_writer(Vec::new(alloc));
    wtr.write_fields(fields)?;
    match wtr.into_inner() {
        Ok(text) => Ok(text),
        Err(e) => Err(e.into_error()),
    }
}

/// The text of a row of two fields or more, without a line end.
pub fn write_row(alloc: Global, fields: &[&[u8]]) -> Result<Vec<u8>, AllocError>
    requires { 2 ≤ length fields.now }
    ensures { IfOk result (λ v. v.items ≡ line_of (map (λ f. f.now) fields.now)) }
{
    match row_bytes(alloc, fields) {
        Ok(mut text) => {
            let _ = text.pop();
            Ok(text)
        }
        Err(_) => Err(AllocError),
    }
}

/// The row of a text that is just one.
pub fn read_row(alloc: Global, text: &[u8]) -> Result<Option<ByteRecord>, AllocError>
    ensures { IfOk result (λ o. option_map fields_of o ≡ one_row text.now) }
{
    let mut rdr = open_rows(alloc, text);
    let mut row = ByteRecord::new(alloc);
    if !next_row(&mut rdr, &mut row)? {
        return Ok(None);
    }
    let mut more = ByteRecord::new(alloc);
    if next_row(&mut rdr, &mut more)? {
        return Ok(None);
    }
    Ok(Some(row))
}
