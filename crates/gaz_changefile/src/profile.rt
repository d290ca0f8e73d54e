ghost use Rattle.std.specs.Prelude.{◌≡◌, IfOk};
ghost use Rattle.csv.specs.Records.{fields_of};
ghost use Rattle.gaz_changefile.specs.Profile.{profile_in, profile_of};

use crate::line::field;
use crate::numbers::{ENTRIES, Profile};
use csv::ByteRecord;
use gaz_rows::{next_row, open_rows};
use std::alloc::{AllocError, Global};

fn profile_in(row: &ByteRecord) -> Option<u64>
    ensures { result ≡ profile_in (fields_of row.now) }
{
    if field(row, 0) != b"10".as_slice() || row.len() < 2 {
        return None;
    }
    match Profile::read(field(row, 1)) {
        Ok(profile) => Some(profile.number()),
        Err(_) => None,
    }
}

/// The profile that the first record names, read as CSV.
// Apart from `profile_of`, since a reader's buffers would be cleared for each file that needs none.
#[inline(never)]
fn read_profile(alloc: Global, bytes: &[u8]) -> Result<Option<u64>, AllocError>
    ensures { IfOk result (λ profile. profile ≡ profile_of bytes.now) }
{
    let mut rdr = open_rows(alloc, bytes);
    let mut row = ByteRecord::new(alloc);
    if !next_row(&mut rdr, &mut row)? {
        return Ok(None);
    }
    Ok(profile_in(&row))
}

/// The profile, 1 to 9999, that the first record of a file names: the number in its second field,
/// where its first is `10`.
///
/// Nothing else of the file is looked at; it need not be UTF-8.
pub fn profile_of(alloc: Global, bytes: &[u8]) -> Result<Option<u64>, AllocError>
    ensures { IfOk result (λ profile. profile ≡ profile_of bytes.now) }
{
    // A reader costs more than all else that is done with a small file, and most files begin so.
    if bytes.starts_with(b"10,1,") {
        return Ok(Some(ENTRIES));
    }
    read_profile(alloc, bytes)
}
