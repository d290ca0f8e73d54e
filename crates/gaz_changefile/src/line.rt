ghost use Rattle.std.specs.Prelude.{◌≡◌};
ghost use Rattle.csv.specs.Records.{fields_of};
ghost use Rattle.gaz_changefile.specs.Lines.{field, line_of};

use crate::numbers::PASSINGS;
use csv::ByteRecord;
use gaz_records::Kind;

/// What a record behind the header of a profile is, by its first field.
#[derive(Clone, Copy)]
pub(crate) enum Line {
    Change(Kind),
    Basis,
    Trailer,
    Other,
}

/// The field at a place, from 0; a missing one is empty.
pub(crate) fn field(row: &ByteRecord, i: usize) -> &[u8]
    ensures { result.now ≡ field (fields_of row.now) i }
{
    match row.get(i) {
        Some(text) => text,
        None => &[],
    }
}

impl Line {
    /// Change records begin with the record identifier of their kind, a basis line with `90`, the
    /// trailer with `99`. Releases and adoptions are change records of profile 2 alone.
    pub(crate) fn of(row: &ByteRecord, profile: u64) -> Line
        ensures { result ≡ line_of profile (fields_of row.now) }
    {
        let first = field(row, 0);
        if let Some(kind) = Kind::read(first) {
            if kind.is_entry() || profile == PASSINGS {
                return Line::Change(kind);
            }
            return Line::Other;
        }
        if first == b"90".as_slice() {
            Line::Basis
        } else if first == b"99".as_slice() {
            Line::Trailer
        } else {
            Line::Other
        }
    }
}
