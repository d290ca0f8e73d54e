//! What is no item, and which dates there are.
use crate::wanted::holds;
use gaz_records::{FieldFault, Kind, item_of_text};
use std::process::Abort;

/// Rows, each with its first field of a wrong form.
const FAULTS: &[(Kind, &str, u8)] = &[
    (Kind::Street, "0,1,2001-04-01,", 1),
    (Kind::Street, "100000000,1,2001-04-01,", 1),
    (Kind::Street, "101,5,2001-02-30,", 2),
    (Kind::Street, "101,1,2001-02-30,", 3),
    (Kind::Street, "101,1,2001-04-01,2001-03-31", 4),
    // Days that there aren't.
    (Kind::Street, "101,1,2023-02-29,", 3),
    (Kind::Street, "101,1,1900-02-29,", 3),
    (Kind::Street, "101,1,2024-02-30,", 3),
    (Kind::Street, "101,1,2024-04-31,", 3),
    (Kind::Street, "101,1,0000-01-01,", 3),
    (Kind::Street, "101,1,2024-13-01,", 3),
    (Kind::Street, "101,1,2024-2-01,", 3),
    (Kind::Street, "101,1,2024-02-1x,", 3),
    (Kind::Street, "101,1,02024-02-01,", 3),
    // Days that there are, each with an end before it.
    (Kind::Street, "101,1,2024-02-29,2024-02-28", 4),
    (Kind::Street, "101,1,2000-02-29,2000-02-28", 4),
    (Kind::Street, "101,1,0001-01-02,0001-01-01", 4),
    (Kind::Street, "101,1,9999-12-31,9999-12-30", 4),
    (Kind::Descriptor, "101,eng,High Street,,Arden,Arden", 2),
    (Kind::Descriptor, "101,ENG,High\tStreet,,Arden,Arden", 3),
    (
        Kind::Descriptor,
        "101,ENG,High Street,\u{7f},Arden,Arden",
        4,
    ),
    (Kind::Descriptor, "101,ENG,High Street,,Arden,", 6),
    (Kind::Blpu, "1000000000000,1,0,0,,,2020-01-01,", 1),
    (Kind::Blpu, "0,1,0,0,,,2020-01-01,", 1),
    (Kind::Blpu, "42,3,0,0,,,2020-01-01,", 2),
    (Kind::Blpu, "42,1,700001,1300001,,,2020-01-01,", 3),
    (Kind::Blpu, "42,1,700000,1300001,,,2020-01-01,", 4),
    (Kind::Blpu, "42,1,0,0,0,,2020-01-01,", 5),
    (Kind::Blpu, "42,1,0,0,,AR1 2DN X,2020-01-01,", 6),
    (Kind::Xref, "x1,200000,TAX01,A/17,2010-05-01,", 1),
    (Kind::Xref, "X1,200000,TAX0100,A/17,2010-05-01,", 3),
    (Kind::Xref, "X1,200000,TAX01,,2010-05-01,", 4),
    (Kind::Lpi, "L1,42,ENG,2,101,,,,,,14,,,,,2024-04-01,", 4),
    (
        Kind::Lpi,
        "L1,42,ENG,1,101,,,,,Flat 2 ,14,,,,,2024-04-01,",
        6,
    ),
    (Kind::Lpi, "L1,42,ENG,1,101,,,,,,14,,12,A,,2001-04-01,", 11),
    (Kind::Lpi, "L1,42,ENG,1,101,,,,,,,,,,,2001-04-01,", 11),
    (Kind::Lpi, "L1,42,ENG,1,101,,,,,,14,,,,,2024-4-1,", 16),
    (
        Kind::Lpi,
        "L1,42,ENG,1,101,,,,,,14,,,,,2024-04-01,2024-03-31",
        17,
    ),
];

/// Texts that aren't one row of four fields.
const COUNTS: &[&str] = &[
    "",
    "101,1,2001-04-01",
    "101,1,2001-04-01,,",
    "101,1,2001-04-01,\n101,1,2001-04-01,",
];

fn has_fault(rt: &(impl Abort + AllocGlobal), kind: Kind, row: &str, fault: FieldFault) {
    let told = item_of_text(rt.alloc(), kind, row.as_bytes());
    holds(rt, told.is_err_and(|e| e == fault), row);
}

#[test]
fn the_first_faulty_field_is_named(rt: HostRuntime) {
    for (kind, row, field) in FAULTS {
        has_fault(&rt, *kind, row, FieldFault::Form { field: *field });
    }
    for row in COUNTS {
        has_fault(&rt, Kind::Street, row, FieldFault::Count);
    }
}
