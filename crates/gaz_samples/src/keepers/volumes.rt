//! The volumes that the list of calls writes.
use crate::keepers::steps::Act::{Abandon, Begin, Keep, Put, Receive, Skip, Take, Volume};
use crate::keepers::steps::Name::{Lpi, Street, Xref};
use crate::keepers::steps::Part;
use crate::keepers::steps::Question::Item;
use crate::keepers::steps::Step::{Asks, Does};
use crate::writing::Conclusion;
use gaz_records::Kind;

pub(crate) const MAIN: &str = "101,1,2001-04-01,";

pub(crate) const NAME: &str = "101,ENG,High Street,,,Arden";

pub(crate) const HOUSE: &str = "1001,1,1,1,,,2001-04-01,";

pub(crate) const TAX: &str = "X1,1001,CTAX,7,2001-04-01,";

pub(crate) const OPEN: &str = "102,1,2001-04-01,";

pub(crate) const CLOSED: &str = "102,1,2001-04-01,2023-05-01";

pub(crate) const FLAT: &str = "1002,1,1,1,1001,,2001-04-01,";

pub(crate) const MILL: &str = "L1,1001,ENG,1,101,,,,,,1,,,,,2001-04-01,";

pub(crate) const OTHER: &str = "L2,1001,ENG,3,102,,,,,,2,,,,,2001-04-01,";

pub(crate) const FELIN: &str = "L3,1002,CYM,1,101,,,,,,3,,,,,2001-04-01,";

/// Four files, of which the last is held.
pub(crate) const FILES: Part = (
    "files",
    &[
        Does(Receive(1001, 1)),
        Does(Receive(1001, 2)),
        Does(Receive(1002, 1)),
        Does(Receive(1001, 3)),
    ],
);

/// The first volume of 1001.
pub(crate) const FIRST: Part = (
    "the first volume",
    &[Does(Volume(
        1001,
        &[
            (Kind::Lpi, OTHER),
            (Kind::Street, OPEN),
            (Kind::Street, MAIN),
            (Kind::Descriptor, NAME),
            (Kind::Blpu, FLAT),
            (Kind::Blpu, HOUSE),
            (Kind::Xref, TAX),
            (Kind::Lpi, MILL),
        ],
        Conclusion::Keep,
    ))],
);

/// The first volume of 1002.
pub(crate) const REJECTED: Part = ("a rejected volume", &[Does(Skip(1002, 2, 20))]);

/// The second volume of 1001, which is read as it is made: a street is closed, a cross reference
/// and an address go, another address comes.
pub(crate) const SECOND: Part = (
    "the second volume",
    &[
        Does(Begin(1001)),
        Does(Put((Kind::Street, CLOSED))),
        Asks(1001, Item(Street(102), Some(CLOSED))),
        Does(Take(Lpi("L2"))),
        Asks(1001, Item(Lpi("L2"), None)),
        Does(Take(Xref("X1"))),
        Does(Put((Kind::Lpi, FELIN))),
        Does(Keep),
    ],
);

/// A third volume of 1001 is given up.
pub(crate) const GIVEN_UP: Part = (
    "a volume that is given up",
    &[Does(Volume(
        1001,
        &[(Kind::Blpu, "1003,1,1,1,,,2001-04-01,")],
        Conclusion::Abandon,
    ))],
);

/// A judgement of 1001 begins anew, and is given up.
pub(crate) const AGAIN: Part = (
    "a judgement anew",
    &[
        Does(Begin(1001)),
        Does(Put((Kind::Lpi, OTHER))),
        Does(Abandon),
    ],
);
