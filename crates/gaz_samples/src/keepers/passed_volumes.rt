//! The volumes of 1001 in which numbers pass between custodians.
use crate::keepers::passed::{BEFORE, CAME_BACK, IN_VAIN, NAMED, NAMED_IN_VAIN, WENT};
use crate::keepers::steps::Act::{Abandon, Adopt, Begin, Keep, Put, Receive, Release, Take};
use crate::keepers::steps::Name::{Blpu, Lpi, Xref};
use crate::keepers::steps::Part;
use crate::keepers::steps::Question::{Custody, CustodyAt, Item, Property, Ties, Used};
use crate::keepers::steps::Step::{Asks, Does};
use crate::keepers::volumes::FLAT;
use gaz_records::Kind;

pub(crate) const COTTAGE: &str = "1004,1,1,1,,,2001-04-01,";

pub(crate) const BARN: &str = "1005,1,1,1,,,2001-04-01,";

pub(crate) const SHED: &str = "1006,1,1,1,,,2001-04-01,";

pub(crate) const GATE: &str = "1009,1,1,1,,,2001-04-01,";

const BARGE: &str = "1007,1,1,1,,,2001-04-01,";

const LODGE: &str = "1008,1,1,1,,,2001-04-01,";

const RATES: &str = "X2,1005,CTAX,8,2001-04-01,";

const PAST: &str = "L4,1006,ENG,8,101,,,,,,4,,,,,2001-04-01,2023-05-01";

const LATE: &str = "L5,1004,ENG,3,101,,,,,,5,,,,,2001-04-01,";

/// The third volume, which is read as it is made. Two more files are received before it.
pub(crate) const THIRD_PASSES: Part = (
    "the third volume",
    &[
        Does(Receive(1001, 4)),
        Does(Receive(1001, 5)),
        Does(Begin(1001)),
        Asks(1001, Custody(BEFORE)),
        Does(Release(1002, 1002, 1)),
        Does(Release(1007, 1003, 1)),
        Does(Adopt(COTTAGE, 1003, 3)),
        Does(Adopt(LODGE, 1002, 2)),
        Does(Release(1008, 1003, 3)),
        Does(Release(1009, 1002, 1)),
        Does(Adopt(GATE, 1002, 2)),
        Does(Put((Kind::Blpu, BARN))),
        Does(Put((Kind::Xref, RATES))),
        Does(Put((Kind::Blpu, SHED))),
        Does(Put((Kind::Lpi, PAST))),
        Asks(1001, Custody(WENT)),
        Asks(1001, CustodyAt(2, BEFORE)),
        Asks(1002, Custody(&[(1002, None)])),
        Asks(1001, Ties(NAMED)),
        Asks(1001, Property(1002, None)),
        Asks(1001, Used(Blpu(1007), true)),
        Does(Keep),
    ],
);

/// The fourth: a flat comes back, and what named two BLPUs goes.
pub(crate) const FOURTH_RETURNS: Part = (
    "the fourth volume",
    &[
        Does(Begin(1001)),
        Does(Take(Xref("X2"))),
        Does(Adopt(FLAT, 1002, 2)),
        Does(Take(Lpi("L4"))),
        Does(Keep),
    ],
);

/// A fifth, which is read as it is made, and given up.
pub(crate) const FIFTH_IS_GIVEN_UP: Part = (
    "the fifth volume",
    &[
        Does(Begin(1001)),
        Asks(1001, Custody(CAME_BACK)),
        Does(Release(1001, 1003, 1)),
        Does(Adopt(BARGE, 1003, 2)),
        Does(Release(1003, 1002, 1)),
        Does(Take(Lpi("L1"))),
        Does(Put((Kind::Lpi, LATE))),
        Asks(1001, Custody(IN_VAIN)),
        Asks(1001, Ties(NAMED_IN_VAIN)),
        Asks(1001, Item(Blpu(1001), None)),
        Asks(1001, Used(Blpu(1003), true)),
        Does(Abandon),
    ],
);
