//! What is told of numbers that pass between custodians, in the volumes of `passed_volumes`.
use crate::keepers::passed_volumes::{BARN, COTTAGE, GATE, SHED};
use crate::keepers::passing::Passage::{AdoptedFrom, ReleasedTo};
use crate::keepers::steps::Name::{Blpu, Lpi};
use crate::keepers::steps::Question::{
    Address, Custody, CustodyAt, Item, ItemAt, Page, Parts, Property, Ties, Used, Views,
};
use crate::keepers::steps::Step::Asks;
use crate::keepers::steps::{Became, Named, Part, View};
use crate::keepers::volumes::{FELIN, FLAT, HOUSE, MILL};
use gaz_records::Kind;

/// Before the third volume.
pub(crate) const BEFORE: &[Became] = &[(1001, None), (1002, None), (1004, None), (1007, None)];

/// After it: a flat that stood was released, and a number that nobody ever saw; a cottage was
/// adopted. A lodge was adopted and then released, and a gate released and then adopted.
pub(crate) const WENT: &[Became] = &[
    (1001, None),
    (1002, Some(ReleasedTo(1002, 1))),
    (1003, None),
    (1004, Some(AdoptedFrom(1003, 3))),
    (1007, Some(ReleasedTo(1003, 1))),
    (1008, Some(ReleasedTo(1003, 3))),
    (1009, Some(AdoptedFrom(1002, 2))),
];

/// After the fourth, in which the flat was adopted back.
pub(crate) const CAME_BACK: &[Became] = &[
    (1001, None),
    (1002, Some(AdoptedFrom(1002, 2))),
    (1003, None),
    (1004, Some(AdoptedFrom(1003, 3))),
    (1007, Some(ReleasedTo(1003, 1))),
];

/// In a judgement that is given up.
pub(crate) const IN_VAIN: &[Became] = &[
    (1001, Some(ReleasedTo(1003, 1))),
    (1002, Some(AdoptedFrom(1002, 2))),
    (1003, Some(ReleasedTo(1002, 1))),
    (1007, Some(AdoptedFrom(1003, 2))),
];

/// After the third volume: by an approved LPI, by one whose BLPU was released, by a cross reference
/// alone and by a historical LPI alone; the others by none.
pub(crate) const NAMED: &[Named] = &[
    (1001, true),
    (1002, true),
    (1005, true),
    (1006, true),
    (1004, false),
    (1007, false),
];

/// After the fourth, in which the cross reference and the historical LPI were taken.
pub(crate) const NAMED_YET: &[Named] = &[(1001, true), (1002, true), (1005, false), (1006, false)];

/// In the judgement that is given up: the one LPI of 1001 was taken, and another is of 1004.
pub(crate) const NAMED_IN_VAIN: &[Named] = &[(1001, false), (1002, true), (1004, true)];

/// The BLPUs after the third volume, and after the fourth.
const THIRD: View = (3, Kind::Blpu, &[HOUSE, COTTAGE, BARN, SHED, GATE]);

const FOURTH: View = (4, Kind::Blpu, &[HOUSE, FLAT, COTTAGE, BARN, SHED, GATE]);

/// What is told after the third volume: of numbers, of the keys of those that passed, and of
/// properties.
pub(crate) const PASSED: Part = (
    "what passed",
    &[
        Asks(1001, Custody(WENT)),
        Asks(1002, Custody(&[(1002, None)])),
        Asks(1001, CustodyAt(0, BEFORE)),
        Asks(1001, CustodyAt(2, BEFORE)),
        Asks(1001, CustodyAt(3, WENT)),
        Asks(1001, Ties(NAMED)),
        Asks(1001, Item(Blpu(1002), None)),
        Asks(1001, Item(Blpu(1004), Some(COTTAGE))),
        Asks(1001, Item(Blpu(1008), None)),
        Asks(1001, Item(Blpu(1009), Some(GATE))),
        Asks(1001, Used(Blpu(1002), true)),
        Asks(1001, Used(Blpu(1003), false)),
        Asks(1001, Used(Blpu(1007), true)),
        Asks(1001, Used(Blpu(1008), true)),
        Asks(1001, Property(1001, Some((HOUSE, MILL)))),
        Asks(1001, Property(1002, None)),
        Asks(1001, Property(1007, None)),
        Asks(1001, Address(1002, Lpi("L3"))),
        Asks(1001, Parts(1001, false)),
        Asks(1001, Page((3, Kind::Blpu, Some(Blpu(1001)), 9, 4, COTTAGE))),
        Asks(1001, Views(2, &[(2, Kind::Blpu, &[HOUSE, FLAT]), THIRD])),
    ],
);

/// What is told after the fourth volume, and of the volumes before it.
pub(crate) const RETURNED: Part = (
    "what returned",
    &[
        Asks(1001, Custody(CAME_BACK)),
        Asks(1001, CustodyAt(2, BEFORE)),
        Asks(1001, CustodyAt(3, WENT)),
        Asks(1001, CustodyAt(4, CAME_BACK)),
        Asks(1001, Ties(NAMED_YET)),
        Asks(1001, ItemAt(2, Blpu(1002), Some(FLAT))),
        Asks(1001, ItemAt(3, Blpu(1002), None)),
        Asks(1001, ItemAt(4, Blpu(1002), Some(FLAT))),
        Asks(1001, Used(Blpu(1003), false)),
        Asks(1001, Property(1002, Some((FLAT, FELIN)))),
        Asks(1001, Parts(1001, true)),
        Asks(1001, Views(9, &[THIRD, FOURTH])),
    ],
);
