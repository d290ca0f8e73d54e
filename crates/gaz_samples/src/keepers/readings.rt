//! What the list of calls reads.
use crate::keepers::steps::Name::{Blpu, Lpi, Street, Xref};
use crate::keepers::steps::Question::{
    Address, AddressOn, Counts, File, Item, ItemAt, Page, Parts, Property, Used, Verdict, Views,
};
use crate::keepers::steps::Step::Asks;
use crate::keepers::steps::{Part, View};
use crate::keepers::volumes::{CLOSED, FELIN, FLAT, HOUSE, MAIN, MILL, NAME, OPEN, OTHER, TAX};
use gaz_ids::Lang;
use gaz_keeper::Verdict::{Applied, Rejected};
use gaz_records::Kind;

/// Nothing is received or judged.
pub(crate) const NEW: Part = (
    "a new keeper",
    &[
        Asks(1001, Counts(0, 0)),
        Asks(1001, File(1, false)),
        Asks(1001, Verdict(1, None)),
    ],
);

pub(crate) const COUNTS: Part = (
    "counts",
    &[
        Asks(1001, Counts(2, 1)),
        Asks(1002, Counts(1, 0)),
        Asks(1003, Counts(0, 0)),
        Asks(1001, Verdict(2, Some(Applied))),
        Asks(1001, Verdict(3, None)),
        Asks(1002, Verdict(1, Some(Rejected { place: 2, rule: 20 }))),
        Asks(1001, File(3, true)),
        Asks(1001, File(4, false)),
    ],
);

pub(crate) const ITEMS: Part = (
    "items",
    &[
        Asks(1001, Item(Street(102), Some(CLOSED))),
        Asks(1001, ItemAt(0, Street(102), None)),
        Asks(1001, ItemAt(1, Street(102), Some(OPEN))),
        Asks(1001, ItemAt(2, Street(102), Some(CLOSED))),
        Asks(1001, ItemAt(1, Lpi("L2"), Some(OTHER))),
        Asks(1001, Item(Lpi("L2"), None)),
        Asks(1001, Used(Lpi("L2"), true)),
        Asks(1001, Item(Blpu(1003), None)),
        Asks(1001, Used(Blpu(1003), false)),
        Asks(1001, Item(Xref("X1"), None)),
        Asks(1001, Used(Xref("X1"), true)),
        Asks(1002, Item(Street(102), None)),
    ],
);

pub(crate) const ADDRESSES: Part = (
    "addresses",
    &[
        Asks(1001, Address(1001, Lpi("L1"))),
        Asks(1001, Address(1002, Lpi("L3"))),
        Asks(1001, Property(1001, Some((HOUSE, MILL)))),
        Asks(1001, Property(1002, Some((FLAT, FELIN)))),
        Asks(1001, Property(1003, None)),
        Asks(1002, Property(1001, None)),
        Asks(1001, AddressOn(101, None, true)),
        Asks(1001, AddressOn(101, Some(Lang::Cym), true)),
        Asks(1001, AddressOn(102, None, false)),
        Asks(1002, AddressOn(101, None, false)),
        Asks(1001, Parts(1001, true)),
        Asks(1001, Parts(1002, false)),
    ],
);

pub(crate) const PAGES: Part = (
    "pages",
    &[
        Asks(1001, Page((0, Kind::Lpi, None, 5, 0, ""))),
        Asks(1001, Page((1, Kind::Lpi, None, 1, 1, MILL))),
        Asks(1001, Page((1, Kind::Lpi, Some(Lpi("L1")), 2, 1, OTHER))),
        Asks(1001, Page((2, Kind::Lpi, None, 2, 2, MILL))),
        Asks(1001, Page((2, Kind::Lpi, Some(Lpi("L2")), 2, 1, FELIN))),
        Asks(
            1001,
            Page((2, Kind::Street, Some(Street(101)), 5, 1, CLOSED)),
        ),
        Asks(1001, Page((2, Kind::Street, None, 5, 2, MAIN))),
        Asks(1001, Page((2, Kind::Blpu, Some(Blpu(1001)), 5, 1, FLAT))),
    ],
);

const PAST: &[View] = &[
    (0, Kind::Street, &[]),
    (1, Kind::Street, &[MAIN, OPEN]),
    (1, Kind::Descriptor, &[NAME]),
    (1, Kind::Blpu, &[HOUSE, FLAT]),
    (1, Kind::Xref, &[TAX]),
    (2, Kind::Street, &[MAIN, CLOSED]),
    (2, Kind::Xref, &[]),
    (2, Kind::Lpi, &[MILL, FELIN]),
];

/// Every past view, one, two and nine items at a time.
pub(crate) const BY_ONE: Part = ("views by one", &[Asks(1001, Views(1, PAST))]);

pub(crate) const BY_TWO: Part = ("views by two", &[Asks(1001, Views(2, PAST))]);

pub(crate) const BY_NINE: Part = ("views by nine", &[Asks(1001, Views(9, PAST))]);
