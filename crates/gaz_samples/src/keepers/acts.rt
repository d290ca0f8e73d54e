//! The calls of the list that write.
use crate::items::{Row, custodian, item_of, items_of, volume};
use crate::keepers::passing::{adopts, releases};
use crate::keepers::refusal::Refusal;
use crate::keepers::steps::{Act, Name};
use crate::keepers::tried::Tried;
use crate::writing::Conclusion;
use gaz_keeper::Inbox;
use std::alloc::Global;

fn receives<K: Inbox + Drop>(shelf: &mut Tried<K>, code: u64, number: u64) -> Result<(), Refusal> {
    shelf.receive(custodian(code)?, volume(number)?, b"a file")
}

fn skips<K: Inbox + Drop>(
    shelf: &mut Tried<K>,
    code: u64,
    place: u64,
    rule: u8,
) -> Result<(), Refusal> {
    shelf.skip(custodian(code)?, place, rule)
}

fn writes_volume<K: Inbox + Drop>(
    alloc: Global,
    shelf: &mut Tried<K>,
    code: u64,
    rows: &[Row],
    ending: Conclusion,
) -> Result<(), Refusal> {
    shelf.write_volume(custodian(code)?, items_of(alloc, rows)?, ending)
}

fn begins<K: Inbox + Drop>(shelf: &mut Tried<K>, code: u64) -> Result<(), Refusal> {
    shelf.begin(custodian(code)?)
}

fn puts<K: Inbox + Drop>(alloc: Global, shelf: &mut Tried<K>, row: Row) -> Result<(), Refusal> {
    shelf.put(item_of(alloc, row)?)
}

fn takes<K: Inbox + Drop>(shelf: &mut Tried<K>, name: &Name) -> Result<(), Refusal> {
    shelf.take(&name.key()?)
}

/// Makes the call.
pub(crate) fn does<K: Inbox + Drop>(
    alloc: Global,
    shelf: &mut Tried<K>,
    act: &Act,
) -> Result<(), Refusal> {
    match act {
        Act::Receive(code, number) => receives(shelf, *code, *number),
        Act::Skip(code, place, rule) => skips(shelf, *code, *place, *rule),
        Act::Volume(code, rows, ending) => writes_volume(alloc, shelf, *code, rows, *ending),
        Act::Begin(code) => begins(shelf, *code),
        Act::Put(row) => puts(alloc, shelf, *row),
        Act::Take(name) => takes(shelf, name),
        Act::Release(uprn, to, hop) => releases(shelf, *uprn, *to, *hop),
        Act::Adopt(row, from, hop) => adopts(alloc, shelf, row, *from, *hop),
        Act::Keep => shelf.keep(),
        Act::Abandon => shelf.abandon(),
    }
}
