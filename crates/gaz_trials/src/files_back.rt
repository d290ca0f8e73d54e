//! Change files that are read and written as they were, and the items in them.
use crate::file_fixtures::*;
use crate::wanted::holds;
use gaz_changefile::{read_file, write_file};
use gaz_ids::{Code, Volume};
use gaz_records::{Item, item_of_text, item_text, key_of};
use std::alloc::Global;
use std::test::Fail;

/// A file, its custodian and its volume.
type File<'a> = (&'a [u8], u64, u64);

const FILES: &[File<'static>] = &[
    (OLD_MILL, 1003, 1),
    (NUMBER_9_MILL_LANE, 1002, 1),
    (ALL_CHANGED, 1001, 4),
    (ALL_DELETED, 1001, 5),
    (PROPERTY_500_RELEASED, 1001, 1),
    (PROPERTY_500_ADOPTED, 1002, 1),
    (NOTHING, 1001, 1),
    (RESTS_ALONE, 1002, 1),
    (RESTS_ON_1002, 1003, 1),
    (WRITTEN_STRICTLY, 1001, 1),
];

// Whose file it is, and which volume.
fn place_of(file: File<'_>) -> Result<(Code, Volume), Fail> {
    let code = Code::of(file.1).ok_or("code")?;
    let volume = Volume::of(file.2).ok_or("volume")?;
    Ok((code, volume))
}

// What is written of a file that was read.
fn rewritten(alloc: Global, file: File<'_>) -> Result<Vec<u8>, Fail> {
    let (code, volume) = place_of(file)?;
    let read = read_file(alloc, file.0, code, volume)?;
    Ok(write_file(alloc, &read, code, volume)?)
}

// Whether the row of an item says one of the same row and the same key.
fn is_said_again(alloc: Global, item: &Item) -> Result<bool, Fail> {
    let row = item_text(alloc, item)?;
    let again = item_of_text(alloc, item.kind(), &row)?;
    Ok(item_text(alloc, &again)? == row && key_of(&again) == key_of(item))
}

// Whether the row of each item of a file says that item again.
fn are_said_again(alloc: Global, file: File<'_>) -> Result<bool, Fail> {
    let (code, volume) = place_of(file)?;
    for change in &read_file(alloc, file.0, code, volume)?.changes {
        if !is_said_again(alloc, &change.item)? {
            return Ok(false);
        }
    }
    Ok(true)
}

#[test]
fn written_back(rt: HostRuntime) -> Result<(), Fail> {
    for file in FILES {
        let once = rewritten(rt.alloc(), *file)?;
        holds(&rt, once.as_slice() == file.0, "as it was read");
    }
    Ok(())
}

#[test]
fn written_anew(rt: HostRuntime) -> Result<(), Fail> {
    let once = rewritten(rt.alloc(), (WRITTEN_LOOSELY, 1001, 1))?;
    holds(&rt, once.as_slice() == WRITTEN_STRICTLY, "as it is written");
    Ok(())
}

#[test]
fn items_are_said_again(rt: HostRuntime) -> Result<(), Fail> {
    for file in FILES {
        holds(&rt, are_said_again(rt.alloc(), *file)?, "as its row says");
    }
    Ok(())
}
