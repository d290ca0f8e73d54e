//! One list of calls over all keepers, and what they are to answer.
use crate::items::custodian;
use crate::keepers::acts::does;
use crate::keepers::answers::answers;
use crate::keepers::passed::{PASSED, RETURNED};
use crate::keepers::passed_volumes::{FIFTH_IS_GIVEN_UP, FOURTH_RETURNS, THIRD_PASSES};
use crate::keepers::readings::{ADDRESSES, BY_NINE, BY_ONE, BY_TWO, COUNTS, ITEMS, NEW, PAGES};
use crate::keepers::refusal::Refusal;
use crate::keepers::steps::{Part, Step};
use crate::keepers::tried::Tried;
use crate::keepers::volumes::{AGAIN, FILES, FIRST, GIVEN_UP, REJECTED, SECOND};
use gaz_keeper::Inbox;
use std::alloc::Global;

const WRITTEN: &[Part] = &[NEW, FILES, FIRST, REJECTED, SECOND, GIVEN_UP];

const READ: &[Part] = &[COUNTS, ITEMS, ADDRESSES, PAGES, BY_ONE, BY_TWO, BY_NINE];

const PASSING: &[Part] = &[THIRD_PASSES, PASSED, FOURTH_RETURNS, RETURNED];

const IN_VAIN: &[Part] = &[FIFTH_IS_GIVEN_UP, RETURNED, AGAIN];

// The list, in four tables. A function that names all of it takes the proof some 20 seconds, and
// one that names a few parts one or two.

fn written() -> &'static [Part] {
    WRITTEN
}

fn read() -> &'static [Part] {
    READ
}

fn passing() -> &'static [Part] {
    PASSING
}

fn in_vain() -> &'static [Part] {
    IN_VAIN
}

/// The list, in four tables of parts that are performed one behind the other: what is written
/// without passing on; what is read of it; numbers that pass on and come back; what is given up
/// behind that. None for any other number. Between two parts no judgement is in progress.
pub fn parts(table: u64) -> Option<&'static [Part]> {
    match table {
        0 => Some(written()),
        1 => Some(read()),
        2 => Some(passing()),
        3 => Some(in_vain()),
        _ => None,
    }
}

// Whether a step is answered as it is to be.
fn is_made<K: Inbox + Drop>(
    alloc: Global,
    shelf: &mut Tried<K>,
    step: &Step,
) -> Result<bool, Refusal> {
    match step {
        Step::Does(act) => {
            does(alloc, shelf, act)?;
            Ok(true)
        }
        Step::Asks(code, question) => answers(alloc, shelf, custodian(*code)?, question),
    }
}

/// Makes the calls of a part. `Otherwise` where one is answered otherwise than it is to be.
pub fn performs<K: Inbox + Drop>(
    alloc: Global,
    shelf: &mut Tried<K>,
    part: &Part,
) -> Result<(), Refusal> {
    let (_, steps) = part;
    let mut place: u64 = 0;
    for step in *steps {
        place = place.saturating_add(1);
        if !is_made(alloc, shelf, step)? {
            return Err(Refusal::Otherwise(place));
        }
    }
    Ok(())
}

fn performs_table<K: Inbox + Drop>(
    alloc: Global,
    shelf: &mut Tried<K>,
    table: &[Part],
) -> Result<(), Refusal> {
    for part in table {
        performs(alloc, shelf, part)?;
    }
    Ok(())
}

/// Makes all calls, of a keeper that received nothing.
pub fn performs_all<K: Inbox + Drop>(alloc: Global, shelf: &mut Tried<K>) -> Result<(), Refusal> {
    performs_table(alloc, shelf, written())?;
    performs_table(alloc, shelf, read())?;
    performs_table(alloc, shelf, passing())?;
    performs_table(alloc, shelf, in_vain())
}
