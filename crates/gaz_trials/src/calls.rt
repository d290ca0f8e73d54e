//! The list of calls over keepers in memory.
use crate::wanted::counts_all;
use gaz_faulty::Calls;
use gaz_samples::keepers::{Refusal, Tried, counting_shelf, performs_all};
use gaz_shelf::{MemShelf, Seed};
use std::alloc::Global;
use std::process::Abort;
use std::test::Fail;

/// How often the list makes each reading that is counted, also of what passes.
pub(crate) fn are_read(rt: &impl Abort, calls: Calls) {
    counts_all(
        rt,
        &[
            (calls.current, 12),
            (calls.reached, 4),
            (calls.received, 3),
            (calls.custody, 39),
            (calls.custody_at, 51),
            (calls.tied, 23),
        ],
    );
}

// How often the list makes each reading of what is linked, and each call that makes it pass.
fn are_linked(rt: &impl Abort, calls: Calls) {
    let links = [
        (calls.approved_of, 3),
        (calls.property_of, 10),
        (calls.release, 6),
        (calls.adopt, 5),
    ];
    counts_all(rt, &links);
}

#[test]
fn whole_maps_answer_so(rt: HostRuntime) -> Result<(), Fail> {
    let mut shelf = Tried::new(MemShelf::new(rt.alloc(), Seed::of(1)));
    Ok(performs_all(rt.alloc(), &mut shelf)?)
}

// All calls of the list, by a keeper that counts them.
fn counted(alloc: Global) -> Result<Calls, Refusal> {
    let mut shelf = counting_shelf(alloc);
    performs_all(alloc, &mut shelf)?;
    Ok(shelf.keeper().counted())
}

#[test]
fn a_keeper_around_another_answers_so(rt: HostRuntime) -> Result<(), Fail> {
    let calls = counted(rt.alloc())?;
    are_read(&rt, calls);
    are_linked(&rt, calls);
    Ok(())
}
