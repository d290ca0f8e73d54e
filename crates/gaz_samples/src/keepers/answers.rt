//! Whether a keeper answers a question of the list as it is to.
use crate::keepers::refusal::Refusal;
use crate::keepers::steps::{Became, Named, Question, View};
use crate::keepers::tried::Tried;
use gaz_ids::Code;
use gaz_keeper::Inbox;
use std::alloc::Global;

fn has_passed<K: Inbox + Drop>(
    shelf: &mut Tried<K>,
    code: Code,
    numbers: &[Became],
) -> Result<bool, Refusal> {
    for became in numbers {
        if !shelf.has_custody(code, became)? {
            return Ok(false);
        }
    }
    Ok(true)
}

fn had_passed<K: Inbox + Drop>(
    shelf: &mut Tried<K>,
    code: Code,
    after: u64,
    numbers: &[Became],
) -> Result<bool, Refusal> {
    for became in numbers {
        if !shelf.had_custody(code, after, became)? {
            return Ok(false);
        }
    }
    Ok(true)
}

fn has_ties<K: Inbox + Drop>(
    shelf: &mut Tried<K>,
    code: Code,
    numbers: &[Named],
) -> Result<bool, Refusal> {
    for (number, is_named) in numbers {
        if !shelf.is_tied(code, *number, *is_named)? {
            return Ok(false);
        }
    }
    Ok(true)
}

fn has_views<K: Inbox + Drop>(
    alloc: Global,
    shelf: &mut Tried<K>,
    code: Code,
    most: usize,
    views: &[View],
) -> Result<bool, Refusal> {
    for view in views {
        if !shelf.has_all(alloc, code, most, view)? {
            return Ok(false);
        }
    }
    Ok(true)
}

/// Whether what it tells of a custodian is what the question wants.
pub(crate) fn answers<K: Inbox + Drop>(
    alloc: Global,
    shelf: &mut Tried<K>,
    code: Code,
    question: &Question,
) -> Result<bool, Refusal> {
    match question {
        Question::Counts(judged, held) => shelf.has_counts(code, *judged, *held),
        Question::Verdict(number, verdict) => shelf.has_verdict(code, *number, *verdict),
        Question::File(number, has) => shelf.has_file(code, *number, *has),
        Question::Item(name, row) => shelf.has_item(alloc, code, name, *row),
        Question::ItemAt(after, name, row) => shelf.had_item(alloc, code, *after, name, *row),
        Question::Used(name, used) => shelf.is_used(code, name, *used),
        Question::Parts(uprn, has) => shelf.has_parts(code, *uprn, *has),
        Question::Address(uprn, name) => shelf.has_address(code, *uprn, name),
        Question::Property(uprn, rows) => shelf.has_property(alloc, code, *uprn, *rows),
        Question::AddressOn(usrn, lang, has) => shelf.has_address_on(code, *usrn, *lang, *has),
        Question::Page(page) => shelf.has_page(alloc, code, page),
        Question::Views(most, views) => has_views(alloc, shelf, code, *most, views),
        Question::Custody(numbers) => has_passed(shelf, code, numbers),
        Question::CustodyAt(after, numbers) => had_passed(shelf, code, *after, numbers),
        Question::Ties(numbers) => has_ties(shelf, code, numbers),
    }
}
