use crate::action::Action;
use gaz_ids::{Code, Volume};
use gaz_records::SharedItem;

/// A change of an item.
#[derive(Drop)]
pub struct Change {
    /// The number of the record that says so, from 1, which is the header's.
    pub place: u64,
    pub action: Action,
    /// For a deletion its key alone counts.
    pub item: SharedItem,
}

/// A basis line: the file rests on what another custodian's file of this volume left (our profile).
#[derive(Clone, Copy)]
pub struct Basis {
    pub custodian: Code,
    pub volume: Volume,
}
