//! The calls by which a number passes between custodians, and what they are to leave of it.
use crate::items::{custodian, item, uprn_of};
use crate::keepers::refusal::Refusal;
use crate::keepers::tried::Tried;
use gaz_ids::{Code, Hop, Uprn};
use gaz_keeper::Inbox;
use gaz_records::{Item, Kind, SharedItem};
use gaz_views::Custody;
use std::alloc::Global;

/// What last became of a number: the other custodian, and the hop.
#[derive(Clone, Copy, PartialEq, Eq)]
pub enum Passage {
    ReleasedTo(u64, u64),
    AdoptedFrom(u64, u64),
}

impl Passage {
    pub(crate) fn of(custody: Custody) -> Passage {
        match custody {
            Custody::Released { to, hop } => Passage::ReleasedTo(to.number(), hop.number()),
            Custody::Adopted { from, hop } => Passage::AdoptedFrom(from.number(), hop.number()),
        }
    }
}

impl<K: Inbox + Drop> Tried<K> {
    pub(crate) fn release(&mut self, uprn: Uprn, to: Code, hop: Hop) -> Result<(), Refusal> {
        if self.judged.is_none() {
            return Err(Refusal::Misused);
        }
        let done = self.keeper.release(uprn, to, hop);
        if done.is_err() {
            self.judged = None;
        }
        Ok(done?)
    }

    pub(crate) fn adopt(&mut self, blpu: SharedItem, from: Code, hop: Hop) -> Result<(), Refusal> {
        if self.judged.is_none() || !matches!(blpu.as_item(), Item::Blpu(_)) {
            return Err(Refusal::Misused);
        }
        let done = self.keeper.adopt(blpu, from, hop);
        if done.is_err() {
            self.judged = None;
        }
        Ok(done?)
    }
}

fn hop(number: u64) -> Result<Hop, Refusal> {
    Hop::of(number).ok_or(Refusal::Misused)
}

// In the judgement in progress, a number is released to a custodian at a hop.
pub(crate) fn releases<K: Inbox + Drop>(
    shelf: &mut Tried<K>,
    uprn: u64,
    to: u64,
    at: u64,
) -> Result<(), Refusal> {
    shelf.release(uprn_of(uprn)?, custodian(to)?, hop(at)?)
}

// The BLPU of a row is adopted from a custodian at a hop.
pub(crate) fn adopts<K: Inbox + Drop>(
    alloc: Global,
    shelf: &mut Tried<K>,
    row: &str,
    from: u64,
    at: u64,
) -> Result<(), Refusal> {
    let blpu = item(alloc, Kind::Blpu, row)?;
    shelf.adopt(blpu, custodian(from)?, hop(at)?)
}
