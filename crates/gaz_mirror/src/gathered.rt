//! What is gathered of a judgement.
ghost use Rattle.std.specs.Prelude.{◌≡◌, true, IsSome};
ghost use Rattle.gaz_records.specs.Items.{is_entry};
ghost use Rattle.gaz_views.specs.Numbered.{as_blpu};

use gaz_ids::{Code, Hop, Uprn};
use gaz_records::{Key, SharedItem};

/// An item that is an entry.
#[derive(Drop)]
pub(crate) struct Entry {
    pub(crate) item: SharedItem,
    ghost entry: { is_entry item ≡ true },
}

/// An item that is a BLPU, and how it came from another custodian.
#[derive(Drop)]
pub(crate) struct Adoption {
    pub(crate) blpu: SharedItem,
    pub(crate) from: Code,
    pub(crate) hop: Hop,
    ghost is_blpu: { IsSome (as_blpu blpu) },
}

/// A change of a working view.
#[derive(Drop)]
pub(crate) enum Change {
    /// Sets an item.
    Put(Entry),
    /// Takes a key's item.
    Take(Key),
    /// Releases a number to another custodian.
    Release { uprn: Uprn, to: Code, hop: Hop },
    /// Adopts a BLPU from another custodian.
    Adopt(Adoption),
}

/// The changes of a custodian's judgement, as they came.
#[derive(Drop)]
pub(crate) struct Gathered {
    pub(crate) code: Code,
    pub(crate) changes: Vec<Change>,
    /// Whether it was tried to hand them down, and a call failed.
    pub(crate) tried: bool,
}
