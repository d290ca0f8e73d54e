ghost use Rattle.std.specs.Prelude.{◌≡◌, true};
ghost use Rattle.std.specs.List.{All};
ghost use Rattle.gaz_records.specs.Items.{is_item};
ghost use Rattle.gaz_changefile.specs.Files.{IsBasis, IsTyped};
ghost use Rattle.gaz_changefile.specs.declared.file.FileFault.TheVariants.{Memory};

use crate::change::{Basis, Change};
use gaz_records::Day;
use std::alloc::{AllocError, AllocFailed};
use std::marker::Model;
use thiserror::Error;

/// A good change file, seen as its contents.
#[derive(Drop)]
pub struct ChangeFile {
    /// The date in the header.
    pub date: Day,
    /// The basis lines in file order: at most 16, by rising custodian, none the own.
    pub bases: Vec<Basis>,
    /// The changes in file order.
    pub changes: Vec<Change>,
}

impl Model for ChangeFile {
    ghost use Rattle.gaz_changefile.specs.Contents.{Contents};

    ghost Value = { Contents };

    ghost view = { λ f. record {
      date = f.date;
      bases = f.bases.items;
      changes = f.changes.items;
    } };
}

impl ChangeFile {
    /// What each file holds, for callers, who see its value alone.
    pub(crate) fn known(&self)
        ensures { IsTyped self.now }
    {
        self.date.known();
        known_bases(&self.bases);
        known_changes(&self.changes);
    }
}

// What each basis holds.
fn known_bases(bases: &[Basis])
    ensures { All IsBasis bases.now }
{
    for basis in bases {
        let _ = basis.custodian.number();
        let _ = basis.volume.number();
    }
}

// What each change holds.
fn known_changes(changes: &[Change])
    ensures { All (λ x. is_item x.item ≡ true) changes.now }
{
    for change in changes {
        change.item.known();
    }
}

/// Why bytes are no good change file, or want of memory.
#[derive(Clone, Copy, Debug, PartialEq, Eq, Error)]
pub enum FileFault {
    /// The record, from 1 for the header, with the first fault, and the first rule that it breaks
    /// (module `rule`). A missing trailer is named at the number of records plus 1.
    #[error("record {place} breaks rule {rule}")]
    Bad { place: u64, rule: u8 },
    #[error("out of memory")]
    Memory,
}

impl FileFault {
    /// The record at `place` breaks the rule.
    pub(crate) fn at(place: u64, rule: u8) -> FileFault
        ensures { result ≡ FileFault.Bad place rule }
    {
        FileFault::Bad { place, rule }
    }
}

impl From<AllocError> for FileFault {
    ghost from_gives = { λ _ e. e ≡ Memory };

    fn from(_e: AllocError) -> FileFault {
        FileFault::Memory
    }
}

impl<T: Drop> From<AllocFailed<T>> for FileFault {
    ghost from_gives = { λ _ e. e ≡ Memory };

    fn from(e: AllocFailed<T>) -> FileFault {
        FileFault::from(AllocError::from(e))
    }
}
