//! The readings of a board.
ghost use Rattle.std.specs.Prelude.{◌≡◌, true};
ghost use Rattle.std.specs.FinMap as map;
ghost use Rattle.gaz_records.specs.Kinds.{is_entry_kind};
ghost use Rattle.gaz_views.specs.View.{was_used};
ghost use Rattle.gaz_views.specs.Words.{approved_of, approved_on, has_children, property_of};
ghost use Rattle.gaz_keeper.specs.Board.{reached, verdict_on};
ghost use Rattle.gaz_keeper.specs.Telling.{IsItemAt, IsPageAt};

use crate::questions::Question;
use gaz_ids::{Code, Lang, Uprn, Usrn, Volume};
use gaz_keeper::{Inbox, Property, ShelfFault, Verdict};
use gaz_records::{Key, Kind, SharedItem};

/// How many volumes of a custodian are judged.
#[derive(Drop)]
pub(crate) struct Reached {
    pub(crate) code: Code,
}

impl Question for Reached {
    type Answer = u64;

    ghost is_right = { λ q k views n. n ≡ reached k.board q.code };

    fn ask<K: Inbox>(&self, keeper: &mut K) -> Result<u64, ShelfFault> {
        keeper.reached(self.code)
    }
}

/// The verdict on a volume.
#[derive(Drop)]
pub(crate) struct VerdictOn {
    pub(crate) code: Code,
    pub(crate) volume: Volume,
}

impl Question for VerdictOn {
    type Answer = Option<Verdict>;

    ghost is_right = { λ q k views v. v ≡ verdict_on k.board q.code q.volume };

    fn ask<K: Inbox>(&self, keeper: &mut K) -> Result<Option<Verdict>, ShelfFault> {
        keeper.verdict(self.code, self.volume)
    }
}

/// The item at a key.
#[derive(Drop)]
pub(crate) struct Current {
    pub(crate) code: Code,
    pub(crate) key: Key,
}

impl Question for Current {
    type Answer = Option<SharedItem>;

    ghost is_right = { λ q k views i. i ≡ map.get (views q.code).items q.key };

    fn ask<K: Inbox>(&self, keeper: &mut K) -> Result<Option<SharedItem>, ShelfFault> {
        keeper.current(self.code, &self.key)
    }
}

/// The item at a key after a volume.
#[derive(Drop)]
pub(crate) struct At {
    pub(crate) code: Code,
    pub(crate) volume: u64,
    pub(crate) key: Key,
}

impl Question for At {
    type Answer = Option<SharedItem>;

    ghost is_right = { λ q k views i. IsItemAt k.board q.code q.volume q.key i };

    fn ask<K: Inbox>(&self, keeper: &mut K) -> Result<Option<SharedItem>, ShelfFault> {
        keeper.at(self.code, self.volume, &self.key)
    }
}

/// Whether a key was ever used.
#[derive(Drop)]
pub(crate) struct Ever {
    pub(crate) code: Code,
    pub(crate) key: Key,
}

impl Question for Ever {
    type Answer = bool;

    ghost is_right = { λ q k views b. b ≡ was_used (views q.code) q.key };

    fn ask<K: Inbox>(&self, keeper: &mut K) -> Result<bool, ShelfFault> {
        keeper.ever(self.code, &self.key)
    }
}

/// The keys of a BLPU's approved LPIs.
#[derive(Drop)]
pub(crate) struct ApprovedOf {
    pub(crate) code: Code,
    pub(crate) uprn: Uprn,
}

impl Question for ApprovedOf {
    type Answer = Vec<Key>;

    ghost is_right = { λ q k views keys. keys.items ≡ approved_of (views q.code) q.uprn };

    fn ask<K: Inbox>(&self, keeper: &mut K) -> Result<Vec<Key>, ShelfFault> {
        keeper.approved_of(self.code, self.uprn)
    }
}

/// A BLPU with its approved LPI.
#[derive(Drop)]
pub(crate) struct PropertyOf {
    pub(crate) code: Code,
    pub(crate) uprn: Uprn,
}

impl Question for PropertyOf {
    type Answer = Option<Property>;

    ghost is_right = { λ q k views p. p ≡ property_of (views q.code) q.uprn };

    fn ask<K: Inbox>(&self, keeper: &mut K) -> Result<Option<Property>, ShelfFault> {
        keeper.property_of(self.code, self.uprn)
    }
}

/// Whether an approved LPI is on a street.
#[derive(Drop)]
pub(crate) struct ApprovedOn {
    pub(crate) code: Code,
    pub(crate) usrn: Usrn,
    pub(crate) lang: Option<Lang>,
}

impl Question for ApprovedOn {
    type Answer = bool;

    ghost is_right = { λ q k views b. b ≡ approved_on (views q.code) q.usrn q.lang };

    fn ask<K: Inbox>(&self, keeper: &mut K) -> Result<bool, ShelfFault> {
        keeper.approved_on(self.code, self.usrn, self.lang)
    }
}

/// Whether a BLPU has parts.
#[derive(Drop)]
pub(crate) struct Children {
    pub(crate) code: Code,
    pub(crate) uprn: Uprn,
}

impl Question for Children {
    type Answer = bool;

    ghost is_right = { λ q k views b. b ≡ has_children (views q.code) q.uprn };

    fn ask<K: Inbox>(&self, keeper: &mut K) -> Result<bool, ShelfFault> {
        keeper.children(self.code, self.uprn)
    }
}

/// A page of the items of a kind of entries.
#[derive(Drop)]
pub(crate) struct Page {
    pub(crate) code: Code,
    pub(crate) volume: u64,
    pub(crate) kind: Kind,
    pub(crate) after: Option<Key>,
    pub(crate) most: usize,
    ghost entries: { is_entry_kind kind ≡ true },
}

impl Question for Page {
    type Answer = Vec<SharedItem>;

    ghost is_right = { λ q k views items.
        IsPageAt k.board q.code q.volume q.kind q.after q.most items.items };

    fn ask<K: Inbox>(&self, keeper: &mut K) -> Result<Vec<SharedItem>, ShelfFault> {
        keeper.page(self.code, self.volume, self.kind, self.after, self.most)
    }
}
