//! The readings of what became of numbers.
ghost use Rattle.std.specs.Prelude.{◌≡◌};
ghost use Rattle.gaz_views.specs.View.{custody_at};
ghost use Rattle.gaz_views.specs.Words.{tied};
ghost use Rattle.gaz_keeper.specs.Telling.{IsCustodyAt};

use crate::questions::Question;
use gaz_ids::{Code, Uprn};
use gaz_keeper::{Inbox, ShelfFault};
use gaz_views::Custody;

/// What last became of a number.
#[derive(Drop)]
pub(crate) struct CustodyOf {
    pub(crate) code: Code,
    pub(crate) uprn: Uprn,
}

impl Question for CustodyOf {
    type Answer = Option<Custody>;

    ghost is_right = { λ q k views x. x ≡ custody_at (views q.code) q.uprn };

    fn ask<K: Inbox>(&self, keeper: &mut K) -> Result<Option<Custody>, ShelfFault> {
        keeper.custody(self.code, self.uprn)
    }
}

/// What last became of a number after a volume.
#[derive(Drop)]
pub(crate) struct CustodyAt {
    pub(crate) code: Code,
    pub(crate) volume: u64,
    pub(crate) uprn: Uprn,
}

impl Question for CustodyAt {
    type Answer = Option<Custody>;

    ghost is_right = { λ q k views x. IsCustodyAt k.board q.code q.volume q.uprn x };

    fn ask<K: Inbox>(&self, keeper: &mut K) -> Result<Option<Custody>, ShelfFault> {
        keeper.custody_at(self.code, self.volume, self.uprn)
    }
}

/// Whether an LPI or a cross reference names a BLPU.
#[derive(Drop)]
pub(crate) struct Tied {
    pub(crate) code: Code,
    pub(crate) uprn: Uprn,
}

impl Question for Tied {
    type Answer = bool;

    ghost is_right = { λ q k views b. b ≡ tied (views q.code) q.uprn };

    fn ask<K: Inbox>(&self, keeper: &mut K) -> Result<bool, ShelfFault> {
        keeper.tied(self.code, self.uprn)
    }
}
