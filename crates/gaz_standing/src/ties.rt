//! The items that name a BLPU, which are counted when they are asked for.
ghost use Rattle.std.specs.Prelude.{◌≡◌, ◌⊎◌, ◌+◌, ◌-◌, ◌<◌, ◌^◌, None, OnOk};
ghost use Rattle.std.specs.Option.{IsSome};
ghost use Rattle.gaz_views.specs.Words.{tied};
ghost use Rattle.gaz_standing.specs.KeyHistories.{view_at};
ghost use Rattle.gaz_standing.specs.Ties.{AreTies, FindsTies, NotesTie};

use crate::histories::Histories;
use crate::seed::Seed;
use crate::tied_keys::TiedKeys;
use crate::words::blpu_named;
use gaz_ids::Uprn;
use gaz_records::{Key, SharedItem, SortKey};
use std::alloc::AllocError;

/// The keys of the items that name a BLPU, or named it since they were first asked for. Until then
/// they take no memory.
#[derive(Drop)]
pub struct Ties {
    seed: Seed,
    counted: Option<TiedKeys>,
    // How many keys were noted since then.
    noted: usize,
}

impl Ties {
    /// Not counted yet.
    pub fn new(seed: Seed) -> Ties
        ensures { result.counted ≡ None }
    {
        Ties {
            seed,
            counted: None,
            noted: 0,
        }
    }

    /// They aren't counted any more.
    pub fn forget(&mut self)
        ensures { self.new.counted ≡ None }
    {
        self.counted = None;
    }

    /// Notes that an item comes to stand at a key, where they are counted. Where memory runs out,
    /// they aren't any more.
    pub fn note(&mut self, item: &Option<SharedItem>, key: &Key)
        ensures { NotesTie self.old self.new item.now key.now }
    {
        let Some(item) = item else {
            return;
        };
        let Some(keys) = &mut self.counted else {
            return;
        };
        let added = keys.add_some(blpu_named(item), SortKey::of(key));
        self.noted = self.noted.saturating_add(1);
        if added.is_err() {
            self.counted = None;
        }
    }

    /// They aren't counted any more where more keys were noted since they were than `most`. Else
    /// those of files that are rejected time and again would pile up.
    pub fn shed(&mut self, most: usize)
        ensures { (self.new ≡ self.old) ⊎ (self.new.counted ≡ None) }
    {
        if self.noted > most {
            self.counted = None;
        }
    }

    /// Counts them, where they aren't counted yet.
    pub fn count(&mut self, histories: &Histories, reached: u64) -> Result<(), AllocError>
        requires bound { reached < 2 ^ 64 - 1 }
        requires ties { AreTies self.old histories.now reached (reached + 1) }
        ensures ties { AreTies self.new histories.now reached (reached + 1) }
        ensures counted { OnOk result (IsSome self.new.counted) }
    {
        if self.counted.is_some() {
            return Ok(());
        }
        let keys = histories.tied_keys(self.seed, reached)?;
        self.counted = Some(keys);
        self.noted = 0;
        Ok(())
    }

    /// Whether an item names a BLPU after a volume.
    pub fn has(&self, histories: &Histories, volume: u64, uprn: Uprn) -> bool
        requires counted { IsSome self.now.counted }
        requires finds { FindsTies self.now histories.now volume }
        ensures { result ≡ tied (view_at histories.now volume) uprn }
    {
        let Some(counted) = &self.counted else {
            return false;
        };
        match counted.get(uprn) {
            Some(keys) => histories.any_names(volume, uprn, keys),
            None => false,
        }
    }
}
