//! The changes that a judgement has made so far.
ghost use Rattle.std.specs.Prelude.{◌≡◌, true, false, length, IfOk, OnErr, OnOk, option_map};
ghost use Rattle.std.specs.FinMap as map;
ghost use Rattle.gaz_records.specs.Keys.{key_of};
ghost use Rattle.gaz_views.specs.View.{was_used};
ghost use Rattle.gaz_overlay.specs.Changes.{is_touched, no_changes, was_used_in, with_put};
ghost use Rattle.gaz_overlay.specs.Changes.{with_taken, with_touched};
ghost use Rattle.gaz_overlay.specs.Laid.{with_some};
ghost use Rattle.gaz_overlay.specs.Writings.{writing_at};

use crate::passes::Passes;
use crate::touch::{Stood, Writing};
use crate::touches::Touches;
use gaz_ledger::{CachedLedger, Seed};
use gaz_records::{Key, SharedItem, key_of};
use std::alloc::{AllocError, Global};
use std::marker::Model;

// Where the ledger has its working view: behind the volumes that it has judged, of which there are
// none.
pub const WORKING: u64 = 1;

/// What a judgement has put, taken and passed on, to be laid over a last view that stays where it
/// is, and what is to be written for each key and each number when it is kept.
///
/// A key is touched before it is put, taken or passed on: then the caller says what the tables have
/// there. What the last view answers is the caller's too, who lays the changes' answers over it,
/// but for those of `approved_of`.
#[derive(Drop)]
pub struct Overlay {
    pub(crate) ledger: CachedLedger,
    pub(crate) touches: Touches,
    pub(crate) passes: Passes,
    ghost none_judged: { length ledger.judged ≡ 0 },
}

impl Model for Overlay {
    ghost use Rattle.gaz_overlay.specs.Changes.{Changes};
    ghost use Rattle.gaz_overlay.specs.ChangesCode.{changes_code};

    ghost Value = { Changes };

    ghost coded = { changes_code };

    ghost view = { λ o. record {
      view = o.ledger.working;
      touched = o.touches;
      passed = o.passes;
    } };
}

impl Overlay {
    /// No changes.
    pub fn new(alloc: Global, seed: Seed) -> Overlay
        ensures { result ≡ no_changes }
    {
        Overlay {
            ledger: CachedLedger::new(alloc, seed),
            touches: Touches::new(alloc),
            passes: Passes::new(alloc),
        }
    }

    /// Whether a key was touched, so that the overlay alone says which item stands there.
    pub fn is_touched(&self, key: &Key) -> bool
        ensures { result ≡ is_touched self.now key.now }
    {
        self.touches.get(key).is_some()
    }

    /// Touches a key for the first time: this stood there before, with its item where there was a
    /// current row. The item may be left out where one is put at the key next, or its number passed
    /// on, since either hides it. Where memory runs out, nothing changes.
    pub fn touch(
        &mut self,
        key: &Key,
        stood: Stood,
        item: Option<SharedItem>,
    ) -> Result<(), AllocError>
        requires { is_touched self.old key.now ≡ false }
        ensures ok { OnOk result (self.new ≡ with_touched self.old key.now stood item) }
        ensures touched { OnOk result (is_touched self.new key.now ≡ true) }
        ensures err { OnErr result (self.new ≡ self.old) }
    {
        self.touches.note(key, stood)?;
        if let Err(error) = self.copy(item) {
            self.touches.forget(key);
            return Err(error);
        }
        Ok(())
    }

    // Copies what stood at a key.
    fn copy(&mut self, item: Option<SharedItem>) -> Result<(), AllocError>
        ensures view { OnOk result (self.new.view ≡ with_some self.old.view item) }
        ensures err { OnErr result (self.new.view ≡ self.old.view) }
        ensures touched { self.new.touched ≡ self.old.touched }
        ensures passed { self.new.passed ≡ self.old.passed }
    {
        match item {
            Some(item) => self.ledger.put(item),
            None => Ok(()),
        }
    }

    /// Sets an item at a touched key. Where memory runs out, nothing changes.
    pub fn put(&mut self, item: SharedItem) -> Result<(), AllocError>
        requires { is_touched self.old (key_of item) ≡ true }
        ensures ok { OnOk result (self.new ≡ with_put self.old item) }
        ensures err { OnErr result (self.new ≡ self.old) }
    {
        let key = key_of(&item);
        let last = item.share()?;
        self.ledger.put(item)?;
        self.touches.note_last(&key, last);
        Ok(())
    }

    /// Takes the item of a touched key. Where memory runs out, nothing changes.
    pub fn take(&mut self, key: &Key) -> Result<(), AllocError>
        requires { is_touched self.old key.now ≡ true }
        ensures ok { OnOk result (self.new ≡ with_taken self.old key.now) }
        ensures err { OnErr result (self.new ≡ self.old) }
    {
        self.ledger.take(key)
    }

    // Whether the last view has no say at a key any more.
    pub(crate) fn hides(&self, key: &Key) -> bool
        ensures { result ≡ was_used self.now.view key.now }
    {
        self.ledger.ledger().was_used(WORKING, key)
    }

    /// The item at a touched key.
    pub fn item(&self, key: &Key) -> Option<&SharedItem>
        ensures { option_map (λ i. i.now) result ≡ map.get self.now.view.items key.now }
    {
        self.ledger.ledger().item(WORKING, key)
    }

    /// Whether a touched key had a row, or an item was put there. Whether it was used without
    /// either, by a number that was passed on, the last view says.
    pub fn was_used(&self, key: &Key) -> bool
        ensures { result ≡ was_used_in self.now key.now }
    {
        self.hides(key) || self.touches.stood(key) != Stood::NoRow
    }

    /// The touched keys, each once, in key order.
    pub fn touched(&self, alloc: Global) -> Result<Vec<Key>, AllocError>
        ensures { IfOk result (λ keys. keys.items ≡ map.keys self.now.touched) }
    {
        self.touches.keys(alloc)
    }

    /// What is to be written for a key when the volume is kept.
    pub fn writing(&self, key: &Key) -> Result<Writing, AllocError>
        ensures { IfOk result (λ w. w ≡ writing_at self.now key.now) }
    {
        let stands = self.item(key).is_some();
        match self.touches.get(key) {
            Some(touch) => touch.writing(stands),
            None => Ok(Writing {
                closes: None,
                adds: None,
            }),
        }
    }
}
