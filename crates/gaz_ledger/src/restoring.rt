//! An item's life is put back into a ledger.
ghost use Rattle.std.specs.Prelude.{◌≡◌, ◌↔◌, ◌<◌, ◌-◌, ◌^◌, length, IsTrue, None, OnOk, OnErr};
ghost use Rattle.std.specs.Prelude.{Some};
ghost use Rattle.gaz_records.specs.Keys.{key_of};
ghost use Rattle.gaz_standing.specs.Changing.{HasMarksIn, IsUnderItsMarks, KeepsUnder, LivesAt};
ghost use Rattle.gaz_ledger.specs.Ledgers.{Finds};
ghost use Rattle.gaz_ledger.specs.Lives.{IsFreeFrom, IsLifeWithin, Restores};

use crate::cached_ledger::{CachedLedger, forget_changed};
use crate::changes::forget;
use crate::ledger::Ledger;
use gaz_records::{Item, Key, SharedItem, key_of};
use gaz_standing::{Histories, Index, Marks, marks_of};
use std::alloc::AllocError;

impl Ledger {
    /// Whether nothing stands at a key after a volume, nor after any later one.
    pub fn is_free(&self, born: u64, key: &Key) -> bool
        ensures { IsTrue result ↔ IsFreeFrom self.now born key.now }
    {
        self.histories.is_over_by(born, key)
    }

    /// Puts an item's life back. Where memory runs out, nothing changes.
    pub(crate) fn restore(
        &mut self,
        born: u64,
        gone: Option<u64>,
        item: SharedItem,
    ) -> Result<(), AllocError>
        requires { IsLifeWithin (length self.old.judged) born gone }
        ensures ok { OnOk result (Restores self.old self.new born gone item) }
        ensures err { OnErr result (self.new ≡ self.old) }
    {
        let reached = self.reached();
        let key = key_of(&item);
        self.ties.forget();
        Ok(live_found(
            &mut self.histories,
            &mut self.index,
            reached,
            born,
            gone,
            &key,
            item,
        )?)
    }
}

impl CachedLedger {
    /// Puts an item's life back under a key at which nothing stands from then on. Where memory runs
    /// out, nothing changes.
    pub fn restore(
        &mut self,
        born: u64,
        gone: Option<u64>,
        item: SharedItem,
    ) -> Result<(), AllocError>
        requires within { IsLifeWithin (length self.old.judged) born gone }
        requires free { IsFreeFrom self.old born (key_of item) }
        ensures ok { OnOk result (Restores self.old self.new born gone item) }
        ensures err { OnErr result (self.new ≡ self.old) }
    {
        let key = key_of(&item);
        let comes = marks_left(gone, &item);
        self.ledger.restore(born, gone, item)?;
        let was = (None, None);
        forget_changed(&mut self.known, &mut self.changed, &key, &was, &comes);
        Ok(())
    }
}

// The marks of an item that goes on standing; none of one that is gone.
fn marks_left(gone: Option<u64>, item: &Item) -> Marks
    ensures { gone ≡ None → HasMarksIn (Some item.now) result }
{
    match gone {
        Some(_) => (None, None),
        None => marks_of(item),
    }
}

// Adds a key under the marks of an item that goes on standing. Where memory runs out, it may be
// under some of them.
fn add_marks_left(
    index: &mut Index,
    gone: Option<u64>,
    item: &Item,
    key: &Key,
) -> Result<(), AllocError>
    ensures ok { OnOk result (gone ≡ None → IsUnderItsMarks index.new key.now item.now) }
    ensures kept { KeepsUnder index.old index.new }
{
    match gone {
        Some(_) => Ok(()),
        None => index.add_marks(item, key),
    }
}

// An item stands at a key from a volume on, and until another where one is given.
fn live_marked(
    histories: &mut Histories,
    index: &mut Index,
    reached: u64,
    born: u64,
    gone: Option<u64>,
    key: &Key,
    item: SharedItem,
) -> Result<(), AllocError>
    requires { IsLifeWithin reached born gone }
    ensures ok { OnOk result (LivesAt histories.old histories.new key.now born gone item) }
    ensures err { OnErr result (histories.new ≡ histories.old) }
    ensures finds { Finds index.old histories.old reached → Finds index.new histories.new reached }
{
    add_marks_left(index, gone, &item, key)?;
    Ok(histories.live(born, gone, key, item)?)
}

// An item stands at a key from a volume on, and until another where one is given. Where memory runs
// out, the key is no more under marks than it was.
fn live_found(
    histories: &mut Histories,
    index: &mut Index,
    reached: u64,
    born: u64,
    gone: Option<u64>,
    key: &Key,
    item: SharedItem,
) -> Result<(), AllocError>
    requires bound { reached < 2 ^ 64 - 1 }
    requires within { IsLifeWithin reached born gone }
    ensures ok { OnOk result (LivesAt histories.old histories.new key.now born gone item) }
    ensures err { OnErr result (histories.new ≡ histories.old) }
    ensures finds { Finds index.old histories.old reached → Finds index.new histories.new reached }
{
    let comes = marks_left(gone, &item);
    match live_marked(histories, index, reached, born, gone, key, item) {
        Ok(()) => Ok(()),
        Err(error) => {
            forget(histories, index, reached, key, comes);
            Err(error)
        }
    }
}
