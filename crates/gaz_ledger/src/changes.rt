//! Changes of what stands at keys and of what is found under marks, at the volume after those
//! reached.
ghost use Rattle.std.specs.Prelude.{◌≡◌, ◌⊎◌, ◌≤◌, ◌<◌, ◌+◌, ◌-◌, ◌^◌, [], ℕ, IfOk, OnOk, OnErr};
ghost use Rattle.gaz_standing.specs.Changing.{AreMarksAt, CutsAt, SetsAt};
ghost use Rattle.gaz_standing.specs.KeyHistories.{view_at};
ghost use Rattle.gaz_standing.specs.Ties.{AreTies};
ghost use Rattle.gaz_ledger.specs.Ledgers.{Finds, IsLedger};

use gaz_records::{Key, SharedItem};
use gaz_standing::{Histories, Index, Mark, Marks, Ties, is_marked, marks_at, marks_of};
use std::alloc::AllocError;

/// A key whose item had a mark and has it no more.
#[derive(Clone, Copy)]
pub struct Leaving {
    mark: Mark,
    key: Key,
}

// Forgets a mark of a key where its item has it neither in the last view nor in the working one.
fn forget_mark(
    histories: &Histories,
    index: &mut Index,
    reached: u64,
    key: &Key,
    mark: Option<Mark>,
)
    requires { reached < 2 ^ 64 - 1 }
    ensures { Finds index.old histories.now reached → Finds index.new histories.now reached }
{
    if let Some(mark) = mark {
        if !is_marked(histories, reached, &mark, key)
            && !is_marked(histories, reached + 1, &mark, key)
        {
            index.remove(mark, key);
        }
    }
}

/// Forgets each of two marks of a key where its item has it neither in the last view nor in the
/// working one.
pub fn forget(histories: &Histories, index: &mut Index, reached: u64, key: &Key, marks: Marks)
    requires { reached < 2 ^ 64 - 1 }
    ensures { Finds index.old histories.now reached → Finds index.new histories.now reached }
{
    let (first, second) = marks;
    forget_mark(histories, index, reached, key, first);
    forget_mark(histories, index, reached, key, second);
}

// Sets an item at a key, under its marks, or takes the one that stands there.
// Answers the marks of that one.
fn set_found(
    histories: &mut Histories,
    index: &mut Index,
    reached: u64,
    key: Key,
    item: Option<SharedItem>,
) -> Result<Marks, AllocError>
    requires { reached < 2 ^ 64 - 1 }
    ensures ok { OnOk result (SetsAt histories.old histories.new (reached + 1) key item) }
    ensures err { OnErr result (histories.new ≡ histories.old) }
    ensures finds { Finds index.old histories.old reached → Finds index.new histories.new reached }
    ensures marks { IfOk result (AreMarksAt (view_at histories.old (reached + 1)) key) }
{
    index.add_marks_of(&item, &key)?;
    Ok(histories.set(reached + 1, key, item)?)
}

// Notes that a key leaves a mark, if it is not among those that its item has now.
fn note_mark(leaving: &mut Vec<Leaving>, key: &Key, mark: Option<Mark>, stays: &Marks)
    ensures { (mark ≡ stays.now.0) ⊎ (mark ≡ stays.now.1) → leaving.new.items ≡ leaving.old.items }
{
    if mark == stays.0 || mark == stays.1 {
        return;
    }
    if let Some(mark) = mark {
        // Where memory runs out, the key stays under the mark and is passed over there.
        let _ = leaving.push(Leaving { mark, key: *key });
    }
}

// Notes which of two marks a key leaves, that are not among those that its item has now.
fn note(leaving: &mut Vec<Leaving>, key: &Key, marks: &Marks, stays: &Marks)
    ensures { marks.now ≡ stays.now → leaving.new.items ≡ leaving.old.items }
{
    note_mark(leaving, key, marks.0, stays);
    note_mark(leaving, key, marks.1, stays);
}

/// Sets an item at a key, under its marks, or takes the one that stands there, and notes the marks
/// that are left without an item. Answers the marks of the item that stood there.
pub fn change(
    histories: &mut Histories,
    index: &mut Index,
    leaving: &mut Vec<Leaving>,
    ties: &mut Ties,
    reached: u64,
    key: &Key,
    item: Option<SharedItem>,
) -> Result<Marks, AllocError>
    requires { reached < 2 ^ 64 - 1 }
    ensures ok { OnOk result (SetsAt histories.old histories.new (reached + 1) key.now item) }
    ensures err { OnErr result (histories.new ≡ histories.old) }
    ensures finds { Finds index.old histories.old reached → Finds index.new histories.new reached }
    ensures ties { AreTies ties.old histories.old reached (reached + 1)
        → AreTies ties.new histories.new reached (reached + 1) }
    ensures marks { IfOk result (AreMarksAt (view_at histories.old (reached + 1)) key.now) }
{
    ties.note(&item, key);
    let comes = match &item {
        Some(item) => marks_of(item),
        None => (None, None),
    };
    match set_found(histories, index, reached, *key, item) {
        Ok(was) => {
            note(leaving, key, &was, &comes);
            Ok(was)
        }
        Err(error) => {
            forget(histories, index, reached, key, comes);
            Err(error)
        }
    }
}

// A key is again as the last view has it.
fn undo_key(histories: &mut Histories, index: &mut Index, reached: u64, key: &Key)
    requires { reached < 2 ^ 64 - 1 }
    ensures change { CutsAt histories.old histories.new (reached + 1) key.now }
    ensures finds { Finds index.old histories.old reached → Finds index.new histories.new reached }
{
    let was = marks_at(histories, reached + 1, key);
    histories.cut(reached + 1, key);
    forget(histories, index, reached, key, was);
}

/// All keys that were touched are as the last view has them. The views so far stay.
pub fn undo_all(histories: &mut Histories, index: &mut Index, reached: u64, touched: &mut Vec<Key>)
    requires bound { reached < 2 ^ 64 - 1 }
    requires ledger { IsLedger reached histories.old index.old touched.old.items }
    ensures ledger { IsLedger reached histories.new index.new touched.new.items }
    ensures undone { touched.new.items ≡ [] }
    ensures past { (volume : ℕ) → volume ≤ reached
        → view_at histories.new volume ≡ view_at histories.old volume }
{
    while let Some(key) = touched.pop() {
        undo_key(histories, index, reached, &key);
    }
}

/// Forgets the marks that keys left, and that their items have neither in the last view nor in the
/// working one.
pub fn forget_all(
    histories: &Histories,
    index: &mut Index,
    reached: u64,
    leaving: &mut Vec<Leaving>,
)
    requires { reached < 2 ^ 64 - 1 }
    ensures finds { Finds index.old histories.now reached → Finds index.new histories.now reached }
    ensures none { leaving.new.items ≡ [] }
{
    while let Some(Leaving { mark, key }) = leaving.pop() {
        forget_mark(histories, index, reached, &key, Some(mark));
    }
}
