//! Where a view's items are found beside their keys.
ghost use Rattle.std.specs.Prelude.{◌≡◌, ◌⊎◌, [], true, OnOk, OnErr, Some};
ghost use Rattle.std.specs.Option.{IfSome, option_map_or};
ghost use Rattle.gaz_standing.specs.Changing.{AddsUnder, IsUnderItsMarks, KeepsUnder, SameUnder};
ghost use Rattle.gaz_standing.specs.Changing.{TakesUnder};
ghost use Rattle.gaz_standing.specs.Indexes.{has_mark, is_under, keys_under, listed};
ghost use Rattle.gaz_standing.specs.declared.index.Mark.{Mark};

use crate::keys::Keys;
use crate::seed::Seed;
use crate::words::{is_approved_of, is_approved_on, is_child_of};
use gaz_ids::{Lang, Status, Uprn, Usrn};
use gaz_records::{Item, Key, SharedItem};
use std::alloc::{AllocError, Global};
use std::collections::HashMap;

/// What items are looked up by beside their keys.
#[derive(Clone, Copy, PartialEq, Eq, Hash)]
pub enum Mark {
    /// An approved LPI of this BLPU.
    AddressOf(Uprn),
    /// An approved LPI on this street, in Welsh.
    WelshOn(Usrn),
    /// An approved LPI on this street, in English.
    EnglishOn(Usrn),
    /// A BLPU that is a part of this one.
    PartOf(Uprn),
}

/// The marks of an item, of which there are at most two.
pub type Marks = (Option<Mark>, Option<Mark>);

// An index holds a mark for nearly every property, so each is small.
const _: () = prove!(size_of::<Mark>() == 16);

impl Mark {
    /// Whether an item has the mark.
    pub(crate) fn is_on(&self, item: &Item) -> bool
        ensures { result ≡ has_mark self.now item.now }
    {
        match self {
            Mark::AddressOf(uprn) => is_approved_of(*uprn, item),
            Mark::WelshOn(usrn) => is_approved_on(*usrn, Some(Lang::Cym), item),
            Mark::EnglishOn(usrn) => is_approved_on(*usrn, Some(Lang::Eng), item),
            Mark::PartOf(uprn) => is_child_of(*uprn, item),
        }
    }
}

/// The marks of an item.
pub fn marks_of(item: &Item) -> Marks
    ensures { (m : Mark) → has_mark m item.now ≡ true → (result.0 ≡ Some m) ⊎ (result.1 ≡ Some m) }
{
    match item {
        Item::Lpi(lpi) => match (lpi.status, lpi.lang) {
            (Status::Approved, Lang::Cym) => (
                Some(Mark::AddressOf(lpi.uprn)),
                Some(Mark::WelshOn(lpi.usrn)),
            ),
            (Status::Approved, Lang::Eng) => (
                Some(Mark::AddressOf(lpi.uprn)),
                Some(Mark::EnglishOn(lpi.usrn)),
            ),
            _ => (None, None),
        },
        Item::Blpu(blpu) => match blpu.parent {
            Some(parent) => (Some(Mark::PartOf(parent)), None),
            None => (None, None),
        },
        _ => (None, None),
    }
}

/// Keys by the marks under which they are looked up.
#[derive(Drop)]
pub struct Index {
    alloc: Global,
    by_mark: HashMap<Mark, Keys, Seed>,
}

impl Index {
    /// No keys.
    pub fn new(alloc: Global, seed: Seed) -> Index
        ensures { (m : Mark) → keys_under result m ≡ [] }
    {
        Index {
            alloc,
            by_mark: HashMap::with_hasher(alloc, seed),
        }
    }

    /// The keys under a mark, in key order.
    pub fn get(&self, mark: Mark) -> Option<&Keys>
        ensures { option_map_or (λ s. listed s.now) result [] ≡ keys_under self.now mark }
    {
        self.by_mark.get(&mark)
    }

    // Adds a key under a mark. Where memory runs out, nothing is added.
    fn add(&mut self, mark: Mark, key: Key) -> Result<(), AllocError>
        ensures ok { OnOk result (AddsUnder self.old self.new mark key) }
        ensures err { OnErr result (SameUnder self.old self.new) }
    {
        let keys = self.by_mark.entry(mark)?.or_insert(Keys::one(key));
        keys.insert(self.alloc, key)
    }

    // Adds a key under a mark, where one is given. Where memory runs out, nothing is added.
    fn add_some(&mut self, mark: Option<Mark>, key: &Key) -> Result<(), AllocError>
        ensures ok { OnOk result ((m : Mark) → mark ≡ Some m → is_under self.new m key.now ≡ true) }
        ensures kept { KeepsUnder self.old self.new }
    {
        match mark {
            Some(mark) => self.add(mark, *key),
            None => Ok(()),
        }
    }

    /// Adds a key under each mark of its item. Where memory runs out, it may be under some of them.
    pub fn add_marks(&mut self, item: &Item, key: &Key) -> Result<(), AllocError>
        ensures ok { OnOk result (IsUnderItsMarks self.new key.now item.now) }
        ensures kept { KeepsUnder self.old self.new }
    {
        let (first, second) = marks_of(item);
        self.add_some(first, key)?;
        self.add_some(second, key)?;
        Ok(())
    }

    /// Adds a key under each mark of its item, where there is one. Where memory runs out, it may be
    /// under some of them.
    pub fn add_marks_of(&mut self, item: &Option<SharedItem>, key: &Key) -> Result<(), AllocError>
        ensures ok { OnOk result (IfSome item.now (IsUnderItsMarks self.new key.now)) }
        ensures kept { KeepsUnder self.old self.new }
    {
        match item {
            Some(item) => self.add_marks(item, key),
            None => Ok(()),
        }
    }

    /// Takes a key from under a mark.
    pub fn remove(&mut self, mark: Mark, key: &Key)
        ensures { TakesUnder self.old self.new mark key.now }
    {
        let Some(keys) = self.by_mark.get_mut(&mark) else {
            return;
        };
        keys.remove(self.alloc, key);
        if keys.is_empty() {
            self.by_mark.remove(&mark);
        }
    }
}
