//! Keepers that list what they keep.
ghost use Rattle.std.specs.Prelude.{ℕ, List, IfOk};
ghost use Rattle.gaz_overlay.specs.Passages.{PassageRow};
ghost use Rattle.gaz_loaded.specs.Lives.{AreOf, Told};
ghost use Rattle.gaz_loaded.specs.Passing.{TellsPassages};
ghost use Rattle.gaz_loaded.specs.Telling.{AreEntries, TellsLives, TellsVolumes};

use gaz_ids::{Code, Uprn, Volume};
use gaz_keeper::{Inbox, ShelfFault};
use gaz_records::SharedItem;
use gaz_views::Custody;

/// An item that stood under its key from a volume on, as a keeper lists it.
#[derive(Drop)]
pub struct Life {
    /// Where it is listed; each is at another place.
    pub place: i64,
    /// The custodian.
    pub code: Code,
    /// The volume with which it came.
    pub born: u64,
    /// The volume with which it went, if it did.
    pub gone: Option<u64>,
    /// The item, an entry.
    pub item: SharedItem,
}

/// What became of a custodian's number at a volume, as a keeper lists it.
#[derive(Clone, Copy, PartialEq, Eq)]
pub struct Passage {
    /// The number.
    pub uprn: Uprn,
    /// The volume with which it became so.
    pub born: u64,
    /// What became of it.
    pub custody: Custody,
}

/// A keeper that lists what it keeps.
pub trait Listed: Inbox {
    /// The lives that it lists.
    ghost lives: { Self → List Told };

    /// What it lists of what became of a custodian's numbers.
    ghost passages: { Self → ℕ → List PassageRow };

    /// Received volumes of a custodian above one: some, from the least on, as they rise; none where
    /// there is none.
    fn volumes_above(&mut self, code: Code, volume: u64) -> Result<Vec<Volume>, ShelfFault>
        ensures { TellsVolumes Self.seen self.old self.new result code volume };

    /// Lives behind a place, or from the start: some, from the first on, as their places rise; none
    /// where there is none.
    fn lives_behind(&mut self, place: Option<i64>) -> Result<Vec<Life>, ShelfFault>
        ensures tells { TellsLives Self.seen Self.lives self.old self.new result place }
        ensures entries { IfOk result (λ lives. AreEntries lives.items) };

    /// What became of a custodian's numbers, behind one that was told or from the start: some, from
    /// the first on, as the numbers rise and for each as the volumes do; none where there is none.
    fn passages_behind(
        &mut self,
        code: Code,
        after: Option<Passage>,
    ) -> Result<Vec<Passage>, ShelfFault>
        ensures { TellsPassages Self.seen Self.passages self.old self.new result code after };

    /// Its views are made of what it lists.
    ghost made: { (k : Self) → (Self.Shelf.seen k).stands
        → AreOf (Self.lives k) (Self.passages k) (Self.Shelf.seen k).content.board };
}
