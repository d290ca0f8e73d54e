//! The list of calls as data: one more in a table costs the proof next to nothing.
use crate::items::Row;
use crate::keepers::passing::Passage;
use crate::keepers::refusal::Refusal;
use crate::writing::Conclusion;
use gaz_ids::{Lang, Uprn, Usrn};
use gaz_keeper::Verdict;
use gaz_records::{Key, Kind, RecordKey};

/// A key, by its number or its text.
pub enum Name {
    Street(u64),
    Blpu(u64),
    Lpi(&'static str),
    Xref(&'static str),
}

impl Name {
    pub(crate) fn key(&self) -> Result<Key, Refusal> {
        self.read().ok_or(Refusal::Misused)
    }

    fn read(&self) -> Option<Key> {
        match self {
            Name::Street(number) => Some(Key::Street(Usrn::of(*number)?)),
            Name::Blpu(number) => Some(Key::Blpu(Uprn::of(*number)?)),
            Name::Lpi(text) => Some(Key::Lpi(RecordKey::read(text.as_bytes())?)),
            Name::Xref(text) => Some(Key::Xref(RecordKey::read(text.as_bytes())?)),
        }
    }
}

/// A number, and what last became of it.
pub type Became = (u64, Option<Passage>);

/// A number, and whether an LPI or a cross reference names it.
pub type Named = (u64, bool);

/// All items of a kind after a volume, by their rows.
pub type View = (u64, Kind, &'static [&'static str]);

/// A page of a kind after a volume and a key, of so many items at most: how many items it has, and
/// the row of the first.
pub type Page = (u64, Kind, Option<Name>, usize, usize, &'static str);

/// A call that writes.
pub enum Act {
    /// A file of a custodian, by its volume.
    Receive(u64, u64),
    /// Its next volume is rejected, by the place and the rule.
    Skip(u64, u64, u8),
    /// Its next volume, which only puts.
    Volume(u64, &'static [Row], Conclusion),
    Begin(u64),
    Put(Row),
    Take(Name),
    /// A number, to a custodian at a hop.
    Release(u64, u64, u64),
    /// The BLPU of a row, from a custodian at a hop.
    Adopt(&'static str, u64, u64),
    Keep,
    Abandon,
}

/// What a keeper is asked of a custodian, and behind that what it is to tell.
pub enum Question {
    /// How many volumes are judged and held, and that it can be asked.
    Counts(u64, u64),
    Verdict(u64, Option<Verdict>),
    /// Whether a volume's file is there.
    File(u64, bool),
    /// The row of a key in the last view, or in that of the judgement in progress.
    Item(Name, Option<&'static str>),
    /// The row of a key after a volume.
    ItemAt(u64, Name, Option<&'static str>),
    /// Whether a key was ever used.
    Used(Name, bool),
    /// Whether a property has parts.
    Parts(u64, bool),
    /// The key of a property's only approved address.
    Address(u64, Name),
    /// The rows of a BLPU and of its address.
    Property(u64, Option<(&'static str, &'static str)>),
    /// Whether an approved address is on a street.
    AddressOn(u64, Option<Lang>, bool),
    Page(Page),
    /// Views that are read to their end, so many items at a time.
    Views(usize, &'static [View]),
    /// What last became of numbers, in the view of `Item`.
    Custody(&'static [Became]),
    /// What last became of numbers after a volume.
    CustodyAt(u64, &'static [Became]),
    /// Which numbers are named, in the view of `Item`.
    Ties(&'static [Named]),
}

/// A call of the list.
pub enum Step {
    Does(Act),
    /// A custodian's number, and what is asked of it.
    Asks(u64, Question),
}

/// Steps, and what they are called where one goes wrong.
pub type Part = (&'static str, &'static [Step]);
