//! What is asked of a keeper of boards.
ghost use Rattle.std.specs.Prelude.{◌≡◌, ◌≢◌, true};
ghost use Rattle.std.specs.Option.{IsSome};
ghost use Rattle.gaz_records.specs.Items.{is_entry};
ghost use Rattle.gaz_records.specs.Kinds.{is_entry_kind};
ghost use Rattle.gaz_views.specs.Numbered.{as_blpu};
ghost use Rattle.gaz_keeper.specs.Keeper.{Idle, IsNotOpen, IsOpen, Refuses, Seen};
ghost use Rattle.gaz_keeper.specs.Telling.{Abandons, Adopts, Applies, Begins, Puts, Receives};
ghost use Rattle.gaz_keeper.specs.Telling.{Releases, Skips, Takes};
ghost use Rattle.gaz_keeper.specs.Telling.{TellsApprovedOf, TellsApprovedOn, TellsAt};
ghost use Rattle.gaz_keeper.specs.Telling.{TellsChildren};
ghost use Rattle.gaz_keeper.specs.Telling.{TellsCurrent, TellsCustody, TellsCustodyAt};
ghost use Rattle.gaz_keeper.specs.Telling.{TellsEver, TellsHeld, TellsNothing};
ghost use Rattle.gaz_keeper.specs.Telling.{TellsPage};
ghost use Rattle.gaz_keeper.specs.Telling.{TellsPropertyOf, TellsReached, TellsReceived};
ghost use Rattle.gaz_keeper.specs.Telling.{TellsTied, TellsVerdict};

use crate::fault::ShelfFault;
use gaz_ids::{Code, Hop, Lang, Uprn, Usrn, Volume};
use gaz_records::{Key, Kind, SharedItem};
use gaz_views::{Custody, Property, Verdict};

/// A keeper: it keeps each custodian's views and verdicts, and at most one judgement in progress.
///
/// Every call may answer a fault: `Memory`, or `Store`, which is counted. What is said of the
/// content is said where the keeper stood for one before the call, and nobody else wrote on it nor
/// did a failure shut it up to the call's end.
pub trait Shelf {
    /// What is there at a moment.
    ghost seen: { Self → Seen };

    /// How many volumes of a custodian are judged.
    fn reached(&mut self, code: Code) -> Result<u64, ShelfFault>
        ensures { TellsReached seen self.old self.new result code };

    /// The verdict on a volume, where it is judged.
    fn verdict(&mut self, code: Code, volume: Volume) -> Result<Option<Verdict>, ShelfFault>
        ensures { TellsVerdict seen self.old self.new result code volume };

    /// The item at a key, in the working view of a custodian that is being judged, else in its
    /// last.
    fn current(&mut self, code: Code, key: &Key) -> Result<Option<SharedItem>, ShelfFault>
        ensures { TellsCurrent seen self.old self.new result code key.now };

    /// The item at a key after a volume, which is to be reached; after volume 0 there is none.
    fn at(&mut self, code: Code, volume: u64, key: &Key) -> Result<Option<SharedItem>, ShelfFault>
        ensures { TellsAt seen self.old self.new result code volume key.now };

    /// Whether the key was ever used, in the view of `current` or before it.
    fn ever(&mut self, code: Code, key: &Key) -> Result<bool, ShelfFault>
        ensures { TellsEver seen self.old self.new result code key.now };

    /// The keys of a BLPU's approved LPIs in the view of `current`, in key order.
    fn approved_of(&mut self, code: Code, uprn: Uprn) -> Result<Vec<Key>, ShelfFault>
        ensures { TellsApprovedOf seen self.old self.new result code uprn };

    /// A BLPU in the view of `current` with its approved LPI: that of the least key, where there
    /// are several.
    fn property_of(&mut self, code: Code, uprn: Uprn) -> Result<Option<Property>, ShelfFault>
        ensures { TellsPropertyOf seen self.old self.new result code uprn };

    /// Whether an approved LPI in the view of `current` is on a street, and in this language where
    /// one is given.
    fn approved_on(
        &mut self,
        code: Code,
        usrn: Usrn,
        lang: Option<Lang>,
    ) -> Result<bool, ShelfFault>
        ensures { TellsApprovedOn seen self.old self.new result code usrn lang };

    /// Whether a BLPU in the view of `current` is a part of this one.
    fn children(&mut self, code: Code, uprn: Uprn) -> Result<bool, ShelfFault>
        ensures { TellsChildren seen self.old self.new result code uprn };

    /// What last became of a number, in the view of `current`.
    fn custody(&mut self, code: Code, uprn: Uprn) -> Result<Option<Custody>, ShelfFault>
        ensures { TellsCustody seen self.old self.new result code uprn };

    /// What last became of a number after a volume, which is to be reached; after volume 0 nothing.
    fn custody_at(
        &mut self,
        code: Code,
        volume: u64,
        uprn: Uprn,
    ) -> Result<Option<Custody>, ShelfFault>
        ensures { TellsCustodyAt seen self.old self.new result code volume uprn };

    /// Whether an LPI or a cross reference, of whatever status, in the view of `current` names a
    /// BLPU.
    fn tied(&mut self, code: Code, uprn: Uprn) -> Result<bool, ShelfFault>
        ensures { TellsTied seen self.old self.new result code uprn };

    /// The first `most` items of a kind of entries after a key, or from the start, in key order,
    /// after a volume, which is to be reached.
    fn page(
        &mut self,
        code: Code,
        volume: u64,
        kind: Kind,
        after: Option<Key>,
        most: usize,
    ) -> Result<Vec<SharedItem>, ShelfFault>
        requires { is_entry_kind kind ≡ true }
        ensures { TellsPage seen self.old self.new result code volume kind after most };

    /// Begins the judgement of a custodian's next volume, which is to be at hand, on its last view.
    fn begin(&mut self, code: Code) -> Result<(), ShelfFault>
        requires { IsNotOpen (seen self.old).progress }
        ensures { Begins seen self.old self.new result code };

    /// Sets an item, which is to be an entry, in the working view.
    fn put(&mut self, item: SharedItem) -> Result<(), ShelfFault>
        requires begun { (seen self.old).progress ≢ Idle }
        requires entry { is_entry item ≡ true }
        ensures sets { Puts seen self.old self.new result item }
        ensures refuses { Refuses (seen self.old) result };

    /// Takes a key's item from the working view.
    fn take(&mut self, key: &Key) -> Result<(), ShelfFault>
        requires { (seen self.old).progress ≢ Idle }
        ensures sets { Takes seen self.old self.new result key.now }
        ensures refuses { Refuses (seen self.old) result };

    /// Releases a number to another custodian, in the working view: its BLPU is taken, and its key
    /// counts as used, also where none ever stood.
    fn release(&mut self, uprn: Uprn, to: Code, hop: Hop) -> Result<(), ShelfFault>
        requires { (seen self.old).progress ≢ Idle }
        ensures sets { Releases seen self.old self.new result uprn to hop }
        ensures refuses { Refuses (seen self.old) result };

    /// Adopts an item, which is to be a BLPU, from another custodian, in the working view.
    fn adopt(&mut self, blpu: SharedItem, from: Code, hop: Hop) -> Result<(), ShelfFault>
        requires begun { (seen self.old).progress ≢ Idle }
        requires blpu { IsSome (as_blpu blpu) }
        ensures sets { Adopts seen self.old self.new result blpu from hop }
        ensures refuses { Refuses (seen self.old) result };

    /// Ends the judgement: the volume is applied, and the working view is its custodian's next.
    fn keep(&mut self) -> Result<(), ShelfFault>
        requires { (seen self.old).progress ≢ Idle }
        ensures keeps { Applies seen self.old self.new result }
        ensures refuses { Refuses (seen self.old) result };

    /// Gives the judgement up, or clears a broken one.
    fn abandon(&mut self) -> Result<(), ShelfFault>
        requires { (seen self.old).progress ≢ Idle }
        ensures { Abandons seen self.old self.new result };

    /// Judges a custodian's next volume, which is to be at hand, as rejected: its last view is its
    /// next.
    fn skip(&mut self, code: Code, place: u64, rule: u8) -> Result<(), ShelfFault>
        requires { IsNotOpen (seen self.old).progress }
        ensures { Skips seen self.old self.new result code place rule };
}

/// Keeps the received files beside the board. The volumes at hand are those received.
pub trait Inbox: Shelf {
    /// The bytes of a file, where it was received.
    fn received(&mut self, code: Code, volume: Volume) -> Result<Option<Vec<u8>>, ShelfFault>
        ensures { TellsReceived Self.seen self.old self.new result code volume };

    /// Receives a file, which is to be a new one.
    fn receive(&mut self, code: Code, volume: Volume, bytes: &[u8]) -> Result<(), ShelfFault>
        requires { IsNotOpen (Self.seen self.old).progress }
        ensures enters { Receives Self.seen self.old self.new result code volume bytes.now }
        ensures open { IsOpen (Self.seen self.new) result };

    /// How many files of a custodian are received and not judged.
    fn held(&mut self, code: Code) -> Result<u64, ShelfFault>
        ensures { TellsHeld Self.seen self.old self.new result code };

    /// Makes sure that it can still be asked. What it told before, by an `Ok`, was told while it
    /// could, where this answers so.
    fn sure(&mut self) -> Result<(), ShelfFault>
        ensures reads { TellsNothing Self.seen self.old self.new result }
        ensures open { IsOpen (Self.seen self.new) result };
}
