//! The calls that a keeper for tests passes on.
ghost use Rattle.std.specs.Prelude.{◌≡◌, ◌≢◌, true};
ghost use Rattle.std.specs.Option.{IsSome};
ghost use Rattle.gaz_records.specs.Items.{is_entry};
ghost use Rattle.gaz_records.specs.Kinds.{is_entry_kind};
ghost use Rattle.gaz_views.specs.Numbered.{as_blpu};
ghost use Rattle.gaz_faulty.specs.Calls.{CountsAs};
ghost use Rattle.gaz_faulty.specs.Around.{seen_around};
ghost use Rattle.gaz_faulty.specs.Faulting.{progress_around};
ghost use Rattle.gaz_keeper.specs.Keeper.{Idle, IsNotOpen, IsOpen, Refuses};
ghost use Rattle.gaz_keeper.specs.Telling.{Abandons, Adopts, Applies, Begins, Puts, Receives};
ghost use Rattle.gaz_keeper.specs.Telling.{Releases, Skips, Takes};
ghost use Rattle.gaz_keeper.specs.Telling.{TellsApprovedOf, TellsApprovedOn, TellsAt};
ghost use Rattle.gaz_keeper.specs.Telling.{TellsChildren};
ghost use Rattle.gaz_keeper.specs.Telling.{TellsCurrent, TellsCustody, TellsCustodyAt};
ghost use Rattle.gaz_keeper.specs.Telling.{TellsEver, TellsHeld, TellsNothing};
ghost use Rattle.gaz_keeper.specs.Telling.{TellsPage};
ghost use Rattle.gaz_keeper.specs.Telling.{TellsPropertyOf, TellsReached, TellsReceived};
ghost use Rattle.gaz_keeper.specs.Telling.{TellsTied, TellsVerdict};

use crate::calls::Counted;
use crate::faulty::Faulty;
use gaz_ids::{Code, Hop, Lang, Uprn, Usrn, Volume};
use gaz_keeper::{Inbox, Shelf, ShelfFault};
use gaz_records::{Key, Kind, SharedItem};
use gaz_views::{Custody, Property, Verdict};

// What a call says of the content it says as every keeper; beside that it counts as the call that
// it is.
impl<K: Inbox + Drop> Shelf for Faulty<K> {
    ghost seen = { seen_around };

    fn reached(&mut self, code: Code) -> Result<u64, ShelfFault>
        ensures reads { TellsReached seen_around self.old self.new result code }
        ensures counts { CountsAs Counted.Reached
            self.old.plan self.new.plan self.old.broken result }
    {
        self.admit(Counted::Reached)?;
        self.inner.reached(code)
    }

    fn verdict(&mut self, code: Code, volume: Volume) -> Result<Option<Verdict>, ShelfFault>
        ensures reads { TellsVerdict seen_around self.old self.new result code volume }
        ensures counts { CountsAs Counted.Verdict
            self.old.plan self.new.plan self.old.broken result }
    {
        self.admit(Counted::Verdict)?;
        self.inner.verdict(code, volume)
    }

    fn current(&mut self, code: Code, key: &Key) -> Result<Option<SharedItem>, ShelfFault>
        ensures reads { TellsCurrent seen_around self.old self.new result code key.now }
        ensures counts { CountsAs Counted.Current
            self.old.plan self.new.plan self.old.broken result }
    {
        self.admit(Counted::Current)?;
        self.inner.current(code, key)
    }

    fn at(&mut self, code: Code, volume: u64, key: &Key) -> Result<Option<SharedItem>, ShelfFault>
        ensures reads { TellsAt seen_around self.old self.new result code volume key.now }
        ensures counts { CountsAs Counted.At self.old.plan self.new.plan self.old.broken result }
    {
        self.admit(Counted::At)?;
        self.inner.at(code, volume, key)
    }

    fn ever(&mut self, code: Code, key: &Key) -> Result<bool, ShelfFault>
        ensures reads { TellsEver seen_around self.old self.new result code key.now }
        ensures counts { CountsAs Counted.Ever self.old.plan self.new.plan self.old.broken result }
    {
        self.admit(Counted::Ever)?;
        self.inner.ever(code, key)
    }

    fn approved_of(&mut self, code: Code, uprn: Uprn) -> Result<Vec<Key>, ShelfFault>
        ensures reads { TellsApprovedOf seen_around self.old self.new result code uprn }
        ensures counts { CountsAs Counted.ApprovedOf
            self.old.plan self.new.plan self.old.broken result }
    {
        self.admit(Counted::ApprovedOf)?;
        self.inner.approved_of(code, uprn)
    }

    fn property_of(&mut self, code: Code, uprn: Uprn) -> Result<Option<Property>, ShelfFault>
        ensures reads { TellsPropertyOf seen_around self.old self.new result code uprn }
        ensures counts { CountsAs Counted.PropertyOf
            self.old.plan self.new.plan self.old.broken result }
    {
        self.admit(Counted::PropertyOf)?;
        self.inner.property_of(code, uprn)
    }

    fn approved_on(
        &mut self,
        code: Code,
        usrn: Usrn,
        lang: Option<Lang>,
    ) -> Result<bool, ShelfFault>
        ensures reads { TellsApprovedOn seen_around self.old self.new result code usrn lang }
        ensures counts { CountsAs Counted.ApprovedOn
            self.old.plan self.new.plan self.old.broken result }
    {
        self.admit(Counted::ApprovedOn)?;
        self.inner.approved_on(code, usrn, lang)
    }

    fn children(&mut self, code: Code, uprn: Uprn) -> Result<bool, ShelfFault>
        ensures reads { TellsChildren seen_around self.old self.new result code uprn }
        ensures counts { CountsAs Counted.Children
            self.old.plan self.new.plan self.old.broken result }
    {
        self.admit(Counted::Children)?;
        self.inner.children(code, uprn)
    }

    fn custody(&mut self, code: Code, uprn: Uprn) -> Result<Option<Custody>, ShelfFault>
        ensures reads { TellsCustody seen_around self.old self.new result code uprn }
        ensures counts { CountsAs Counted.Custody
            self.old.plan self.new.plan self.old.broken result }
    {
        self.admit(Counted::Custody)?;
        self.inner.custody(code, uprn)
    }

    fn custody_at(
        &mut self,
        code: Code,
        volume: u64,
        uprn: Uprn,
    ) -> Result<Option<Custody>, ShelfFault>
        ensures reads { TellsCustodyAt seen_around self.old self.new result code volume uprn }
        ensures counts { CountsAs Counted.CustodyAt
            self.old.plan self.new.plan self.old.broken result }
    {
        self.admit(Counted::CustodyAt)?;
        self.inner.custody_at(code, volume, uprn)
    }

    fn tied(&mut self, code: Code, uprn: Uprn) -> Result<bool, ShelfFault>
        ensures reads { TellsTied seen_around self.old self.new result code uprn }
        ensures counts { CountsAs Counted.Tied self.old.plan self.new.plan self.old.broken result }
    {
        self.admit(Counted::Tied)?;
        self.inner.tied(code, uprn)
    }

    fn page(
        &mut self,
        code: Code,
        volume: u64,
        kind: Kind,
        after: Option<Key>,
        most: usize,
    ) -> Result<Vec<SharedItem>, ShelfFault>
        requires { is_entry_kind kind ≡ true }
        ensures reads { TellsPage seen_around self.old self.new result code volume kind after most }
        ensures counts { CountsAs Counted.Page self.old.plan self.new.plan self.old.broken result }
    {
        self.admit(Counted::Page)?;
        self.inner.page(code, volume, kind, after, most)
    }

    fn begin(&mut self, code: Code) -> Result<(), ShelfFault>
        requires { IsNotOpen (progress_around self.old.broken (K.seen self.old.inner).progress) }
        ensures goes { Begins seen_around self.old self.new result code }
        ensures counts { CountsAs Counted.Begin self.old.plan self.new.plan self.old.broken result }
    {
        if self.plan.is_due(Counted::Begin) {
            self.broken = true;
            return Err(self.plan.fail());
        }
        self.broken = false;
        let begun = self.inner.begin(code);
        self.broken = begun.is_err();
        begun
    }

    fn put(&mut self, item: SharedItem) -> Result<(), ShelfFault>
        requires begun { progress_around self.old.broken (K.seen self.old.inner).progress ≢ Idle }
        requires entry { is_entry item ≡ true }
        ensures sets { Puts seen_around self.old self.new result item }
        ensures refuses { Refuses (seen_around self.old) result }
        ensures counts { CountsAs Counted.Put self.old.plan self.new.plan self.old.broken result }
    {
        if self.is_stopped(Counted::Put) {
            return Err(self.break_off());
        }
        let put = self.inner.put(item);
        self.broken = put.is_err();
        put
    }

    fn take(&mut self, key: &Key) -> Result<(), ShelfFault>
        requires { progress_around self.old.broken (K.seen self.old.inner).progress ≢ Idle }
        ensures sets { Takes seen_around self.old self.new result key.now }
        ensures refuses { Refuses (seen_around self.old) result }
        ensures counts { CountsAs Counted.Take self.old.plan self.new.plan self.old.broken result }
    {
        if self.is_stopped(Counted::Take) {
            return Err(self.break_off());
        }
        let taken = self.inner.take(key);
        self.broken = taken.is_err();
        taken
    }

    fn release(&mut self, uprn: Uprn, to: Code, hop: Hop) -> Result<(), ShelfFault>
        requires { progress_around self.old.broken (K.seen self.old.inner).progress ≢ Idle }
        ensures sets { Releases seen_around self.old self.new result uprn to hop }
        ensures refuses { Refuses (seen_around self.old) result }
        ensures counts { CountsAs Counted.Release
            self.old.plan self.new.plan self.old.broken result }
    {
        if self.is_stopped(Counted::Release) {
            return Err(self.break_off());
        }
        let released = self.inner.release(uprn, to, hop);
        self.broken = released.is_err();
        released
    }

    fn adopt(&mut self, blpu: SharedItem, from: Code, hop: Hop) -> Result<(), ShelfFault>
        requires begun { progress_around self.old.broken (K.seen self.old.inner).progress ≢ Idle }
        requires blpu { IsSome (as_blpu blpu) }
        ensures sets { Adopts seen_around self.old self.new result blpu from hop }
        ensures refuses { Refuses (seen_around self.old) result }
        ensures counts { CountsAs Counted.Adopt self.old.plan self.new.plan self.old.broken result }
    {
        if self.is_stopped(Counted::Adopt) {
            return Err(self.break_off());
        }
        let adopted = self.inner.adopt(blpu, from, hop);
        self.broken = adopted.is_err();
        adopted
    }

    fn keep(&mut self) -> Result<(), ShelfFault>
        requires { progress_around self.old.broken (K.seen self.old.inner).progress ≢ Idle }
        ensures keeps { Applies seen_around self.old self.new result }
        ensures refuses { Refuses (seen_around self.old) result }
        ensures counts { CountsAs Counted.Keep self.old.plan self.new.plan self.old.broken result }
    {
        if self.is_stopped(Counted::Keep) {
            return Err(self.break_off());
        }
        let kept = self.inner.keep();
        self.broken = kept.is_err();
        kept
    }

    fn abandon(&mut self) -> Result<(), ShelfFault>
        requires { progress_around self.old.broken (K.seen self.old.inner).progress ≢ Idle }
        ensures goes { Abandons seen_around self.old self.new result }
        ensures counts { CountsAs Counted.Abandon
            self.old.plan self.new.plan self.old.broken result }
    {
        if self.plan.is_due(Counted::Abandon) {
            return Err(self.break_off());
        }
        if self.broken {
            self.broken = false;
            return Ok(());
        }
        let abandoned = self.inner.abandon();
        self.broken = abandoned.is_err();
        abandoned
    }

    fn skip(&mut self, code: Code, place: u64, rule: u8) -> Result<(), ShelfFault>
        requires { IsNotOpen (progress_around self.old.broken (K.seen self.old.inner).progress) }
        ensures enters { Skips seen_around self.old self.new result code place rule }
        ensures counts { CountsAs Counted.Skip self.old.plan self.new.plan self.old.broken result }
    {
        self.admit(Counted::Skip)?;
        self.inner.skip(code, place, rule)
    }
}

impl<K: Inbox + Drop> Inbox for Faulty<K> {
    fn received(&mut self, code: Code, volume: Volume) -> Result<Option<Vec<u8>>, ShelfFault>
        ensures reads { TellsReceived seen_around self.old self.new result code volume }
        ensures counts { CountsAs Counted.Received
            self.old.plan self.new.plan self.old.broken result }
    {
        self.admit(Counted::Received)?;
        self.inner.received(code, volume)
    }

    fn receive(&mut self, code: Code, volume: Volume, bytes: &[u8]) -> Result<(), ShelfFault>
        requires { IsNotOpen (progress_around self.old.broken (K.seen self.old.inner).progress) }
        ensures enters { Receives seen_around self.old self.new result code volume bytes.now }
        ensures open { IsOpen (seen_around self.new) result }
        ensures counts { CountsAs Counted.Receive
            self.old.plan self.new.plan self.old.broken result }
    {
        self.admit(Counted::Receive)?;
        self.inner.receive(code, volume, bytes)
    }

    fn held(&mut self, code: Code) -> Result<u64, ShelfFault>
        ensures reads { TellsHeld seen_around self.old self.new result code }
        ensures counts { CountsAs Counted.Held self.old.plan self.new.plan self.old.broken result }
    {
        self.admit(Counted::Held)?;
        self.inner.held(code)
    }

    fn sure(&mut self) -> Result<(), ShelfFault>
        ensures reads { TellsNothing seen_around self.old self.new result }
        ensures open { IsOpen (seen_around self.new) result }
        ensures counts { CountsAs Counted.Sure self.old.plan self.new.plan self.old.broken result }
    {
        self.admit(Counted::Sure)?;
        self.inner.sure()
    }
}
