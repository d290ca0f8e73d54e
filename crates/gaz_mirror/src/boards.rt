//! The calls of a keeper over two that concern boards.
ghost use Rattle.std.specs.Prelude.{◌≡◌, ◌≢◌, true, IsSome};
ghost use Rattle.gaz_records.specs.Items.{is_entry};
ghost use Rattle.gaz_records.specs.Kinds.{is_entry_kind};
ghost use Rattle.gaz_views.specs.Numbered.{as_blpu};
ghost use Rattle.gaz_keeper.specs.Keeper.{Idle, IsNotOpen, Refuses};
ghost use Rattle.gaz_keeper.specs.Telling.{Abandons, Adopts, Applies, Begins, Puts, Releases};
ghost use Rattle.gaz_keeper.specs.Telling.{Skips, Takes, TellsApprovedOf, TellsApprovedOn, TellsAt};
ghost use Rattle.gaz_keeper.specs.Telling.{TellsChildren, TellsCurrent, TellsCustody};
ghost use Rattle.gaz_keeper.specs.Telling.{TellsCustodyAt, TellsEver, TellsPage, TellsPropertyOf};
ghost use Rattle.gaz_keeper.specs.Telling.{TellsReached, TellsTied, TellsVerdict};
ghost use Rattle.gaz_mirror.specs.Mirrored.{DropsUpper, Gathers, KeepsUpper, SparesLower};
ghost use Rattle.gaz_mirror.specs.Mirrored.{seen_mirrored};

use crate::asked::{
    ApprovedOf, ApprovedOn, At, Children, Current, Ever, Page, PropertyOf, Reached, VerdictOn,
};
use crate::asked_custody::{CustodyAt, CustodyOf, Tied};
use crate::gathered::{Adoption, Change, Entry, Gathered};
use crate::mirror::Mirror;
use crate::turns::change;
use crate::unshared::Unshared;
use gaz_ids::{Code, Hop, Lang, Uprn, Usrn, Volume};
use gaz_keeper::{Inbox, Property, Shelf, ShelfFault, Verdict};
use gaz_records::{Key, Kind, SharedItem};
use gaz_views::Custody;

// Beside what every keeper tells: a reading keeps the upper keeper, and a fault of a change leaves
// none. While a judgement is gathered, the lower keeper is as it was.
impl<L: Inbox + Drop, U: Unshared + Drop> Shelf for Mirror<L, U> {
    ghost seen = { seen_mirrored };

    fn reached(&mut self, code: Code) -> Result<u64, ShelfFault>
        ensures reads { TellsReached seen_mirrored self.old self.new result code }
        ensures keeps { KeepsUpper self.old self.new }
    {
        self.read(&Reached { code })
    }

    fn verdict(&mut self, code: Code, volume: Volume) -> Result<Option<Verdict>, ShelfFault>
        ensures reads { TellsVerdict seen_mirrored self.old self.new result code volume }
        ensures keeps { KeepsUpper self.old self.new }
    {
        self.read(&VerdictOn { code, volume })
    }

    fn current(&mut self, code: Code, key: &Key) -> Result<Option<SharedItem>, ShelfFault>
        ensures reads { TellsCurrent seen_mirrored self.old self.new result code key.now }
        ensures keeps { KeepsUpper self.old self.new }
    {
        self.read(&Current { code, key: *key })
    }

    fn at(&mut self, code: Code, volume: u64, key: &Key) -> Result<Option<SharedItem>, ShelfFault>
        ensures reads { TellsAt seen_mirrored self.old self.new result code volume key.now }
        ensures keeps { KeepsUpper self.old self.new }
    {
        self.read(&At {
            code,
            volume,
            key: *key,
        })
    }

    fn ever(&mut self, code: Code, key: &Key) -> Result<bool, ShelfFault>
        ensures reads { TellsEver seen_mirrored self.old self.new result code key.now }
        ensures keeps { KeepsUpper self.old self.new }
    {
        self.read(&Ever { code, key: *key })
    }

    fn approved_of(&mut self, code: Code, uprn: Uprn) -> Result<Vec<Key>, ShelfFault>
        ensures reads { TellsApprovedOf seen_mirrored self.old self.new result code uprn }
        ensures keeps { KeepsUpper self.old self.new }
    {
        self.read(&ApprovedOf { code, uprn })
    }

    fn property_of(&mut self, code: Code, uprn: Uprn) -> Result<Option<Property>, ShelfFault>
        ensures reads { TellsPropertyOf seen_mirrored self.old self.new result code uprn }
        ensures keeps { KeepsUpper self.old self.new }
    {
        self.read(&PropertyOf { code, uprn })
    }

    fn approved_on(
        &mut self,
        code: Code,
        usrn: Usrn,
        lang: Option<Lang>,
    ) -> Result<bool, ShelfFault>
        ensures reads { TellsApprovedOn seen_mirrored self.old self.new result code usrn lang }
        ensures keeps { KeepsUpper self.old self.new }
    {
        self.read(&ApprovedOn { code, usrn, lang })
    }

    fn children(&mut self, code: Code, uprn: Uprn) -> Result<bool, ShelfFault>
        ensures reads { TellsChildren seen_mirrored self.old self.new result code uprn }
        ensures keeps { KeepsUpper self.old self.new }
    {
        self.read(&Children { code, uprn })
    }

    fn custody(&mut self, code: Code, uprn: Uprn) -> Result<Option<Custody>, ShelfFault>
        ensures reads { TellsCustody seen_mirrored self.old self.new result code uprn }
        ensures keeps { KeepsUpper self.old self.new }
    {
        self.read(&CustodyOf { code, uprn })
    }

    fn custody_at(
        &mut self,
        code: Code,
        volume: u64,
        uprn: Uprn,
    ) -> Result<Option<Custody>, ShelfFault>
        ensures reads { TellsCustodyAt seen_mirrored self.old self.new result code volume uprn }
        ensures keeps { KeepsUpper self.old self.new }
    {
        self.read(&CustodyAt { code, volume, uprn })
    }

    fn tied(&mut self, code: Code, uprn: Uprn) -> Result<bool, ShelfFault>
        ensures reads { TellsTied seen_mirrored self.old self.new result code uprn }
        ensures keeps { KeepsUpper self.old self.new }
    {
        self.read(&Tied { code, uprn })
    }

    fn page(
        &mut self,
        code: Code,
        volume: u64,
        kind: Kind,
        after: Option<Key>,
        most: usize,
    ) -> Result<Vec<SharedItem>, ShelfFault>
        requires { is_entry_kind kind ≡ true }
        ensures reads { TellsPage
            seen_mirrored self.old self.new result code volume kind after most }
        ensures keeps { KeepsUpper self.old self.new }
    {
        self.read(&Page {
            code,
            volume,
            kind,
            after,
            most,
        })
    }

    fn begin(&mut self, code: Code) -> Result<(), ShelfFault>
        requires { IsNotOpen (seen_mirrored self.old).progress }
        ensures goes { Begins seen_mirrored self.old self.new result code }
        ensures drops { DropsUpper result self.new }
        ensures spares { SparesLower self.old self.new }
    {
        if let Some(upper) = &mut self.upper
            && upper.begin(code).is_ok()
        {
            self.gathered = Some(Gathered::new(self.alloc, code));
            return Ok(());
        }
        self.upper = None;
        self.lower.begin(code)
    }

    fn put(&mut self, item: SharedItem) -> Result<(), ShelfFault>
        requires begun { (seen_mirrored self.old).progress ≢ Idle }
        requires entry { is_entry item ≡ true }
        ensures sets { Puts seen_mirrored self.old self.new result item }
        ensures refuses { Refuses (seen_mirrored self.old) result }
        ensures drops { DropsUpper result self.new }
        ensures spares { Gathers self.old → SparesLower self.old self.new }
    {
        self.change(Change::Put(Entry { item }))
    }

    fn take(&mut self, key: &Key) -> Result<(), ShelfFault>
        requires { (seen_mirrored self.old).progress ≢ Idle }
        ensures sets { Takes seen_mirrored self.old self.new result key.now }
        ensures refuses { Refuses (seen_mirrored self.old) result }
        ensures drops { DropsUpper result self.new }
        ensures spares { Gathers self.old → SparesLower self.old self.new }
    {
        self.change(Change::Take(*key))
    }

    fn release(&mut self, uprn: Uprn, to: Code, hop: Hop) -> Result<(), ShelfFault>
        requires { (seen_mirrored self.old).progress ≢ Idle }
        ensures sets { Releases seen_mirrored self.old self.new result uprn to hop }
        ensures refuses { Refuses (seen_mirrored self.old) result }
        ensures drops { DropsUpper result self.new }
        ensures spares { Gathers self.old → SparesLower self.old self.new }
    {
        self.change(Change::Release { uprn, to, hop })
    }

    fn adopt(&mut self, blpu: SharedItem, from: Code, hop: Hop) -> Result<(), ShelfFault>
        requires begun { (seen_mirrored self.old).progress ≢ Idle }
        requires blpu { IsSome (as_blpu blpu) }
        ensures sets { Adopts seen_mirrored self.old self.new result blpu from hop }
        ensures refuses { Refuses (seen_mirrored self.old) result }
        ensures drops { DropsUpper result self.new }
        ensures spares { Gathers self.old → SparesLower self.old self.new }
    {
        self.change(Change::Adopt(Adoption { blpu, from, hop }))
    }

    fn keep(&mut self) -> Result<(), ShelfFault>
        requires { (seen_mirrored self.old).progress ≢ Idle }
        ensures keeps { Applies seen_mirrored self.old self.new result }
        ensures refuses { Refuses (seen_mirrored self.old) result }
        ensures drops { DropsUpper result self.new }
    {
        if self.gathered.is_none() {
            return self.keep_both();
        }
        self.hand_down()?;
        self.keep_both()
    }

    fn abandon(&mut self) -> Result<(), ShelfFault>
        requires { (seen_mirrored self.old).progress ≢ Idle }
        ensures goes { Abandons seen_mirrored self.old self.new result }
        ensures drops { DropsUpper result self.new }
        ensures spares { Gathers self.old → SparesLower self.old self.new }
    {
        if self.gathered.is_some() {
            self.abandon_above()
        } else {
            self.abandon_both()
        }
    }

    fn skip(&mut self, code: Code, place: u64, rule: u8) -> Result<(), ShelfFault>
        requires { IsNotOpen (seen_mirrored self.old).progress }
        ensures enters { Skips seen_mirrored self.old self.new result code place rule }
        ensures drops { DropsUpper result self.new }
    {
        change!(self, skip(code, place, rule))
    }
}
