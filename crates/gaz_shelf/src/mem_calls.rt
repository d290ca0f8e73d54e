//! The calls of a keeper in memory.
ghost use Rattle.std.specs.Prelude.{IsOk};
ghost use Rattle.gaz_shelf.specs.Mem.{seen_in};
ghost use Rattle.gaz_keeper.specs.Telling.{TellsEver, TellsHeld, TellsNothing, TellsReached};
ghost use Rattle.gaz_keeper.specs.Telling.{TellsVerdict};

use crate::mem_shelf::{Judging, MemShelf};
use gaz_ids::{Code, Hop, Lang, Uprn, Usrn, Volume};
use gaz_keeper::{Inbox, Shelf, ShelfFault};
use gaz_records::{Key, Kind, SharedItem};
use gaz_views::{Custody, Property, Verdict};

impl Shelf for MemShelf {
    ghost use Rattle.gaz_shelf.specs.Mem.{seen_in};

    ghost seen = { seen_in };

    fn reached(&mut self, code: Code) -> Result<u64, ShelfFault>
        ensures reads { TellsReached seen_in self.old self.new result code }
        ensures answers { IsOk result }
    {
        self.clear();
        Ok(self.count_reached(code))
    }

    fn verdict(&mut self, code: Code, volume: Volume) -> Result<Option<Verdict>, ShelfFault>
        ensures reads { TellsVerdict seen_in self.old self.new result code volume }
        ensures answers { IsOk result }
    {
        self.clear();
        Ok(self.find_verdict(code, volume))
    }

    fn current(&mut self, code: Code, key: &Key) -> Result<Option<SharedItem>, ShelfFault> {
        self.clear();
        Ok(self.find_current(code, key)?)
    }

    fn at(&mut self, code: Code, volume: u64, key: &Key) -> Result<Option<SharedItem>, ShelfFault> {
        self.clear();
        Ok(self.find_at(code, volume, key)?)
    }

    fn ever(&mut self, code: Code, key: &Key) -> Result<bool, ShelfFault>
        ensures reads { TellsEver seen_in self.old self.new result code key.now }
        ensures answers { IsOk result }
    {
        self.clear();
        Ok(self.find_ever(code, key))
    }

    fn approved_of(&mut self, code: Code, uprn: Uprn) -> Result<Vec<Key>, ShelfFault> {
        self.clear();
        Ok(self.find_approved(code, uprn)?)
    }

    fn property_of(&mut self, code: Code, uprn: Uprn) -> Result<Option<Property>, ShelfFault> {
        self.clear();
        Ok(self.find_property(code, uprn)?)
    }

    fn approved_on(
        &mut self,
        code: Code,
        usrn: Usrn,
        lang: Option<Lang>,
    ) -> Result<bool, ShelfFault> {
        self.clear();
        Ok(self.find_approved_on(code, usrn, lang))
    }

    fn children(&mut self, code: Code, uprn: Uprn) -> Result<bool, ShelfFault> {
        self.clear();
        Ok(self.find_children(code, uprn))
    }

    fn custody(&mut self, code: Code, uprn: Uprn) -> Result<Option<Custody>, ShelfFault> {
        self.clear();
        Ok(self.find_custody(code, uprn))
    }

    fn custody_at(
        &mut self,
        code: Code,
        volume: u64,
        uprn: Uprn,
    ) -> Result<Option<Custody>, ShelfFault> {
        self.clear();
        Ok(self.find_custody_at(code, volume, uprn))
    }

    fn tied(&mut self, code: Code, uprn: Uprn) -> Result<bool, ShelfFault> {
        self.clear();
        Ok(self.find_tied(code, uprn)?)
    }

    fn page(
        &mut self,
        code: Code,
        volume: u64,
        kind: Kind,
        after: Option<Key>,
        most: usize,
    ) -> Result<Vec<SharedItem>, ShelfFault> {
        self.clear();
        Ok(self.find_page(code, volume, kind, after, most)?)
    }

    fn begin(&mut self, code: Code) -> Result<(), ShelfFault> {
        match self.accounts.begin(self.alloc, self.seed, code) {
            Ok(()) => {
                self.judging = Judging::Open(code);
                Ok(())
            }
            Err(_) => {
                self.judging = Judging::Broken;
                Err(ShelfFault::Memory)
            }
        }
    }

    fn put(&mut self, item: SharedItem) -> Result<(), ShelfFault> {
        match self.open_code() {
            Some(code) => self.put_open(code, item),
            None => Err(self.fail()),
        }
    }

    fn take(&mut self, key: &Key) -> Result<(), ShelfFault> {
        match self.open_code() {
            Some(code) => self.take_open(code, key),
            None => Err(self.fail()),
        }
    }

    fn release(&mut self, uprn: Uprn, to: Code, hop: Hop) -> Result<(), ShelfFault> {
        match self.open_code() {
            Some(code) => self.release_open(code, uprn, to, hop),
            None => Err(self.fail()),
        }
    }

    fn adopt(&mut self, blpu: SharedItem, from: Code, hop: Hop) -> Result<(), ShelfFault> {
        match self.open_code() {
            Some(code) => self.adopt_open(code, blpu, from, hop),
            None => Err(self.fail()),
        }
    }

    fn keep(&mut self) -> Result<(), ShelfFault> {
        match self.open_code() {
            Some(code) => self.finish(code),
            None => Err(self.fail()),
        }
    }

    fn abandon(&mut self) -> Result<(), ShelfFault> {
        if let Some(code) = self.open_code() {
            self.accounts.undo(code);
        }
        self.judging = Judging::Idle;
        Ok(())
    }

    fn skip(&mut self, code: Code, place: u64, rule: u8) -> Result<(), ShelfFault> {
        self.clear();
        self.accounts.begin(self.alloc, self.seed, code)?;
        self.accounts
            .close(code, Verdict::Rejected { place, rule })?;
        Ok(())
    }
}

impl Inbox for MemShelf {
    fn received(&mut self, code: Code, volume: Volume) -> Result<Option<Vec<u8>>, ShelfFault> {
        self.clear();
        Ok(self.find_file(code, volume)?)
    }

    fn receive(&mut self, code: Code, volume: Volume, bytes: &[u8]) -> Result<(), ShelfFault> {
        self.clear();
        self.files.receive(code, volume, bytes)?;
        Ok(())
    }

    fn held(&mut self, code: Code) -> Result<u64, ShelfFault>
        ensures reads { TellsHeld seen_in self.old self.new result code }
        ensures answers { IsOk result }
    {
        self.clear();
        Ok(self.files.count_above(code, self.count_reached(code)))
    }

    fn sure(&mut self) -> Result<(), ShelfFault>
        ensures reads { TellsNothing seen_in self.old self.new result }
        ensures answers { IsOk result }
    {
        self.clear();
        Ok(())
    }
}
