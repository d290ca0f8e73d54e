//! What a store answers and makes as a keeper of boards.

use crate::judgement::Judgement;
use crate::naming::OfRegister;
use crate::progress::Judging;
use crate::store::Store;
use gaz_ids::{Code, Hop, Lang, Uprn, Usrn, Volume};
use gaz_keeper::{Shelf, ShelfFault};
use gaz_records::{Key, Kind, SharedItem};
use gaz_views::{Custody, Property, Verdict};
use sqlite::Alter;

impl<S: Alter, R: OfRegister> Shelf for Store<S, R> {
    ghost use Rattle.gaz_store.specs.Store.{seen_in};

    ghost seen = { seen_in R.text };

    fn reached(&mut self, code: Code) -> Result<u64, ShelfFault> {
        self.judging.clear();
        self.tables.reached(code)
    }

    fn verdict(&mut self, code: Code, volume: Volume) -> Result<Option<Verdict>, ShelfFault> {
        self.judging.clear();
        self.tables.verdict(code, volume)
    }

    fn current(&mut self, code: Code, key: &Key) -> Result<Option<SharedItem>, ShelfFault> {
        self.judging.clear();
        match self.judging.of(code) {
            Some(judgement) => judgement.item(&mut self.tables, key),
            None => self.tables.current(code, key),
        }
    }

    fn at(&mut self, code: Code, volume: u64, key: &Key) -> Result<Option<SharedItem>, ShelfFault> {
        self.judging.clear();
        self.tables.at(code, volume, key)
    }

    fn ever(&mut self, code: Code, key: &Key) -> Result<bool, ShelfFault> {
        self.judging.clear();
        self.judging.ask_passed(&mut self.tables, code, key)?;
        self.judging.was_used(&mut self.tables, code, key)
    }

    fn approved_of(&mut self, code: Code, uprn: Uprn) -> Result<Vec<Key>, ShelfFault> {
        self.judging.clear();
        match self.judging.of(code) {
            Some(judgement) => judgement.approved_of(&mut self.tables, uprn),
            None => self.tables.approved_of(code, uprn),
        }
    }

    fn property_of(&mut self, code: Code, uprn: Uprn) -> Result<Option<Property>, ShelfFault> {
        self.judging.clear();
        match self.judging.of(code) {
            Some(judgement) => judgement.property_of(&mut self.tables, uprn),
            None => self.tables.property_of(code, uprn),
        }
    }

    fn approved_on(
        &mut self,
        code: Code,
        usrn: Usrn,
        lang: Option<Lang>,
    ) -> Result<bool, ShelfFault> {
        self.judging.clear();
        match self.judging.of(code) {
            Some(judgement) => judgement.approved_on(&mut self.tables, usrn, lang),
            None => self.tables.approved_on(code, usrn, lang),
        }
    }

    fn children(&mut self, code: Code, uprn: Uprn) -> Result<bool, ShelfFault> {
        self.judging.clear();
        match self.judging.of(code) {
            Some(judgement) => judgement.children(&mut self.tables, uprn),
            None => self.tables.children(code, uprn),
        }
    }

    fn custody(&mut self, code: Code, uprn: Uprn) -> Result<Option<Custody>, ShelfFault> {
        self.judging.clear();
        self.judging
            .ask_passed(&mut self.tables, code, &Key::Blpu(uprn))?;
        self.judging.custody(&mut self.tables, code, uprn)
    }

    fn custody_at(
        &mut self,
        code: Code,
        volume: u64,
        uprn: Uprn,
    ) -> Result<Option<Custody>, ShelfFault> {
        self.judging.clear();
        self.tables.custody_at(code, volume, uprn)
    }

    fn tied(&mut self, code: Code, uprn: Uprn) -> Result<bool, ShelfFault> {
        self.judging.clear();
        self.judging.tied(&mut self.tables, code, uprn)
    }

    fn page(
        &mut self,
        code: Code,
        volume: u64,
        kind: Kind,
        after: Option<Key>,
        most: usize,
    ) -> Result<Vec<SharedItem>, ShelfFault> {
        self.judging.clear();
        self.tables.page(code, volume, kind, after, most)
    }

    fn begin(&mut self, code: Code) -> Result<(), ShelfFault> {
        let judgement = Judgement::new(self.tables.alloc(), self.seed, code);
        self.judging = Judging::Open(judgement);
        Ok(())
    }

    fn put(&mut self, item: SharedItem) -> Result<(), ShelfFault> {
        let Some(mut judgement) = self.judging.take_open() else {
            return Err(self.tables.fail());
        };
        judgement.put(&mut self.tables, item)?;
        self.judging = Judging::Open(judgement);
        Ok(())
    }

    fn take(&mut self, key: &Key) -> Result<(), ShelfFault> {
        let Some(mut judgement) = self.judging.take_open() else {
            return Err(self.tables.fail());
        };
        judgement.take(&mut self.tables, key)?;
        self.judging = Judging::Open(judgement);
        Ok(())
    }

    fn release(&mut self, uprn: Uprn, to: Code, hop: Hop) -> Result<(), ShelfFault> {
        let Some(mut judgement) = self.judging.take_open() else {
            return Err(self.tables.fail());
        };
        judgement.release(&mut self.tables, uprn, to, hop)?;
        self.judging = Judging::Open(judgement);
        Ok(())
    }

    fn adopt(&mut self, blpu: SharedItem, from: Code, hop: Hop) -> Result<(), ShelfFault> {
        let Some(mut judgement) = self.judging.take_open() else {
            return Err(self.tables.fail());
        };
        judgement.adopt(&mut self.tables, blpu, from, hop)?;
        self.judging = Judging::Open(judgement);
        Ok(())
    }

    fn keep(&mut self) -> Result<(), ShelfFault> {
        let Some(judgement) = self.judging.take_open() else {
            return Err(self.tables.fail());
        };
        self.tables.apply(judgement.code, &judgement.changes)?;
        self.judging = Judging::Idle;
        Ok(())
    }

    fn abandon(&mut self) -> Result<(), ShelfFault> {
        self.judging = Judging::Idle;
        Ok(())
    }

    fn skip(&mut self, code: Code, place: u64, rule: u8) -> Result<(), ShelfFault> {
        self.judging.clear();
        self.tables.skip(code, place, rule)
    }
}
