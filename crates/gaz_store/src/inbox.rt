//! What a store answers and makes as a keeper of received files.
use crate::naming::OfRegister;
use crate::store::Store;
use gaz_ids::{Code, Volume};
use gaz_keeper::{Inbox, ShelfFault};
use sqlite::Alter;

impl<S: Alter, R: OfRegister> Inbox for Store<S, R> {
    fn received(&mut self, code: Code, volume: Volume) -> Result<Option<Vec<u8>>, ShelfFault> {
        self.judging.clear();
        self.tables.received(code, volume)
    }

    fn receive(&mut self, code: Code, volume: Volume, bytes: &[u8]) -> Result<(), ShelfFault> {
        let _number = volume.number();
        self.judging.clear();
        self.tables.receive(code, volume, bytes)
    }

    fn held(&mut self, code: Code) -> Result<u64, ShelfFault> {
        self.judging.clear();
        self.tables.held(code)
    }

    fn sure(&mut self) -> Result<(), ShelfFault> {
        self.judging.clear();
        self.tables.make_sure()
    }
}
