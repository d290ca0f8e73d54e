//! Whether a keeper tells what it is to tell of one thing.
use crate::items::{uprn_of, volume};
use crate::keepers::passing::Passage;
use crate::keepers::refusal::Refusal;
use crate::keepers::rows::{are_rows, is_property, is_row, reads};
use crate::keepers::steps::{Became, Name, Page, View};
use crate::keepers::tried::Tried;
use crate::reading::read_kind;
use gaz_ids::{Code, Lang, Usrn};
use gaz_keeper::{Inbox, ShelfFault, Verdict};
use gaz_records::{Kind, SharedItem};
use std::alloc::Global;

impl<K: Inbox + Drop> Tried<K> {
    /// How far a custodian is judged.
    pub fn reached(&mut self, code: Code) -> Result<u64, ShelfFault> {
        self.keeper.reached(code)
    }

    fn held(&mut self, code: Code) -> Result<u64, ShelfFault> {
        self.keeper.held(code)
    }

    fn sure(&mut self) -> Result<(), ShelfFault> {
        self.keeper.sure()
    }

    // It can be asked, and so many volumes are judged and held.
    pub(crate) fn has_counts(
        &mut self,
        code: Code,
        judged: u64,
        held: u64,
    ) -> Result<bool, Refusal> {
        let are_so = self.reached(code)? == judged && self.held(code)? == held;
        self.sure()?;
        Ok(are_so)
    }

    pub(crate) fn has_verdict(
        &mut self,
        code: Code,
        number: u64,
        verdict: Option<Verdict>,
    ) -> Result<bool, Refusal> {
        Ok(self.keeper.verdict(code, volume(number)?)? == verdict)
    }

    pub(crate) fn has_file(&mut self, code: Code, number: u64, has: bool) -> Result<bool, Refusal> {
        let found = self.keeper.received(code, volume(number)?)?;
        let is_there = found.is_some_and(|bytes| bytes.as_slice() == b"a file".as_slice());
        Ok(is_there == has)
    }

    pub(crate) fn has_item(
        &mut self,
        alloc: Global,
        code: Code,
        name: &Name,
        row: Option<&str>,
    ) -> Result<bool, Refusal> {
        let found = self.keeper.current(code, &name.key()?)?;
        is_row(alloc, &found, row)
    }

    pub(crate) fn had_item(
        &mut self,
        alloc: Global,
        code: Code,
        after: u64,
        name: &Name,
        row: Option<&str>,
    ) -> Result<bool, Refusal> {
        let found = self.keeper.at(code, after, &name.key()?)?;
        is_row(alloc, &found, row)
    }

    pub(crate) fn is_used(&mut self, code: Code, name: &Name, used: bool) -> Result<bool, Refusal> {
        Ok(self.keeper.ever(code, &name.key()?)? == used)
    }

    pub(crate) fn has_parts(
        &mut self,
        code: Code,
        number: u64,
        has: bool,
    ) -> Result<bool, Refusal> {
        Ok(self.keeper.children(code, uprn_of(number)?)? == has)
    }

    pub(crate) fn has_address(
        &mut self,
        code: Code,
        number: u64,
        name: &Name,
    ) -> Result<bool, Refusal> {
        let found = self.keeper.approved_of(code, uprn_of(number)?)?;
        Ok(found.as_slice() == [name.key()?].as_slice())
    }

    pub(crate) fn has_property(
        &mut self,
        alloc: Global,
        code: Code,
        number: u64,
        rows: Option<(&str, &str)>,
    ) -> Result<bool, Refusal> {
        let found = self.keeper.property_of(code, uprn_of(number)?)?;
        is_property(alloc, found, rows)
    }

    pub(crate) fn has_address_on(
        &mut self,
        code: Code,
        number: u64,
        lang: Option<Lang>,
        has: bool,
    ) -> Result<bool, Refusal> {
        let usrn = Usrn::of(number).ok_or(Refusal::Misused)?;
        Ok(self.keeper.approved_on(code, usrn, lang)? == has)
    }

    pub(crate) fn has_custody(&mut self, code: Code, became: &Became) -> Result<bool, Refusal> {
        let found = self.keeper.custody(code, uprn_of(became.0)?)?;
        Ok(found.map(Passage::of) == became.1)
    }

    pub(crate) fn had_custody(
        &mut self,
        code: Code,
        after: u64,
        became: &Became,
    ) -> Result<bool, Refusal> {
        let found = self.keeper.custody_at(code, after, uprn_of(became.0)?)?;
        Ok(found.map(Passage::of) == became.1)
    }

    pub(crate) fn is_tied(
        &mut self,
        code: Code,
        number: u64,
        is_named: bool,
    ) -> Result<bool, Refusal> {
        Ok(self.keeper.tied(code, uprn_of(number)?)? == is_named)
    }

    // The page has so many items, of which the first is this row.
    pub(crate) fn has_page(
        &mut self,
        alloc: Global,
        code: Code,
        page: &Page,
    ) -> Result<bool, Refusal> {
        let (_, _, _, _, len, row) = page;
        let found = self.page(code, page)?;
        let is_first = match found.first() {
            Some(item) => reads(alloc, item, row)?,
            None => row.is_empty(),
        };
        Ok(found.len() == *len && is_first)
    }

    fn page(&mut self, code: Code, page: &Page) -> Result<Vec<SharedItem>, Refusal> {
        let (after, kind, from, most, _, _) = page;
        if !kind.is_entry() {
            return Err(Refusal::Misused);
        }
        let from = match from {
            Some(name) => Some(name.key()?),
            None => None,
        };
        Ok(self.keeper.page(code, *after, *kind, from, *most)?)
    }

    // All items of a kind after a volume, read so many at a time, are these rows.
    pub(crate) fn has_all(
        &mut self,
        alloc: Global,
        code: Code,
        most: usize,
        view: &View,
    ) -> Result<bool, Refusal> {
        let (after, kind, rows) = *view;
        if most == 0 || !kind.is_entry() {
            return Err(Refusal::Misused);
        }
        let items = read_kind(alloc, &mut self.keeper, code, after, kind, most)?;
        are_rows(alloc, items.as_slice(), rows)
    }
}
