//! What a ledger finds in its views.
ghost use Rattle.std.specs.Prelude.{◌≡◌, ◌≤◌, length, map, IfOk, None, Some, option_map};
ghost use Rattle.std.specs.FinMap as finite;
ghost use Rattle.std.specs.List.{list_any};
ghost use Rattle.gaz_views.specs.Accounts.{view_in};
ghost use Rattle.gaz_views.specs.View.{was_used};
ghost use Rattle.gaz_views.specs.Words.{address_of, approved_of, approved_on, entries, first_of};
ghost use Rattle.gaz_views.specs.Words.{has_children, page, property_of, tied};
ghost use Rattle.gaz_standing.specs.Indexes.{has_mark};
ghost use Rattle.gaz_ledger.specs.Changing.{entries_with};

use crate::ledger::Ledger;
use gaz_ids::{Lang, Uprn, Usrn};
use gaz_records::{Key, Kind, SharedItem};
use gaz_standing::{Mark, any_marked, first_marked, keys_marked};
use gaz_views::{Property, share_found};
use std::alloc::{AllocError, Global};

impl Ledger {
    /// The item at a key after a volume, or in the working view for any later one.
    pub fn item(&self, volume: u64, key: &Key) -> Option<&SharedItem>
        ensures { option_map (λ i. i.now) result
            ≡ finite.get (view_in self.now volume).items key.now }
    {
        self.histories.item(volume, key)
    }

    /// Whether the key was ever used until then.
    pub fn was_used(&self, volume: u64, key: &Key) -> bool
        ensures { result ≡ was_used (view_in self.now volume) key.now }
    {
        self.histories.was_used(volume, key)
    }

    /// The first `most` items of a kind after a key, or from the start, in key order.
    pub(crate) fn page(
        &mut self,
        alloc: Global,
        volume: u64,
        kind: Kind,
        after: Option<Key>,
        most: usize,
    ) -> Result<Vec<SharedItem>, AllocError>
        ensures page { IfOk result (λ items. items.items
            ≡ page (view_in self.old volume) kind after most) }
        ensures same { self.new ≡ self.old }
    {
        Ok(self.histories.page(alloc, volume, kind, after, most)?)
    }

    // The keys of the items with a mark, in key order, in the last view or the working one.
    fn keys_of(&self, alloc: Global, volume: u64, mark: Mark) -> Result<Vec<Key>, AllocError>
        requires { length self.now.judged ≤ volume }
        ensures { IfOk result (λ keys. keys.items
            ≡ map (λ e. e.0) (entries_with mark (view_in self.now volume))) }
    {
        match self.index.get(mark) {
            Some(keys) => {
                keys.in_order();
                Ok(keys_marked(alloc, &self.histories, volume, &mark, keys)?)
            }
            None => Ok(Vec::new(alloc)),
        }
    }

    // Whether there are such items.
    fn has_any(&self, volume: u64, mark: Mark) -> bool
        requires { length self.now.judged ≤ volume }
        ensures { result
            ≡ list_any (λ e. has_mark mark e.1) (entries (view_in self.now volume)) }
    {
        match self.index.get(mark) {
            Some(keys) => {
                keys.in_order();
                any_marked(&self.histories, volume, &mark, keys)
            }
            None => false,
        }
    }

    // The item of the least key of such items.
    fn least_of(&self, volume: u64, mark: Mark) -> Option<&SharedItem>
        requires { length self.now.judged ≤ volume }
        ensures { option_map (λ i. i.now) result
            ≡ option_map (λ e. e.1) (first_of (entries_with mark (view_in self.now volume))) }
    {
        match self.index.get(mark) {
            Some(keys) => {
                keys.in_order();
                first_marked(&self.histories, volume, &mark, keys)
            }
            None => None,
        }
    }

    /// The keys of a BLPU's approved LPIs, in key order, in the last view or the working one.
    pub fn approved_of(
        &self,
        alloc: Global,
        volume: u64,
        uprn: Uprn,
    ) -> Result<Vec<Key>, AllocError>
        requires { length self.now.judged ≤ volume }
        ensures { IfOk result (λ keys. keys.items ≡ approved_of (view_in self.now volume) uprn) }
    {
        self.keys_of(alloc, volume, Mark::AddressOf(uprn))
    }

    // A BLPU's approved LPI, that of the least key where there are several.
    fn address_of(&self, volume: u64, uprn: Uprn) -> Option<&SharedItem>
        requires { length self.now.judged ≤ volume }
        ensures { option_map (λ i. i.now) result ≡ address_of (view_in self.now volume) uprn }
    {
        self.least_of(volume, Mark::AddressOf(uprn))
    }

    /// A BLPU with its address, in the last view or the working one.
    pub(crate) fn property_of(
        &self,
        volume: u64,
        uprn: Uprn,
    ) -> Result<Option<Property>, AllocError>
        requires { length self.now.judged ≤ volume }
        ensures { IfOk result (λ p. p ≡ property_of (view_in self.now volume) uprn) }
    {
        let Some(blpu) = self.item(volume, &Key::Blpu(uprn)) else {
            return Ok(None);
        };
        let address = share_found(self.address_of(volume, uprn))?;
        Ok(Some(Property {
            blpu: blpu.share()?,
            address,
        }))
    }

    /// Whether an approved LPI is on a street, and in this language where one is given.
    pub fn approved_on(&self, volume: u64, usrn: Usrn, lang: Option<Lang>) -> bool
        requires { length self.now.judged ≤ volume }
        ensures { result ≡ approved_on (view_in self.now volume) usrn lang }
    {
        match lang {
            Some(Lang::Cym) => self.has_any(volume, Mark::WelshOn(usrn)),
            Some(Lang::Eng) => self.has_any(volume, Mark::EnglishOn(usrn)),
            None => {
                let welsh = self.has_any(volume, Mark::WelshOn(usrn));
                welsh || self.has_any(volume, Mark::EnglishOn(usrn))
            }
        }
    }

    /// Whether a BLPU is a part of this one.
    pub fn has_children(&self, volume: u64, uprn: Uprn) -> bool
        requires { length self.now.judged ≤ volume }
        ensures { result ≡ has_children (view_in self.now volume) uprn }
    {
        self.has_any(volume, Mark::PartOf(uprn))
    }

    /// Whether an LPI or a cross reference, of whatever status, names a BLPU, in the last view or
    /// the working one. Where what names BLPUs isn't counted yet, all items are gone through first.
    pub(crate) fn tied(&mut self, volume: u64, uprn: Uprn) -> Result<bool, AllocError>
        requires { length self.old.judged ≤ volume }
        ensures tied { IfOk result (λ is. is ≡ tied (view_in self.old volume) uprn) }
        ensures same { self.new ≡ self.old }
    {
        let reached = self.verdicts.len() as u64;
        self.ties.count(&self.histories, reached)?;
        Ok(self.ties.has(&self.histories, volume, uprn))
    }
}
