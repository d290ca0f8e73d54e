//! What the judgement in progress answers, of its changes and the tables.
ghost use Rattle.std.specs.Prelude.{◌≡◌, None};
ghost use Rattle.std.specs.Option.{option_and_then};
ghost use Rattle.std.specs.FinMap as map;
ghost use Rattle.gaz_overlay.specs.Changes.{is_touched};
ghost use Rattle.gaz_views.specs.View.{custody_at, was_used};
ghost use Rattle.gaz_views.specs.Words.{approved_of, approved_on, first_of, has_children};
ghost use Rattle.gaz_views.specs.Words.{property_of, tied};
ghost use Rattle.gaz_calls.specs.Asking.{AsksTables};
ghost use Rattle.gaz_store.specs.Beside.{Beside};

use crate::judgement::Judgement;
use gaz_calls::Tables;
use gaz_ids::{Lang, Uprn, Usrn};
use gaz_keeper::ShelfFault;
use gaz_records::{Key, Kind, SharedItem};
use gaz_views::{Custody, Property, share_found};
use sqlite::Alter;

impl Judgement {
    /// The item at a key.
    pub(crate) fn item<S: Alter>(
        &self,
        tables: &mut Tables<S>,
        key: &Key,
    ) -> Result<Option<SharedItem>, ShelfFault>
        ensures { AsksTables tables.old tables.new result
            (λ db i. Beside db self.now (λ w. i ≡ map.get w.items key.now)) }
    {
        if !self.changes.is_touched(key) {
            return tables.current(self.code, key);
        }
        match share_found(self.changes.item(key)) {
            Ok(item) => Ok(item),
            Err(_) => Err(ShelfFault::Memory),
        }
    }

    /// Whether a key was ever used.
    pub(crate) fn was_used<S: Alter>(
        &self,
        tables: &mut Tables<S>,
        key: &Key,
    ) -> Result<bool, ShelfFault>
        ensures { AsksTables tables.old tables.new result
            (λ db b. Beside db self.now (λ w. b ≡ was_used w key.now)) }
    {
        if self.changes.was_used(key) {
            return Ok(true);
        }
        tables.used(self.code, key, self.knows_none())
    }

    /// The keys of a BLPU's approved LPIs, in key order.
    pub(crate) fn approved_of<S: Alter>(
        &self,
        tables: &mut Tables<S>,
        uprn: Uprn,
    ) -> Result<Vec<Key>, ShelfFault>
        ensures { AsksTables tables.old tables.new result
            (λ db keys. Beside db self.now (λ w. keys.items ≡ approved_of w uprn)) }
    {
        let last = tables.approved_of(self.code, uprn)?;
        match self.changes.approved_of(tables.alloc(), &last, uprn) {
            Ok(keys) => Ok(keys),
            Err(_) => Err(ShelfFault::Memory),
        }
    }

    // The item at the first of some keys.
    fn first_item<S: Alter>(
        &self,
        tables: &mut Tables<S>,
        keys: &[Key],
    ) -> Result<Option<SharedItem>, ShelfFault>
        ensures { AsksTables tables.old tables.new result (λ db i. Beside db self.now
            (λ w. i ≡ option_and_then (map.get w.items) (first_of keys.now))) }
    {
        match keys.first() {
            Some(key) => self.item(tables, key),
            None => Ok(None),
        }
    }

    // The BLPU's approved LPI of the least key.
    fn address_of<S: Alter>(
        &self,
        tables: &mut Tables<S>,
        uprn: Uprn,
    ) -> Result<Option<SharedItem>, ShelfFault>
        ensures { AsksTables tables.old tables.new result (λ db i. Beside db self.now
            (λ w. i ≡ option_and_then (map.get w.items) (first_of (approved_of w uprn)))) }
    {
        let keys = self.approved_of(tables, uprn)?;
        self.first_item(tables, &keys)
    }

    /// A BLPU with its approved LPI: that of the least key, where there are several.
    pub(crate) fn property_of<S: Alter>(
        &self,
        tables: &mut Tables<S>,
        uprn: Uprn,
    ) -> Result<Option<Property>, ShelfFault>
        ensures { AsksTables tables.old tables.new result
            (λ db p. Beside db self.now (λ w. p ≡ property_of w uprn)) }
    {
        let found = self.item(tables, &Key::Blpu(uprn))?;
        let Some(blpu) = found else {
            return Ok(None);
        };
        let address = self.address_of(tables, uprn)?;
        Ok(Some(Property { blpu, address }))
    }

    /// Whether an approved LPI is on a street, and in this language where one is given.
    pub(crate) fn approved_on<S: Alter>(
        &self,
        tables: &mut Tables<S>,
        usrn: Usrn,
        lang: Option<Lang>,
    ) -> Result<bool, ShelfFault>
        ensures { AsksTables tables.old tables.new result
            (λ db b. Beside db self.now (λ w. b ≡ approved_on w usrn lang)) }
    {
        if self.changes.approved_on(usrn, lang) {
            return Ok(true);
        }
        tables.left_on(self.code, usrn, lang, Some(&self.changes))
    }

    /// Whether a BLPU is a part of this one.
    pub(crate) fn children<S: Alter>(
        &self,
        tables: &mut Tables<S>,
        uprn: Uprn,
    ) -> Result<bool, ShelfFault>
        ensures { AsksTables tables.old tables.new result
            (λ db b. Beside db self.now (λ w. b ≡ has_children w uprn)) }
    {
        if self.changes.has_children(uprn) {
            return Ok(true);
        }
        tables.left_part(self.code, Kind::Blpu, uprn, Some(&self.changes))
    }

    /// What last became of a number.
    pub(crate) fn custody<S: Alter>(
        &self,
        tables: &mut Tables<S>,
        uprn: Uprn,
    ) -> Result<Option<Custody>, ShelfFault>
        ensures { AsksTables tables.old tables.new result
            (λ db x. Beside db self.now (λ w. x ≡ custody_at w uprn)) }
    {
        match self.changes.custody(uprn) {
            Some(custody) => Ok(Some(custody)),
            None if self.knows_none() => Ok(None),
            None => tables.custody(self.code, uprn),
        }
    }

    /// Whether an LPI or a cross reference, of whatever status, names a BLPU.
    pub(crate) fn tied<S: Alter>(
        &mut self,
        tables: &mut Tables<S>,
        uprn: Uprn,
    ) -> Result<bool, ShelfFault>
        ensures asks { AsksTables tables.old tables.new result
            (λ db b. Beside db self.old (λ w. b ≡ tied w uprn)) }
        ensures same { self.new ≡ self.old }
    {
        let Ok(own) = self.changes.tied(uprn) else {
            return Err(ShelfFault::Memory);
        };
        if own {
            return Ok(true);
        }
        tables.left_tied(self.code, uprn, Some(&self.changes))
    }
}
