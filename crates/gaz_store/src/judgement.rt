//! The judgement in progress of a store: a custodian, and the changes beside its tables.
ghost use Rattle.std.specs.Prelude.{◌≡◌, true, false, None, IsSome, OnErr, OnOk};
ghost use Rattle.gaz_overlay.specs.Changes.{is_touched, no_changes};
ghost use Rattle.gaz_records.specs.Items.{is_entry};
ghost use Rattle.gaz_views.specs.Numbered.{as_blpu, with_adopted};
ghost use Rattle.gaz_views.specs.View.{with_item, with_release, without_key};
ghost use Rattle.gaz_calls.specs.Asking.{AsksTables};
ghost use Rattle.gaz_calls.specs.Passing.{MayKnow, knows_none};
ghost use Rattle.gaz_store.specs.Beside.{IsToldSince, Readies, Turns};

use gaz_calls::Tables;
use gaz_ids::{Code, Hop, Uprn};
use gaz_keeper::ShelfFault;
use gaz_ledger::Seed;
use gaz_overlay::Overlay;
use gaz_records::{Key, SharedItem, key_of};
use gaz_row_items::passages::born_of;
use sqlite::Alter;
use std::alloc::Global;

/// Whose next volume is judged, and what it has changed so far.
#[derive(Drop)]
pub(crate) struct Judgement {
    pub(crate) code: Code,
    pub(crate) changes: Overlay,
    /// Whether one of the custodian's numbers was passed on, once the tables were asked.
    any_passed: Option<bool>,
}

impl Judgement {
    /// One that has changed nothing yet.
    pub(crate) fn new(alloc: Global, seed: Seed, code: Code) -> Judgement
        ensures code { result.code ≡ code }
        ensures changes { result.changes ≡ no_changes }
        ensures known { result.any_passed ≡ None }
    {
        Judgement {
            code,
            changes: Overlay::new(alloc, seed),
            any_passed: None,
        }
    }

    /// Asks the tables, once, whether one of the custodian's numbers was passed on.
    pub(crate) fn ask_passed<S: Alter>(&mut self, tables: &mut Tables<S>) -> Result<(), ShelfFault>
        ensures asks { AsksTables tables.old tables.new result
            (λ db _. Turns db self.old self.new (λ w. w)) }
        ensures code { self.new.code ≡ self.old.code }
        ensures changes { self.new.changes ≡ self.old.changes }
        ensures err { OnErr result (self.new ≡ self.old) }
    {
        if self.any_passed.is_some() {
            return Ok(());
        }
        let any = tables.any_passed(self.code)?;
        self.any_passed = Some(any);
        Ok(())
    }

    /// Whether it is known that none was.
    pub(crate) fn knows_none(&self) -> bool
        ensures { result ≡ knows_none self.now.any_passed }
    {
        match self.any_passed {
            Some(any) => !any,
            None => false,
        }
    }

    // Touches a key for the first time.
    fn touch_first<S: Alter>(&mut self, tables: &mut Tables<S>, key: &Key) -> Result<(), ShelfFault>
        requires { is_touched self.old.changes key.now ≡ false }
        ensures asks { AsksTables tables.old tables.new result
            (λ db _. Turns db self.old self.new (λ w. w)) }
        ensures touched { OnOk result (is_touched self.new.changes key.now ≡ true) }
        ensures code { self.new.code ≡ self.old.code }
    {
        let (stood, item) = tables.stood(self.code, key)?;
        self.changes.touch(key, stood, item)?;
        Ok(())
    }

    // Touches a key, where it isn't touched yet.
    fn touch<S: Alter>(&mut self, tables: &mut Tables<S>, key: &Key) -> Result<(), ShelfFault>
        ensures asks { AsksTables tables.old tables.new result
            (λ db _. Turns db self.old self.new (λ w. w)) }
        ensures touched { OnOk result (is_touched self.new.changes key.now ≡ true) }
        ensures code { self.new.code ≡ self.old.code }
    {
        if self.changes.is_touched(key) {
            return Ok(());
        }
        self.touch_first(tables, key)
    }

    // Touches a key, where it isn't touched yet, at which an item is put next or whose number is
    // passed on next. The item that stood there, which that hides, isn't read.
    fn hide<S: Alter>(&mut self, tables: &mut Tables<S>, key: &Key) -> Result<(), ShelfFault>
        ensures asks { AsksTables tables.old tables.new result
            (λ db _. Readies db self.old self.new key.now) }
        ensures touched { OnOk result (is_touched self.new.changes key.now ≡ true) }
        ensures code { self.new.code ≡ self.old.code }
    {
        if self.changes.is_touched(key) {
            return Ok(());
        }
        let stood = tables.stands(self.code, key)?;
        self.changes.touch(key, stood, None)?;
        Ok(())
    }

    /// Sets an item, an entry.
    pub(crate) fn put<S: Alter>(
        &mut self,
        tables: &mut Tables<S>,
        item: SharedItem,
    ) -> Result<(), ShelfFault>
        requires { is_entry item ≡ true }
        ensures asks { AsksTables tables.old tables.new result
            (λ db _. Turns db self.old self.new (λ w. with_item w item)) }
        ensures code { self.new.code ≡ self.old.code }
    {
        let key = key_of(&item);
        self.hide(tables, &key)?;
        self.changes.put(item)?;
        Ok(())
    }

    // In which volume a number's current passage was born, where the judgement hasn't passed it on
    // yet; what is answered otherwise is passed over.
    fn since<S: Alter>(&self, tables: &mut Tables<S>, uprn: Uprn) -> Result<Option<u64>, ShelfFault>
        ensures { AsksTables tables.old tables.new result
            (λ db since. MayKnow self.now.any_passed db self.now.code
            → IsToldSince db self.now uprn since) }
    {
        if self.changes.is_passed(uprn) {
            return Ok(None);
        }
        if self.knows_none() {
            return Ok(None);
        }
        let passed = tables.passed(self.code, uprn)?;
        Ok(born_of(&passed))
    }

    /// Releases a number to another custodian.
    pub(crate) fn release<S: Alter>(
        &mut self,
        tables: &mut Tables<S>,
        uprn: Uprn,
        to: Code,
        hop: Hop,
    ) -> Result<(), ShelfFault>
        ensures asks { AsksTables tables.old tables.new result
            (λ db _. Turns db self.old self.new (λ w. with_release w uprn to hop)) }
        ensures code { self.new.code ≡ self.old.code }
    {
        self.hide(tables, &Key::Blpu(uprn))?;
        let since = self.since(tables, uprn)?;
        self.changes.release(uprn, to, hop, since)?;
        Ok(())
    }

    /// Adopts an item, a BLPU, from another custodian.
    pub(crate) fn adopt<S: Alter>(
        &mut self,
        tables: &mut Tables<S>,
        blpu: SharedItem,
        from: Code,
        hop: Hop,
    ) -> Result<(), ShelfFault>
        requires { IsSome (as_blpu blpu) }
        ensures asks { AsksTables tables.old tables.new result
            (λ db _. Turns db self.old self.new (λ w. with_adopted w blpu from hop)) }
        ensures code { self.new.code ≡ self.old.code }
    {
        let key = key_of(&blpu);
        let Key::Blpu(uprn) = key else {
            return Err(ShelfFault::Memory);
        };
        self.hide(tables, &key)?;
        let since = self.since(tables, uprn)?;
        self.changes.adopt(blpu, from, hop, since)?;
        Ok(())
    }

    /// Takes a key's item.
    pub(crate) fn take<S: Alter>(
        &mut self,
        tables: &mut Tables<S>,
        key: &Key,
    ) -> Result<(), ShelfFault>
        ensures asks { AsksTables tables.old tables.new result
            (λ db _. Turns db self.old self.new (λ w. without_key w key.now)) }
        ensures code { self.new.code ≡ self.old.code }
    {
        self.touch(tables, key)?;
        self.changes.take(key)?;
        Ok(())
    }
}
