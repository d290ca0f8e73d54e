//! What stands at a key.
ghost use Rattle.std.specs.Prelude.{◌≡◌, true, false, ◌≤◌, is_some};
ghost use Rattle.std.specs.FinMap as map;
ghost use Rattle.gaz_cells.specs.Ids.{kind_in};
ghost use Rattle.gaz_records.specs.Kinds.{number_of};
ghost use Rattle.gaz_tables.specs.Schema.{received, version2};
ghost use Rattle.gaz_tables.specs.Versions.{FindsNewest, FindsNewestUntil};
ghost use Rattle.gaz_tables.specs.Tables.{rows_of};
ghost use Rattle.gaz_views.specs.View.{was_used};
ghost use Rattle.gaz_calls.specs.Asking.{AsksTables};
ghost use Rattle.gaz_row_items.specs.Newest.{IsNewest, IsNewestUntil, TellsStood};
ghost use Rattle.gaz_row_items.specs.Versions.{histories_in, view_in};
ghost use Rattle.gaz_kept.specs.Files.{reached_in};
ghost use Rattle.gaz_kept.specs.LastViews.{last_in};
ghost use Rattle.gaz_calls.specs.Passing.{any_passed, was_passed};

use crate::tables::Tables;
use gaz_answers::volumes::capped;
use gaz_cells::id_of;
use gaz_ids::Code;
use gaz_keeper::ShelfFault;
use gaz_overlay::Stood;
use gaz_records::{Key, Kind, SharedItem};
use gaz_row_items::decoding::kind_in;
use gaz_row_items::newest::{Life, current_in, item_after, newest_said, stood_by, stood_said};
use gaz_row_items::passages::Passed;
use gaz_tables::versions;
use sqlite::{Alter, Row};

impl<S: Alter> Tables<S> {
    // The newest row of a key of this kind and id.
    fn newest_rows(&mut self, code: Code, kind: Kind, id: &str) -> Result<Vec<Row>, ShelfFault>
        ensures { AsksTables self.old self.new result
            (λ db rows. FindsNewest code (number_of kind) id.now (rows_of db version2) rows.items) }
    {
        self.ready()?;
        let cust = code.number() as u32;
        let kind = kind.number() as u32;
        let found = versions::newest(&mut self.conn, cust, kind, id);
        self.told(found)
    }

    // The newest row of a key of this kind and id that was born in this volume or before.
    fn newest_rows_until(
        &mut self,
        code: Code,
        volume: u32,
        kind: Kind,
        id: &str,
    ) -> Result<Vec<Row>, ShelfFault>
        ensures { AsksTables self.old self.new result (λ db rows. FindsNewestUntil
            code (number_of kind) id.now volume (rows_of db version2) rows.items) }
    {
        self.ready()?;
        let cust = code.number() as u32;
        let kind = kind.number() as u32;
        let found = versions::newest_until(&mut self.conn, cust, kind, id, volume);
        self.told(found)
    }

    // The newest row of a key, where it has one.
    fn newest(&mut self, code: Code, key: &Key) -> Result<Option<Life>, ShelfFault>
        ensures { AsksTables self.old self.new result
            (λ db life. IsNewest (histories_in (rows_of db version2) code) key.now life) }
    {
        let name = id_of(self.alloc, key)?;
        let rows = self.newest_rows(code, kind_in(key), &name)?;
        self.read(newest_said(self.alloc, key, &rows))
    }

    // The newest row of a key that was born in a volume or before, where it has one.
    fn newest_until(
        &mut self,
        code: Code,
        volume: u32,
        key: &Key,
    ) -> Result<Option<Life>, ShelfFault>
        ensures { AsksTables self.old self.new result (λ db life. IsNewestUntil
            volume (histories_in (rows_of db version2) code) key.now life) }
    {
        let name = id_of(self.alloc, key)?;
        let rows = self.newest_rows_until(code, volume, kind_in(key), &name)?;
        self.read(newest_said(self.alloc, key, &rows))
    }

    /// The item at a key in a custodian's last view.
    pub fn current(&mut self, code: Code, key: &Key) -> Result<Option<SharedItem>, ShelfFault>
        ensures { AsksTables self.old self.new result
            (λ db i. i ≡ map.get (last_in db code).items key.now) }
    {
        let life = self.newest(code, key)?;
        Ok(current_in(life))
    }

    // The newest passage of the number whose BLPU has this key, which isn't asked for where it is
    // known that the custodian passed none on; of another kind of key there is none.
    fn passed_at(&mut self, code: Code, key: &Key, none: bool) -> Result<Option<Passed>, ShelfFault>
        ensures { AsksTables self.old self.new result (λ db passed.
            (none ≡ true → any_passed db code ≡ false)
            → is_some passed ≡ was_passed db code key.now) }
    {
        if none {
            return Ok(None);
        }
        match key {
            Key::Blpu(uprn) => self.passed(code, *uprn),
            _ => Ok(None),
        }
    }

    /// Whether a key was used in a custodian's last view or before it; `none` where it is known
    /// that the custodian passed no number on.
    pub fn used(&mut self, code: Code, key: &Key, none: bool) -> Result<bool, ShelfFault>
        ensures { AsksTables self.old self.new result (λ db b.
            (none ≡ true → any_passed db code ≡ false) → b ≡ was_used (last_in db code) key.now) }
    {
        let life = self.newest(code, key)?;
        if life.is_some() {
            return Ok(true);
        }
        let passed = self.passed_at(code, key, none)?;
        Ok(passed.is_some())
    }

    /// Whether a key was used in a custodian's last view or before it.
    pub fn was_used(&mut self, code: Code, key: &Key) -> Result<bool, ShelfFault>
        ensures { AsksTables self.old self.new result
            (λ db b. b ≡ was_used (last_in db code) key.now) }
    {
        self.used(code, key, false)
    }

    /// The newest row of a key for an overlay that touches it, with the item of the current one.
    pub fn stood(
        &mut self,
        code: Code,
        key: &Key,
    ) -> Result<(Stood, Option<SharedItem>), ShelfFault>
        ensures { AsksTables self.old self.new result (λ db s.
            TellsStood (histories_in (rows_of db version2) code) (last_in db code)
            key.now s.0 s.1) }
    {
        let life = self.newest(code, key)?;
        Ok((stood_by(&life), current_in(life)))
    }

    /// What stands at a key in a custodian's last view, for an overlay that hides the item there,
    /// which isn't read.
    pub fn stands(&mut self, code: Code, key: &Key) -> Result<Stood, ShelfFault>
        ensures { AsksTables self.old self.new result (λ db stood.
            TellsStood (histories_in (rows_of db version2) code) (last_in db code)
            key.now stood (map.get (last_in db code).items key.now)) }
    {
        let name = id_of(self.alloc, key)?;
        let rows = self.newest_rows(code, kind_in(key), &name)?;
        self.read_without_memory(stood_said(&rows))
    }

    /// The item at a key after a volume, which is to be reached; after volume 0 there is none.
    pub fn at(
        &mut self,
        code: Code,
        volume: u64,
        key: &Key,
    ) -> Result<Option<SharedItem>, ShelfFault>
        ensures { AsksTables self.old self.new result
            (λ db i. volume ≤ reached_in (rows_of db received) code
            → i ≡ map.get (view_in (rows_of db version2) code volume).items key.now) }
    {
        let life = self.newest_until(code, capped(volume), key)?;
        Ok(item_after(volume, life))
    }
}
