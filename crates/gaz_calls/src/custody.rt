//! What last became of numbers that were passed on.
ghost use Rattle.std.specs.Prelude.{◌≡◌, ◌≤◌};
ghost use Rattle.gaz_tables.specs.Custody.{FindsCustody, FindsCustodyUntil};
ghost use Rattle.gaz_tables.specs.Schema.{received, version2};
ghost use Rattle.gaz_tables.specs.Tables.{rows_of};
ghost use Rattle.gaz_views.specs.View.{custody_at};
ghost use Rattle.gaz_row_items.specs.NewestPassages.{custody_of};
ghost use Rattle.gaz_row_items.specs.Versions.{view_in};
ghost use Rattle.gaz_kept.specs.Files.{reached_in};
ghost use Rattle.gaz_kept.specs.LastViews.{last_in};
ghost use Rattle.gaz_calls.specs.Asking.{AsksTables};
ghost use Rattle.gaz_calls.specs.Passing.{TellsPassed};

use crate::tables::Tables;
use gaz_answers::volumes::capped;
use gaz_cells::id_of;
use gaz_ids::{Code, Uprn};
use gaz_keeper::ShelfFault;
use gaz_records::Key;
use gaz_row_items::passages::{Passed, custody_of, passage_said};
use gaz_tables::custody;
use gaz_views::Custody;
use sqlite::{Alter, Row};

impl<S: Alter> Tables<S> {
    // The newest row of kind 92 of this id.
    fn custody_rows(&mut self, code: Code, id: &str) -> Result<Vec<Row>, ShelfFault>
        ensures { AsksTables self.old self.new result
            (λ db rows. FindsCustody code id.now (rows_of db version2) rows.items) }
    {
        self.ready()?;
        let cust = code.number() as u32;
        let found = custody::newest(&mut self.conn, cust, id);
        self.told(found)
    }

    // The newest row of kind 92 of this id that was born in this volume or before.
    fn custody_rows_until(
        &mut self,
        code: Code,
        volume: u32,
        id: &str,
    ) -> Result<Vec<Row>, ShelfFault>
        ensures { AsksTables self.old self.new result
            (λ db rows. FindsCustodyUntil code id.now volume (rows_of db version2) rows.items) }
    {
        self.ready()?;
        let cust = code.number() as u32;
        let found = custody::newest_until(&mut self.conn, cust, id, volume);
        self.told(found)
    }

    /// The newest passage of a number, where it was passed on.
    pub fn passed(&mut self, code: Code, uprn: Uprn) -> Result<Option<Passed>, ShelfFault>
        ensures { AsksTables self.old self.new result
            (λ db passed. TellsPassed db code uprn passed) }
    {
        let name = id_of(self.alloc, &Key::Blpu(uprn))?;
        let rows = self.custody_rows(code, &name)?;
        self.read_without_memory(passage_said(&rows))
    }

    // The newest that was born in a volume or before.
    fn passed_until(
        &mut self,
        code: Code,
        volume: u32,
        uprn: Uprn,
    ) -> Result<Option<Passed>, ShelfFault>
        ensures { AsksTables self.old self.new result
            (λ db passed. volume ≤ reached_in (rows_of db received) code
            → custody_of passed ≡ custody_at (view_in (rows_of db version2) code volume) uprn) }
    {
        let name = id_of(self.alloc, &Key::Blpu(uprn))?;
        let rows = self.custody_rows_until(code, volume, &name)?;
        self.read_without_memory(passage_said(&rows))
    }

    /// What last became of a number in a custodian's last view.
    pub fn custody(&mut self, code: Code, uprn: Uprn) -> Result<Option<Custody>, ShelfFault>
        ensures { AsksTables self.old self.new result
            (λ db x. x ≡ custody_at (last_in db code) uprn) }
    {
        let passed = self.passed(code, uprn)?;
        Ok(custody_of(&passed))
    }

    /// What last became of a number after a volume, which is to be reached; after volume 0 nothing.
    pub fn custody_at(
        &mut self,
        code: Code,
        volume: u64,
        uprn: Uprn,
    ) -> Result<Option<Custody>, ShelfFault>
        ensures { AsksTables self.old self.new result
            (λ db x. volume ≤ reached_in (rows_of db received) code
            → x ≡ custody_at (view_in (rows_of db version2) code volume) uprn) }
    {
        let passed = self.passed_until(code, capped(volume), uprn)?;
        Ok(custody_of(&passed))
    }
}
