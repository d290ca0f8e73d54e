//! Pages of what a custodian's gazetteer had after a volume.
ghost use Rattle.std.specs.Prelude.{◌≡◌, true, Some, option_map};
ghost use Rattle.std.specs.String.{string_bytes};
ghost use Rattle.gaz_keeper.specs.Telling.{IsPageAt};
ghost use Rattle.gaz_records.specs.Kinds.{is_entry_kind, number_of};
ghost use Rattle.gaz_tables.specs.Schema.{version2};
ghost use Rattle.gaz_tables.specs.Versions.{FindsHolding};
ghost use Rattle.gaz_tables.specs.Tables.{rows_of};
ghost use Rattle.gaz_calls.specs.Asking.{AsksTables};
ghost use Rattle.gaz_kept.specs.Contents.{board_of};
ghost use Rattle.gaz_answers.specs.Paging.{IsPageFrom};

use crate::tables::Tables;
use gaz_answers::pages::{items_in, start_of};
use gaz_ids::{Code, LAST_VOLUME};
use gaz_keeper::ShelfFault;
use gaz_records::{Key, Kind, SharedItem};
use gaz_tables::versions;
use sqlite::{Alter, Row};

// The most rows for which a statement is asked.
const MOST_ROWS: u32 = u32::MAX;

impl<S: Alter> Tables<S> {
    // Id and body of the rows of a kind that hold after a volume, behind an id: the first so many.
    fn holding(
        &mut self,
        code: Code,
        kind: Kind,
        start: &str,
        volume: u32,
        most: u32,
    ) -> Result<Vec<Row>, ShelfFault>
        ensures { AsksTables self.old self.new result (λ db rows.
            FindsHolding code (number_of kind) start.now volume most
            (rows_of db version2) rows.items) }
    {
        self.ready()?;
        let cust = code.number() as u32;
        let kind = kind.number() as u32;
        let found = versions::holding(&mut self.conn, cust, kind, start, volume, most);
        self.told(found)
    }

    // Id and body of the rows of a kind that hold after a volume, behind an id: the first so many,
    // also where that is more than a statement is asked for.
    fn holding_all(
        &mut self,
        code: Code,
        kind: Kind,
        start: &str,
        volume: u32,
        most: usize,
    ) -> Result<Vec<Row>, ShelfFault>
        ensures { AsksTables self.old self.new result (λ db rows.
            FindsHolding code (number_of kind) start.now volume most
            (rows_of db version2) rows.items) }
    {
        if most <= MOST_ROWS as usize {
            return self.holding(code, kind, start, volume, most as u32);
        }
        let rows = self.holding(code, kind, start, volume, MOST_ROWS)?;
        if rows.len() < MOST_ROWS as usize {
            return Ok(rows);
        }
        // More rows than one statement is asked for.
        Err(ShelfFault::Memory)
    }

    // The first `most` items of a kind whose ids stand behind a text, in key order, after a volume.
    fn page_behind(
        &mut self,
        code: Code,
        volume: u32,
        kind: Kind,
        start: &str,
        most: usize,
    ) -> Result<Vec<SharedItem>, ShelfFault>
        requires { is_entry_kind kind ≡ true }
        ensures { AsksTables self.old self.new result (λ db items.
            IsPageFrom (board_of db) code volume kind (Some start.now) most items.items) }
    {
        let rows = self.holding_all(code, kind, start, volume, most)?;
        self.read(items_in(self.alloc, kind, &rows))
    }

    // The first `most` items of a kind after a volume, behind a text; none where there is no text.
    fn page_from(
        &mut self,
        code: Code,
        volume: u32,
        kind: Kind,
        start: Option<String>,
        most: usize,
    ) -> Result<Vec<SharedItem>, ShelfFault>
        requires { is_entry_kind kind ≡ true }
        ensures { AsksTables self.old self.new result (λ db items. IsPageFrom
            (board_of db) code volume kind (option_map string_bytes start) most items.items) }
    {
        match start {
            Some(start) => self.page_behind(code, volume, kind, start.as_str(), most),
            None => Ok(Vec::new(self.alloc)),
        }
    }

    /// The first `most` items of a kind after a key, or from the start, in key order, after a
    /// volume, which is to be reached.
    pub fn page(
        &mut self,
        code: Code,
        volume: u64,
        kind: Kind,
        after: Option<Key>,
        most: usize,
    ) -> Result<Vec<SharedItem>, ShelfFault>
        ensures { AsksTables self.old self.new result (λ db items.
            IsPageAt (board_of db) code volume kind after most items.items) }
    {
        if volume > LAST_VOLUME {
            return Ok(Vec::new(self.alloc));
        }
        if !kind.is_entry() {
            return Ok(Vec::new(self.alloc));
        }
        let start = start_of(self.alloc, kind, after)?;
        self.page_from(code, volume as u32, kind, start, most)
    }
}
