//! The rows of `version2` one after the other, in the order of their rowids.
ghost use Rattle.std.specs.Prelude.{◌≡◌, true, All, IfOk};
ghost use Rattle.gaz_records.specs.Items.{is_entry};
ghost use Rattle.gaz_tables.specs.Rowids.{FindsBehind, FindsFirst, FindsInTurn};
ghost use Rattle.gaz_tables.specs.Schema.{version2};
ghost use Rattle.gaz_tables.specs.Tables.{rows_of};
ghost use Rattle.gaz_calls.specs.Asking.{AsksTables};
ghost use Rattle.gaz_answers.specs.Lives.{AreEntries, IsRowBehind, TellsLives, TellsPage};

use crate::tables::Tables;
use gaz_answers::life_rows::{LifePage, page_told};
use gaz_answers::sizes::MOST;
use gaz_keeper::ShelfFault;
use gaz_loaded::Life;
use gaz_tables::rowids;
use sqlite::{Alter, Row};

impl<S: Alter> Tables<S> {
    // The rows, by rising rowids: the first so many.
    fn first_rows(&mut self) -> Result<Vec<Row>, ShelfFault>
        ensures { AsksTables self.old self.new result
            (λ db rows. FindsFirst MOST (rows_of db version2) rows.items) }
    {
        self.ready()?;
        let found = rowids::first(&mut self.conn, MOST);
        self.told(found)
    }

    // The rows behind a rowid, by rising rowids: the first so many.
    fn rows_behind(&mut self, after: i64) -> Result<Vec<Row>, ShelfFault>
        ensures { AsksTables self.old self.new result
            (λ db rows. FindsBehind after MOST (rows_of db version2) rows.items) }
    {
        self.ready()?;
        let found = rowids::behind(&mut self.conn, &after, MOST);
        self.told(found)
    }

    // The rows behind a rowid, or from the first: the first so many.
    fn rows_in_turn(&mut self, after: Option<i64>) -> Result<Vec<Row>, ShelfFault>
        ensures { AsksTables self.old self.new result (λ db rows.
            FindsInTurn (IsRowBehind after) MOST (rows_of db version2) rows.items) }
    {
        match after {
            Some(after) => self.rows_behind(after),
            None => self.first_rows(),
        }
    }

    // What a page of the rows behind a rowid tells, or one from the first.
    fn lives_step(&mut self, after: Option<i64>) -> Result<LifePage, ShelfFault>
        ensures asks { AsksTables self.old self.new result
            (λ db page. TellsPage after (rows_of db version2) page) }
        ensures entries { IfOk result AreEntries }
    {
        let rows = self.rows_in_turn(after)?;
        self.read(page_told(self.alloc, &rows))
    }

    /// What the rows of items behind a rowid say, or those from the first, by rising rowids: at
    /// most `MOST`. Rows of what became of numbers are passed over, also where there is nothing
    /// else on a page.
    pub fn lives_behind(&mut self, after: Option<i64>) -> Result<Vec<Life>, ShelfFault>
        ensures asks { AsksTables self.old self.new result
            (λ db lives. TellsLives after lives.items (rows_of db version2)) }
        ensures entries { IfOk result
            (λ lives. All (λ life. is_entry life.item ≡ true) lives.items) }
    {
        let mut place = after;
        'pages: for _page in 0..u64::MAX {
            let page = self.lives_step(place)?;
            match page {
                LifePage::Lives(lives) => return Ok(lives),
                LifePage::Behind(last) => place = Some(last),
            }
        }
        // More pages than can be counted.
        Err(ShelfFault::Memory)
    }
}
