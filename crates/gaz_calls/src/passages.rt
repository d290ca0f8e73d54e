//! What became of a custodian's numbers, number by number and for each volume by volume.
ghost use Rattle.std.specs.Prelude.{◌≡◌};
ghost use Rattle.gaz_tables.specs.Custody.{FindsCustodyBehind};
ghost use Rattle.gaz_tables.specs.Schema.{version2};
ghost use Rattle.gaz_tables.specs.Tables.{rows_of};
ghost use Rattle.gaz_loaded.specs.Passing.{AreToldBehind};
ghost use Rattle.gaz_calls.specs.Asking.{AsksTables};
ghost use Rattle.gaz_calls.specs.Passing.{any_passed, passages_of};

use crate::tables::Tables;
use gaz_answers::passages::{passages_in, start_of};
use gaz_answers::sizes::MOST;
use gaz_ids::Code;
use gaz_keeper::ShelfFault;
use gaz_loaded::Passage;
use gaz_tables::custody;
use sqlite::{Alter, Row};

impl<S: Alter> Tables<S> {
    // The rows of kind 92 behind an id and a volume, as ids rise and for each as volumes do.
    fn passage_rows(
        &mut self,
        code: Code,
        id: &str,
        born: u32,
        most: u32,
    ) -> Result<Vec<Row>, ShelfFault>
        ensures { AsksTables self.old self.new result (λ db rows.
            FindsCustodyBehind code id.now born most (rows_of db version2) rows.items) }
    {
        self.ready()?;
        let cust = code.number() as u32;
        let found = custody::behind(&mut self.conn, cust, id, born, most);
        self.told(found)
    }

    /// What became of a custodian's numbers behind what was told of one, or from the first, as
    /// numbers rise and for each as volumes do: at most `MOST`.
    pub fn passages_behind(
        &mut self,
        code: Code,
        after: Option<Passage>,
    ) -> Result<Vec<Passage>, ShelfFault>
        ensures { AsksTables self.old self.new result
            (λ db passages. AreToldBehind after (passages_of db code) passages.items) }
    {
        let start = start_of(self.alloc, after)?;
        let rows = self.passage_rows(code, start.0.as_str(), start.1, MOST)?;
        self.read(passages_in(self.alloc, &rows))
    }

    /// Whether one of a custodian's numbers was passed on.
    pub fn any_passed(&mut self, code: Code) -> Result<bool, ShelfFault>
        ensures { AsksTables self.old self.new result (λ db any. any ≡ any_passed db code) }
    {
        let rows = self.passage_rows(code, "", 0, 1)?;
        Ok(!rows.is_empty())
    }
}
