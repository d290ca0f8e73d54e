//! What is read of received files.
ghost use Rattle.std.specs.Prelude.{◌≡◌, option_map};
ghost use Rattle.std.specs.FinMap as map;
ghost use Rattle.gaz_keeper.specs.Board.{verdict_on};
ghost use Rattle.gaz_tables.specs.Receiveds.{FindsFile, FindsVerdict};
ghost use Rattle.gaz_tables.specs.Schema.{received};
ghost use Rattle.gaz_tables.specs.Tables.{rows_of};
ghost use Rattle.gaz_calls.specs.Asking.{AsksTables};
ghost use Rattle.gaz_kept.specs.Contents.{board_of};
ghost use Rattle.gaz_kept.specs.Files.{files_in};

use crate::tables::Tables;
use gaz_answers::files::{first_bytes, verdict_said};
use gaz_ids::{Code, Volume};
use gaz_keeper::ShelfFault;
use gaz_tables::receiveds;
use gaz_views::Verdict;
use sqlite::{Alter, Row};

impl<S: Alter> Tables<S> {
    /// The state of a volume with its place and rule, where it was received.
    pub(crate) fn verdict_rows(
        &mut self,
        code: Code,
        volume: Volume,
    ) -> Result<Vec<Row>, ShelfFault>
        ensures { AsksTables self.old self.new result
            (λ db rows. FindsVerdict code volume (rows_of db received) rows.items) }
    {
        self.ready()?;
        let found = receiveds::verdict(
            &mut self.conn,
            code.number() as u32,
            volume.number() as u32,
        );
        self.told(found)
    }

    /// The verdict on a volume, where it is judged.
    pub fn verdict(&mut self, code: Code, volume: Volume) -> Result<Option<Verdict>, ShelfFault>
        ensures { AsksTables self.old self.new result
            (λ db v. v ≡ verdict_on (board_of db) code volume) }
    {
        let rows = self.verdict_rows(code, volume)?;
        self.read_without_memory(verdict_said(&rows))
    }

    /// The bytes of a volume with its state, place and rule, where it was received.
    pub(crate) fn file_rows(&mut self, code: Code, volume: Volume) -> Result<Vec<Row>, ShelfFault>
        ensures { AsksTables self.old self.new result
            (λ db rows. FindsFile code volume (rows_of db received) rows.items) }
    {
        self.ready()?;
        let found = receiveds::file(&mut self.conn, code.number() as u32, volume.number() as u32);
        self.told(found)
    }

    /// The bytes of a volume, where it was received.
    pub fn received(&mut self, code: Code, volume: Volume) -> Result<Option<Vec<u8>>, ShelfFault>
        ensures { AsksTables self.old self.new result
            (λ db bytes. option_map (λ b. b.items) bytes
            ≡ map.get (files_in (rows_of db received)) (code, volume)) }
    {
        let rows = self.file_rows(code, volume)?;
        self.read(first_bytes(&rows))
    }
}
