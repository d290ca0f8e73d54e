//! Which volumes of a custodian were received.
ghost use Rattle.gaz_tables.specs.Schema.{received};
ghost use Rattle.gaz_tables.specs.Tables.{rows_of};
ghost use Rattle.gaz_kept.specs.Files.{files_in};
ghost use Rattle.gaz_calls.specs.Asking.{AsksTables};
ghost use Rattle.gaz_answers.specs.Volumes.{TellsVolumes};

use crate::tables::Tables;
use gaz_answers::sizes::MOST;
use gaz_answers::volumes::volumes_in;
use gaz_ids::{Code, LAST_VOLUME, Volume};
use gaz_keeper::ShelfFault;
use sqlite::Alter;

impl<S: Alter> Tables<S> {
    /// The received volumes of a custodian above one, rising: at most `MOST`.
    pub fn volumes_above(&mut self, code: Code, volume: u64) -> Result<Vec<Volume>, ShelfFault>
        ensures { AsksTables self.old self.new result (λ db volumes.
            TellsVolumes (files_in (rows_of db received)) code volume volumes.items) }
    {
        if volume > LAST_VOLUME {
            return Ok(Vec::new(self.alloc));
        }
        let rows = self.rows_above(code, volume, MOST)?;
        self.read(volumes_in(self.alloc, &rows))
    }
}
