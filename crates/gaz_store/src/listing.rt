//! What a store lists of what it keeps.
ghost use Rattle.std.specs.Prelude.{IfOk};
ghost use Rattle.gaz_keeper.specs.Keeper.{Reads};
ghost use Rattle.gaz_loaded.specs.Telling as listed;
ghost use Rattle.gaz_loaded.specs.Passing as listed_passages;
ghost use Rattle.gaz_loaded.specs.Telling.{AreEntries};
ghost use Rattle.gaz_tables.specs.Schema.{version2};
ghost use Rattle.gaz_tables.specs.Tables.{rows_of};
ghost use Rattle.gaz_answers.specs.Lives.{TellsLives};
ghost use Rattle.gaz_answers.specs.Volumes.{TellsVolumes};
ghost use Rattle.gaz_store.specs.Listing.{lives_kept, passages_kept};
ghost use Rattle.gaz_store.specs.Listing.{TablesRest, database_of};
ghost use Rattle.gaz_store.specs.Store.{seen_in};

use crate::naming::OfRegister;
use crate::store::Store;
use gaz_ids::{Code, Volume};
use gaz_keeper::ShelfFault;
use gaz_loaded::{Life, Listed, Passage};
use sqlite::Alter;

impl<S: Alter, R: OfRegister> Listed for Store<S, R> {
    ghost use Rattle.gaz_store.specs.Made.{kept_are};

    ghost lives = { lives_kept };

    ghost passages = { passages_kept };

    /// At most 512, and none is left out between them.
    fn volumes_above(&mut self, code: Code, volume: u64) -> Result<Vec<Volume>, ShelfFault>
        ensures tells { listed.TellsVolumes (seen_in R.text) self.old self.new result code volume }
        ensures reads { Reads (seen_in R.text self.old) (seen_in R.text self.new) result (λ volumes.
            TellsVolumes (seen_in R.text self.old).content.files code volume volumes.items) }
        ensures rests { TablesRest R.text self.old self.new }
    {
        self.judging.clear();
        self.tables.volumes_above(code, volume)
    }

    /// What the rows of items in `version2` say, each with its custodian and the volumes in which
    /// its item stands, by rising rowids: at most 512.
    ///
    /// A row that doesn't read, or whose cells aren't all those of its item, is a counted failure.
    fn lives_behind(&mut self, place: Option<i64>) -> Result<Vec<Life>, ShelfFault>
        ensures tells { listed.TellsLives (seen_in R.text) lives_kept self.old self.new
            result place }
        ensures reads { Reads (seen_in R.text self.old) (seen_in R.text self.new) result
            (λ lives. TellsLives place lives.items (rows_of (database_of self.old) version2)) }
        ensures rests { TablesRest R.text self.old self.new }
        ensures entries { IfOk result (λ lives. AreEntries lives.items) }
    {
        self.judging.clear();
        self.tables.lives_behind(place)
    }

    /// At most 512.
    fn passages_behind(
        &mut self,
        code: Code,
        after: Option<Passage>,
    ) -> Result<Vec<Passage>, ShelfFault>
        ensures tells { listed_passages.TellsPassages (seen_in R.text) passages_kept
            self.old self.new result code after }
        ensures rests { TablesRest R.text self.old self.new }
    {
        self.judging.clear();
        self.tables.passages_behind(code, after)
    }

    ghost made = { kept_are R.text };
}
