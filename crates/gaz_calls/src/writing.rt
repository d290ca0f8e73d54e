//! Files that come, and volumes that are rejected.
ghost use Rattle.gaz_tables.specs.Receiveds.{Rejects};
ghost use Rattle.gaz_tables.specs.Schema.{received};
ghost use Rattle.gaz_tables.specs.Stores.{ChangesTable};
ghost use Rattle.gaz_calls.specs.Altering.{AltersTables, Writes};
ghost use Rattle.gaz_calls.specs.Writing.{Comes, IsNewIn, IsNextIn, RejectsNext, WhereSo};

use crate::tables::Tables;
use gaz_ids::{Code, Volume};
use gaz_keeper::ShelfFault;
use gaz_tables::alone;
use sqlite::Alter;

impl<S: Alter> Tables<S> {
    /// Receives a volume, which is committed when this answers.
    pub fn receive(&mut self, code: Code, volume: Volume, bytes: &[u8]) -> Result<(), ShelfFault>
        ensures { Writes self.old self.new result (IsNewIn code volume)
            (Comes code volume bytes.now) }
    {
        self.add_file(code.number() as u32, volume.number() as u32, bytes)?;
        self.at_hand.has_come(code);
        Ok(())
    }

    /// Rejects a custodian's next volume at a place by a rule, which is committed when this
    /// answers. A place that the tables have no room for is a failure.
    pub fn skip(&mut self, code: Code, place: u64, rule: u8) -> Result<(), ShelfFault>
        ensures { Writes self.old self.new result (IsNextIn code)
            (WhereSo self.old.at_hand (RejectsNext code place rule)) }
    {
        let reached = self.reached(code)?;
        let Some(next) = Volume::of(reached.saturating_add(1)) else {
            return Err(self.fail());
        };
        let Ok(place) = i64::try_from(place) else {
            return Err(self.fail());
        };
        self.reject(code.number() as u32, next.number() as u32, place, rule)?;
        self.at_hand.was_judged(code);
        Ok(())
    }

    // The row of a volume, which nobody has judged.
    fn add_file(&mut self, cust: u32, volume: u32, bytes: &[u8]) -> Result<(), ShelfFault>
        ensures { AltersTables self.old self.new result (Comes cust volume bytes.now) }
    {
        self.ready()?;
        let done = alone::receive(&mut self.conn, cust, volume, bytes);
        self.told(done)
    }

    // Marks a volume rejected at a place by a rule.
    fn reject(&mut self, cust: u32, volume: u32, place: i64, rule: u8) -> Result<(), ShelfFault>
        ensures { AltersTables self.old self.new result
            (ChangesTable received (Rejects cust volume place rule)) }
    {
        self.ready()?;
        let done = alone::reject(&mut self.conn, cust, volume, &place, rule as u32);
        self.told(done)
    }
}
