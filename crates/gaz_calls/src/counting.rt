//! How many volumes of a custodian are judged, and how many wait above them.
ghost use Rattle.std.specs.Prelude.{◌≡◌, ◌+◌, ◌≤◌, ◌<◌, nat_le, IfOk};
ghost use Rattle.gaz_keeper.specs.Board.{reached};
ghost use Rattle.gaz_keeper.specs.Received.{count_above};
ghost use Rattle.gaz_tables.specs.Receiveds.{FindsAbove};
ghost use Rattle.gaz_tables.specs.Schema.{received};
ghost use Rattle.gaz_tables.specs.Tables.{rows_of};
ghost use Rattle.gaz_calls.specs.Asking.{AsksTables, Recalls};
ghost use Rattle.gaz_kept.specs.Contents.{board_of};
ghost use Rattle.gaz_kept.specs.Files.{files_in, reached_in};
ghost use Rattle.gaz_calls.specs.Remembered.{IsSo, held_in};

use crate::tables::Tables;
use gaz_counts::AtHand;
use gaz_ids::{Code, LAST_VOLUME, Volume};
use gaz_keeper::ShelfFault;
use gaz_tables::receiveds;
use sqlite::{Alter, Row};

// More than a custodian has volumes.
const MANY: u32 = 1_000_000;

impl<S: Alter> Tables<S> {
    /// How many volumes of a custodian are judged.
    pub fn reached(&mut self, code: Code) -> Result<u64, ShelfFault>
        ensures { Recalls self.old self.new result (λ db n. n ≡ reached (board_of db) code) }
    {
        let at_hand = self.counts(code)?;
        Ok(at_hand.reached)
    }

    /// How many files of a custodian wait above the judged ones.
    pub fn held(&mut self, code: Code) -> Result<u64, ShelfFault>
        ensures { Recalls self.old self.new result
            (λ db n. n ≡ held_in (rows_of db received) code) }
    {
        let at_hand = self.counts(code)?;
        let reached = at_hand.reached;
        if let Some(held) = at_hand.held {
            return Ok(held);
        }
        let held = self.count_above(code, reached)?;
        let counted = AtHand {
            reached,
            held: Some(held),
        };
        self.at_hand.note(code, counted);
        Ok(held)
    }

    // What is at hand of a custodian; where that is nothing, how many are judged is counted, and is
    // at hand from then on.
    fn counts(&mut self, code: Code) -> Result<AtHand, ShelfFault>
        ensures { Recalls self.old self.new result (λ db h. IsSo (rows_of db received) code h) }
    {
        if let Some(at_hand) = self.at_hand.of(code) {
            return Ok(at_hand);
        }
        let reached = self.count_judged(code)?;
        let counted = AtHand {
            reached,
            held: None,
        };
        self.at_hand.note(code, counted);
        Ok(counted)
    }

    // How many volumes of a custodian are judged: as these are the first ones, half of what is left
    // goes with each that is looked at.
    fn count_judged(&mut self, code: Code) -> Result<u64, ShelfFault>
        ensures { AsksTables self.old self.new result
            (λ db n. n ≡ reached_in (rows_of db received) code) }
    {
        let bounds = self.bounds(code)?;
        let mut reached = bounds.0;
        let mut beyond = bounds.1;
        while reached + 1 < beyond {
            let middle = reached + (beyond - reached) / 2;
            let judged = self.is_judged(code, middle)?;
            if judged {
                reached = middle;
            } else {
                beyond = middle;
            }
        }
        Ok(reached)
    }

    // How many volumes are judged at least, and a number that is more than are: a volume is looked
    // at and, as long as it is judged, the one of twice its number. Where none is judged, one look
    // tells.
    fn bounds(&mut self, code: Code) -> Result<(u64, u64), ShelfFault>
        ensures asks { AsksTables self.old self.new result
            (λ db b. (b.0 ≤ reached_in (rows_of db received) code)
            × (reached_in (rows_of db received) code < b.1)) }
        ensures order { IfOk result (λ b. (b.0 < b.1) × (b.1 ≤ LAST_VOLUME + 1)) }
    {
        let mut reached: u64 = 0;
        let mut next: u64 = 1;
        while next <= LAST_VOLUME {
            let judged = self.is_judged(code, next)?;
            if !judged {
                return Ok((reached, next));
            }
            reached = next;
            next *= 2;
        }
        Ok((reached, LAST_VOLUME + 1))
    }

    // Whether a volume is judged.
    fn is_judged(&mut self, code: Code, volume: u64) -> Result<bool, ShelfFault>
        requires { (1 ≤ volume) × (volume ≤ LAST_VOLUME) }
        ensures { AsksTables self.old self.new result
            (λ db b. b ≡ nat_le volume (reached_in (rows_of db received) code)) }
    {
        let Some(volume) = Volume::of(volume) else {
            return Err(self.fail());
        };
        let verdict = self.verdict(code, volume)?;
        Ok(verdict.is_some())
    }

    // How many files of a custodian are above a volume.
    fn count_above(&mut self, code: Code, volume: u64) -> Result<u64, ShelfFault>
        ensures { AsksTables self.old self.new result
            (λ db n. n ≡ count_above (files_in (rows_of db received)) code volume) }
    {
        if volume > LAST_VOLUME {
            return Ok(0);
        }
        let rows = self.rows_above(code, volume, MANY)?;
        if rows.len() >= MANY as usize {
            return Err(self.fail());
        }
        Ok(rows.len() as u64)
    }

    /// The volumes of a custodian above one, each once, as they rise: the first so many.
    pub(crate) fn rows_above(
        &mut self,
        code: Code,
        volume: u64,
        most: u32,
    ) -> Result<Vec<Row>, ShelfFault>
        requires { volume ≤ LAST_VOLUME }
        ensures { AsksTables self.old self.new result
            (λ db rows. FindsAbove code volume most (rows_of db received) rows.items) }
    {
        self.ready()?;
        let found = receiveds::above(&mut self.conn, code.number() as u32, volume as u32, most);
        self.told(found)
    }
}
