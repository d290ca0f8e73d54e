//! What became of the numbers of a gazetteer through its volumes.
ghost use Rattle.std.specs.Prelude.{◌≡◌, IsOk, OnOk, OnErr};
ghost use Rattle.std.specs.FinMap as finite;
ghost use Rattle.gaz_histories.specs.Histories.{BeginsFrom, standing_at};
ghost use Rattle.gaz_ledger.specs.Custodies.{ForgetsAt, PassesAt, passed_at};

use gaz_histories::History;
use gaz_ids::Uprn;
use gaz_standing::Seed;
use gaz_views::Custody;
use std::alloc::{AllocError, Global};
use std::collections::HashMap;
use std::marker::Model;

/// The history of each number that was ever passed on. Of nearly all custodians it is empty.
#[derive(Drop)]
pub struct Custodies {
    alloc: Global,
    by_uprn: HashMap<Uprn, History<Custody>, Seed>,
}

impl Model for Custodies {
    ghost use Rattle.std.specs.FinMap as finite;
    ghost use Rattle.gaz_ledger.specs.Custodies.{Custodies};
    ghost use Rattle.gaz_ledger.specs.CustodiesCode.{custodies_code};

    ghost Value = { Custodies };

    ghost coded = { custodies_code };

    ghost view = { λ c. finite.from_entries c.by_uprn.entries };
}

impl Custodies {
    /// No number was passed on.
    pub fn new(alloc: Global, seed: Seed) -> Custodies
        ensures { result ≡ finite.empty }
    {
        Custodies {
            alloc,
            by_uprn: HashMap::with_hasher(alloc, seed),
        }
    }

    /// What last became of a number, after a volume.
    pub fn custody(&self, volume: u64, uprn: Uprn) -> Option<Custody>
        ensures { result ≡ standing_at (passed_at self.now uprn) volume }
    {
        match self.by_uprn.get(&uprn) {
            Some(history) => standing_in(history, volume),
            None => None,
        }
    }

    /// From a volume on this is what last became of a number, or nothing. What became of it at the
    /// volume or after it is forgotten. In place of that it needs no memory.
    pub fn set(
        &mut self,
        volume: u64,
        uprn: Uprn,
        custody: Option<Custody>,
    ) -> Result<(), AllocError>
        ensures ok { OnOk result (PassesAt self.old self.new volume uprn custody) }
        ensures err { OnErr result (self.new ≡ self.old) }
        ensures again { BeginsFrom (passed_at self.old uprn) volume → IsOk result }
    {
        if let Some(history) = self.by_uprn.get_mut(&uprn) {
            return Ok(history.set(volume, custody)?);
        }
        let mut history = History::new(self.alloc);
        history.set(volume, custody)?;
        self.by_uprn.insert(uprn, history)?;
        Ok(())
    }

    /// Forgets what became of a number at a volume or after it.
    pub fn cut(&mut self, volume: u64, uprn: Uprn)
        ensures { ForgetsAt self.old self.new volume uprn }
    {
        let Some(history) = self.by_uprn.get_mut(&uprn) else {
            return;
        };
        history.cut(volume);
        if history.is_empty() {
            // Keeps nothing of a number that was never passed on.
            self.by_uprn.remove(&uprn);
        }
    }
}

fn standing_in(history: &History<Custody>, volume: u64) -> Option<Custody>
    ensures { result ≡ standing_at history.now volume }
{
    match history.standing_at(volume) {
        Some(custody) => Some(*custody),
        None => None,
    }
}
