//! Who waits for which volume.
ghost use Rattle.std.specs.Prelude.{◌≡◌, ◌++◌, ◌==◌, not, filter, map, IfOk, OnOk, Some};
ghost use Rattle.gaz_waiters.specs.Remembered.{all_ahead, is_among, known_in, nobody_ahead};
ghost use Rattle.gaz_waiters.specs.Remembered.{waiting_for, with_coming, with_judged};
ghost use Rattle.gaz_waiters.specs.Remembered.{with_nothing_wanted, with_waiter, without_waiters};

use crate::codes::Codes;
use gaz_ids::{Code, Volume};
use gaz_register::{Custodian, Register};
use std::alloc::{AllocError, Global};
use std::collections::BTreeMap;
use std::marker::Model;
use std::mem::replace;

/// The custodians whose next volume is to be looked at; for each volume those who wait for it; and
/// what each custodian waits for.
///
/// Only what a hub needs in order to look at nobody, and to read no file, in vain: it can be built
/// anew at any time, by looking at everyone.
#[derive(Drop)]
pub struct Waiters {
    alloc: Global,
    ahead: Vec<Code>,
    by_volume: BTreeMap<(Code, Volume), Codes>,
    wanted: BTreeMap<Code, (Code, Volume)>,
}

impl Model for Waiters {
    ghost use Rattle.std.specs.FinMap as map;
    ghost use Rattle.gaz_waiters.specs.Remembered.{Remembered};
    ghost use Rattle.gaz_waiters.specs.RememberedCode.{remembered_code};

    ghost Value = { Remembered };

    ghost coded = { remembered_code };

    ghost view = { λ w. record {
      ahead = w.ahead.items;
      waiting = map.from_entries w.by_volume.entries;
      wanted = map.from_entries w.wanted.entries;
    } };
}

impl Waiters {
    /// Everyone is to be looked at.
    pub fn of(alloc: Global, register: &Register) -> Result<Waiters, AllocError>
        ensures { IfOk result (λ w. w ≡ all_ahead register.now) }
    {
        Ok(Waiters {
            alloc,
            ahead: codes_of(alloc, register.custodians())?,
            by_volume: BTreeMap::new(alloc),
            wanted: BTreeMap::new(alloc),
        })
    }

    /// Those who are to be looked at; afterwards nobody is.
    pub fn take_ahead(&mut self) -> Vec<Code>
        ensures taken { result.items ≡ self.old.ahead }
        ensures left { self.new ≡ nobody_ahead self.old }
    {
        replace(&mut self.ahead, Vec::new(self.alloc))
    }

    // Those who wait for a volume; afterwards nobody does.
    fn take_waiting(&mut self, custodian: Code, volume: Volume) -> Codes
        ensures codes { result ≡ waiting_for self.old (custodian, volume) }
        ensures left { self.new ≡ without_waiters self.old (custodian, volume) }
    {
        match self.by_volume.remove(&(custodian, volume)) {
            Some(codes) => codes,
            None => Codes::new(self.alloc),
        }
    }

    /// A custodian waits for a volume.
    pub fn wait(&mut self, waiter: Code, custodian: Code, volume: Volume) -> Result<(), AllocError>
        ensures { OnOk result (self.new ≡ with_waiter self.old (custodian, volume) waiter) }
    {
        let mut codes = self.take_waiting(custodian, volume);
        codes.push(waiter)?;
        self.by_volume.insert((custodian, volume), codes)?;
        self.wanted.insert(waiter, (custodian, volume))?;
        Ok(())
    }

    /// A custodian waits for nothing.
    pub fn want_nothing(&mut self, custodian: Code)
        ensures { self.new ≡ with_nothing_wanted self.old custodian }
    {
        let _ = self.wanted.remove(&custodian);
    }

    /// What a custodian waits for; none while it is to be looked at.
    pub fn known(&self, custodian: Code) -> Option<(Code, Volume)>
        ensures { result ≡ known_in (Some self.now) custodian }
    {
        if self.ahead.as_slice().contains(&custodian) {
            return None;
        }
        self.wanted.get(&custodian).copied()
    }

    /// A volume was judged: its custodian is to be looked at, and so are the others who waited for
    /// it.
    pub fn wake(&mut self, custodian: Code, volume: Volume) -> Result<(), AllocError>
        ensures { OnOk result (self.new ≡ with_judged self.old (custodian, volume)) }
    {
        let codes = self.take_waiting(custodian, volume);
        self.ahead.push(custodian)?;
        push_others(&mut self.ahead, codes.as_slice(), custodian)
    }

    /// A file came: its custodian is to be looked at, where it waited for it.
    pub fn come(&mut self, custodian: Code, volume: Volume) -> Result<(), AllocError>
        ensures { OnOk result (self.new ≡ with_coming self.old (custodian, volume)) }
    {
        if self.is_waiting(custodian, custodian, volume) {
            self.ahead.push(custodian)?;
        }
        Ok(())
    }

    // Whether a custodian is among those who wait for a volume.
    fn is_waiting(&self, waiter: Code, custodian: Code, volume: Volume) -> bool
        ensures { result ≡ is_among (waiting_for self.now (custodian, volume)) waiter }
    {
        match self.by_volume.get(&(custodian, volume)) {
            Some(codes) => codes.as_slice().contains(&waiter),
            None => false,
        }
    }
}

// The codes of some custodians.
fn codes_of(alloc: Global, custodians: &[Custodian]) -> Result<Vec<Code>, AllocError>
    ensures { IfOk result (λ codes. codes.items ≡ map (λ k. k.code) custodians.now) }
{
    let mut codes = Vec::new(alloc);
    for custodian in custodians {
        codes.push(custodian.code())?;
    }
    Ok(codes)
}

// Adds all but one.
fn push_others(ahead: &mut Vec<Code>, codes: &[Code], but: Code) -> Result<(), AllocError>
    ensures { OnOk result (ahead.new.items
        ≡ ahead.old.items ++ filter (λ c. not (c == but)) codes.now) }
{
    for code in codes {
        if *code != but {
            ahead.push(*code)?;
        }
    }
    Ok(())
}
