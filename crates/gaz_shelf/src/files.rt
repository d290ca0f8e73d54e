ghost use Rattle.std.specs.Prelude.{◌≡◌, ◌≤◌, ℕ, true, OnOk, OnErr, length, option_map};
ghost use Rattle.std.specs.Prelude.{count_by};
ghost use Rattle.std.specs.FinMap as map;
ghost use Rattle.std.specs.BTreeMap.{keys};
ghost use Rattle.gaz_keeper.specs.Received.{count_above};
ghost use Rattle.gaz_shelf.specs.Highest.{files_between, is_below, is_between};
ghost use Rattle.gaz_keeper.specs.Received.{with_file};

use gaz_ids::{Code, Volume};
use std::alloc::{AllocError, Global};
use std::collections::BTreeMap;
use std::marker::Model;

/// The bytes of a file as it was received.
#[derive(Drop)]
struct FileBytes {
    bytes: Vec<u8>,
}

impl Model for FileBytes {
    ghost use Rattle.std.specs.Prelude.{List, ℕ};

    ghost Value = { List ℕ };

    ghost view = { λ f. f.bytes.items };
}

impl FileBytes {
    fn as_slice(&self) -> &[u8]
        ensures { result.now ≡ self.now }
    {
        self.bytes.as_slice()
    }
}

/// The files that were received, by custodian and volume.
#[derive(Drop)]
pub struct Files {
    alloc: Global,
    by_pair: BTreeMap<(Code, Volume), FileBytes>,
    // No file of a custodian is above this volume. Most questions are about files that aren't there
    // yet, and end here.
    highest: BTreeMap<Code, Volume>,
}

impl Model for Files {
    ghost use Rattle.std.specs.FinMap as map;
    ghost use Rattle.std.specs.Coded.{coded_list, coded_ℕ, coded×};
    ghost use Rattle.gaz_keeper.specs.Received.{Received};

    ghost Value = { Received };

    ghost coded = { map.code (coded× coded_ℕ coded_ℕ) (coded_list coded_ℕ) };

    ghost view = { λ f. map.from_entries f.by_pair.entries };

    ghost use Rattle.gaz_shelf.specs.Highest.{AreBelow};

    ghost invariant = { λ f. AreBelow f.highest.entries (map.from_entries f.by_pair.entries) };
}

impl Files {
    /// No files.
    pub fn new(alloc: Global) -> Files
        ensures { result ≡ map.empty }
    {
        Files {
            alloc,
            by_pair: BTreeMap::new(alloc),
            highest: BTreeMap::new(alloc),
        }
    }

    /// The bytes of a file, where it was received.
    pub fn get(&self, code: Code, volume: Volume) -> Option<&[u8]>
        ensures { option_map (λ b. b.now) result ≡ map.get self.now (code, volume) }
    {
        if !is_below(&self.highest, code, volume) {
            return None;
        }
        match self.by_pair.get(&(code, volume)) {
            Some(file) => Some(file.as_slice()),
            None => None,
        }
    }

    /// Receives a file. Where memory runs out, nothing is received.
    pub fn receive(&mut self, code: Code, volume: Volume, bytes: &[u8]) -> Result<(), AllocError>
        ensures ok { OnOk result (self.new ≡ with_file self.old code volume bytes.now) }
        ensures err { OnErr result (self.new ≡ self.old) }
    {
        let bytes = Vec::from_slice(self.alloc, bytes)?;
        raise(&mut self.highest, code, volume)?;
        self.by_pair.insert((code, volume), FileBytes { bytes })?;
        Ok(())
    }

    /// How many files of a custodian are above a volume.
    pub fn count_above(&self, code: Code, reached: u64) -> u64
        ensures { result ≡ count_above self.now code reached }
    {
        let _count = self.by_pair.len();
        match self.highest.get(&code) {
            Some(highest) => count_between(&self.by_pair, code, reached, *highest),
            None => 0,
        }
    }
}

// Whether a volume is at or below the highest of a custodian.
fn is_below(highest: &BTreeMap<Code, Volume>, code: Code, volume: Volume) -> bool
    ensures { result ≡ is_below highest.now.entries code volume }
{
    match highest.get(&code) {
        Some(highest) => volume.number() <= highest.number(),
        None => false,
    }
}

// Lets the highest volume of a custodian be this one, if it isn't higher.
fn raise(highest: &mut BTreeMap<Code, Volume>, code: Code, volume: Volume) -> Result<(), AllocError>
    ensures ok { OnOk result (is_below highest.new.entries code volume ≡ true) }
    ensures kept { (c v : ℕ) → is_below highest.old.entries c v ≡ true
        → is_below highest.new.entries c v ≡ true }
{
    if is_below(highest, code, volume) {
        return Ok(());
    }
    highest.insert(code, volume)?;
    Ok(())
}

// How many files of a custodian are above a volume, where none is above the highest.
fn count_between(
    by_pair: &BTreeMap<(Code, Volume), FileBytes>,
    code: Code,
    reached: u64,
    highest: Volume,
) -> u64
    ensures { result ≡ count_by (is_between code reached highest) (keys by_pair.now) }
{
    if highest.number() <= reached {
        return 0;
    }
    let Some(first) = Volume::of(reached + 1) else {
        return 0;
    };
    count_from(by_pair, code, first, highest)
}

// How many files of a custodian there are from a volume to another.
fn count_from(
    by_pair: &BTreeMap<(Code, Volume), FileBytes>,
    code: Code,
    first: Volume,
    last: Volume,
) -> u64
    requires { first ≤ last }
    ensures { result ≡ length (files_between (code, first) (code, last) by_pair.now.entries) }
{
    by_pair.range((code, first)..=(code, last)).count() as u64
}
