//! The versions of one key.
ghost use Rattle.std.specs.Prelude.{◌≡◌, ◌↔◌, []};
ghost use Rattle.std.specs.Prelude.{OnOk, OnErr, IsOk, IsTrue, option_map};
ghost use Rattle.gaz_histories.specs.Histories.{Ascends, BeginsFrom, IsOverBy, before, is_empty};
ghost use Rattle.gaz_histories.specs.Histories.{lived, standing_at, was_used_at, with_version};
ghost use Rattle.gaz_histories.specs.Kept.{versions_in};

use crate::kept::Kept;
use crate::versions::{Version, are_over_by, begins_until, last_standing};
use std::alloc::{AllocError, Global};
use std::marker::Model;

/// What stood at a key through the volumes of a gazetteer, in their order.
#[derive(Drop)]
pub struct History<T> {
    alloc: Global,
    kept: Kept<T>,
}

// There is a history for each key, so each is small.
const _: () = prove!(size_of::<History<Box<u64>>>() == 24);

impl<T> Model for History<T> {
    ghost use Rattle.gaz_histories.specs.Histories.{Ascends, Versions};
    ghost use Rattle.gaz_histories.specs.Kept.{versions_in};

    ghost Value = { Versions T };

    ghost view = { λ h. versions_in h.kept };

    ghost invariant = { λ h. Ascends (versions_in h.kept) };
}

impl<T: Drop> History<T> {
    /// Nothing, at any volume.
    pub fn new(alloc: Global) -> History<T>
        ensures { result ≡ [] }
    {
        History {
            alloc,
            kept: Kept::Never,
        }
    }

    /// Whether the key was never used.
    pub fn is_empty(&self) -> bool
        ensures { result ≡ is_empty self.now }
    {
        match &self.kept {
            Kept::Never => true,
            Kept::Several(versions) => versions.is_empty(),
            _ => false,
        }
    }

    /// What stands at the key after a volume.
    pub fn standing_at(&self, volume: u64) -> Option<&T>
        ensures { option_map (λ x. x.now) result ≡ standing_at self.now volume }
    {
        match &self.kept {
            Kept::Standing(since, standing) if *since <= volume => Some(standing),
            Kept::Several(versions) => last_standing(versions, volume),
            _ => None,
        }
    }

    /// Whether the key was used at a volume or before it.
    pub fn was_used(&self, volume: u64) -> bool
        ensures { result ≡ was_used_at self.now volume }
    {
        match &self.kept {
            Kept::Never => false,
            Kept::Standing(since, _) => *since <= volume,
            Kept::Gone(since) => *since <= volume,
            Kept::Several(versions) => begins_until(versions, volume),
        }
    }

    /// Whether nothing stands at the key after a volume, nor after any later one.
    pub fn is_over_by(&self, volume: u64) -> bool
        ensures { IsTrue result ↔ IsOverBy self.now volume }
    {
        match &self.kept {
            Kept::Standing(_, _) => false,
            Kept::Several(versions) => are_over_by(versions, volume),
            _ => true,
        }
    }

    /// From a volume on this stands at the key, or nothing. What began at the volume or after it is
    /// forgotten. The first version of all needs no memory, nor does one in place of others.
    pub fn set(&mut self, volume: u64, standing: Option<T>) -> Result<(), AllocError>
        ensures ok { OnOk result (self.new ≡ with_version self.old volume standing) }
        ensures err { OnErr result (self.new ≡ self.old) }
        ensures first { self.old ≡ [] → IsOk result }
        ensures again { BeginsFrom self.old volume → IsOk result }
    {
        let version = Version {
            since: volume,
            standing,
        };
        Ok(self.kept.put(self.alloc, version)?)
    }

    /// This stands at the key from a volume on, and until another where one is given. What began at
    /// the volume or after it, or at its end where that comes before, is forgotten. Where memory
    /// runs out, nothing changes.
    pub fn live(&mut self, born: u64, gone: Option<u64>, standing: T) -> Result<(), AllocError>
        ensures ok { OnOk result (self.new ≡ lived self.old born gone standing) }
        ensures err { OnErr result (self.new ≡ self.old) }
    {
        let Some(gone) = gone else {
            return self.set(born, Some(standing));
        };
        if gone <= born {
            return self.set(gone, None);
        }
        let first = Version {
            since: born,
            standing: Some(standing),
        };
        let second = Version {
            since: gone,
            standing: None,
        };
        Ok(self.kept.put_both(self.alloc, first, second)?)
    }

    /// Forgets what began at a volume or after it.
    pub fn cut(&mut self, volume: u64)
        ensures { self.new ≡ before self.old volume }
    {
        self.kept.cut(volume);
    }
}
