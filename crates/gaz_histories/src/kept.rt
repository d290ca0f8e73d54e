//! How the versions of a key are kept.
ghost use Rattle.std.specs.Prelude.{◌≡◌, ◌++◌, ◌∷◌, [], false, IfErr, IfOk, IsOk, OnErr, OnOk};
ghost use Rattle.gaz_histories.specs.Histories.{Ascends, BeginsFrom, before};
ghost use Rattle.gaz_histories.specs.Kept.{is_one, is_one_before, version_in, versions_in};

use crate::versions::{Version, count_before, put_last, put_two};
use std::alloc::{AllocError, AllocFailed, Global};
use std::mem::replace;

/// The versions of a key. Nearly every key has one, which takes no memory of its own.
#[derive(Drop)]
pub enum Kept<T> {
    /// None.
    Never,
    /// One: something stands at the key from a volume on.
    Standing(u64, T),
    /// One: nothing stands at the key from a volume on.
    Gone(u64),
    /// Any number, in their order.
    Several(Box<Vec<Version<T>>>),
}

impl<T: Drop> Kept<T> {
    /// This version alone.
    pub fn one(version: Version<T>) -> Kept<T>
        ensures { versions_in result ≡ version_in version ∷ [] }
    {
        let Version { since, standing } = version;
        match standing {
            Some(standing) => Kept::Standing(since, standing),
            None => Kept::Gone(since),
        }
    }

    // Whether this is one version, kept without memory, that begins before a volume.
    fn is_one_before(&self, volume: u64) -> bool
        ensures { result ≡ is_one_before self.now volume }
    {
        match self {
            Kept::Standing(since, _) => *since < volume,
            Kept::Gone(since) => *since < volume,
            _ => false,
        }
    }

    /// Puts a version behind those that begin before it, and forgets the others. Where memory runs
    /// out, nothing changes. The first version of all needs no memory, nor does one in place of
    /// others.
    pub fn put(&mut self, alloc: Global, version: Version<T>) -> Result<(), AllocError>
        requires { Ascends (versions_in self.old) }
        ensures ok { OnOk result (versions_in self.new
            ≡ before (versions_in self.old) version.since ++ version_in version ∷ []) }
        ensures err { OnErr result (versions_in self.new ≡ versions_in self.old) }
        ensures first { versions_in self.old ≡ [] → IsOk result }
        ensures again { BeginsFrom (versions_in self.old) version.since → IsOk result }
    {
        if self.is_one_before(version.since) {
            self.spread(alloc)?;
        }
        if let Kept::Several(versions) = self {
            if !versions.is_empty() {
                return Ok(put_last(versions, version)?);
            }
        }
        *self = Kept::one(version);
        Ok(())
    }

    /// Puts two versions behind those that begin before the first of them, and forgets the others.
    /// Where memory runs out, nothing changes.
    pub fn put_both(
        &mut self,
        alloc: Global,
        first: Version<T>,
        second: Version<T>,
    ) -> Result<(), AllocError>
        requires { Ascends (versions_in self.old) }
        ensures ok { OnOk result (versions_in self.new ≡ before (versions_in self.old) first.since
            ++ version_in first ∷ version_in second ∷ []) }
        ensures err { OnErr result (versions_in self.new ≡ versions_in self.old) }
    {
        self.spread(alloc)?;
        if let Kept::Several(versions) = self {
            return put_two(versions, first, second);
        }
        let both = Box::new(alloc, both(alloc, first, second)?)?;
        *self = Kept::Several(both);
        Ok(())
    }

    /// Forgets the versions that begin at a volume or after it.
    pub fn cut(&mut self, volume: u64)
        requires { Ascends (versions_in self.old) }
        ensures { versions_in self.new ≡ before (versions_in self.old) volume }
    {
        if let Kept::Several(versions) = self {
            let count = count_before(versions, volume);
            versions.truncate(count);
            return;
        }
        if !self.is_one_before(volume) {
            *self = Kept::Never;
        }
    }

    // Keeps the versions so that there may be more. Where memory runs out, nothing changes.
    fn spread(&mut self, alloc: Global) -> Result<(), AllocError>
        ensures same { versions_in self.new ≡ versions_in self.old }
        ensures spread { OnOk result (is_one self.new ≡ false) }
    {
        let version = match replace(self, Kept::Never) {
            Kept::Standing(since, standing) => Version {
                since,
                standing: Some(standing),
            },
            Kept::Gone(since) => Version {
                since,
                standing: None,
            },
            other => {
                *self = other;
                return Ok(());
            }
        };
        match boxed(alloc, version) {
            Ok(versions) => {
                *self = Kept::Several(versions);
                Ok(())
            }
            Err(failed) => {
                *self = Kept::one(failed.value);
                Err(AllocError)
            }
        }
    }
}

// A vector with one version, in a box. Where memory runs out, the version is given back.
fn boxed<T: Drop>(
    alloc: Global,
    version: Version<T>,
) -> Result<Box<Vec<Version<T>>>, AllocFailed<Version<T>>>
    ensures ok { IfOk result (λ b. b.value.items ≡ version ∷ []) }
    ensures err { IfErr result (λ e. e.value ≡ version) }
{
    // Most keys that have several have two.
    let Ok(room) = Vec::with_capacity(alloc, 2) else {
        return Err(AllocFailed { value: version });
    };
    let Ok(mut versions) = Box::new(alloc, room) else {
        return Err(AllocFailed { value: version });
    };
    versions.push(version)?;
    Ok(versions)
}

// A vector with two versions.
fn both<T: Drop>(
    alloc: Global,
    first: Version<T>,
    second: Version<T>,
) -> Result<Vec<Version<T>>, AllocError>
    ensures { IfOk result (λ v. v.items ≡ first ∷ second ∷ []) }
{
    let mut versions = Vec::with_capacity(alloc, 2)?;
    versions.push(first)?;
    versions.push(second)?;
    Ok(versions)
}
