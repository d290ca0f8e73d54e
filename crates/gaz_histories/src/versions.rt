//! Versions in a vector.
ghost use Rattle.std.specs.Prelude.{◌≡◌, ◌↔◌, ◌++◌, ◌∷◌, [], ◌≤◌, take, length, OnOk, OnErr};
ghost use Rattle.std.specs.Prelude.{option_map};
ghost use Rattle.std.specs.Prelude.{IsOk, IsTrue};
ghost use Rattle.std.specs.List.{list_any};
ghost use Rattle.gaz_histories.specs.Histories.{Ascends, BeginsFrom, IsOverBy, before};
ghost use Rattle.gaz_histories.specs.Histories.{standing_at, until, was_used_at};
ghost use Rattle.gaz_histories.specs.Kept.{stands_after, version_in, versions_of};

use std::alloc::AllocError;

/// What stands at a key from a volume on, or nothing any more.
#[derive(Drop)]
pub struct Version<T> {
    pub since: u64,
    pub standing: Option<T>,
}

fn standing_of<T>(version: &Version<T>) -> Option<&T>
    ensures { option_map (λ x. x.now) result ≡ version.now.standing }
{
    match &version.standing {
        Some(standing) => Some(standing),
        None => None,
    }
}

/// What stands after a volume, by the last of these versions that begins until then.
pub fn last_standing<T>(versions: &[Version<T>], volume: u64) -> Option<&T>
    requires { Ascends (versions_of versions.now) }
    ensures { option_map (λ x. x.now) result ≡ standing_at (versions_of versions.now) volume }
{
    let count = count_until(versions, volume);
    if count == 0 {
        return None;
    }
    standing_of(&versions[count - 1])
}

// How many of these versions begin at a volume or before it.
fn count_until<T>(versions: &[Version<T>], volume: u64) -> usize
    requires { Ascends (versions_of versions.now) }
    ensures until { until (versions_of versions.now) volume
        ≡ take result (versions_of versions.now) }
    ensures bound { result ≤ length versions.now }
{
    versions.partition_point(|v| v.since <= volume)
}

/// How many of these versions begin before a volume.
pub fn count_before<T>(versions: &[Version<T>], volume: u64) -> usize
    requires { Ascends (versions_of versions.now) }
    ensures before { before (versions_of versions.now) volume
        ≡ take result (versions_of versions.now) }
    ensures bound { result ≤ length versions.now }
{
    versions.partition_point(|v| v.since < volume)
}

/// Whether one of these versions begins at a volume or before it.
pub fn begins_until<T>(versions: &[Version<T>], volume: u64) -> bool
    requires { Ascends (versions_of versions.now) }
    ensures { result ≡ was_used_at (versions_of versions.now) volume }
{
    match versions.first() {
        Some(version) => version.since <= volume,
        None => false,
    }
}

/// Puts a version behind those that begin before it, and forgets the others. Where memory runs
/// out, nothing changes. In place of others it needs no memory.
pub fn put_last<T: Drop>(
    versions: &mut Vec<Version<T>>,
    version: Version<T>,
) -> Result<(), AllocError>
    requires { Ascends (versions_of versions.old.items) }
    ensures ok { OnOk result (versions_of versions.new.items
        ≡ before (versions_of versions.old.items) version.since ++ version_in version ∷ []) }
    ensures err { OnErr result (versions.new.items ≡ versions.old.items) }
    ensures again { BeginsFrom (versions_of versions.old.items) version.since → IsOk result }
{
    let count = count_before(versions, version.since);
    if count == versions.len() {
        versions.push(version)?;
        return Ok(());
    }
    versions[count] = version;
    versions.truncate(count + 1);
    Ok(())
}

/// Puts two versions behind those that begin before the first of them, and forgets the others.
/// Where memory runs out, nothing changes.
pub fn put_two<T: Drop>(
    versions: &mut Vec<Version<T>>,
    first: Version<T>,
    second: Version<T>,
) -> Result<(), AllocError>
    requires { Ascends (versions_of versions.old.items) }
    ensures ok { OnOk result (versions_of versions.new.items
        ≡ before (versions_of versions.old.items) first.since
        ++ version_in first ∷ version_in second ∷ []) }
    ensures err { OnErr result (versions.new.items ≡ versions.old.items) }
{
    versions.reserve(2)?;
    let count = count_before(versions, first.since);
    versions.truncate(count);
    versions.push_reserved(first);
    versions.push_reserved(second);
    Ok(())
}

// Whether a version begins after a volume, and something stands from it on.
fn stands_later<T>(version: &Version<T>, volume: u64) -> bool
    ensures { result ≡ stands_after volume (version_in version.now) }
{
    volume < version.since && version.standing.is_some()
}

// Whether something comes to stand after a volume, by one of these versions.
fn any_later<T>(versions: &[Version<T>], volume: u64) -> bool
    ensures { result ≡ list_any (λ v. stands_after volume (version_in v)) versions.now }
{
    versions.iter().any(|v| stands_later(v, volume))
}

/// Whether nothing stands after a volume, by these versions, nor after any later one.
pub fn are_over_by<T>(versions: &[Version<T>], volume: u64) -> bool
    requires { Ascends (versions_of versions.now) }
    ensures { IsTrue result ↔ IsOverBy (versions_of versions.now) volume }
{
    if any_later(versions, volume) {
        return false;
    }
    last_standing(versions, volume).is_none()
}
