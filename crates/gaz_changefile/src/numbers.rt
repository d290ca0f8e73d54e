ghost use Rattle.std.specs.Prelude.{◌≡◌};
ghost use Rattle.std.specs.Result.{result_ok};
ghost use Rattle.gaz_changefile.specs.Lines.{is_known_profile, is_value};

use gaz_ids::{IdFault, MOST_CHANGES, Number};

/// The profile of files that hold entries alone (our profile, as the next).
pub(crate) const ENTRIES: u64 = 1;

/// The profile of files in which a property may also pass from one custodian to another.
pub(crate) const PASSINGS: u64 = 2;

/// The number of a profile, 1 to 9999.
pub(crate) type Profile = Number<7, 4, 1, 9999>;

/// A count of change records, 0 to `MOST_CHANGES`.
pub(crate) type Count = Number<8, 4, 0, MOST_CHANGES>;

/// Whether files of the profile are read.
pub fn is_known_profile(profile: u64) -> bool
    ensures { result ≡ is_known_profile profile }
{
    profile == ENTRIES || profile == PASSINGS
}

/// Whether a number was read, and is `n`.
pub(crate) fn is_value<const KIND: u64, const WIDTH: u64, const LOW: u64, const HIGH: u64>(
    read: Result<Number<KIND, WIDTH, LOW, HIGH>, IdFault>,
    n: u64,
) -> bool
    ensures { result ≡ is_value n (result_ok read.entry) }
{
    match read {
        Ok(m) => m.number() == n,
        Err(_) => false,
    }
}
