//! What a received file is told.
ghost use Rattle.std.specs.Prelude.{◌≡◌, Some, None};
ghost use Rattle.sha2.specs.Sha256.{sha256};
ghost use Rattle.gaz_hub.specs.Asked.{IsHeld, IsOutcome};
ghost use Rattle.gaz_steps.specs.Outcomes.{outcome_of};
ghost use Rattle.gaz_hub.specs.Waiting.{IsSo};
ghost use Rattle.gaz_hub.specs.Telling.{LooksAtKept};

use crate::looking::wants_as_known;
use gaz_ids::{Code, Volume};
use gaz_keeper::{Inbox, ShelfFault, Verdict};
use gaz_steps::{Digest as FileDigest, Outcome};
use sha2::{Digest, Sha256};
use std::alloc::Global;

fn outcome_of(verdict: Verdict) -> Outcome
    ensures { result ≡ outcome_of verdict }
{
    match verdict {
        Verdict::Applied => Outcome::Applied,
        Verdict::Rejected { place, rule } => Outcome::Rejected { place, rule },
    }
}

/// The SHA-256 of some bytes (FIPS 180-4).
pub fn digest_of(bytes: &[u8]) -> FileDigest
    ensures { result ≡ sha256 bytes.now }
{
    Sha256::digest(bytes)
}

/// The outcome of a received file, read off the board as it is, where what is known of what its
/// custodian waits for is so.
pub fn tell<K: Inbox>(
    alloc: Global,
    keeper: &mut K,
    code: Code,
    volume: Volume,
    known: Option<(Code, Volume)>,
) -> Result<Outcome, ShelfFault>
    ensures { LooksAtKept K.seen keeper.old keeper.new result
        (λ files board told. IsSo files board code known
        → IsOutcome files board code volume told) }
{
    // From 1 to 999,999.
    let _number = volume.number();
    match keeper.verdict(code, volume)? {
        Some(verdict) => Ok(outcome_of(verdict)),
        None => tell_held(alloc, keeper, code, volume, known),
    }
}

// The outcome of a received file that isn't judged: what its custodian's next volume waits for.
fn tell_held<K: Inbox>(
    alloc: Global,
    keeper: &mut K,
    code: Code,
    volume: Volume,
    known: Option<(Code, Volume)>,
) -> Result<Outcome, ShelfFault>
    ensures { LooksAtKept K.seen keeper.old keeper.new result
        (λ files board told. IsSo files board code known → IsHeld files board code told) }
{
    match wants_as_known(alloc, keeper, code, known)? {
        Some((custodian, volume)) => Ok(Outcome::Held { custodian, volume }),
        // A board on which something is ready; no settled one.
        None => Ok(Outcome::Held {
            custodian: code,
            volume,
        }),
    }
}
