//! What became of a number that passes between custodians.
ghost use Rattle.std.specs.Prelude.{◌≡◌, ◌≤◌};
ghost use Rattle.gaz_ids.specs.Limits.{last_hop};
ghost use Rattle.gaz_views.specs.Custody.{hop_in, hop_of};

use gaz_ids::{Code, Hop};

/// What last became of a number in a custodian's gazetteer, where it was passed on (our profile).
#[derive(Clone, Copy, PartialEq, Eq)]
pub enum Custody {
    /// The custodian gave it up to another.
    Released { to: Code, hop: Hop },
    /// The custodian took it from another.
    Adopted { from: Code, hop: Hop },
}

impl Custody {
    /// How often the number had passed on by then, this time too: 1 to `LAST_HOP`.
    pub fn hop(&self) -> u64
        ensures value { result ≡ hop_in self.now }
        ensures range { (1 ≤ result) × (result ≤ last_hop) }
    {
        match self {
            Custody::Released { hop, .. } => hop.number(),
            Custody::Adopted { hop, .. } => hop.number(),
        }
    }
}

/// How often a number had passed on of which this became last: at most `LAST_HOP`, and 0 where
/// nothing did.
pub fn hop_of(custody: &Option<Custody>) -> u64
    ensures value { result ≡ hop_of custody.now }
    ensures range { result ≤ last_hop }
{
    match custody {
        None => 0,
        Some(last) => last.hop(),
    }
}
