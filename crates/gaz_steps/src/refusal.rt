ghost use Rattle.std.specs.Prelude.{◌≡◌};
ghost use Rattle.gaz_steps.specs.DoorNumbers.{door_number};

use gaz_keeper::ShelfFault;
use thiserror::Error;

/// Why the hub's door turned away what it was asked. They are looked for in this order.
#[derive(Clone, Copy, Debug, PartialEq, Eq, Error)]
pub enum DoorRefusal {
    /// 11: the register doesn't hold the code.
    #[error("unknown custodian")]
    UnknownCustodian,
    /// 12: the volume isn't 1 to 999,999.
    #[error("no volume number")]
    BadVolume,
    /// 13: the file has over 1,048,576 bytes.
    #[error("file too large")]
    TooLarge,
    /// 16: the file names a profile that isn't known.
    #[error("unknown profile")]
    UnknownProfile,
}

impl DoorRefusal {
    /// The number by which it is told.
    pub fn number(self) -> u8
        ensures { result ≡ door_number self }
    {
        match self {
            DoorRefusal::UnknownCustodian => 11,
            DoorRefusal::BadVolume => 12,
            DoorRefusal::TooLarge => 13,
            DoorRefusal::UnknownProfile => 16,
        }
    }
}

/// Why the hub didn't do what it was asked.
#[derive(Clone, Copy, Debug, PartialEq, Eq, Error)]
pub enum Refusal {
    /// By the door, before all else: nothing changed.
    #[error("{0}")]
    Door(DoorRefusal),
    /// 51: nothing was received; earlier files may have been judged.
    #[error("not received: {0}")]
    NotReceived(ShelfFault),
    /// 52: the file was received, but not all that is ready was judged, or its outcome not told.
    #[error("received, not settled: {0}")]
    ReceivedUnsettled(ShelfFault),
}
