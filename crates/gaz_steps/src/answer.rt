use crate::outcome::Outcome;
use crate::refusal::Refusal;

/// The SHA-256 of a file as it was received.
pub type Digest = [u8; 32];

/// The answer to a submission.
#[derive(Clone, Copy, PartialEq, Eq)]
pub enum Answer {
    /// The file was received now.
    New(Outcome),
    /// The same bytes were received before.
    Repeat(Outcome),
    /// Other bytes were received before, with this digest.
    Taken { digest: Digest },
    Refused(Refusal),
}
