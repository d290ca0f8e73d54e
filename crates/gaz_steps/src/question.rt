use crate::answer::Digest as FileDigest;
use crate::closed_list::ClosedList;
use crate::extract_text::ExtractText;
use crate::outcome::Outcome;
use crate::standing::Standing;
use gaz_extract::Found;
use gaz_ids::Uprn;

/// What a hub is asked, but for a file. A code and a volume stand as they were given: the door
/// refuses what is none.
#[derive(Clone, Copy)]
pub enum Question {
    /// What became of the file of a volume.
    Ask { code: u64, volume: u64 },
    /// How far a custodian's files are judged.
    Stand { code: u64 },
    /// Nothing but that what is ready is judged.
    Settle,
    /// Where a property stands now and how it is addressed.
    LookUp { uprn: Uprn },
    /// A custodian's view after a volume.
    Extract { code: u64, volume: u64 },
    /// The approved addresses on streets that other custodians closed.
    ListClosed,
}

/// What a hub tells of a question.
#[derive(Drop)]
pub enum Told {
    /// What became of the file of a volume, behind its digest.
    Outcome(FileDigest, Outcome),
    /// How far a custodian's files are judged.
    Standing(Standing),
    /// Where a property stands and how it is addressed.
    Found(Found),
    /// A custodian's view after a volume.
    Extract(ExtractText),
    /// The approved addresses on streets that other custodians closed.
    Closed(ClosedList),
}
