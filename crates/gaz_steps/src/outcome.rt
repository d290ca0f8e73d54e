use gaz_ids::{Code, Volume};

/// What became of a received file.
#[derive(Clone, Copy, PartialEq, Eq)]
pub enum Outcome {
    /// All its changes stand.
    Applied,
    /// None of its changes stands: the first record at fault, from 1 (the header), and the rule
    /// that it breaks.
    Rejected { place: u64, rule: u8 },
    /// It isn't judged yet: the volume that its custodian's next volume waits for.
    Held { custodian: Code, volume: Volume },
}
