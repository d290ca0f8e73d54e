use gaz_views::Custody;

/// What is to be written for a number that a volume passes on, when it is kept.
#[derive(Clone, Copy, PartialEq, Eq)]
pub struct Passage {
    /// What became of the number before is over with the volume: what was born in this volume.
    pub closes: Option<u64>,
    /// What became of it last in the volume.
    pub custody: Custody,
}
