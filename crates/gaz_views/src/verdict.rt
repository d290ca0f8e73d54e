/// What became of a judged volume.
#[derive(Clone, Copy, PartialEq, Eq)]
pub enum Verdict {
    Applied,
    /// The first record at fault, from 1 (the header), and the rule that it breaks.
    Rejected { place: u64, rule: u8 },
}
