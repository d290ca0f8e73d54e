//! How many rows an answer has.

/// The most rows of one answer that is read in pages.
pub const MOST: u32 = 512;
