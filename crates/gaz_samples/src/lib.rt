//! What the crates of tests share: one list of calls over any keeper, and what reads and writes
//! over any.
#![tactic(auto)]

mod items;
pub mod keepers;
mod reading;
mod writing;
