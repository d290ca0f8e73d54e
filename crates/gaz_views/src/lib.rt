//! A custodian's view after a volume, what is asked of it, and what became of its volumes: what
//! every keeper of views stands on.
#![tactic(auto)]

mod custody;
pub mod laws;
mod property;
mod verdict;

pub use custody::{Custody, hop_of};
pub use property::{Property, share_found};
pub use verdict::Verdict;
