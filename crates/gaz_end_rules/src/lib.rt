//! Which end rules the key of an item breaks, over any keeper: those that are asked of the items
//! of a file behind its last record.
#![tactic(auto)]

mod blpu_faults;
mod end_rules;
mod key_faults;
mod known;
mod last_street;
pub mod laws;
mod name_faults;
mod passed;
mod rings;
pub mod rule;
mod streets;

pub use end_rules::breach;
pub use key_faults::is_there;
pub use known::Known;
