//! The rules of a gazetteer, and what a change file comes to under them.
#![tactic(auto)]

mod adopting;
mod custody_rules;
mod judging;
pub mod laws;
mod performing;
mod record_rules;
pub mod rule;

pub use judging::judge;
