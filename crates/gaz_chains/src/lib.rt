//! What became of a number that passes between custodians: the chain of those that had it, and who
//! holds it.
#![tactic(auto)]

pub mod laws;
