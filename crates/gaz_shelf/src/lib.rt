//! A keeper in memory.
#![tactic(auto)]

mod account_passing;
mod accounts;
mod files;
pub mod laws;
mod mem_calls;
mod mem_finding;
mod mem_judging;
mod mem_passing;
mod mem_shelf;
mod restoring;

pub use gaz_ledger::Seed;
pub use mem_shelf::MemShelf;
