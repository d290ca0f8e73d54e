//! One custodian's gazetteer through its volumes.
#![tactic(auto)]

mod cached_ledger;
mod changes;
mod custodies;
pub mod laws;
mod ledger;
mod ledger_finding;
mod ledger_passing;
mod passage;
mod properties;
mod restoring;
mod restoring_passage;

pub use cached_ledger::CachedLedger;
pub use gaz_standing::Seed;
pub use ledger::Ledger;
