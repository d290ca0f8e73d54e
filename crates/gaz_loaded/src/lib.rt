//! A keeper in memory, filled with what another lists.
#![tactic(auto)]

mod copying;
mod custodians;
mod entering;
pub mod laws;
mod listed;
mod loading;
mod passing;
mod restoring;

pub use listed::{Life, Listed, Passage};
pub use loading::load;
