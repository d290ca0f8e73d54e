//! What stood at a key through the volumes of a gazetteer.
#![tactic(auto)]

mod history;
mod kept;
pub mod laws;
mod versions;

pub use history::History;
