//! Address lines, look-ups, extracts and closed streets, read from any keeper.
#![tactic(auto)]

mod address;
mod closed;
mod draft;
mod extracts;
mod find;
mod found;
pub mod laws;
mod lend;
mod page;
mod streets;

pub use address::{AddressLine, line};
pub use closed::{Closed, closed_streets};
pub use extracts::extract;
pub use found::{Found, lookup, lookup_with};
