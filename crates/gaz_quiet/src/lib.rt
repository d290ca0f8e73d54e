//! A file in memory, under a store that ends with the process.
#![tactic(auto)]

mod changes;
mod database;
mod quiet;

pub use database::new_database;
pub use quiet::QuietDisk;
