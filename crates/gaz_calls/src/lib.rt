//! A keeper's calls on the tables of a database: each asks a statement or writes in a transaction
//! of its own, and says what it told of the tables or made of them.
#![tactic(auto)]

mod applying;
mod asking;
mod blpus;
mod counting;
mod custody;
mod files;
mod growing;
mod keys;
pub mod laws;
mod lives;
mod pages;
mod passages;
mod streets;
mod tables;
mod volumes;
mod writing;

pub use growing::ExtendFault;
pub use tables::Tables;
