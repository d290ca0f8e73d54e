//! What a keeper promises: boards of judgements, received files, and the traits by which both are
//! read and written.
#![tactic(auto)]

mod fault;
pub mod laws;
mod shelf;

pub use fault::ShelfFault;
pub use gaz_views::{Property, Verdict};
pub use shelf::{Inbox, Shelf};
