//! What is done over a store's two files, on whatever disk they are: it is made or migrated, its
//! register grows, it is asked, or answers connections. Calls over the same files, one after
//! another, are one run of one hub.
#![tactic(auto)]

mod files_back;
mod growing;
pub mod laws;
mod migrating;
mod stores;

pub use files_back::FilesBack;
pub use growing::extend_store;
pub use migrating::migrate_store;
pub use stores::{ask_store, make_store, serve_store};
