//! A hub over the store behind a connection: a conversation, one call, and peers that come one
//! after another; a store's register grows, and one of schema 1 is migrated.
#![tactic(auto)]

mod answering;
mod asking;
mod attending;
mod connections;
mod extending;
mod handing;
mod joining;
mod keepers;
pub mod laws;
mod migrating;
mod peers;

pub use answering::converse_opened;
pub use asking::ask_opened;
pub use attending::{Unserved, serve_opened};
pub use connections::MOST_REQUESTS;
pub use extending::extend_opened;
pub use handing::{HandedBack, Returned};
pub use joining::mirrored;
pub use migrating::{Migration, migrate_opened};
pub use peers::Peers;
