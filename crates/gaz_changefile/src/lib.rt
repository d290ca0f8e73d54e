//! The change files of custodians: what a file says, or its first fault, and how it is written.
#![tactic(auto)]

mod action;
mod allowed;
mod change;
mod draft;
mod file;
mod header;
pub mod laws;
mod line;
mod numbers;
mod profile;
mod read;
mod record;
pub mod rule;
mod write;

pub use action::Action;
pub use change::{Basis, Change};
pub use file::{ChangeFile, FileFault};
pub use numbers::is_known_profile;
pub use profile::profile_of;
pub use read::read_file;
pub use write::write_file;
