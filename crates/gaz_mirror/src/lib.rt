//! A keeper over two: one below, where the content is to last, and one at hand, where it is read.
#![tactic(auto)]

mod asked;
mod asked_custody;
mod asked_files;
mod boards;
mod changes;
mod files;
mod gathered;
mod judging;
pub mod laws;
mod mirror;
mod questions;
mod turns;
mod unshared;

pub use mirror::Mirror;
pub use unshared::Unshared;
