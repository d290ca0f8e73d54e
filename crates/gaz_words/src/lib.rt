//! The words of the command line, read by `clap`.
#![tactic(auto)]

mod command;
mod grammar;
mod help;
pub mod laws;

pub use command::{Call, Command, Places, Serving, asks_play, read};
