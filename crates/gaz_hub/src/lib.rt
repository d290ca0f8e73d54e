//! The hub over a keeper: what it receives, in what order it judges, and what each custodian is told.
#![tactic(auto)]

mod admission;
mod asking;
mod hub;
pub mod laws;
mod looking;
mod posing;
mod reading;
mod remembering;
mod reply;
mod settling;
mod submitting;
pub mod worked;

pub use hub::Hub;
