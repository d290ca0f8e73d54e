//! A keeper for tests, around another: it counts its calls, and lets one of them fail.
#![tactic(auto)]

mod calls;
mod faulty;
pub mod laws;
mod passing;
mod unshared;

pub use calls::{Calls, Counted};
pub use faulty::Faulty;
