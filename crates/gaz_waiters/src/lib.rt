//! What a hub remembers: whose next volume is to be looked at, and who waits for which volume.
#![tactic(auto)]

mod codes;
mod waiters;

pub use waiters::Waiters;
