//! How far custodians are judged and how many of their files wait, as far as that is at hand.
#![tactic(auto)]

mod at_hand;
mod counts;
pub mod laws;

pub use at_hand::AtHand;
pub use counts::Counts;
