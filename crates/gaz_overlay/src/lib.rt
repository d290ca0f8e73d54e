//! A view with changes laid over it: the last view stays where it is, the changes that a judgement
//! makes stand beside it, and each touched key says what is to be written for it.
#![tactic(auto)]

mod answers;
pub mod laws;
mod merging;
mod overlay;
mod passage;
mod passes;
mod passing;
mod touch;
mod touches;

pub use merging::in_order;
pub use overlay::Overlay;
pub use passage::Passage;
pub use touch::{NewRow, Stood, Writing};
