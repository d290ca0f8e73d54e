//! What the tables of a store must be, what they stand for, how a judgement is kept in them, and how
//! a store begins.
#![tactic(auto)]

pub mod keeping;
mod keeping_keys;
mod keeping_passages;
pub mod laws;
pub mod migrating;
mod naming;
pub mod opening;
pub mod probing;
mod refusal;
pub mod rewriting;

pub use refusal::{StoreRefusal, Unread};
