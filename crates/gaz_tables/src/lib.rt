//! The tables of a store, with one function a statement.
#![tactic(auto)]

pub mod alone;
pub mod creating;
pub mod custody;
pub mod laws;
pub mod metas;
pub mod migrating;
pub mod receiveds;
pub mod rowids;
pub mod versions;
