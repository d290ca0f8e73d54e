//! What a row of the table of versions says: which item, at which key, from which volume until
//! which, and which address of a property; and the cells of a row that is to say so.
#![tactic(auto)]

pub mod addresses;
pub mod decoding;
pub mod fault;
pub mod laws;
pub mod newest;
pub mod passages;
pub mod row_cells;
