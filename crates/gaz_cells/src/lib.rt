//! The columns in which tables keep the items of a gazetteer, and back: the texts that name keys,
//! the numbers by which items are looked for.
#![tactic(auto)]

mod bodies;
mod cells;
mod custody;
mod fault;
mod id;
pub mod laws;
mod reading;
mod text;

pub use bodies::Bodies;
pub use cells::{Cells, Links};
pub use custody::{CUSTODY, CustodyCells, custody_told};
pub use fault::CellFault;
pub use id::{id_of, key_named};
pub use reading::Row;
