//! The keeper in the tables of a database.
#![tactic(auto)]

mod beside;
mod extending;
mod inbox;
mod judgement;
mod listing;
mod migrating;
mod naming;
mod opening;
mod progress;
mod shelf;
mod store;

pub use gaz_calls::ExtendFault;
pub use gaz_kept::StoreRefusal;
pub use naming::OfRegister;
pub use store::Store;
