//! The register of custodians: who they are, and which blocks of UPRNs and USRNs are theirs.
#![tactic(auto)]

mod block;
mod custodian;
mod draft;
mod fault;
mod growth;
pub mod growth_laws;
mod index;
pub mod laws;
mod name;
mod read;
mod register;
mod text;

pub use block::Block;
pub use custodian::Custodian;
pub use fault::RegFault;
pub use growth::GrowFault;
pub use register::Register;
