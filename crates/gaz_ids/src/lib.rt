//! The numbers of a gazetteer, as UPRNs, USRNs, custodian codes, volumes, orders and hops, and its
//! codes of languages and statuses.
#![tactic(auto)]

pub mod digits;
mod fault;
mod lang;
pub mod laws;
mod limits;
mod number;
mod status;

pub use fault::IdFault;
pub use lang::Lang;
pub use limits::{
    LAST_CODE, LAST_HOP, LAST_UPRN, LAST_USRN, LAST_VOLUME, MOST_BASES, MOST_BYTES, MOST_CHANGES,
};
pub use number::{Code, Hop, Number, Order, Uprn, Usrn, Volume};
pub use status::Status;
