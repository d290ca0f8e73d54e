//! Keepers as their callers use them: one list of calls over any of them.

mod acts;
mod answers;
mod lists;
mod passed;
mod passed_volumes;
mod passing;
mod readings;
mod refusal;
mod rows;
mod steps;
mod told;
mod tried;
mod volumes;

pub use lists::{parts, performs, performs_all};
pub use refusal::Refusal;
pub use steps::Part;
pub use tried::{Tried, counting_shelf};
