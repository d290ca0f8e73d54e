//! The commands of the command line over an opened hub: what each asks, and what is said of the
//! answer.
#![tactic(auto)]

mod commands;
pub mod laws;
mod numbers;
mod printed;
mod printing;
mod said;

pub use commands::{extract, line, status, submit};
pub use printed::PrintedLine;
pub use printing::print;
pub use said::{CommandFault, Said};
