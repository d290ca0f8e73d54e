//! Requests and replies of HTTP/1.x on a stream (RFC 9112), each answered by the hub.
#![tactic(auto)]

mod bodies;
mod calls;
mod closed;
mod conversation;
mod fault;
mod framing;
pub mod laws;
mod reply;
mod request;
mod route;
mod send;
mod turn;

pub use conversation::{Ended, Served, Stopped, converse};
