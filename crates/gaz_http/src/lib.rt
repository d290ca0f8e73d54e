//! Requests of HTTP/1.x as they are read off a stream (RFC 9112): heads, what their headers say,
//! and bodies. And how a text is written to one.
#![tactic(auto)]

mod body;
mod counting;
mod headers;
mod heads;
mod in_memory;
mod inlet;
pub mod laws;
mod sink;
mod source;
mod supply;

pub use body::{Body, read_body};
pub use counting::Counting;
pub use headers::{closes, find_value, how_many};
pub use heads::{MOST_HEADERS, Next, next_head};
pub use in_memory::InMemory;
pub use inlet::Inlet;
pub use sink::{Sink, write_all};
pub use source::Source;
pub use supply::Cause;
