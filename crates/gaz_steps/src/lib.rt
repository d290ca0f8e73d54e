//! What a hub is asked and answers, step by step, and what follows from that by definition alone.
#![tactic(auto)]

mod answer;
mod closed_list;
mod extract_text;
mod holding;
pub mod laws;
mod outcome;
mod question;
mod refusal;
mod standing;
mod telling;
pub mod worked;

pub use answer::{Answer, Digest};
pub use closed_list::ClosedList;
pub use extract_text::ExtractText;
pub use holding::ask_holder;
pub use outcome::Outcome;
pub use question::{Question, Told};
pub use refusal::{DoorRefusal, Refusal};
pub use standing::Standing;
