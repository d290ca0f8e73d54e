//! What stands at each key through a gazetteer's volumes, and what finds it there: marks, and what
//! names a property.
#![tactic(auto)]

mod histories;
mod index;
mod key_order;
mod keys;
pub mod laws;
mod living;
mod marked_items;
mod naming;
mod seed;
mod tied;
mod tied_keys;
mod ties;
mod words;

pub use histories::Histories;
pub use index::{Index, Mark, Marks, marks_of};
pub use keys::Keys;
pub use marked_items::{any_marked, first_marked, is_marked, keys_marked, marks_at};
pub use seed::Seed;
pub use ties::Ties;
