//! The fields of a record: days, labels, what each form of a field reads as, and how fields are
//! written. What adds to a row may leave a part of it there after want of memory.
#![tactic(auto)]

mod day;
mod fields;
mod label;
pub mod laws;
mod reading;
mod reading_codes;
mod reading_texts;
mod row;

pub use day::{Day, EndDay};
pub use fields::FieldFault;
pub use label::{Label, RecordKey, Source};
pub use reading::Fields;
pub use reading_codes::Dates;
pub use row::{add_field, add_number, next_dates, next_field, next_number, next_object, next_text};
