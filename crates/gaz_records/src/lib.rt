//! The records of a gazetteer: streets, their descriptors, BLPUs, cross references and LPIs, and
//! those by which a property passes between custodians; their fields, rows and keys.
#![tactic(auto)]

mod adopt;
mod blpu;
mod descriptor;
mod item;
mod key;
mod kind;
pub mod laws;
mod lpi;
mod release;
mod shared;
mod sort_key;
mod street;
mod street_type;
mod xref;

pub use adopt::Adopt;
pub use blpu::{Blpu, Easting, Northing};
pub use descriptor::Descriptor;
pub use gaz_fields::{Day, EndDay, FieldFault, Label, RecordKey, Source};
pub use item::{Item, Kind, item_of_text, item_text, read_item, write_item};
pub use key::{Key, key_of};
pub use lpi::Lpi;
pub use release::Release;
pub use shared::{SharedItem, item_in};
pub use sort_key::SortKey;
pub use street::Street;
pub use street_type::StreetType;
pub use xref::Xref;
