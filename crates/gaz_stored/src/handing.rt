//! What a use of a store leaves.

use gaz_shelf::MemShelf;
use gaz_store::StoreRefusal;
use sqlite::{Alter, Connection};

/// What is left of a store that was used as it stands, or that was looked for.
#[derive(Drop)]
pub struct Returned<S: Alter + Drop, T: Drop> {
    /// The connection, outside a transaction.
    pub conn: Connection<S>,
    /// What came of it, or why there was no store.
    pub told: Result<T, StoreRefusal>,
}

/// What is left of a store that was used with all of it at hand, or that was looked for.
#[derive(Drop)]
pub struct HandedBack<S: Alter + Drop, T: Drop> {
    /// The connection, outside a transaction.
    pub conn: Connection<S>,
    /// What was at hand at last, to be freed, or forgotten by a program that ends.
    pub at_hand: Option<MemShelf>,
    /// What came of it, or why there was no store.
    pub told: Result<T, StoreRefusal>,
}
