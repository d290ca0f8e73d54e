//! What is left of a store's files.
ghost use Rattle.std.specs.Prelude.{◌≡◌, Err, Some};

use gaz_store::StoreRefusal;
use sqlite::Files;
use sqlite_disk::Disk;

/// What is left of a store's files, once something was done over them or couldn't be.
#[derive(Drop)]
pub struct FilesBack<D: Disk + Drop, T: Drop> {
    /// The files, where they could be closed, or what an opening that failed left of them.
    pub left: Option<Files<D>>,
    /// What came of it, or why there was no store.
    pub told: Result<T, StoreRefusal>,
}

impl<D: Disk + Drop, T: Drop> FilesBack<D, T> {
    /// These files, to which no connection could be had.
    pub(crate) fn unconnected(left: Files<D>) -> FilesBack<D, T>
        ensures left { result.left ≡ Some left }
        ensures told { result.told ≡ Err StoreRefusal.Fault }
    {
        FilesBack {
            left: Some(left),
            told: Err(StoreRefusal::Fault),
        }
    }
}
