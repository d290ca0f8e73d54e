//! A new database in memory.
ghost use Rattle.std.specs.Prelude.{◌≡◌, false, IfSome, IsTrue};
ghost use Rattle.sqlite.specs.Files.{file_state};
ghost use Rattle.gaz_quiet.specs.Databases.{no_tables};

use crate::quiet::QuietDisk;
use sqlite::{Connection, FileStore, Files, Options};
use sqlite_schema::schema::Schema;
use std::alloc::Global;

// Whether a database has no table, index or view.
fn is_empty(schema: &Schema) -> bool
    ensures { IsTrue result → schema.now ≡ no_tables }
{
    schema.tables.is_empty() && schema.indexes.is_empty() && schema.views.is_empty()
}

/// A connection outside a transaction to a new database in memory, which has no table; none where
/// memory doesn't suffice. It goes with the connection.
pub fn new_database(alloc: Global) -> Option<Connection<FileStore<QuietDisk>>>
    ensures outside { IfSome result (λ conn. conn.in_transaction ≡ false) }
    ensures empty { IfSome result (λ conn. (file_state conn).now.schema ≡ no_tables) }
{
    let files = Files {
        log: QuietDisk::new(alloc),
        db: QuietDisk::new(alloc),
    };
    // Nobody else reads the log, so it needs no salt.
    let Ok(conn) = Connection::open_files(alloc, files, Options::new(0)) else {
        return None;
    };
    if is_empty(conn.schema()) {
        Some(conn)
    } else {
        None
    }
}
