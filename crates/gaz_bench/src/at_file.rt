//! What is done over the database in a file.
ghost use Rattle.std.specs.Prelude.{IsTrue};

use anyhow::Result;
use sqlite::{Alter, Connection, Files, Options, Unknown};
use sqlite_disk::Disk;

/// Work over the database behind a connection.
pub trait Work {
    /// What comes of it.
    type Told: Drop;

    /// Does it, and hands the connection back; none where the program ends with it.
    fn done<S: Alter + Drop>(
        self,
        rt: &HostRuntime,
        conn: Connection<S>,
    ) -> Result<(Option<Connection<S>>, Self::Told)>;
}

// Does work over the database in these files, with so many pages at hand, and closes it.
fn over_files<D: Disk + Drop, W: Work + Drop>(
    rt: &HostRuntime,
    files: Files<D>,
    pages: usize,
    work: W,
) -> Result<Option<W::Told>>
    requires log { IsTrue (D.Disk.is_usable files.log) }
    requires db { IsTrue (D.Disk.is_usable files.db) }
{
    let mut options = Options::new(1);
    options.cache_pages = pages;
    match Connection::open_files(rt.alloc(), files, options) {
        Ok(conn) => {
            let (left, told) = work.done(rt, conn)?;
            if let Some(conn) = left {
                conn.close()?;
            }
            Ok(Some(told))
        }
        Err(_) => Ok(None),
    }
}

/// Does work over the database in the file at this path, with so many pages at hand, and closes it;
/// none where there is no connection. The one function that names the kind of its store.
pub fn over_file<W: Work + Drop>(
    rt: &HostRuntime,
    path: &str,
    pages: usize,
    work: W,
) -> Result<Option<W::Told>> {
    match sqlite_std_file::open(rt, path, Unknown) {
        Ok(files) => over_files(rt, files, pages, work),
        Err(_) => Ok(None),
    }
}
