//! A store of schema 1 in files becomes one of schema 2.
ghost use Rattle.std.specs.Prelude.{IfErr, IfOk, IsTrue};
ghost use Rattle.gaz_filing.specs.Filing.{MigratesNone, MigratesStore};

use crate::files_back::FilesBack;
use crate::stores::{close, connect};
use gaz_ledger::Seed;
use gaz_register::Register;
use gaz_stored::{Migration, Returned, migrate_opened};
use sqlite::{Files, Options};
use sqlite_disk::Disk;
use std::alloc::Global;

/// Makes a store of the register of the tables of schema 1 in the files, which are given back where
/// they can be closed; a store that is there stays as it is. Why there is none, and in which order,
/// is said of `migrate_opened`.
pub fn migrate_store<D: Disk + Drop>(
    alloc: Global,
    files: Files<D>,
    options: Options,
    seed: Seed,
    register: &Register,
) -> FilesBack<D, Migration>
    requires log { IsTrue (D.Disk.is_usable files.log) }
    requires db { IsTrue (D.Disk.is_usable files.db) }
    ensures migrates { IfOk result.told (MigratesStore D.Disk files result.left register.now) }
    ensures none { IfErr result.told (MigratesNone D.Disk files result.left register.now) }
{
    let conn = match connect(alloc, files, options) {
        Ok(conn) => conn,
        Err(left) => return FilesBack::unconnected(left),
    };
    let Returned { conn, told } = migrate_opened(alloc, seed, conn, register);
    let left = close(conn);
    FilesBack { left, told }
}
