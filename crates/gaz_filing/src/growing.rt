//! The register of a store in files grows.
ghost use Rattle.std.specs.Prelude.{IfErr, IfOk, IsTrue};
ghost use Rattle.gaz_filing.specs.Filing.{ExtendsStore, OpensNone};

use crate::files_back::FilesBack;
use crate::stores::{close, connect};
use gaz_ledger::Seed;
use gaz_register::Register;
use gaz_store::ExtendFault;
use gaz_stored::{Returned, extend_opened};
use sqlite::{Files, Options};
use sqlite_disk::Disk;
use std::alloc::Global;

/// Lets the register of the store in the files grow, which are given back where they can be closed.
/// Why there is no store, or its register didn't grow, and in which order, is said of
/// `extend_opened`.
pub fn extend_store<D: Disk + Drop>(
    alloc: Global,
    files: Files<D>,
    options: Options,
    seed: Seed,
    register: Register,
    grown: Register,
) -> FilesBack<D, Result<(), ExtendFault>>
    requires log { IsTrue (D.Disk.is_usable files.log) }
    requires db { IsTrue (D.Disk.is_usable files.db) }
    ensures extends { IfOk result.told (ExtendsStore D.Disk files result.left register grown) }
    ensures none { IfErr result.told (OpensNone D.Disk files result.left register) }
{
    let conn = match connect(alloc, files, options) {
        Ok(conn) => conn,
        Err(left) => return FilesBack::unconnected(left),
    };
    let Returned { conn, told } = extend_opened(alloc, seed, conn, register, grown);
    let left = close(conn);
    FilesBack { left, told }
}
