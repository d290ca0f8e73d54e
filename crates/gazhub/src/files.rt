//! The files that commands name.
ghost use Rattle.std.specs.Prelude.{◌≡◌, IfOk, IsTrue};
ghost use Rattle.gazhub.specs.Sites.{FindsFiles, FindsRegister, ReadsFor, bytes_of, of_store};

use crate::site::{Purpose, Site};
use gaz_ids::MOST_BYTES;
use gaz_register::{RegFault, Register};
use gaz_store::StoreRefusal;
use gaz_words::Call;
use sqlite::{Files, Options};
use std::alloc::Global;

/// Why there is no hub to ask. They are looked for in this order.
#[derive(Clone, Copy)]
pub enum NoHub {
    /// The register's file can't be read.
    Unreadable,
    /// Its text is no register.
    Register(RegFault),
    /// There is no store, or none of this register.
    Store(StoreRefusal),
    /// The port can't be had.
    NoPort,
    /// There was no memory for it.
    Memory,
}

#[tactic(auto, using(crate::proofs::Sites::reads_one))]
/// The register whose file stands at a path.
pub fn read_register<S: Site>(site: &mut S, alloc: Global, path: &str) -> Result<Register, NoHub>
    ensures { FindsRegister S.done site.old site.new path.now result }
{
    let Some(text) = site.read(path, u64::MAX) else {
        return Err(NoHub::Unreadable);
    };
    match Register::read(alloc, &text) {
        Ok(register) => Ok(register),
        Err(fault) => Err(NoHub::Register(fault)),
    }
}

/// The bytes of the change file, where a call names one that can be read; of one that is too large
/// a byte more than a hub takes, so that its door finds it so.
pub fn read_change_file<S: Site>(site: &mut S, call: Call<'_>) -> Option<Vec<u8>>
    ensures { ReadsFor S.done site.old site.new call.entry (bytes_of result) }
{
    match call {
        Call::Submit { file, .. } => site.read(file, MOST_BYTES + 1),
        Call::Status { .. } | Call::Line { .. } | Call::Extract { .. } => None,
    }
}

/// The files of the store at a path, opened for a purpose, and how they are used.
pub fn open_files<S: Site>(
    site: &mut S,
    path: &str,
    purpose: Purpose,
) -> Result<(Files<S::Medium>, Options), NoHub>
    ensures found { FindsFiles S.done site.old site.new path.now purpose result }
    ensures log { IfOk result (λ found. IsTrue (S.Medium.Disk.is_usable found.0.log)) }
    ensures db { IfOk result (λ found. IsTrue (S.Medium.Disk.is_usable found.0.db)) }
{
    site.open(path, purpose)
        .ok_or(NoHub::Store(StoreRefusal::Fault))
}

/// What is told of a store, or why there is none.
pub fn of_store<A>(told: Result<A, StoreRefusal>) -> Result<A, NoHub>
    ensures { result ≡ of_store told }
{
    told.map_err(NoHub::Store)
}
