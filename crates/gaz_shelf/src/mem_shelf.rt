//! A keeper in memory.
ghost use Rattle.std.specs.Prelude.{◌≡◌};
ghost use Rattle.gaz_keeper.specs.Keeper.{Idle, empty_content};
ghost use Rattle.gaz_shelf.specs.Mem.{content_in, progress_of};

use crate::accounts::Accounts;
use crate::files::Files;
use gaz_ids::Code;
use gaz_ledger::Seed;
use std::alloc::Global;

/// Whether a judgement is in progress, and whose.
#[derive(Clone, Copy)]
pub enum Judging {
    Idle,
    Open(Code),
    Broken,
}

/// Keeps received files and boards in memory: each custodian's items once, with the volumes at
/// which they changed.
///
/// It is the plain keeper, with which others are compared.
#[derive(Drop)]
pub struct MemShelf {
    pub(crate) alloc: Global,
    pub(crate) seed: Seed,
    pub(crate) files: Files,
    pub(crate) accounts: Accounts,
    pub(crate) judging: Judging,
    pub(crate) failures: u64,
}

impl MemShelf {
    /// A keeper without files and judgements. Who picks keys is not to foresee the seed.
    pub fn new(alloc: Global, seed: Seed) -> MemShelf
        ensures empty { content_in result ≡ empty_content }
        ensures idle { progress_of result.judging ≡ Idle }
        ensures count { result.failures ≡ 0 }
    {
        MemShelf {
            alloc,
            seed,
            files: Files::new(alloc),
            accounts: Accounts::new(alloc),
            judging: Judging::Idle,
            failures: 0,
        }
    }
}
