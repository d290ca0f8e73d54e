//! The judgement in progress of a keeper in memory.
ghost use Rattle.std.specs.Prelude.{◌≡◌, ◌≢◌, ◌≤◌, ◌<◌, ◌==◌, ◌^◌, ◌-◌, ℕ, if◌then◌else◌, true};
ghost use Rattle.std.specs.Prelude.{MatchOption};
ghost use Rattle.gaz_records.specs.Items.{is_entry};
ghost use Rattle.gaz_keeper.specs.Keeper.{Broken, Idle, IsNotOpen, Keeps, Open, view_of};
ghost use Rattle.gaz_shelf.specs.Mem.{progress_of, seen_in};
ghost use Rattle.gaz_keeper.specs.Telling.{Applies, Puts, Takes};

use crate::mem_shelf::{Judging, MemShelf};
use gaz_ids::Code;
use gaz_keeper::ShelfFault;
use gaz_records::{Key, SharedItem};
use gaz_views::Verdict;

impl MemShelf {
    /// Clears a broken judgement.
    pub(crate) fn clear(&mut self)
        ensures keeps { Keeps (seen_in self.old) (seen_in self.new) }
        ensures view { (c : ℕ) → view_of (seen_in self.new) c ≡ view_of (seen_in self.old) c }
        ensures board { self.new.accounts ≡ self.old.accounts }
        ensures files { self.new.files ≡ self.old.files }
        ensures cleared { progress_of self.new.judging ≢ Broken }
        ensures idle { IsNotOpen (progress_of self.old.judging)
            → progress_of self.new.judging ≡ Idle }
        ensures count { self.new.failures ≡ self.old.failures }
    {
        if let Judging::Broken = self.judging {
            self.judging = Judging::Idle;
        }
    }

    /// Whose judgement is in progress.
    pub(crate) fn open_code(&self) -> Option<Code>
        ensures { MatchOption result (IsNotOpen (progress_of self.now.judging))
            (λ c. progress_of self.now.judging ≡ Open c) }
    {
        match self.judging {
            Judging::Open(code) => Some(code),
            Judging::Idle | Judging::Broken => None,
        }
    }

    /// Counts a failure, where the count isn't at its last value.
    pub(crate) fn fail(&mut self) -> ShelfFault
        ensures fault { result ≡
            (if self.old.failures == 2 ^ 64 - 1 then ShelfFault.Memory else ShelfFault.Store) }
        ensures kept { self.old.failures ≤ self.new.failures }
        ensures store { result ≡ ShelfFault.Store → self.old.failures < self.new.failures }
        ensures others { self.new ≡ record self.old { failures = self.new.failures } }
    {
        if self.failures == u64::MAX {
            return ShelfFault::Memory;
        }
        self.failures += 1;
        ShelfFault::Store
    }

    /// Sets an item in the working view of the custodian that is being judged.
    pub(crate) fn put_open(&mut self, code: Code, item: SharedItem) -> Result<(), ShelfFault>
        requires judged { progress_of self.old.judging ≡ Open code }
        requires entry { is_entry item ≡ true }
        ensures { Puts seen_in self.old self.new result item }
    {
        match self.accounts.put(code, item) {
            Ok(()) => Ok(()),
            Err(_) => {
                self.judging = Judging::Broken;
                Err(ShelfFault::Memory)
            }
        }
    }

    /// Takes a key's item from it.
    pub(crate) fn take_open(&mut self, code: Code, key: &Key) -> Result<(), ShelfFault>
        requires { progress_of self.old.judging ≡ Open code }
        ensures { Takes seen_in self.old self.new result key.now }
    {
        match self.accounts.take(code, key) {
            Ok(()) => Ok(()),
            Err(_) => {
                self.judging = Judging::Broken;
                Err(ShelfFault::Memory)
            }
        }
    }

    /// Ends a custodian's judgement as applied.
    pub(crate) fn finish(&mut self, code: Code) -> Result<(), ShelfFault>
        requires { progress_of self.old.judging ≡ Open code }
        ensures { Applies seen_in self.old self.new result }
    {
        match self.accounts.close(code, Verdict::Applied) {
            Ok(()) => {
                self.judging = Judging::Idle;
                Ok(())
            }
            Err(_) => {
                self.judging = Judging::Broken;
                Err(ShelfFault::Memory)
            }
        }
    }
}
