//! Numbers that are passed on, in a keeper in memory.
ghost use Rattle.std.specs.Prelude.{◌≡◌, IfOk};
ghost use Rattle.std.specs.Option.{IsSome};
ghost use Rattle.gaz_views.specs.Numbered.{as_blpu};
ghost use Rattle.gaz_views.specs.View.{custody_at};
ghost use Rattle.gaz_views.specs.Words.{tied};
ghost use Rattle.gaz_keeper.specs.Keeper.{Open, view_of};
ghost use Rattle.gaz_shelf.specs.Mem.{content_in, progress_of, seen_in};
ghost use Rattle.gaz_keeper.specs.Telling.{Adopts, IsCustodyAt, Releases};

use crate::mem_shelf::{Judging, MemShelf};
use gaz_ids::{Code, Hop, Uprn};
use gaz_keeper::ShelfFault;
use gaz_records::SharedItem;
use gaz_views::Custody;
use std::alloc::AllocError;

impl MemShelf {
    pub(crate) fn find_custody(&self, code: Code, uprn: Uprn) -> Option<Custody>
        ensures { result ≡ custody_at (view_of (seen_in self.now) code) uprn }
    {
        match self.seen(code) {
            Some((account, volume)) => account.ledger().custody(volume, uprn),
            None => None,
        }
    }

    pub(crate) fn find_custody_at(&self, code: Code, volume: u64, uprn: Uprn) -> Option<Custody>
        ensures { IsCustodyAt (content_in self.now).board code volume uprn result }
    {
        match self.accounts.get(code) {
            Some(account) => account.ledger().custody(volume, uprn),
            None => None,
        }
    }

    pub(crate) fn find_tied(&mut self, code: Code, uprn: Uprn) -> Result<bool, AllocError>
        ensures tied { IfOk result (λ is. is ≡ tied (view_of (seen_in self.old) code) uprn) }
        ensures content { content_in self.new ≡ content_in self.old }
        ensures judging { self.new.judging ≡ self.old.judging }
        ensures count { self.new.failures ≡ self.old.failures }
    {
        let Some((_, volume)) = self.seen(code) else {
            return Ok(false);
        };
        Ok(self.accounts.tied(code, volume, uprn)?)
    }

    /// Releases a number in the working view of the custodian that is being judged.
    pub(crate) fn release_open(
        &mut self,
        code: Code,
        uprn: Uprn,
        to: Code,
        hop: Hop,
    ) -> Result<(), ShelfFault>
        requires { progress_of self.old.judging ≡ Open code }
        ensures { Releases seen_in self.old self.new result uprn to hop }
    {
        match self.accounts.release(code, uprn, to, hop) {
            Ok(()) => Ok(()),
            Err(_) => {
                self.judging = Judging::Broken;
                Err(ShelfFault::Memory)
            }
        }
    }

    /// Adopts a BLPU in it.
    pub(crate) fn adopt_open(
        &mut self,
        code: Code,
        blpu: SharedItem,
        from: Code,
        hop: Hop,
    ) -> Result<(), ShelfFault>
        requires judged { progress_of self.old.judging ≡ Open code }
        requires blpu { IsSome (as_blpu blpu) }
        ensures { Adopts seen_in self.old self.new result blpu from hop }
    {
        match self.accounts.adopt(code, blpu, from, hop) {
            Ok(()) => Ok(()),
            Err(_) => {
                self.judging = Judging::Broken;
                Err(ShelfFault::Memory)
            }
        }
    }
}
