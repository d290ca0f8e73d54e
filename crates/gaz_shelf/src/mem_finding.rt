//! What a keeper in memory finds, without changing it.
ghost use Rattle.std.specs.Prelude.{◌≡◌, ◌≤◌, length, IfNone, IfOk, IfSome, option_map};
ghost use Rattle.std.specs.FinMap as map;
ghost use Rattle.gaz_views.specs.Accounts.{view_in};
ghost use Rattle.gaz_views.specs.View.{empty_view, was_used};
ghost use Rattle.gaz_views.specs.Words.{approved_of, approved_on, has_children, property_of};
ghost use Rattle.gaz_keeper.specs.Board.{reached, verdict_on};
ghost use Rattle.gaz_keeper.specs.Keeper.{view_of};
ghost use Rattle.gaz_shelf.specs.Accounts.{account_of};
ghost use Rattle.gaz_shelf.specs.Mem.{content_in, seen_in};
ghost use Rattle.gaz_keeper.specs.Telling.{IsItemAt, IsPageAt};

use crate::mem_shelf::{Judging, MemShelf};
use gaz_ids::{Code, Lang, Uprn, Usrn, Volume};
use gaz_ledger::CachedLedger;
use gaz_records::{Key, Kind, SharedItem};
use gaz_views::{Property, Verdict, share_found};
use std::alloc::AllocError;

impl MemShelf {
    /// A custodian's account and the volume at which it is seen, where it has an account.
    pub(crate) fn seen(&self, code: Code) -> Option<(&CachedLedger, u64)>
        ensures none { IfNone result (view_of (seen_in self.now) code ≡ empty_view) }
        ensures view { IfSome result (λ s. view_in s.0.now s.1 ≡ view_of (seen_in self.now) code) }
        ensures reached { IfSome result (λ s. length s.0.now.judged ≤ s.1) }
        ensures account { IfSome result
            (λ s. s.0.now ≡ account_of self.now.accounts.by_code.entries code) }
    {
        let Some(account) = self.accounts.get(code) else {
            return None;
        };
        let reached = account.ledger().reached();
        match self.judging {
            Judging::Open(judged) if judged == code => Some((account, reached + 1)),
            _ => Some((account, reached)),
        }
    }

    pub(crate) fn count_reached(&self, code: Code) -> u64
        ensures { result ≡ reached (content_in self.now).board code }
    {
        match self.accounts.get(code) {
            Some(account) => account.ledger().reached(),
            None => 0,
        }
    }

    pub(crate) fn find_verdict(&self, code: Code, volume: Volume) -> Option<Verdict>
        ensures { result ≡ verdict_on ((content_in self.now).board) code volume }
    {
        match self.accounts.get(code) {
            Some(account) => account.ledger().verdict(volume.number()),
            None => None,
        }
    }

    pub(crate) fn find_current(
        &self,
        code: Code,
        key: &Key,
    ) -> Result<Option<SharedItem>, AllocError>
        ensures { IfOk result (λ i. i ≡ map.get (view_of (seen_in self.now) code).items key.now) }
    {
        match self.seen(code) {
            Some((account, volume)) => Ok(share_found(account.ledger().item(volume, key))?),
            None => Ok(None),
        }
    }

    pub(crate) fn find_at(
        &self,
        code: Code,
        volume: u64,
        key: &Key,
    ) -> Result<Option<SharedItem>, AllocError>
        ensures { IfOk result (λ i. IsItemAt (content_in self.now).board code volume key.now i) }
    {
        match self.accounts.get(code) {
            Some(account) => Ok(share_found(account.ledger().item(volume, key))?),
            None => Ok(None),
        }
    }

    pub(crate) fn find_ever(&self, code: Code, key: &Key) -> bool
        ensures { result ≡ was_used (view_of (seen_in self.now) code) key.now }
    {
        match self.seen(code) {
            Some((account, volume)) => account.ledger().was_used(volume, key),
            None => false,
        }
    }

    pub(crate) fn find_approved(&self, code: Code, uprn: Uprn) -> Result<Vec<Key>, AllocError>
        ensures { IfOk result (λ keys. keys.items
            ≡ approved_of (view_of (seen_in self.now) code) uprn) }
    {
        match self.seen(code) {
            Some((account, volume)) => Ok(account.ledger().approved_of(self.alloc, volume, uprn)?),
            None => Ok(Vec::new(self.alloc)),
        }
    }

    pub(crate) fn find_property(
        &self,
        code: Code,
        uprn: Uprn,
    ) -> Result<Option<Property>, AllocError>
        ensures { IfOk result (λ p. p ≡ property_of (view_of (seen_in self.now) code) uprn) }
    {
        match self.seen(code) {
            Some((account, volume)) => Ok(account.property_of(volume, uprn)?),
            None => Ok(None),
        }
    }

    pub(crate) fn find_approved_on(&self, code: Code, usrn: Usrn, lang: Option<Lang>) -> bool
        ensures { result ≡ approved_on (view_of (seen_in self.now) code) usrn lang }
    {
        match self.seen(code) {
            Some((account, volume)) => account.ledger().approved_on(volume, usrn, lang),
            None => false,
        }
    }

    pub(crate) fn find_children(&self, code: Code, uprn: Uprn) -> bool
        ensures { result ≡ has_children (view_of (seen_in self.now) code) uprn }
    {
        match self.seen(code) {
            Some((account, volume)) => account.ledger().has_children(volume, uprn),
            None => false,
        }
    }

    pub(crate) fn find_page(
        &mut self,
        code: Code,
        volume: u64,
        kind: Kind,
        after: Option<Key>,
        most: usize,
    ) -> Result<Vec<SharedItem>, AllocError>
        ensures page { IfOk result (λ items.
            IsPageAt (content_in self.old).board code volume kind after most items.items) }
        ensures content { content_in self.new ≡ content_in self.old }
        ensures judging { self.new.judging ≡ self.old.judging }
        ensures count { self.new.failures ≡ self.old.failures }
    {
        Ok(
            self.accounts
                .page(self.alloc, code, volume, kind, after, most)?,
        )
    }

    pub(crate) fn find_file(
        &self,
        code: Code,
        volume: Volume,
    ) -> Result<Option<Vec<u8>>, AllocError>
        ensures { IfOk result (λ bytes.
            option_map (λ b. b.items) bytes ≡ map.get self.now.files (code, volume)) }
    {
        match self.files.get(code, volume) {
            Some(bytes) => Ok(Some(Vec::from_slice(self.alloc, bytes)?)),
            None => Ok(None),
        }
    }
}
