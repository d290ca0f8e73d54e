//! The accounts of all custodians.
ghost use Rattle.std.specs.Prelude.{◌≡◌, ℕ, [], IfOk, MatchOption, OnOk, OnErr, true};
ghost use Rattle.gaz_records.specs.Items.{is_entry};
ghost use Rattle.gaz_views.specs.Accounts.{empty_account};
ghost use Rattle.gaz_views.specs.View.{with_item, without_key};
ghost use Rattle.gaz_shelf.specs.Accounts.{AreLawful, AreLawful-prop, account_of, board_of};
ghost use Rattle.gaz_keeper.specs.Board.{adds, last_view};
ghost use Rattle.gaz_keeper.specs.Telling.{IsPageAt};
ghost use Rattle.gaz_shelf.specs.Restoring.{IsRestored};

use crate::restoring::is_life_within;
use gaz_ids::Code;
use gaz_ledger::{CachedLedger, Seed};
use gaz_records::{Key, Kind, SharedItem, key_of};
use gaz_views::Verdict;
use std::alloc::{AllocError, Global};
use std::collections::BTreeMap;

/// The accounts of all custodians, each view of which is a lawful one.
#[derive(Drop)]
pub struct Accounts {
    pub(crate) by_code: BTreeMap<Code, CachedLedger>,
    ghost lawful: { AreLawful by_code.entries } by { AreLawful-prop by_code.entries },
}

impl Accounts {
    /// None.
    pub fn new(alloc: Global) -> Accounts
        ensures { result.by_code.entries ≡ [] }
    {
        Accounts {
            by_code: BTreeMap::new(alloc),
        }
    }

    /// A custodian's account, where it has one.
    pub fn get(&self, code: Code) -> Option<&CachedLedger>
        ensures { MatchOption result (account_of self.now.by_code.entries code ≡ empty_account)
            (λ l. l.now ≡ account_of self.now.by_code.entries code) }
    {
        self.by_code.get(&code)
    }

    /// A custodian's working view is its last one. Where it has no account yet, it has one then.
    pub fn begin(&mut self, alloc: Global, seed: Seed, code: Code) -> Result<(), AllocError>
        ensures board { board_of self.new.by_code.entries ≡ board_of self.old.by_code.entries }
        ensures working { OnOk result ((account_of self.new.by_code.entries code).working
            ≡ last_view (board_of self.old.by_code.entries) code) }
    {
        if let Some(account) = self.by_code.get_mut(&code) {
            account.undo();
            return Ok(());
        }
        self.by_code.insert(code, CachedLedger::new(alloc, seed))?;
        Ok(())
    }

    /// Undoes what a custodian's working view has changed.
    pub fn undo(&mut self, code: Code)
        ensures board { board_of self.new.by_code.entries ≡ board_of self.old.by_code.entries }
        ensures working { (account_of self.new.by_code.entries code).working
            ≡ last_view (board_of self.old.by_code.entries) code }
    {
        if let Some(account) = self.by_code.get_mut(&code) {
            account.undo();
        }
    }

    /// Sets an item, an entry, in the working view of a custodian that has an account.
    pub fn put(&mut self, code: Code, item: SharedItem) -> Result<(), AllocError>
        requires { is_entry item ≡ true }
        ensures board { board_of self.new.by_code.entries ≡ board_of self.old.by_code.entries }
        ensures working { OnOk result ((account_of self.new.by_code.entries code).working
            ≡ with_item (account_of self.old.by_code.entries code).working item) }
    {
        let Some(account) = self.by_code.get_mut(&code) else {
            return Err(AllocError);
        };
        account.put(item)?;
        Ok(())
    }

    /// Takes a key's item from the working view of a custodian that has an account.
    pub fn take(&mut self, code: Code, key: &Key) -> Result<(), AllocError>
        ensures board { board_of self.new.by_code.entries ≡ board_of self.old.by_code.entries }
        ensures working { OnOk result ((account_of self.new.by_code.entries code).working
            ≡ without_key (account_of self.old.by_code.entries code).working key.now) }
    {
        let Some(account) = self.by_code.get_mut(&code) else {
            return Err(AllocError);
        };
        account.take(key)?;
        Ok(())
    }

    /// The first `most` items of a kind after a key, or from the start, in key order, of a
    /// custodian after a volume, which is to be reached. The accounts stay as they are.
    pub fn page(
        &mut self,
        alloc: Global,
        code: Code,
        volume: u64,
        kind: Kind,
        after: Option<Key>,
        most: usize,
    ) -> Result<Vec<SharedItem>, AllocError>
        ensures page { IfOk result (λ items.
            IsPageAt (board_of self.old.by_code.entries) code volume kind after most items.items) }
        ensures same { (c : ℕ) → account_of self.new.by_code.entries c
            ≡ account_of self.old.by_code.entries c }
    {
        let Some(account) = self.by_code.get_mut(&code) else {
            return Ok(Vec::new(alloc));
        };
        Ok(account.page(alloc, volume, kind, after, most)?)
    }

    /// Judges the next volume of a custodian that has an account: its working view is the view
    /// after it.
    pub fn close(&mut self, code: Code, verdict: Verdict) -> Result<(), AllocError>
        ensures ok { OnOk result (board_of self.new.by_code.entries
            ≡ adds (board_of self.old.by_code.entries) code (record {
              verdict = verdict;
              view = (account_of self.old.by_code.entries code).working;
            })) }
        ensures err { OnErr result (board_of self.new.by_code.entries
            ≡ board_of self.old.by_code.entries) }
    {
        let Some(account) = self.by_code.get_mut(&code) else {
            return Err(AllocError);
        };
        account.close(verdict)?;
        Ok(())
    }

    /// Puts an item's life, that of an entry, back into the views of a custodian. It is refused
    /// where it isn't within the volumes that are reached, and where something stands under its key
    /// from then on. Then nothing changes, nor does it where memory runs out.
    pub fn restore(
        &mut self,
        code: Code,
        born: u64,
        gone: Option<u64>,
        item: SharedItem,
    ) -> Result<(), AllocError>
        requires { is_entry item ≡ true }
        ensures ok { OnOk result (IsRestored (board_of self.old.by_code.entries)
            (board_of self.new.by_code.entries) code born gone item) }
        ensures err { OnErr result ((c : ℕ) → account_of self.new.by_code.entries c
            ≡ account_of self.old.by_code.entries c) }
    {
        let Some(account) = self.by_code.get_mut(&code) else {
            return Err(AllocError);
        };
        if !is_life_within(account.ledger().reached(), born, gone) {
            return Err(AllocError);
        }
        if !account.ledger().is_free(born, &key_of(&item)) {
            return Err(AllocError);
        }
        account.restore(born, gone, item)?;
        Ok(())
    }
}
