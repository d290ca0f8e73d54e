//! Numbers that are passed on, in the accounts of all custodians.
ghost use Rattle.std.specs.Prelude.{◌≡◌, ◌≤◌, ℕ, IfOk, length, OnOk};
ghost use Rattle.std.specs.Option.{IsSome};
ghost use Rattle.gaz_views.specs.Numbered.{as_blpu, with_adopted};
ghost use Rattle.gaz_views.specs.Accounts.{view_in};
ghost use Rattle.gaz_views.specs.View.{with_release};
ghost use Rattle.gaz_views.specs.Words.{tied};
ghost use Rattle.gaz_shelf.specs.Accounts.{account_of, board_of};
ghost use Rattle.gaz_shelf.specs.Restoring.{IsPassageRestored};

use crate::accounts::Accounts;
use crate::restoring::is_life_within;
use gaz_ids::{Code, Hop, Uprn};
use gaz_records::{Key, SharedItem};
use gaz_views::Custody;
use std::alloc::AllocError;

impl Accounts {
    /// Whether an LPI or a cross reference, of whatever status, names a BLPU, in a custodian's last
    /// view or its working one. The accounts stay as they are. `AllocError` also where the
    /// custodian has no account.
    pub fn tied(&mut self, code: Code, volume: u64, uprn: Uprn) -> Result<bool, AllocError>
        requires { length (account_of self.old.by_code.entries code).judged ≤ volume }
        ensures tied { IfOk result (λ is.
            is ≡ tied (view_in (account_of self.old.by_code.entries code) volume) uprn) }
        ensures same { (c : ℕ) → account_of self.new.by_code.entries c
            ≡ account_of self.old.by_code.entries c }
    {
        let Some(account) = self.by_code.get_mut(&code) else {
            return Err(AllocError);
        };
        Ok(account.tied(volume, uprn)?)
    }

    /// Releases a number in the working view of a custodian that has an account.
    pub fn release(&mut self, code: Code, uprn: Uprn, to: Code, hop: Hop) -> Result<(), AllocError>
        ensures board { board_of self.new.by_code.entries ≡ board_of self.old.by_code.entries }
        ensures working { OnOk result ((account_of self.new.by_code.entries code).working
            ≡ with_release (account_of self.old.by_code.entries code).working uprn to hop) }
    {
        let Some(account) = self.by_code.get_mut(&code) else {
            return Err(AllocError);
        };
        account.release(uprn, to, hop)?;
        Ok(())
    }

    /// Adopts an item, a BLPU, in the working view of a custodian that has an account.
    pub fn adopt(
        &mut self,
        code: Code,
        blpu: SharedItem,
        from: Code,
        hop: Hop,
    ) -> Result<(), AllocError>
        requires { IsSome (as_blpu blpu) }
        ensures board { board_of self.new.by_code.entries ≡ board_of self.old.by_code.entries }
        ensures working { OnOk result ((account_of self.new.by_code.entries code).working
            ≡ with_adopted (account_of self.old.by_code.entries code).working blpu from hop) }
    {
        let Some(account) = self.by_code.get_mut(&code) else {
            return Err(AllocError);
        };
        account.adopt(blpu, from, hop)?;
        Ok(())
    }

    /// Puts back what became of a number of a custodian that has an account, where that is at a
    /// volume that is reached and nothing stands at its BLPU's key from then on.
    pub fn restore_passage(
        &mut self,
        code: Code,
        born: u64,
        uprn: Uprn,
        custody: Custody,
    ) -> Result<(), AllocError>
        ensures { OnOk result (IsPassageRestored (board_of self.old.by_code.entries)
            (board_of self.new.by_code.entries) code born uprn custody) }
    {
        let Some(account) = self.by_code.get_mut(&code) else {
            return Err(AllocError);
        };
        if !is_life_within(account.ledger().reached(), born, None) {
            return Err(AllocError);
        }
        if !account.ledger().is_free(born, &Key::Blpu(uprn)) {
            return Err(AllocError);
        }
        account.restore_passage(born, uprn, custody)?;
        Ok(())
    }
}
