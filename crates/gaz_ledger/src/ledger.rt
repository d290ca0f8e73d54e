//! One custodian's gazetteer through its volumes.
ghost use Rattle.std.specs.Prelude.{◌≡◌, ◌<◌, ◌-◌, ◌^◌, ◌++◌, ◌∷◌, [], length, slice_get, IfOk};
ghost use Rattle.std.specs.Prelude.{OnOk, OnErr};
ghost use Rattle.gaz_records.specs.Keys.{key_of};
ghost use Rattle.gaz_views.specs.Accounts.{empty_account, last_of};
ghost use Rattle.gaz_views.specs.View.{with_item, without_key};
ghost use Rattle.gaz_standing.specs.Changing.{AreMarksAt};
ghost use Rattle.gaz_ledger.specs.Changing.{verdict_in, with_verdict, with_working};

use crate::changes::{Leaving, change, forget_all, undo_all};
use crate::custodies::Custodies;
use crate::passage::undo_passing;
use gaz_ids::Uprn;
use gaz_records::{Key, SharedItem, key_of};
use gaz_standing::{Histories, Index, Marks, Seed, Ties};
use gaz_views::Verdict;
use std::alloc::{AllocError, Global};
use std::marker::Model;

/// A custodian's judgements, those of the volumes 1, 2, 3, .., and the view that the next volume
/// has made so far.
#[derive(Drop)]
pub struct Ledger {
    alloc: Global,
    pub(crate) verdicts: Vec<Verdict>,
    pub(crate) histories: Histories,
    pub(crate) index: Index,
    // The keys that the next volume has changed, in no order.
    pub(crate) touched: Vec<Key>,
    // The marks that it took from them. They are forgotten when it is judged or undone.
    pub(crate) leaving: Vec<Leaving>,
    pub(crate) custodies: Custodies,
    // The numbers that the next volume has passed on, in no order.
    pub(crate) passed: Vec<Uprn>,
    // Counted when it is first asked whether something names a BLPU.
    pub(crate) ties: Ties,
}

impl Model for Ledger {
    ghost use Rattle.std.specs.Prelude.{◌+◌, length};
    ghost use Rattle.gaz_views.specs.Accounts.{Account};
    ghost use Rattle.gaz_views.specs.ViewCode.{account_code};
    ghost use Rattle.gaz_standing.specs.Ties.{AreTies};
    ghost use Rattle.gaz_ledger.specs.Custodies.{IsPassing};
    ghost use Rattle.gaz_ledger.specs.Ledgers.{IsLedger, account_at};

    ghost Value = { Account };

    ghost coded = { account_code };

    ghost view = { λ l. account_at l.verdicts.items l.histories l.custodies };

    ghost invariant = { λ l.
        IsLedger (length l.verdicts.items) l.histories l.index l.touched.items
        × IsPassing (length l.verdicts.items) l.custodies l.passed.items
        × AreTies l.ties l.histories (length l.verdicts.items) (length l.verdicts.items + 1) };
}

impl Ledger {
    /// No judgements.
    pub(crate) fn new(alloc: Global, seed: Seed) -> Ledger
        ensures { result ≡ empty_account }
    {
        Ledger {
            alloc,
            verdicts: Vec::new(alloc),
            histories: Histories::new(alloc, seed),
            index: Index::new(alloc, seed),
            touched: Vec::new(alloc),
            leaving: Vec::new(alloc),
            custodies: Custodies::new(alloc, seed),
            passed: Vec::new(alloc),
            ties: Ties::new(seed),
        }
    }

    /// How many volumes are judged.
    pub fn reached(&self) -> u64
        ensures reached { result ≡ length self.now.judged }
        ensures bound { result < 2 ^ 64 - 1 }
    {
        self.verdicts.len() as u64
    }

    /// The verdict on a volume, from 1.
    pub fn verdict(&self, volume: u64) -> Option<Verdict>
        ensures { result ≡ verdict_in self.now volume }
    {
        if volume == 0 {
            return None;
        }
        verdict_at(&self.verdicts, (volume - 1) as usize)
    }

    /// Sets an item in the working view. Where memory runs out, nothing changes.
    /// Answers the marks of the item that stood at its key.
    pub(crate) fn put(&mut self, item: SharedItem) -> Result<Marks, AllocError>
        ensures ok { OnOk result (self.new
            ≡ with_working self.old (with_item self.old.working item)) }
        ensures err { OnErr result (self.new ≡ self.old) }
        ensures marks { IfOk result (AreMarksAt self.old.working (key_of item)) }
    {
        let reached = self.verdicts.len() as u64;
        let key = key_of(&item);
        touch(&mut self.touched, &key)?;
        Ok(change(
            &mut self.histories,
            &mut self.index,
            &mut self.leaving,
            &mut self.ties,
            reached,
            &key,
            Some(item),
        )?)
    }

    /// Takes a key's item from the working view. Where memory runs out, nothing changes.
    /// Answers the marks of the item that stood there.
    pub(crate) fn take(&mut self, key: &Key) -> Result<Marks, AllocError>
        ensures ok { OnOk result (self.new
            ≡ with_working self.old (without_key self.old.working key.now)) }
        ensures err { OnErr result (self.new ≡ self.old) }
        ensures marks { IfOk result (AreMarksAt self.old.working key.now) }
    {
        let reached = self.verdicts.len() as u64;
        if self.histories.item(reached + 1, key).is_none() {
            return Ok((None, None));
        }
        touch(&mut self.touched, key)?;
        Ok(change(
            &mut self.histories,
            &mut self.index,
            &mut self.leaving,
            &mut self.ties,
            reached,
            key,
            None,
        )?)
    }

    /// The working view is the last one again.
    pub(crate) fn undo(&mut self)
        ensures { self.new ≡ with_working self.old (last_of self.old) }
    {
        let reached = self.verdicts.len() as u64;
        undo_all(
            &mut self.histories,
            &mut self.index,
            reached,
            &mut self.touched,
        );
        forget_all(&self.histories, &mut self.index, reached, &mut self.leaving);
        self.ties.shed(self.histories.len());
        undo_passing(&mut self.custodies, reached, &mut self.passed);
    }

    /// Judges the next volume: the working view is the view after it.
    /// Where memory runs out, nothing changes.
    pub(crate) fn close(&mut self, verdict: Verdict) -> Result<(), AllocError>
        ensures ok { OnOk result (self.new ≡ with_verdict self.old verdict) }
        ensures err { OnErr result (self.new ≡ self.old) }
    {
        self.verdicts.push(verdict)?;
        let reached = self.verdicts.len() as u64;
        self.touched.clear();
        self.passed.clear();
        forget_all(&self.histories, &mut self.index, reached, &mut self.leaving);
        Ok(())
    }
}

fn verdict_at(verdicts: &[Verdict], place: usize) -> Option<Verdict>
    ensures { result ≡ slice_get verdicts.now place }
{
    match verdicts.get(place) {
        Some(verdict) => Some(*verdict),
        None => None,
    }
}

/// Adds a key to those that the next volume has changed.
pub fn touch(touched: &mut Vec<Key>, key: &Key) -> Result<(), AllocError>
    ensures ok { OnOk result (touched.new.items ≡ touched.old.items ++ key.now ∷ []) }
    ensures err { OnErr result (touched.new.items ≡ touched.old.items) }
{
    touched.push(*key)?;
    Ok(())
}
