//! A custodian's ledger with its properties at hand.
ghost use Rattle.std.specs.Prelude.{◌≡◌, ◌≤◌, length, IfOk, OnErr, OnOk};
ghost use Rattle.gaz_views.specs.Accounts.{empty_account, last_of, view_in};
ghost use Rattle.gaz_views.specs.View.{with_item, without_key};
ghost use Rattle.gaz_views.specs.Words.{page, property_of, tied};
ghost use Rattle.gaz_ledger.specs.Changing.{Forgets, KnowsNone, LearnsNothing, is_addressed_by};
ghost use Rattle.gaz_ledger.specs.Changing.{with_verdict, with_working};
ghost use Rattle.gaz_ledger.specs.Properties.{AreSo, is_address_of, is_blpu};

use crate::ledger::Ledger;
use crate::properties::Properties;
use gaz_ids::Uprn;
use gaz_records::{Key, Kind, SharedItem, key_of};
use gaz_standing::{Mark, Marks, Seed, marks_of};
use gaz_views::{Property, Verdict};
use std::alloc::{AllocError, Global};
use std::marker::Model;

/// A custodian's ledger. Properties that have an address, or had one, stand beside it, so that a
/// look-up finds both items by one search.
#[derive(Drop)]
pub struct CachedLedger {
    pub(crate) ledger: Ledger,
    // Each of them is so in the last view and in the working one.
    // What isn't known is read off the ledger.
    pub(crate) known: Properties,
    // The BLPUs of those that the next volume has changed.
    // They are known again when it is judged or undone.
    pub(crate) changed: Vec<Key>,
}

impl Model for CachedLedger {
    ghost use Rattle.gaz_views.specs.Accounts.{Account, last_of};
    ghost use Rattle.gaz_views.specs.ViewCode.{account_code};
    ghost use Rattle.gaz_ledger.specs.Properties.{AreSo};

    ghost Value = { Account };

    ghost coded = { account_code };

    ghost view = { λ b. b.ledger };

    ghost invariant = { λ b. AreSo b.known (last_of b.ledger) × AreSo b.known b.ledger.working };
}

impl CachedLedger {
    /// No judgements.
    pub fn new(alloc: Global, seed: Seed) -> CachedLedger
        ensures { result ≡ empty_account }
    {
        CachedLedger {
            ledger: Ledger::new(alloc, seed),
            known: Properties::new(alloc, seed),
            changed: Vec::new(alloc),
        }
    }

    /// The ledger.
    pub fn ledger(&self) -> &Ledger
        ensures { result.now ≡ self.now }
    {
        &self.ledger
    }

    /// A BLPU with its address, in the last view or the working one.
    pub fn property_of(&self, volume: u64, uprn: Uprn) -> Result<Option<Property>, AllocError>
        requires { length self.now.judged ≤ volume }
        ensures { IfOk result (λ p. p ≡ property_of (view_in self.now volume) uprn) }
    {
        match self.known.get(uprn) {
            Some(property) => Ok(Some(property.share()?)),
            None => self.ledger.property_of(volume, uprn),
        }
    }

    /// The first `most` items of a kind after a key, or from the start, in key order, in the view
    /// after a volume or the working one. Where keys were used since the last page, they are put in
    /// order first.
    pub fn page(
        &mut self,
        alloc: Global,
        volume: u64,
        kind: Kind,
        after: Option<Key>,
        most: usize,
    ) -> Result<Vec<SharedItem>, AllocError>
        ensures page { IfOk result (λ items. items.items
            ≡ page (view_in self.old volume) kind after most) }
        ensures same { self.new ≡ self.old }
    {
        Ok(self.ledger.page(alloc, volume, kind, after, most)?)
    }

    /// Whether an LPI or a cross reference, of whatever status, names a BLPU, in the last view or
    /// the working one. Where what names BLPUs isn't counted yet, all items are gone through first.
    pub fn tied(&mut self, volume: u64, uprn: Uprn) -> Result<bool, AllocError>
        requires { length self.old.judged ≤ volume }
        ensures tied { IfOk result (λ is. is ≡ tied (view_in self.old volume) uprn) }
        ensures same { self.new ≡ self.old }
    {
        Ok(self.ledger.tied(volume, uprn)?)
    }

    /// Sets an item in the working view. Where memory runs out, nothing changes.
    pub fn put(&mut self, item: SharedItem) -> Result<(), AllocError>
        ensures ok { OnOk result (self.new
            ≡ with_working self.old (with_item self.old.working item)) }
        ensures err { OnErr result (self.new ≡ self.old) }
    {
        let key = key_of(&item);
        let comes = marks_of(&item);
        let was = self.ledger.put(item)?;
        forget_changed(&mut self.known, &mut self.changed, &key, &was, &comes);
        Ok(())
    }

    /// Takes a key's item from the working view. Where memory runs out, nothing changes.
    pub fn take(&mut self, key: &Key) -> Result<(), AllocError>
        ensures ok { OnOk result (self.new
            ≡ with_working self.old (without_key self.old.working key.now)) }
        ensures err { OnErr result (self.new ≡ self.old) }
    {
        let was = self.ledger.take(key)?;
        let comes = (None, None);
        forget_changed(&mut self.known, &mut self.changed, key, &was, &comes);
        Ok(())
    }

    /// The working view is the last one again.
    pub fn undo(&mut self)
        ensures { self.new ≡ with_working self.old (last_of self.old) }
    {
        self.ledger.undo();
        learn_all(&self.ledger, &mut self.known, &mut self.changed);
    }

    /// Judges the next volume: the working view is the view after it.
    /// Where memory runs out, nothing changes.
    pub fn close(&mut self, verdict: Verdict) -> Result<(), AllocError>
        ensures ok { OnOk result (self.new ≡ with_verdict self.old verdict) }
        ensures err { OnErr result (self.new ≡ self.old) }
    {
        self.ledger.close(verdict)?;
        learn_all(&self.ledger, &mut self.known, &mut self.changed);
        Ok(())
    }
}

// Forgets the BLPU of a key.
fn forget_blpu(known: &mut Properties, changed: &mut Vec<Key>, key: &Key)
    ensures { Forgets known.old known.new (λ n. is_blpu n key.now) }
{
    if let Key::Blpu(uprn) = key {
        if known.forget(*uprn) {
            // Where memory runs out, it is read off the ledger from then on.
            let _ = changed.push(*key);
        }
    }
}

// Forgets the property of which a mark says that it has an address.
fn forget_address(known: &mut Properties, changed: &mut Vec<Key>, mark: &Option<Mark>)
    ensures { Forgets known.old known.new (λ n. is_address_of n mark.now) }
{
    if let Some(Mark::AddressOf(uprn)) = mark {
        known.forget(*uprn);
        let _ = changed.push(Key::Blpu(*uprn));
    }
}

// Forgets the properties of which one of two marks says that they have an address.
fn forget_addresses(known: &mut Properties, changed: &mut Vec<Key>, marks: &Marks)
    ensures { Forgets known.old known.new (is_addressed_by marks.now) }
{
    forget_address(known, changed, &marks.0);
    forget_address(known, changed, &marks.1);
}

/// Forgets what a change at a key tells otherwise: the BLPU of the key, and the properties that
/// lost or got an address.
pub fn forget_changed(
    known: &mut Properties,
    changed: &mut Vec<Key>,
    key: &Key,
    was: &Marks,
    comes: &Marks,
)
    ensures same { LearnsNothing known.old known.new }
    ensures blpu { KnowsNone known.new (λ n. is_blpu n key.now) }
    ensures was { KnowsNone known.new (is_addressed_by was.now) }
    ensures comes { KnowsNone known.new (is_addressed_by comes.now) }
{
    forget_blpu(known, changed, key);
    forget_addresses(known, changed, was);
    forget_addresses(known, changed, comes);
}

// Makes the property of a BLPU known as the last view has it, which is the working one.
fn learn(ledger: &Ledger, known: &mut Properties, key: &Key)
    requires { last_of ledger.now ≡ ledger.now.working }
    ensures { AreSo known.old (last_of ledger.now) → AreSo known.new (last_of ledger.now) }
{
    let Key::Blpu(uprn) = key else {
        return;
    };
    if let Ok(Some(property)) = ledger.property_of(ledger.reached(), *uprn) {
        let _ = known.set(*uprn, property);
    }
}

// Makes the properties of all BLPUs that have changed known as the last view has them.
fn learn_all(ledger: &Ledger, known: &mut Properties, changed: &mut Vec<Key>)
    requires { last_of ledger.now ≡ ledger.now.working }
    ensures { AreSo known.old (last_of ledger.now) → AreSo known.new (last_of ledger.now) }
{
    while let Some(key) = changed.pop() {
        learn(ledger, known, &key);
    }
}
