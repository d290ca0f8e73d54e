//! Changes of a working view are copied, and made in a keeper.
ghost use Rattle.std.specs.Prelude.{◌≡◌, ◌≢◌, [], false, None, IfOk};
ghost use Rattle.gaz_keeper.specs.Keeper.{Goes, Idle, IsAtHand, IsNotOpen, Open, Refuses};
ghost use Rattle.gaz_keeper.specs.Keeper.{with_working};
ghost use Rattle.gaz_keeper.specs.Board.{last_view};
ghost use Rattle.gaz_mirror.specs.Gathering.{AreSameChanges, AreThen, IsSameChange};
ghost use Rattle.gaz_mirror.specs.Gathering.{Makes, MakesAll, made};

use crate::gathered::{Adoption, Change, Entry, Gathered};
use gaz_ids::Code;
use gaz_keeper::{Shelf, ShelfFault};
use std::alloc::{AllocError, Global};

impl Change {
    /// The change once more; a fault where no more sharers of its item can be counted.
    pub(crate) fn share(&self) -> Result<Change, AllocError>
        ensures { IfOk result (λ change. IsSameChange self.now change) }
    {
        match self {
            Change::Put(entry) => {
                let item = entry.item.share()?;
                Ok(Change::Put(Entry { item }))
            }
            Change::Take(key) => Ok(Change::Take(*key)),
            Change::Release { uprn, to, hop } => Ok(Change::Release {
                uprn: *uprn,
                to: *to,
                hop: *hop,
            }),
            Change::Adopt(adoption) => {
                let blpu = adoption.blpu.share()?;
                Ok(Change::Adopt(Adoption {
                    blpu,
                    from: adoption.from,
                    hop: adoption.hop,
                }))
            }
        }
    }
}

impl Gathered {
    /// Nothing yet.
    pub(crate) fn new(alloc: Global, code: Code) -> Gathered
        ensures code { result.code ≡ code }
        ensures none { result.changes.items ≡ [] }
        ensures untried { result.tried ≡ false }
    {
        Gathered {
            code,
            changes: Vec::new(alloc),
            tried: false,
        }
    }

    /// All of it once more.
    pub(crate) fn copy(&self, alloc: Global) -> Result<Gathered, AllocError>
        ensures code { IfOk result (λ gathered. gathered.code ≡ self.now.code) }
        ensures changes { IfOk result
            (λ gathered. AreSameChanges self.now.changes.items gathered.changes.items) }
    {
        let mut changes = Vec::new(alloc);
        for change in &self.changes {
            changes.push(change.share()?)?;
        }
        Ok(Gathered {
            code: self.code,
            changes,
            tried: self.tried,
        })
    }

    /// Adds a change, where memory allows; whether it did.
    pub(crate) fn note(&mut self, change: &Change) -> bool
        ensures code { self.new.code ≡ self.old.code }
        ensures tried { self.new.tried ≡ self.old.tried }
        ensures noted { AreThen self.old.changes.items self.new.changes.items result change.now }
    {
        match change.share() {
            Ok(shared) => self.changes.push(shared).is_ok(),
            Err(_) => false,
        }
    }
}

/// Makes a change of the working view.
pub(crate) fn make<K: Shelf>(keeper: &mut K, change: Change) -> Result<(), ShelfFault>
    requires { (K.seen keeper.old).progress ≢ Idle }
    ensures makes { Makes K.seen keeper.old keeper.new result change }
    ensures refuses { Refuses (K.seen keeper.old) result }
{
    match change {
        Change::Put(entry) => keeper.put(entry.item),
        Change::Take(key) => keeper.take(&key),
        Change::Release { uprn, to, hop } => keeper.release(uprn, to, hop),
        Change::Adopt(adoption) => keeper.adopt(adoption.blpu, adoption.from, adoption.hop),
    }
}

/// Makes changes, one after another, up to a fault.
pub(crate) fn make_all<K: Shelf>(keeper: &mut K, changes: Vec<Change>) -> Result<(), ShelfFault>
    requires { (K.seen keeper.old).progress ≢ Idle }
    ensures { MakesAll K.seen keeper.old keeper.new result changes.items }
{
    for change in changes {
        make(keeper, change)?;
    }
    Ok(())
}

/// Begins the judgement that was gathered, and makes its changes.
pub(crate) fn hand_to<K: Shelf>(keeper: &mut K, gathered: Gathered) -> Result<(), ShelfFault>
    requires { IsNotOpen (K.seen keeper.old).progress }
    ensures { let was = (K.seen keeper.old).content in
        let view = made (last_view was.board gathered.code) gathered.changes.items in
        Goes (K.seen keeper.old) (K.seen keeper.new) result (IsAtHand was gathered.code)
        (with_working was view) None (Open gathered.code) }
{
    keeper.begin(gathered.code)?;
    make_all(keeper, gathered.changes)
}
