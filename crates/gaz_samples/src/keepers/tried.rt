//! A keeper as its callers have it. What a call answers is for the tests to find out, so that of
//! these only the first has a clause, and no test carries what the keeper's own say.
ghost use Rattle.std.specs.Prelude.{◌≡◌, ℕ, IfOk, None, Some};
ghost use Rattle.gaz_keeper.specs.Keeper.{IsNotOpen, Open};

use crate::keepers::refusal::Refusal;
use crate::writing::{Conclusion, are_entries, write_volume};
use gaz_faulty::Faulty;
use gaz_ids::{Code, Volume};
use gaz_keeper::Inbox;
use gaz_records::{Key, SharedItem};
use gaz_shelf::{MemShelf, Seed};
use std::alloc::Global;

/// A keeper, and whose judgement is in progress, where one is known to be.
#[derive(Drop)]
pub struct Tried<K: Inbox + Drop> {
    pub(crate) keeper: K,
    pub(crate) judged: Option<Code>,
    ghost rests: { judged ≡ None → IsNotOpen (K.seen keeper).progress },
    ghost judges: { (c : ℕ) → judged ≡ Some c → (K.seen keeper).progress ≡ Open c },
}

/// One around whole maps that counts its calls, and received nothing.
pub fn counting_shelf(alloc: Global) -> Tried<Faulty<MemShelf>> {
    Tried::new(Faulty::new(MemShelf::new(alloc, Seed::of(1)), 0))
}

impl<K: Inbox + Drop> Tried<K> {
    /// A keeper between judgements.
    pub fn new(keeper: K) -> Tried<K>
        requires { IsNotOpen (K.seen keeper).progress }
    {
        Tried {
            keeper,
            judged: None,
        }
    }

    /// The keeper, to look at.
    pub fn keeper(&self) -> &K {
        &self.keeper
    }

    /// The keeper, whether a judgement is in progress or not.
    pub fn into_keeper(self) -> K {
        let Tried { keeper, judged: _ } = self;
        keeper
    }

    /// The keeper, where no judgement is in progress.
    pub fn at_rest(self) -> Result<K, Refusal>
        ensures { IfOk result (λ keeper. IsNotOpen (K.seen keeper).progress) }
    {
        let Tried { keeper, judged } = self;
        match judged {
            None => Ok(keeper),
            Some(_) => Err(Refusal::Misused),
        }
    }
}

// The calls that write.
impl<K: Inbox + Drop> Tried<K> {
    /// A judgement of a custodian's next volume. `Misused` where one is in progress.
    pub fn begin(&mut self, code: Code) -> Result<(), Refusal> {
        if self.judged.is_some() {
            return Err(Refusal::Misused);
        }
        let begun = self.keeper.begin(code);
        if begun.is_ok() {
            self.judged = Some(code);
        }
        Ok(begun?)
    }

    /// An item is put in the judgement. `Misused` where none is in progress.
    pub fn put(&mut self, item: SharedItem) -> Result<(), Refusal> {
        if self.judged.is_none() || !item.is_entry() {
            return Err(Refusal::Misused);
        }
        let done = self.keeper.put(item);
        if done.is_err() {
            self.judged = None;
        }
        Ok(done?)
    }

    /// A key is taken in the judgement. `Misused` where none is in progress.
    pub fn take(&mut self, key: &Key) -> Result<(), Refusal> {
        if self.judged.is_none() {
            return Err(Refusal::Misused);
        }
        let done = self.keeper.take(key);
        if done.is_err() {
            self.judged = None;
        }
        Ok(done?)
    }

    /// The judgement is kept. `Misused` where none is in progress.
    pub fn keep(&mut self) -> Result<(), Refusal> {
        if self.judged.is_none() {
            return Err(Refusal::Misused);
        }
        let done = self.keeper.keep();
        self.judged = None;
        Ok(done?)
    }

    /// The judgement is given up. `Misused` where none is in progress.
    pub fn abandon(&mut self) -> Result<(), Refusal> {
        if self.judged.is_none() {
            return Err(Refusal::Misused);
        }
        let done = self.keeper.abandon();
        self.judged = None;
        Ok(done?)
    }

    /// A custodian's next volume puts these items, and is kept or given up. `Misused` where one is
    /// in progress.
    pub fn write_volume(
        &mut self,
        code: Code,
        items: Vec<SharedItem>,
        ending: Conclusion,
    ) -> Result<(), Refusal> {
        if self.judged.is_some() || !are_entries(items.as_slice()) {
            return Err(Refusal::Misused);
        }
        let done = write_volume(&mut self.keeper, code, items, ending);
        Ok(done?)
    }

    /// A custodian's next volume is rejected at a place by a rule. `Misused` where one is in
    /// progress.
    pub fn skip(&mut self, code: Code, place: u64, rule: u8) -> Result<(), Refusal> {
        if self.judged.is_some() {
            return Err(Refusal::Misused);
        }
        Ok(self.keeper.skip(code, place, rule)?)
    }

    /// A volume is received. `Misused` where one is in progress.
    pub fn receive(&mut self, code: Code, volume: Volume, bytes: &[u8]) -> Result<(), Refusal> {
        if self.judged.is_some() {
            return Err(Refusal::Misused);
        }
        Ok(self.keeper.receive(code, volume, bytes)?)
    }
}
