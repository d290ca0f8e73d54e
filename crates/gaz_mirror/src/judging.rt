//! A judgement over two keepers, how what was gathered of one is handed down, and which of the two
//! is asked.
ghost use Rattle.std.specs.Prelude.{◌≡◌, ◌≢◌, ⊤, None, OnOk};
ghost use Rattle.gaz_keeper.specs.Keeper.{Counts, Goes, Idle, Keeps, Reads, Refuses, view_of};
ghost use Rattle.gaz_keeper.specs.Telling.{Abandons, Applies};
ghost use Rattle.gaz_mirror.specs.Gathering.{Makes};
ghost use Rattle.gaz_mirror.specs.Mirrored.{DropsUpper, Gathers, KeepsUpper, SparesLower};
ghost use Rattle.gaz_mirror.specs.Mirrored.{seen_mirrored};

use crate::changes::{hand_to, make};
use crate::gathered::Change;
use crate::mirror::Mirror;
use crate::questions::Question;
use crate::turns::change;
use crate::unshared::Unshared;
use gaz_keeper::{Inbox, ShelfFault};

impl<L: Inbox + Drop, U: Unshared + Drop> Mirror<L, U> {
    /// Makes a change of the working view.
    pub(crate) fn change(&mut self, change: Change) -> Result<(), ShelfFault>
        requires { (seen_mirrored self.old).progress ≢ Idle }
        ensures makes { Makes seen_mirrored self.old self.new result change }
        ensures refuses { Refuses (seen_mirrored self.old) result }
        ensures drops { DropsUpper result self.new }
        ensures spares { Gathers self.old → SparesLower self.old self.new }
    {
        if self.gathered.is_some() {
            self.gather(change)
        } else {
            self.change_both(change)
        }
    }

    // Makes it above, and adds it to what is gathered. Where either can't be, what was gathered is
    // handed down, and all goes on below alone.
    fn gather(&mut self, change: Change) -> Result<(), ShelfFault>
        requires { Gathers self.old }
        ensures makes { Makes seen_mirrored self.old self.new result change }
        ensures drops { DropsUpper result self.new }
        ensures spares { SparesLower self.old self.new }
    {
        let Some(mut gathered) = self.gathered.take() else {
            unreachable!()
        };
        let Some(upper) = &mut self.upper else {
            unreachable!()
        };
        if !gathered.note(&change) {
            self.upper = None;
            hand_to(&mut self.lower, gathered)?;
            return make(&mut self.lower, change);
        }
        if make(upper, change).is_ok() {
            self.gathered = Some(gathered);
            return Ok(());
        }
        self.upper = None;
        hand_to(&mut self.lower, gathered)
    }

    // Makes it below and then above.
    fn change_both(&mut self, change: Change) -> Result<(), ShelfFault>
        requires begun { (seen_mirrored self.old).progress ≢ Idle }
        requires settled { self.old.gathered ≡ None }
        ensures makes { Makes seen_mirrored self.old self.new result change }
        ensures refuses { Refuses (seen_mirrored self.old) result }
        ensures drops { DropsUpper result self.new }
    {
        let shared = change.share();
        let made = make(&mut self.lower, change);
        if made.is_ok()
            && let Ok(shared) = shared
            && let Some(upper) = &mut self.upper
            && make(upper, shared).is_ok()
        {
            return made;
        }
        self.upper = None;
        made
    }

    /// Keeps it below and then above.
    pub(crate) fn keep_both(&mut self) -> Result<(), ShelfFault>
        requires begun { (seen_mirrored self.old).progress ≢ Idle }
        requires settled { self.old.gathered ≡ None }
        ensures keeps { Applies seen_mirrored self.old self.new result }
        ensures refuses { Refuses (seen_mirrored self.old) result }
        ensures drops { DropsUpper result self.new }
    {
        change!(self, keep())
    }

    /// Gives it up below and then above.
    pub(crate) fn abandon_both(&mut self) -> Result<(), ShelfFault>
        requires begun { (seen_mirrored self.old).progress ≢ Idle }
        requires settled { self.old.gathered ≡ None }
        ensures goes { Abandons seen_mirrored self.old self.new result }
        ensures drops { DropsUpper result self.new }
    {
        change!(self, abandon())
    }

    /// Gives it up above, where it is gathered. A lower keeper that may be broken is cleared: it
    /// begins the judgement, and gives it up.
    pub(crate) fn abandon_above(&mut self) -> Result<(), ShelfFault>
        requires { Gathers self.old }
        ensures goes { Abandons seen_mirrored self.old self.new result }
        ensures drops { DropsUpper result self.new }
        ensures spares { SparesLower self.old self.new }
    {
        let Some(gathered) = self.gathered.take() else {
            unreachable!()
        };
        if gathered.tried {
            self.upper = None;
            self.lower.begin(gathered.code)?;
            return self.lower.abandon();
        }
        if let Some(upper) = &mut self.upper
            && upper.abandon().is_ok()
        {
            return Ok(());
        }
        self.upper = None;
        Ok(())
    }

    /// Hands down what was gathered. After a fault the upper keeper is dropped.
    pub(crate) fn hand_down(&mut self) -> Result<(), ShelfFault>
        requires { Gathers self.old }
        ensures goes { Goes (seen_mirrored self.old) (seen_mirrored self.new) result ⊤
            (seen_mirrored self.old).content None (seen_mirrored self.old).progress }
        ensures settled { self.new.gathered ≡ None }
        ensures drops { DropsUpper result self.new }
    {
        let Some(gathered) = self.gathered.take() else {
            unreachable!()
        };
        if let Err(fault) = hand_to(&mut self.lower, gathered) {
            self.upper = None;
            return Err(fault);
        }
        Ok(())
    }

    /// Hands down a copy of what was gathered, where anything was, so that the lower keeper can be
    /// asked. After a fault it is gathered still.
    pub(crate) fn settle(&mut self) -> Result<(), ShelfFault>
        ensures keeps { Keeps (seen_mirrored self.old) (seen_mirrored self.new) }
        ensures counts { Counts (seen_mirrored self.old) (seen_mirrored self.new) result }
        ensures upper { KeepsUpper self.old self.new }
        ensures settled { OnOk result (self.new.gathered ≡ None) }
    {
        let Some(gathered) = &mut self.gathered else {
            return Ok(());
        };
        let Ok(copied) = gathered.copy(self.alloc) else {
            return Err(ShelfFault::Memory);
        };
        if let Err(fault) = hand_to(&mut self.lower, copied) {
            gathered.tried = true;
            return Err(fault);
        }
        self.gathered = None;
        Ok(())
    }

    /// Asks the upper keeper; where it can't answer, the lower one.
    pub(crate) fn read<Q: Question>(&mut self, question: &Q) -> Result<Q::Answer, ShelfFault>
        ensures reads { Reads (seen_mirrored self.old) (seen_mirrored self.new) result
            (Q.is_right question.now (seen_mirrored self.old).content
            (view_of (seen_mirrored self.old))) }
        ensures keeps { KeepsUpper self.old self.new }
    {
        if let Some(upper) = &mut self.upper
            && let Ok(answer) = question.ask(upper)
        {
            return Ok(answer);
        }
        self.settle()?;
        question.ask(&mut self.lower)
    }
}
