//! Whether a judgement is in progress, and which.
ghost use Rattle.std.specs.Prelude.{◌≡◌, IfNone, IfSome, OnErr};
ghost use Rattle.sqlite.specs.Effect.{Database};
ghost use Rattle.gaz_views.specs.View.{custody_at, was_used};
ghost use Rattle.gaz_views.specs.Words.{tied};
ghost use Rattle.gaz_calls.specs.Asking.{AsksTables};
ghost use Rattle.gaz_store.specs.Store.{IsElsewhere, IsOfView, StandsBeside, cleared, progress_of};
ghost use Rattle.gaz_store.specs.Store.{working_of};

use crate::judgement::Judgement;
use gaz_calls::Tables;
use gaz_ids::{Code, Uprn};
use gaz_keeper::ShelfFault;
use gaz_records::Key;
use gaz_views::Custody;
use sqlite::Alter;
use std::mem::replace;

/// The judgement in progress of a store.
#[derive(Drop)]
pub(crate) enum Judging {
    Idle,
    Open(Judgement),
    /// One of its calls failed, and what it changed is gone.
    Broken,
}

impl Judging {
    /// Clears a broken one.
    pub(crate) fn clear(&mut self)
        ensures { self.new ≡ cleared self.old }
    {
        if let Judging::Broken = self {
            *self = Judging::Idle;
        }
    }

    /// Takes the judgement in progress. A broken one stands in its place until it is put back.
    pub(crate) fn take_open(&mut self) -> Option<Judgement>
        ensures open { IfSome result (λ j. self.old ≡ Judging.Open j) }
        ensures broken { self.new ≡ Judging.Broken }
    {
        match replace(self, Judging::Broken) {
            Judging::Open(judgement) => Some(judgement),
            _ => None,
        }
    }

    /// The judgement of this custodian.
    pub(crate) fn of(&self, code: Code) -> Option<&Judgement>
        ensures none { IfNone result (IsElsewhere self.now code) }
        ensures some { IfSome result (λ j. self.now ≡ Judging.Open j.now) }
        ensures code { IfSome result (λ j. j.now.code ≡ code) }
    {
        match self {
            Judging::Open(judgement) if judgement.code == code => Some(judgement),
            _ => None,
        }
    }

    /// Where this custodian's volume is judged and the key is that of a BLPU: asks the tables, once
    /// a judgement, whether one of the custodian's numbers was passed on.
    pub(crate) fn ask_passed<S: Alter>(
        &mut self,
        tables: &mut Tables<S>,
        code: Code,
        key: &Key,
    ) -> Result<(), ShelfFault>
        ensures asks { AsksTables tables.old tables.new result
            (λ db _. StandsBeside db self.old → StandsBeside db self.new) }
        ensures progress { progress_of self.new ≡ progress_of self.old }
        ensures working { (db : Database) → working_of db self.new ≡ working_of db self.old }
        ensures err { OnErr result (self.new ≡ self.old) }
    {
        match self {
            Judging::Open(judgement) if judgement.code == code && matches!(key, Key::Blpu(_)) => {
                judgement.ask_passed(tables)
            }
            _ => Ok(()),
        }
    }

    /// Whether a key was ever used in the working view, where this custodian's volume is judged,
    /// else in its last one.
    pub(crate) fn was_used<S: Alter>(
        &self,
        tables: &mut Tables<S>,
        code: Code,
        key: &Key,
    ) -> Result<bool, ShelfFault>
        ensures { AsksTables tables.old tables.new result
            (λ db b. IsOfView db self.now code (λ v. b ≡ was_used v key.now)) }
    {
        match self {
            Judging::Open(judgement) if judgement.code == code => judgement.was_used(tables, key),
            _ => tables.was_used(code, key),
        }
    }

    /// What last became of a number in the working view, where this custodian's volume is judged,
    /// else in its last one.
    pub(crate) fn custody<S: Alter>(
        &self,
        tables: &mut Tables<S>,
        code: Code,
        uprn: Uprn,
    ) -> Result<Option<Custody>, ShelfFault>
        ensures { AsksTables tables.old tables.new result
            (λ db x. IsOfView db self.now code (λ v. x ≡ custody_at v uprn)) }
    {
        match self {
            Judging::Open(judgement) if judgement.code == code => judgement.custody(tables, uprn),
            _ => tables.custody(code, uprn),
        }
    }

    /// Whether an LPI or a cross reference, of whatever status, names a BLPU in the working view,
    /// where this custodian's volume is judged, else in its last one.
    pub(crate) fn tied<S: Alter>(
        &mut self,
        tables: &mut Tables<S>,
        code: Code,
        uprn: Uprn,
    ) -> Result<bool, ShelfFault>
        ensures asks { AsksTables tables.old tables.new result
            (λ db b. IsOfView db self.old code (λ v. b ≡ tied v uprn)) }
        ensures same { self.new ≡ self.old }
    {
        match self {
            Judging::Open(judgement) if judgement.code == code => judgement.tied(tables, uprn),
            _ => tables.tied(code, uprn),
        }
    }
}
