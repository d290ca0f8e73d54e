//! The street that an approved LPI named last. Over a whole file most LPIs name the same one.
ghost use Rattle.std.specs.Prelude.{◌≡◌, ℕ, IfSome, List};
ghost use Rattle.gaz_views.specs.View.{View};
ghost use Rattle.gaz_end_rules.specs.Knowing.{Recalls};
ghost use Rattle.gaz_end_rules.specs.Streets.{street_faults};
ghost use Rattle.gaz_end_rules.specs.Working.{IsJudging, ReadsViews};

use crate::streets::{StreetFaults, street_faults};
use gaz_changefile::Basis;
use gaz_ids::{Code, Lang, Usrn};
use gaz_keeper::{Shelf, ShelfFault};

/// What an approved LPI breaks that names this street in this language.
#[derive(Clone, Copy, PartialEq, Eq)]
struct Answer {
    usrn: Usrn,
    lang: Lang,
    faults: StreetFaults,
}

/// The last answer about a street in one view and its basis views.
#[derive(Clone, Copy)]
pub(crate) struct LastStreet {
    answer: Option<Answer>,
}

impl LastStreet {
    /// None so far, which is right of any views.
    pub(crate) fn new() -> LastStreet
        ensures recalls { (v : View) (others : List (ℕ × View)) → Recalls v others result }
    {
        LastStreet { answer: None }
    }

    // The answer, where it is about this street in this language.
    fn about(&self, usrn: Usrn, lang: Lang) -> Option<StreetFaults>
        ensures { (v : View) (others : List (ℕ × View)) → Recalls v others self.now
            → IfSome result (λ f. f ≡ street_faults v others usrn lang) }
    {
        let answer = self.answer?;
        if answer.usrn == usrn && answer.lang == lang {
            return Some(answer.faults);
        }
        None
    }

    // An answer about this street in this language is the last.
    fn set(&mut self, usrn: Usrn, lang: Lang, faults: StreetFaults)
        ensures { (v : View) (others : List (ℕ × View)) → faults ≡ street_faults v others usrn lang
            → Recalls v others self.new }
    {
        self.answer = Some(Answer { usrn, lang, faults });
    }
}

/// What an approved LPI breaks that names this street in this language. The keeper is asked only
/// where the last answer is about another.
pub(crate) fn faults_on<K: Shelf>(
    keeper: &mut K,
    code: Code,
    bases: &[Basis],
    last: &mut LastStreet,
    usrn: Usrn,
    lang: Lang,
) -> Result<StreetFaults, ShelfFault>
    requires { IsJudging K.seen keeper.old code }
    ensures { ReadsViews K.seen keeper.old keeper.new result bases.now (λ view others f.
        Recalls view others last.old
        → Recalls view others last.new × (f ≡ street_faults view others usrn lang)) }
{
    if let Some(faults) = last.about(usrn, lang) {
        return Ok(faults);
    }
    let faults = street_faults(keeper, code, bases, usrn, lang)?;
    last.set(usrn, lang, faults);
    Ok(faults)
}
