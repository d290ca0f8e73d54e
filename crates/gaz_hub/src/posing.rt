//! Any question is asked, and what is told of its answer.
ghost use Rattle.std.specs.Prelude.{◌≡◌};
ghost use Rattle.gaz_keeper.specs.Telling.{IsNotJudging};
ghost use Rattle.gaz_hub.specs.Posing.{IsPosed};

use crate::hub::Hub;
use gaz_keeper::Inbox;
use gaz_steps::{Question, Refusal, Told};

impl<K: Inbox + Drop> Hub<K> {
    /// What is told of a question; none where what is asked for isn't there, and of settling.
    pub fn ask(&mut self, question: Question) -> Result<Option<Told>, Refusal>
        requires idle { IsNotJudging K.seen self.old.keeper }
        ensures posed { IsPosed K.seen self.old self.new question result }
        ensures register { self.new.register ≡ self.old.register }
    {
        match question {
            Question::Ask { code, volume } => Told::of_outcome(self.outcome(code, volume)),
            Question::Stand { code } => Told::of_standing(self.status(code)),
            Question::Settle => Told::of_settling(self.settle()),
            Question::LookUp { uprn } => Told::of_property(self.lookup(uprn)),
            Question::Extract { code, volume } => Told::of_extract(self.extract(code, volume)),
            Question::ListClosed => Told::of_closed(self.closed_streets()),
        }
    }
}
