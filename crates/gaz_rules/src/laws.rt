//! What a reader of the definitions may rely on.
ghost use Rattle.gaz_rules.specs.JudgedExamples.{WorkedExamples};
ghost use Rattle.gaz_rules.specs.Laws.{BoardsStaySound, OwnNumbersStay, StaysSound};
ghost use Rattle.gaz_rules.specs.Passing.{PassesAsAsked};
ghost use Rattle.gaz_rules.specs.RecordSentences.{RecordTestsSay};
ghost use Rattle.gaz_rules.specs.Verdicts.{JudgesSay};

/// What the definitions come to on worked examples.
pub fn worked_examples()
    ensures { WorkedExamples }
{}

/// A file is rejected at its fault of form, else at its first change that doesn't fit, else at its
/// first key that breaks a rule in the end, each with the least rule; else it is applied.
pub fn judges_say()
    ensures { JudgesSay }
{}

/// The tests of the record rules are true just where their sentences hold.
pub fn tests_say()
    ensures records { RecordTestsSay }
{}

/// Touched keys are enough: judging a file leaves a sound view sound, where it rests on sound views
/// of other custodians.
pub fn stays_sound()
    ensures { StaysSound }
{}

/// Where every view of a board is sound, every view is sound after one more judgement.
pub fn boards_stay_sound()
    ensures { BoardsStaySound }
{}

/// A custodian holds the number of every BLPU in its views, whatever other custodians' views are;
/// and no number is in the own blocks of two custodians of a register.
pub fn own_numbers_stay()
    ensures { OwnNumbersStay }
{}

/// What last became of a number is what the last change that passed it on made of it; and a change
/// that breaks no rule passes it on as the rules ask.
pub fn passes_as_asked()
    ensures { PassesAsAsked }
{}
