//! What a reader of the definitions may rely on.
ghost use Rattle.gaz_overlay.specs.Examples.{WorkedExamples};
ghost use Rattle.gaz_overlay.specs.Laws.{LaidViews};
ghost use Rattle.gaz_overlay.specs.Making.{ChangesMake};
ghost use Rattle.gaz_overlay.specs.PassingExamples.{WorkedPassing};
ghost use Rattle.gaz_overlay.specs.Questions.{LaidQuestions};
ghost use Rattle.gaz_overlay.specs.Rows.{WritingsKeep};

/// A laid view has at a key what the changes have where they used it, else what the view has, and
/// changes as the changes do.
pub fn laid_views()
    ensures { LaidViews }
{}

/// What is asked of a laid view is answered from what the last view and the changes answer.
pub fn laid_questions()
    ensures { LaidQuestions }
{}

/// To put and to take, to release and to adopt does to the working view just that, and the changes
/// alone say what it has at touched keys.
pub fn changes_make()
    ensures { ChangesMake }
{}

/// What is written for the touched keys, beside what was passed on, makes the working view the one
/// after the volume, and leaves the views after all volumes before it.
pub fn writings_keep()
    ensures { WritingsKeep }
{}

/// What the definitions come to on worked examples.
pub fn worked_examples()
    ensures { WorkedExamples }
{}

/// What they come to on worked examples of numbers that are passed on.
pub fn worked_passing()
    ensures { WorkedPassing }
{}
