//! What a reader of the definitions may rely on.
ghost use Rattle.gaz_views.specs.CustodyExamples.{WorkedCustody, WorkedTies};
ghost use Rattle.gaz_views.specs.Examples.{WorkedExamples};

/// What the definitions on custody come to on worked examples.
pub fn worked_custody()
    ensures custody { WorkedCustody }
    ensures ties { WorkedTies }
{}

/// What the definitions come to on worked examples.
pub fn worked_examples()
    ensures { WorkedExamples }
{}
