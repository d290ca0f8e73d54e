//! What a reader of the definitions may rely on.
ghost use Rattle.gaz_ledger.specs.Examples.{WorkedExamples};
ghost use Rattle.gaz_ledger.specs.PassingExamples.{WorkedPassing};

/// What the definitions come to on worked examples.
pub fn worked_examples()
    ensures { WorkedExamples }
{}

/// What the definitions on numbers that are passed on come to on worked examples.
pub fn worked_passing()
    ensures { WorkedPassing }
{}
