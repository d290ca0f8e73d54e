//! What a reader of the definitions may rely on.
ghost use Rattle.gaz_keeper.specs.Examples.{WorkedExamples};
ghost use Rattle.gaz_keeper.specs.WorkedCalls.{WorkedCalls};

/// What the definitions come to on worked examples.
pub fn worked_examples()
    ensures { WorkedExamples }
{}

/// What the calls of a keeper may tell, and what they may not, on worked examples.
pub fn worked_calls()
    ensures { WorkedCalls }
{}
