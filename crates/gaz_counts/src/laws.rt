//! What a reader of the definitions may rely on.
ghost use Rattle.gaz_counts.specs.Examples.{WorkedExamples};

/// What the definitions come to on worked examples.
pub fn worked_examples()
    ensures { WorkedExamples }
{}
