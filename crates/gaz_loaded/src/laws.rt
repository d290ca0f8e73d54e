//! What a reader may rely on.
ghost use Rattle.gaz_loaded.specs.Examples.{WorkedExamples};
ghost use Rattle.gaz_loaded.specs.Lives.{LivesJoin};

/// What a life makes of what is at hand.
pub fn lives_join()
    ensures { LivesJoin }
{}

/// What the definitions come to on worked examples.
pub fn worked_examples()
    ensures { WorkedExamples }
{}
