//! What a reader of the definitions may rely on.
ghost use Rattle.gaz_calls.specs.WorkedAsking.{WorkedAsking};
ghost use Rattle.gaz_calls.specs.WorkedGrowing.{WorkedGrowing};
ghost use Rattle.gaz_calls.specs.WorkedPassing.{WorkedPassing};

/// Why a call that asks the tables fails, and what is at hand, on worked examples.
pub fn worked_asking()
    ensures { WorkedAsking }
{}

/// What is told where a store's register grows, on worked examples.
pub fn worked_growing()
    ensures { WorkedGrowing }
{}

/// What is known of numbers that were passed on, on worked examples.
pub fn worked_passing()
    ensures { WorkedPassing }
{}
