//! What a reader of the definitions may rely on.
ghost use Rattle.gaz_end_rules.specs.EndExamples.{WorkedEndRules};
ghost use Rattle.gaz_end_rules.specs.Laws.{FindsRings};
ghost use Rattle.gaz_end_rules.specs.Sentences.{TestsSay};

/// What the definitions come to on worked examples.
pub fn worked_examples()
    ensures { WorkedEndRules }
{}

/// The tests of the end rules but rule 36, and of where a street is found, are true just where
/// their sentences hold.
pub fn tests_say()
    ensures ends { TestsSay }
{}

/// Rule 36 is broken where a chain of one or more parents, of any length, leads from a property to
/// itself, and nowhere else.
pub fn finds_rings()
    ensures { FindsRings }
{}
