//! What a reader of the definitions may rely on.
ghost use Rattle.gaz_extract.specs.Examples.{WorkedExamples};
ghost use Rattle.gaz_extract.specs.Laws.{ExtractsReadBack};

/// What the definitions come to on worked examples.
pub fn worked_examples()
    ensures { WorkedExamples }
{}

/// The text of an extract of a lawful view of items that the table of fields allows, read as rows,
/// inserts just the items of that view, and they give what it holds.
pub fn extracts_read_back()
    ensures { ExtractsReadBack }
{}
