//! What a reader of the definitions may rely on.
ghost use Rattle.gaz_row_items.specs.Examples.{WorkedExamples};
ghost use Rattle.gaz_row_items.specs.PassageExamples.{WorkedPassages};
ghost use Rattle.gaz_row_items.specs.RowExamples.{WorkedRows};

/// What the definitions come to on worked examples.
pub fn worked_examples()
    ensures { WorkedExamples }
{}

/// What rows of kind 92 say, on worked examples.
pub fn worked_passages()
    ensures { WorkedPassages }
{}

/// Which rows are as a store writes them, and what is told of them, on worked examples.
pub fn worked_rows()
    ensures { WorkedRows }
{}
