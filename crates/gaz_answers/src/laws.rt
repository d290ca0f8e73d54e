//! What a reader of the definitions may rely on.
ghost use Rattle.gaz_answers.specs.WorkedLives.{WorkedTelling};
ghost use Rattle.gaz_answers.specs.WorkedRows.{WorkedRows};

/// What is told of a table's rows in turn, on worked examples.
pub fn worked_telling()
    ensures { WorkedTelling }
{}

/// Which rows are as a store writes them, on worked examples.
pub fn worked_rows()
    ensures { WorkedRows }
{}
