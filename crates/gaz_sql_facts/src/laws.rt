//! What whoever states texts of SQL may rest on.
ghost use Rattle.gaz_sql_facts.specs.Examples.{WorkedExamples};
ghost use Rattle.gaz_sql_facts.specs.Laws.{CopiesStandAlone, TextsStandAlone};
ghost use Rattle.gaz_sql_facts.specs.Making.{IndexesMadeAnywhere, TablesMadeAnywhere};

/// What the definitions come to on worked examples.
pub fn worked_examples()
    ensures { WorkedExamples }
{}

/// A simple text over one table hangs on nothing else of a schema.
pub fn texts_stand_alone()
    ensures { TextsStandAlone }
{}

/// A simple text that copies one table into another hangs on nothing else of a schema.
pub fn copies_stand_alone()
    ensures { CopiesStandAlone }
{}

/// A text that makes a table hangs on nothing of a schema but that its name is free.
pub fn tables_made_anywhere()
    ensures { TablesMadeAnywhere }
{}

/// A text that makes an index hangs on its table, and on nothing else but that its name is free.
pub fn indexes_made_anywhere()
    ensures { IndexesMadeAnywhere }
{}
