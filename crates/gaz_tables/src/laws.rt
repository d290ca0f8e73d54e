//! What whoever keeps something in the tables may rest on.
ghost use Rattle.gaz_tables.specs.Examples.{WorkedExamples};
ghost use Rattle.gaz_tables.specs.Laws.{BornOnce, OwnFirstTables, OwnTables, ReceivedOnce};
ghost use Rattle.gaz_tables.specs.Laws.{StatementsStandAlone, TablesStay, TreesTell};

/// What the definitions come to on worked examples.
pub fn worked_examples()
    ensures { WorkedExamples }
{}

/// No two rows of one key are born in one volume.
pub fn born_once()
    ensures { BornOnce }
{}

/// No volume is received twice.
pub fn received_once()
    ensures { ReceivedOnce }
{}

/// A write leaves a database a store's tables, and each table that it doesn't write as it was.
pub fn tables_stay()
    ensures { TablesStay }
{}

/// A sound database of a store's own schema has a store's tables.
pub fn own_tables()
    ensures { OwnTables }
{}

/// A sound database of schema 1's own schema has its tables, and room for what schema 2 has beside.
pub fn own_first_tables()
    ensures { OwnFirstTables }
{}

/// The trees of a database tell whether it has a store's tables, and their rows.
pub fn trees_tell()
    ensures { TreesTell }
{}

/// Each statement means the same in any schema in which the table stands that it is over, or both
/// tables that a copy is over.
pub fn statements_stand_alone()
    ensures { StatementsStandAlone }
{}
