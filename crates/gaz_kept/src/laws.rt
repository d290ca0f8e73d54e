//! What a reader of the definitions may rely on.
ghost use Rattle.gaz_kept.specs.Examples.{WorkedExamples};
ghost use Rattle.gaz_kept.specs.Histories.{HistoriesChange, StatementsChange};
ghost use Rattle.gaz_kept.specs.Judging.{BoardChanges, FilesChange};
ghost use Rattle.gaz_kept.specs.Keeping.{KeepStands};
ghost use Rattle.gaz_kept.specs.Migrated.{MigrationStands};
ghost use Rattle.gaz_kept.specs.Opening.{CreateOpens};
ghost use Rattle.gaz_kept.specs.PassageExamples.{WorkedRows};
ghost use Rattle.gaz_kept.specs.Passages.{PassagesChange};
ghost use Rattle.gaz_kept.specs.Rewriting.{RewritesStand};
ghost use Rattle.gaz_kept.specs.Stands.{TablesStand};
ghost use Rattle.gaz_kept.specs.WorkedMigrated.{WorkedMigrated};
ghost use Rattle.gaz_kept.specs.WorkedOpening.{WorkedOpening};

/// What the definitions come to on worked examples.
pub fn worked_examples()
    ensures { WorkedExamples }
{}

/// Which databases are taken as a store, on worked examples.
pub fn worked_opening()
    ensures { WorkedOpening }
{}

/// A row that comes under a key sets its item in the views that have it, a row that goes takes it
/// from those after, and no earlier view changes.
pub fn histories_change()
    ensures { HistoriesChange }
{}

/// An INSERT brings one row to its custodian's histories, an UPDATE of `gone` ends one, and no
/// other custodian's change.
pub fn statements_change()
    ensures { StatementsChange }
{}

/// What became of a number is what its row of kind 92 says that was born last. An INSERT brings
/// one, an UPDATE of `gone` ends one; no other custodian's rows and no item's change by that.
pub fn passages_change()
    ensures { PassagesChange }
{}

/// Which rows of kind 92 a store keeps, on worked examples.
pub fn worked_passages()
    ensures { WorkedRows }
{}

/// An INSERT into `received` brings a file, and an UPDATE of its state the custodian's next
/// verdict.
pub fn files_change()
    ensures { FilesChange }
{}

/// The board that the rows make is read off them, and has one more judgement where the custodian
/// has one more verdict.
pub fn board_changes()
    ensures { BoardChanges }
{}

/// A new store stands for nothing; a file that comes, and a volume that is rejected, make of what
/// the tables stand for what a keeper's calls say.
pub fn tables_stand()
    ensures { TablesStand }
{}

/// What is written when a judgement is kept makes of what the tables stand for one judgement more.
pub fn volumes_are_kept()
    ensures { KeepStands }
{}

/// A new store is one of its register, so that it is opened for that one and refused to another.
pub fn create_opens()
    ensures { CreateOpens }
{}

/// A row of `meta` that gets another register keeps what the tables stand for, and makes of a store
/// of one register one of the other.
pub fn rewrites_stand()
    ensures { RewritesStand }
{}

/// A database of schema 1 that is migrated stands for what it stood for, and is of the register
/// that it is given.
pub fn migration_stands()
    ensures { MigrationStands }
{}

/// What a migration makes of rows, on worked examples.
pub fn worked_migrated()
    ensures { WorkedMigrated }
{}
