//! What a reader of the definitions may rely on.
ghost use Rattle.gaz_changefile.specs.Laws.{BasesRise, ChangesAreAllowed, ChangesArePlaced};
ghost use Rattle.gaz_changefile.specs.Laws.{EntriesAlone, FilesReadBack};
ghost use Rattle.gaz_changefile.specs.Laws.{LeastFault, ReadingsAreTyped};
ghost use Rattle.gaz_changefile.specs.Worked.{WorkedBases, WorkedChanges, WorkedFiles};
ghost use Rattle.gaz_changefile.specs.Worked.{WorkedLimits, WorkedProfiles, WorkedWriting};

/// A bad reading names the least place at which a rule is broken and, there, the first that is. A
/// good one breaks none.
pub fn least_fault()
    ensures { LeastFault }
{}

/// The basis lines of a good file are at most 16 and rise by custodian, and none names the
/// custodian whose file it is.
pub fn bases_rise()
    ensures { BasesRise }
{}

/// The changes of a good file are at most 5,000, and each is placed by the number of its record.
pub fn changes_are_placed()
    ensures { ChangesArePlaced }
{}

/// Each release and adoption of a good file is an insertion, and names another custodian than the
/// one whose file it is.
pub fn changes_are_allowed()
    ensures { ChangesAreAllowed }
{}

/// What a good file says is such as the types of its parts hold: its date is in the calendar, its
/// bases are codes and volumes, and its items are such as the table of fields allows.
pub fn readings_are_typed()
    ensures { ReadingsAreTyped }
{}

/// A file whose header doesn't name profile 2 is read as if there were entries alone.
pub fn entries_alone()
    ensures { EntriesAlone }
{}

/// What is written of a file reads back as the same file.
pub fn files_read_back()
    ensures { FilesReadBack }
{}

/// What some worked files say by the definition of a reading.
pub fn worked_files()
    ensures { WorkedFiles }
{}

/// What some worked files with basis lines say by the definition of a reading.
pub fn worked_bases()
    ensures { WorkedBases }
{}

/// What profiles some first records name by the definition.
pub fn worked_profiles()
    ensures { WorkedProfiles }
{}

/// What some files of one change record say by the definition of a reading.
pub fn worked_changes()
    ensures { WorkedChanges }
{}

/// Which rules records at the limits of a file break by the definition.
pub fn worked_limits()
    ensures { WorkedLimits }
{}

/// What is written of some files by the definition.
pub fn worked_writing()
    ensures { WorkedWriting }
{}
