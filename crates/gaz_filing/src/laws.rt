//! What a reader of the definitions may rely on.
ghost use Rattle.gaz_filing.specs.Joined.{CallsAreOne, NextOpens};
ghost use Rattle.gaz_filing.specs.WorkedJoined.{WorkedJoined};

use sqlite_disk::Disk;

/// Calls over the same files, each of which is given what the one before gave back, or shows what a
/// stop left of it, under whatever register, refused or not: they are one run of one hub over
/// registers of which each extends the one before, and leave a store of the last, with each file
/// that one of them received. They begin with a store that is there, was made or was migrated; and
/// where a store's tables are there none is made.
pub fn calls_are_one<D: Disk>()
    ensures { CallsAreOne D.Disk }
{}

/// Whoever opens the files that were given back of a store, under its register, is told `Ok` or
/// `Fault`, and never that there is no store, or one of another register; and so it is of what a
/// call or a migration over them tells.
pub fn next_opens<D: Disk>()
    ensures { NextOpens D.Disk }
{}

/// Which calls are one after another, on worked examples.
pub fn worked_joined<D: Disk>()
    ensures { WorkedJoined D.Disk }
{}
