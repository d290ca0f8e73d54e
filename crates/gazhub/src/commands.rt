//! Commands over the store at a path: one is made or migrated, its register grows, and a hub over
//! one is asked.
ghost use Rattle.std.specs.Prelude.{◌≡◌};
ghost use Rattle.gazhub.specs.Changing.{not_extended, said_of_growth, said_of_migration};
ghost use Rattle.gazhub.specs.Working.{AskComesTo, ExtendComesTo, InitComesTo, MigrateComesTo};

use crate::files::{NoHub, of_store, open_files, read_change_file, read_register};
use crate::site::{Purpose, Site};
use gaz_commands::{PrintedLine, Said};
use gaz_filing::{FilesBack, ask_store, extend_store, make_store, migrate_store};
use gaz_ledger::Seed;
use gaz_register::GrowFault;
use gaz_store::{ExtendFault, StoreRefusal};
use gaz_stored::Migration;
use gaz_words::{Call, Places};
use std::alloc::Global;

/// Makes a store. Its file is made where it is missing.
pub fn init<S: Site>(
    site: &mut S,
    alloc: Global,
    seed: Seed,
    places: Places<'_>,
) -> Result<Said, NoHub>
    ensures { InitComesTo S.done S.Medium.Disk places.entry site.old site.new result }
{
    let register = read_register(site, alloc, places.register)?;
    let (files, options) = open_files(site, places.store, Purpose::Make)?;
    let FilesBack { left, told: made } = make_store(alloc, files, options, seed, &register);
    site.close(left);
    of_store(made)
}

/// Asks a hub over the store that is there. No store is made, though an empty log may be.
pub fn ask<S: Site>(
    site: &mut S,
    alloc: Global,
    seed: Seed,
    places: Places<'_>,
    call: Call<'_>,
) -> Result<Said, NoHub>
    ensures { AskComesTo S.done S.Medium.Disk places.entry call.entry site.old site.new result }
{
    let register = read_register(site, alloc, places.register)?;
    let (files, options) = open_files(site, places.store, Purpose::Use)?;
    let bytes = read_change_file(site, call);
    let file = bytes.as_deref();
    let FilesBack { left, told: said } = ask_store(
        alloc, files, options, seed, register, call, file,
    );
    site.close(left);
    of_store(said)
}

// What is said where a store's register didn't grow: that what it was to grow to is no growth of it
// is printed, the others are faults.
fn not_extended(fault: ExtendFault) -> Result<Said, NoHub>
    ensures { result ≡ not_extended fault }
{
    let why = match fault {
        ExtendFault::RemovedCustodian => GrowFault::RemovedCustodian,
        ExtendFault::ChangedBlocks => GrowFault::ChangedBlocks,
        ExtendFault::OtherRegister => return Err(NoHub::Store(StoreRefusal::OtherRegister)),
        ExtendFault::Fault => return Err(NoHub::Store(StoreRefusal::Fault)),
        ExtendFault::Memory => return Err(NoHub::Memory),
    };
    Ok(Said::Line(PrintedLine::NotExtended(why)))
}

// What is said of a store's register that was to grow, or why there is no store.
fn said_of_growth(told: Result<Result<(), ExtendFault>, StoreRefusal>) -> Result<Said, NoHub>
    ensures { result ≡ said_of_growth told }
{
    match told {
        Ok(Ok(())) => Ok(Said::Line(PrintedLine::Extended)),
        Ok(Err(fault)) => not_extended(fault),
        Err(refusal) => Err(NoHub::Store(refusal)),
    }
}

/// Lets the register of the store that is there grow to the one whose file stands at a path. The
/// register is read first, then the grown one, then the store. No store is made, though an empty
/// log may be.
pub fn extend<S: Site>(
    site: &mut S,
    alloc: Global,
    seed: Seed,
    places: Places<'_>,
    grown: &str,
) -> Result<Said, NoHub>
    ensures { ExtendComesTo S.done S.Medium.Disk places.entry grown.now site.old site.new result }
{
    let register = read_register(site, alloc, places.register)?;
    let grown = read_register(site, alloc, grown)?;
    let (files, options) = open_files(site, places.store, Purpose::Use)?;
    let FilesBack { left, told } = extend_store(alloc, files, options, seed, register, grown);
    site.close(left);
    said_of_growth(told)
}

// What is said of a store that was to be migrated, or why there is none.
fn said_of_migration(told: Result<Migration, StoreRefusal>) -> Result<Said, NoHub>
    ensures { result ≡ said_of_migration told }
{
    match told {
        Ok(Migration::Done) => Ok(Said::Line(PrintedLine::Migrated)),
        Ok(Migration::Current) => Ok(Said::Line(PrintedLine::Current)),
        Err(refusal) => Err(NoHub::Store(refusal)),
    }
}

/// Migrates the store that is there. The register is read first. No store is made, though an empty
/// log may be.
pub fn migrate<S: Site>(
    site: &mut S,
    alloc: Global,
    seed: Seed,
    places: Places<'_>,
) -> Result<Said, NoHub>
    ensures { MigrateComesTo S.done S.Medium.Disk places.entry site.old site.new result }
{
    let register = read_register(site, alloc, places.register)?;
    let (files, options) = open_files(site, places.store, Purpose::Migrate)?;
    let FilesBack { left, told } = migrate_store(alloc, files, options, seed, &register);
    site.close(left);
    said_of_migration(told)
}
