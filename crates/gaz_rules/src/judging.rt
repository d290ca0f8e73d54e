//! The judgement of a file, over any keeper.
ghost use Rattle.std.specs.Prelude.{◌≢◌, Some, None};
ghost use Rattle.gaz_register.specs.Registers.{blocks_of};
ghost use Rattle.gaz_keeper.specs.Keeper.{Idle};
ghost use Rattle.gaz_rules.specs.Phases.{Concludes, GivesUp};
ghost use Rattle.gaz_end_rules.specs.Working.{IsJudging};
ghost use Rattle.gaz_rules.specs.Working.{DoesPhases, DoesRecords, FindsEndFault};
ghost use Rattle.gaz_keeper.specs.Telling.{IsNotJudging};
ghost use Rattle.gaz_rules.specs.Judges.{JudgesFile};

use crate::performing::perform;
use crate::record_rules;
use gaz_changefile::{Basis, Change, ChangeFile};
use gaz_end_rules::Known;
use gaz_ids::Code;
use gaz_keeper::{Shelf, ShelfFault, Verdict};
use gaz_register::Register;
use std::alloc::Global;

/// A record at fault and the rule that it breaks.
#[derive(Clone, Copy)]
pub(crate) struct Fault {
    /// The number of the record, from 1 (the header).
    pub place: u64,
    pub rule: u8,
}

// Does the changes one after another, up to the first that doesn't fit.
fn record_phase<K: Shelf>(
    alloc: Global,
    keeper: &mut K,
    register: &Register,
    code: Code,
    bases: &[Basis],
    changes: &[Change],
) -> Result<Option<Fault>, ShelfFault>
    requires { IsJudging K.seen keeper.old code }
    ensures { DoesRecords K.seen keeper.old keeper.new result
        code (blocks_of register.now code) bases.now changes.now }
{
    for change in changes {
        let place = change.place;
        if let Some(rule) = record_rules::breach(keeper, register, code, bases, change)? {
            return Ok(Some(Fault { place, rule }));
        }
        perform(alloc, keeper, code, change)?;
    }
    Ok(None)
}

// Looks for the first record whose key breaks an end rule.
fn end_phase<K: Shelf>(
    alloc: Global,
    keeper: &mut K,
    code: Code,
    bases: &[Basis],
    changes: &[Change],
) -> Result<Option<Fault>, ShelfFault>
    requires { IsJudging K.seen keeper.old code }
    ensures { FindsEndFault K.seen keeper.old keeper.new result bases.now changes.now }
{
    let mut known = Known::new(alloc);
    for change in changes {
        let place = change.place;
        if let Some(rule) = gaz_end_rules::breach(keeper, code, bases, &mut known, &change.item)? {
            return Ok(Some(Fault { place, rule }));
        }
    }
    Ok(None)
}

// Does a file's changes on the working view, and looks for its first fault.
fn phases<K: Shelf>(
    alloc: Global,
    keeper: &mut K,
    register: &Register,
    code: Code,
    file: &ChangeFile,
) -> Result<Option<Fault>, ShelfFault>
    requires { IsJudging K.seen keeper.old code }
    ensures { DoesPhases K.seen keeper.old keeper.new result
        code (blocks_of register.now code) file.now }
{
    if let Some(fault) = record_phase(alloc, keeper, register, code, &file.bases, &file.changes)? {
        return Ok(Some(fault));
    }
    end_phase(alloc, keeper, code, &file.bases, &file.changes)
}

// Gives a judgement up, whatever the keeper answers.
fn give_up<K: Shelf>(keeper: &mut K)
    requires { (K.seen keeper.old).progress ≢ Idle }
    ensures { GivesUp (K.seen keeper.old) (K.seen keeper.new) }
{
    let Ok(()) = keeper.abandon() else {
        return;
    };
}

// Ends a judgement as rejected for a fault.
fn reject<K: Shelf>(keeper: &mut K, code: Code, fault: Fault) -> Result<Verdict, ShelfFault>
    requires { IsJudging K.seen keeper.old code }
    ensures { Concludes K.seen keeper.old keeper.new result code (Some fault) }
{
    keeper.abandon()?;
    keeper.skip(code, fault.place, fault.rule)?;
    Ok(Verdict::Rejected {
        place: fault.place,
        rule: fault.rule,
    })
}

// Ends a judgement as applied.
fn apply<K: Shelf>(keeper: &mut K, code: Code) -> Result<Verdict, ShelfFault>
    requires { IsJudging K.seen keeper.old code }
    ensures { Concludes K.seen keeper.old keeper.new result code None }
{
    keeper.keep()?;
    Ok(Verdict::Applied)
}

// Ends a judgement by what was found.
fn conclude<K: Shelf>(
    keeper: &mut K,
    code: Code,
    found: Option<Fault>,
) -> Result<Verdict, ShelfFault>
    requires { IsJudging K.seen keeper.old code }
    ensures { Concludes K.seen keeper.old keeper.new result code found }
{
    match found {
        Some(fault) => reject(keeper, code, fault),
        None => apply(keeper, code),
    }
}

/// Judges a good file as its custodian's next volume, which is to be at hand, where all its bases
/// are reached.
///
/// The changes go into the working view, each asked the record rules (20 to 24, 40 to 42) first;
/// then the keys that they touched are asked the end rules (30 to 39), in file order. The answer is
/// the verdict that the keeper then has. After a fault, `Memory` or `Store`, the keeper's board is
/// as it was. Whatever is answered, no judgement is in progress any more. That `Memory` isn't
/// answered without need no clause says: `checks/large.py` asks it of 5,000 changes.
pub fn judge<K: Shelf>(
    alloc: Global,
    keeper: &mut K,
    register: &Register,
    code: Code,
    file: &ChangeFile,
) -> Result<Verdict, ShelfFault>
    requires { IsNotJudging K.seen keeper.old }
    ensures { JudgesFile K.seen keeper.old keeper.new result
        (blocks_of register.now code) code file.now }
{
    keeper.begin(code)?;
    match phases(alloc, keeper, register, code, file) {
        Ok(found) => conclude(keeper, code, found),
        Err(fault) => {
            give_up(keeper);
            Err(fault)
        }
    }
}
