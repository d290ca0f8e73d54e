ghost use Rattle.std.specs.Prelude.{◌≡◌, ◌≤◌, ◌<◌, ◌+◌, IfErr, IfOk, OnOk, Some, None};
ghost use Rattle.csv.specs.Records.{fields_of};
ghost use Rattle.gaz_changefile.specs.Lines.{action_of, field};
ghost use Rattle.gaz_changefile.specs.Rules.{change_rules, read_rules, trailer_rules};
ghost use Rattle.gaz_changefile.specs.Contents.{basis_in, change_in};
ghost use Rattle.gaz_changefile.specs.Steps.{IsFirstOf, KeepsAll};

use crate::action::Action;
use crate::allowed::is_allowed;
use crate::change::{Basis, Change};
use crate::file::FileFault;
use crate::line::field;
use crate::numbers::{Count, is_value};
use crate::rule;
use csv::ByteRecord;
use gaz_ids::{Code, MOST_CHANGES, Order, Volume};
use gaz_records::{FieldFault, Item, Kind, SharedItem, read_item};
use std::alloc::Global;

/// The basis that a record of three fields says.
pub(crate) fn basis_in(row: &ByteRecord) -> Option<Basis>
    ensures { result ≡ basis_in (fields_of row.now) }
{
    if row.len() != 3 {
        return None;
    }
    let Ok(custodian) = Code::read(field(row, 1)) else {
        return None;
    };
    let Ok(volume) = Volume::read(field(row, 2)) else {
        return None;
    };
    Some(Basis { custodian, volume })
}

#[tactic(auto, unfolding(crate::specs::Rules::read_rules))]
// The action of a change record with this item.
fn read_action(
    row: &ByteRecord,
    own: Code,
    item: &Item,
    place: u64,
    before: usize,
) -> Result<Action, FileFault>
    requires { before ≤ MOST_CHANGES }
    ensures bad { IfErr result (IsFirstOf place
        (read_rules own before item.now (fields_of row.now))) }
    ensures good { OnOk result (KeepsAll (read_rules own before item.now (fields_of row.now))) }
    ensures action { IfOk result (λ action. action_of (field (fields_of row.now) 1) ≡ Some action) }
{
    let Some(action) = Action::read(field(row, 1)) else {
        return Err(FileFault::at(place, rule::FORM));
    };
    if !is_allowed(own, action, item) {
        return Err(FileFault::at(place, rule::FORM));
    }
    if !is_value(Order::read(field(row, 2)), before as u64 + 1) {
        return Err(FileFault::at(place, rule::ORDER));
    }
    Ok(action)
}

#[tactic(auto, unfolding(crate::specs::Rules::change_rules, crate::specs::Rules::read_rules))]
/// The change of the record at `place` in a file of this custodian, behind so many other change
/// records.
pub(crate) fn read_change(
    alloc: Global,
    row: &ByteRecord,
    own: Code,
    kind: Kind,
    place: u64,
    before: usize,
) -> Result<Change, FileFault>
    requires { before ≤ MOST_CHANGES }
    ensures bad { IfErr result (IsFirstOf place
        (change_rules own before kind (fields_of row.now))) }
    ensures few { OnOk result (before < MOST_CHANGES) }
    ensures good { OnOk result (KeepsAll (change_rules own before kind (fields_of row.now))) }
    ensures change { IfOk result (λ change.
        change_in place kind (fields_of row.now) ≡ Some change) }
{
    if before as u64 >= MOST_CHANGES {
        return Err(FileFault::at(place, rule::LIMIT));
    }
    let item = match read_item(alloc, kind, row, 3) {
        Ok(item) => item,
        Err(FieldFault::Count) => return Err(FileFault::at(place, rule::SHAPE)),
        Err(FieldFault::Form { .. }) => return Err(FileFault::at(place, rule::FORM)),
        Err(FieldFault::Memory) => return Err(FileFault::Memory),
    };
    let action = read_action(row, own, &item, place, before)?;
    Ok(Change {
        place,
        action,
        item: SharedItem::new(alloc, item)?,
    })
}

#[tactic(auto, unfolding(crate::specs::Rules::trailer_rules))]
/// Whether the trailer at `place` counts the change records before it.
pub(crate) fn read_trailer(row: &ByteRecord, place: u64, before: usize) -> Result<(), FileFault>
    requires { before ≤ MOST_CHANGES }
    ensures bad { IfErr result (IsFirstOf place (trailer_rules before (fields_of row.now))) }
    ensures good { OnOk result (KeepsAll (trailer_rules before (fields_of row.now))) }
{
    if row.len() != 2 || !is_value(Count::read(field(row, 1)), before as u64) {
        return Err(FileFault::at(place, rule::TRAILER));
    }
    Ok(())
}
