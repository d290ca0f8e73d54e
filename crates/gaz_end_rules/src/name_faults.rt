//! What an item breaks by what it names: its BLPU, and an approved LPI's street.
ghost use Rattle.std.specs.Prelude.{◌≡◌, not, Some};
ghost use Rattle.std.specs.FinMap as map;
ghost use Rattle.std.specs.List.{list_any};
ghost use Rattle.gaz_records.specs.declared.item.Item.TheVariants as item;
ghost use Rattle.gaz_records.specs.declared.key.Key.TheVariants as key;
ghost use Rattle.gaz_views.specs.View.{holds};
ghost use Rattle.gaz_views.specs.Words.{approved_of};
ghost use Rattle.gaz_end_rules.specs.Breaches.{blpu_fault, blpu_state, name_faults};
ghost use Rattle.gaz_end_rules.specs.EndRules.{same_key};
ghost use Rattle.gaz_end_rules.specs.Knowing.{Recalls};
ghost use Rattle.gaz_end_rules.specs.Working.{IsJudging, ReadsView, ReadsViews};

use crate::last_street::{LastStreet, faults_on};
use gaz_changefile::Basis;
use gaz_ids::{Code, Status, Uprn};
use gaz_keeper::{Shelf, ShelfFault};
use gaz_records::{Item, Key, Lpi, SharedItem, item_in};

/// The end rules that an item breaks by what it names.
#[derive(Clone, Copy)]
pub(crate) struct NameFaults {
    /// Rule 30: another approved LPI has its BLPU.
    pub(crate) is_second: bool,
    /// The first half of rule 31: its BLPU isn't there.
    pub(crate) lacks_blpu: bool,
    /// Rule 32: its street is found nowhere.
    pub(crate) lacks_street: bool,
    /// Rule 33: its street is closed.
    pub(crate) names_closed: bool,
    /// The first half of rule 34: its street has no descriptor in its language.
    pub(crate) lacks_descriptor: bool,
    /// The first half of rule 37: its BLPU is historical.
    pub(crate) names_past: bool,
}

impl NameFaults {
    // At most that the BLPU isn't there.
    fn of_blpu(lacks_blpu: bool) -> NameFaults
        ensures { result ≡ blpu_fault lacks_blpu }
    {
        NameFaults {
            is_second: false,
            lacks_blpu,
            lacks_street: false,
            names_closed: false,
            lacks_descriptor: false,
            names_past: false,
        }
    }
}

/// Whether a BLPU is there, and whether it is historical.
#[derive(Clone, Copy)]
struct BlpuState {
    is_there: bool,
    is_past: bool,
}

// A BLPU in the view that is judged.
fn blpu_state<K: Shelf>(keeper: &mut K, code: Code, uprn: Uprn) -> Result<BlpuState, ShelfFault>
    requires { IsJudging K.seen keeper.old code }
    ensures { ReadsView K.seen keeper.old keeper.new result (λ view s. s ≡ blpu_state view uprn) }
{
    let stored = keeper.current(code, &Key::Blpu(uprn))?;
    let is_past = match item_in(&stored) {
        Some(Item::Blpu(blpu)) => matches!(blpu.status, Status::Historical),
        _ => false,
    };
    Ok(BlpuState {
        is_there: stored.is_some(),
        is_past,
    })
}

// Whether some key is another.
fn any_other(keys: &[Key], key: &Key) -> bool
    ensures { result ≡ list_any (λ m. not (same_key m key.now)) keys.now }
{
    keys.iter().any(|other| other.compare(key).is_ne())
}

// Whether an approved LPI of a BLPU stands under another key.
fn has_other<K: Shelf>(
    keeper: &mut K,
    code: Code,
    key: &Key,
    uprn: Uprn,
) -> Result<bool, ShelfFault>
    requires { IsJudging K.seen keeper.old code }
    ensures { ReadsView K.seen keeper.old keeper.new result
        (λ view b. b ≡ list_any (λ m. not (same_key m key.now)) (approved_of view uprn)) }
{
    let keys = keeper.approved_of(code, uprn)?;
    Ok(any_other(&keys, key))
}

// What an LPI breaks. Its BLPU is looked up once.
fn lpi_faults<K: Shelf>(
    keeper: &mut K,
    code: Code,
    bases: &[Basis],
    last: &mut LastStreet,
    key: &Key,
    lpi: &Lpi,
) -> Result<NameFaults, ShelfFault>
    requires { IsJudging K.seen keeper.old code }
    ensures { ReadsViews K.seen keeper.old keeper.new result bases.now (λ view others f.
        map.get view.items key.now ≡ Some (item.Lpi lpi.now) → Recalls view others last.old
        → Recalls view others last.new × (f ≡ name_faults view others key.now)) }
{
    let blpu = blpu_state(keeper, code, lpi.uprn)?;
    let Status::Approved = lpi.status else {
        return Ok(NameFaults::of_blpu(!blpu.is_there));
    };
    let is_second = has_other(keeper, code, key, lpi.uprn)?;
    let street = faults_on(keeper, code, bases, last, lpi.usrn, lpi.lang)?;
    Ok(NameFaults {
        is_second,
        lacks_blpu: !blpu.is_there,
        lacks_street: street.is_nowhere,
        names_closed: street.is_closed,
        lacks_descriptor: street.is_unnamed,
        names_past: blpu.is_past,
    })
}

// What a cross reference to a BLPU breaks.
fn xref_faults<K: Shelf>(keeper: &mut K, code: Code, uprn: Uprn) -> Result<NameFaults, ShelfFault>
    requires { IsJudging K.seen keeper.old code }
    ensures { ReadsView K.seen keeper.old keeper.new result
        (λ view f. f ≡ blpu_fault (not (holds view (key.Blpu uprn)))) }
{
    let blpu = blpu_state(keeper, code, uprn)?;
    Ok(NameFaults::of_blpu(!blpu.is_there))
}

/// What the item breaks that stands under a key.
pub(crate) fn name_faults<K: Shelf>(
    keeper: &mut K,
    code: Code,
    bases: &[Basis],
    last: &mut LastStreet,
    key: &Key,
    stored: &Option<SharedItem>,
) -> Result<NameFaults, ShelfFault>
    requires { IsJudging K.seen keeper.old code }
    ensures { ReadsViews K.seen keeper.old keeper.new result bases.now (λ view others f.
        stored.now ≡ map.get view.items key.now → Recalls view others last.old
        → Recalls view others last.new × (f ≡ name_faults view others key.now)) }
{
    match item_in(stored) {
        Some(Item::Lpi(lpi)) => lpi_faults(keeper, code, bases, last, key, lpi),
        Some(Item::Xref(xref)) => xref_faults(keeper, code, xref.uprn),
        _ => Ok(NameFaults::of_blpu(false)),
    }
}
