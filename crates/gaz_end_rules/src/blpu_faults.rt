//! What the key of a BLPU breaks by itself, for what others name.
ghost use Rattle.std.specs.Prelude.{◌≡◌, ◌==◌, ◌&&◌, false, length, not, None, Some};
ghost use Rattle.std.specs.FinMap as map;
ghost use Rattle.std.specs.Option.{option_and_then, option_map, option_map_or};
ghost use Rattle.gaz_records.specs.declared.key.Key.TheVariants as key;
ghost use Rattle.gaz_views.specs.View.{holds};
ghost use Rattle.gaz_views.specs.Words.{approved_of, has_children, tied};
ghost use Rattle.gaz_end_rules.specs.Breaches.{key_faults};
ghost use Rattle.gaz_end_rules.specs.EndRules.{as_blpu, blpu_at, is_historical, is_own_ancestor};
ghost use Rattle.gaz_end_rules.specs.EndRules.{parent_of};
ghost use Rattle.gaz_end_rules.specs.Rings.{Knows};
ghost use Rattle.gaz_end_rules.specs.Working.{IsJudging, ReadsView};

use crate::key_faults::{KeyFaults, is_there};
use crate::rings::{Walked, is_on_ring};
use gaz_ids::{Code, Status, Uprn};
use gaz_keeper::{Shelf, ShelfFault};
use gaz_records::{Blpu, Item, Key, SharedItem, item_in};

// Whether a BLPU's parent isn't there.
fn lacks_parent<K: Shelf>(keeper: &mut K, code: Code, blpu: &Blpu) -> Result<bool, ShelfFault>
    requires { IsJudging K.seen keeper.old code }
    ensures { ReadsView K.seen keeper.old keeper.new result
        (λ v b. b ≡ option_map_or (λ p. not (holds v (key.Blpu p))) blpu.now.parent false) }
{
    let Some(parent) = blpu.parent else {
        return Ok(false);
    };
    Ok(!is_there(keeper, code, &Key::Blpu(parent))?)
}

// Whether a BLPU with this parent is on a ring; one without a parent is on none.
fn is_own_ancestor<K: Shelf>(
    keeper: &mut K,
    code: Code,
    walked: &mut Walked,
    uprn: Uprn,
    parent: Option<Uprn>,
) -> Result<bool, ShelfFault>
    requires { IsJudging K.seen keeper.old code }
    ensures { ReadsView K.seen keeper.old keeper.new result
        (λ v b. Knows v walked.old → Knows v walked.new
        × (parent ≡ parent_of v uprn → b ≡ is_own_ancestor v (key.Blpu uprn))) }
{
    let Some(parent) = parent else {
        return Ok(false);
    };
    is_on_ring(keeper, code, walked, uprn, parent)
}

fn is_filled(keys: &[Key]) -> bool
    ensures { result ≡ not (length keys.now == 0) }
{
    !keys.is_empty()
}

// Whether a BLPU of this status is historical and has an approved LPI.
fn past_under_lpi<K: Shelf>(
    keeper: &mut K,
    code: Code,
    uprn: Uprn,
    status: Status,
) -> Result<bool, ShelfFault>
    requires { IsJudging K.seen keeper.old code }
    ensures { ReadsView K.seen keeper.old keeper.new result
        (λ v b. b ≡ (is_historical status && not (length (approved_of v uprn) == 0))) }
{
    let Status::Historical = status else {
        return Ok(false);
    };
    let keys = keeper.approved_of(code, uprn)?;
    Ok(is_filled(&keys))
}

/// The BLPU that stands there.
pub(crate) fn blpu_in(stored: &Option<SharedItem>) -> Option<&Blpu>
    ensures { option_map (λ b. b.now) result ≡ option_and_then as_blpu stored.now }
{
    let Some(Item::Blpu(blpu)) = item_in(stored) else {
        return None;
    };
    Some(blpu)
}

/// What a BLPU breaks that stands under its number.
pub(crate) fn blpu_faults<K: Shelf>(
    keeper: &mut K,
    code: Code,
    walked: &mut Walked,
    uprn: Uprn,
    blpu: &Blpu,
) -> Result<KeyFaults, ShelfFault>
    requires { IsJudging K.seen keeper.old code }
    ensures { ReadsView K.seen keeper.old keeper.new result
        (λ v f. blpu_at v uprn ≡ Some blpu.now → Knows v walked.old
        → Knows v walked.new × (f ≡ key_faults v (key.Blpu uprn))) }
{
    let mut faults = KeyFaults::none();
    faults.lacks_parent = lacks_parent(keeper, code, blpu)?;
    faults.is_own_ancestor = is_own_ancestor(keeper, code, walked, uprn, blpu.parent)?;
    faults.past_under_lpi = past_under_lpi(keeper, code, uprn, blpu.status)?;
    Ok(faults)
}

// Whether an LPI or a cross reference names a BLPU.
fn is_tied<K: Shelf>(keeper: &mut K, code: Code, uprn: Uprn) -> Result<bool, ShelfFault>
    requires { IsJudging K.seen keeper.old code }
    ensures { ReadsView K.seen keeper.old keeper.new result (λ v b. b ≡ tied v uprn) }
{
    keeper.tied(code, uprn)
}

// Whether a BLPU is a part of another.
fn has_parts<K: Shelf>(keeper: &mut K, code: Code, uprn: Uprn) -> Result<bool, ShelfFault>
    requires { IsJudging K.seen keeper.old code }
    ensures { ReadsView K.seen keeper.old keeper.new result (λ v b. b ≡ has_children v uprn) }
{
    keeper.children(code, uprn)
}

/// What a number breaks under which no BLPU stands. The keeper is asked only where nothing does.
pub(crate) fn gone_faults<K: Shelf>(
    keeper: &mut K,
    code: Code,
    uprn: Uprn,
    stored: &Option<SharedItem>,
) -> Result<KeyFaults, ShelfFault>
    requires { IsJudging K.seen keeper.old code }
    ensures { ReadsView K.seen keeper.old keeper.new result
        (λ v f. stored.now ≡ map.get v.items (key.Blpu uprn)
        → option_and_then as_blpu stored.now ≡ None
        → f ≡ key_faults v (key.Blpu uprn)) }
{
    let mut faults = KeyFaults::none();
    if stored.is_some() {
        return Ok(faults);
    }
    faults.leaves_ties = is_tied(keeper, code, uprn)?;
    faults.leaves_parts = has_parts(keeper, code, uprn)?;
    Ok(faults)
}
