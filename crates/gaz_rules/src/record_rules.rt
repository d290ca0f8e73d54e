//! The record rules, asked of any keeper.
ghost use Rattle.std.specs.Prelude.{◌≡◌, ℕ, false, true, List};
ghost use Rattle.gaz_records.specs.Items.{is_entry};
ghost use Rattle.gaz_records.specs.Keys.{key_of};
ghost use Rattle.gaz_register.specs.Registers.{Blocks, blocks_of};
ghost use Rattle.gaz_views.specs.View.{View};
ghost use Rattle.gaz_rules.specs.Rules.{delete_breach, insert_breach, is_moved};
ghost use Rattle.gaz_changefile.specs.Rules.{first_broken};
ghost use Rattle.gaz_rules.specs.Rules.{is_outside, record_rules, stays, update_breach};
ghost use Rattle.gaz_end_rules.specs.Working.{IsJudging, ReadsView, ReadsViews};

use crate::custody_rules::{adopt_breach, holds_number, release_breach};
use crate::rule;
use gaz_changefile::{Action, Basis, Change};
use gaz_end_rules::is_there;
use gaz_ids::Code;
use gaz_keeper::{Shelf, ShelfFault};
use gaz_records::{Item, Key, key_of};
use gaz_register::Register;

// Whether an item's number isn't the custodian's, in the view that is judged.
fn is_outside<K: Shelf>(
    keeper: &mut K,
    register: &Register,
    code: Code,
    item: &Item,
) -> Result<bool, ShelfFault>
    requires { IsJudging K.seen keeper.old code }
    ensures { ReadsView K.seen keeper.old keeper.new result (λ v b. is_entry item.now ≡ true
        → b ≡ is_outside (blocks_of register.now code) v item.now) }
{
    match item {
        Item::Street(street) => Ok(!register.allotted_usrn(code, street.usrn)),
        Item::Blpu(blpu) => Ok(!holds_number(keeper, register, code, blpu.uprn)?),
        _ => Ok(false),
    }
}

fn stays(item: &Item) -> bool
    ensures { result ≡ stays item.now }
{
    matches!(item, Item::Street(_) | Item::Blpu(_))
}

fn is_moved(old: &Item, new: &Item) -> bool
    ensures { result ≡ is_moved old.now new.now }
{
    match (old, new) {
        (Item::Lpi(old), Item::Lpi(new)) => new.uprn != old.uprn || new.lang != old.lang,
        (Item::Xref(old), Item::Xref(new)) => new.uprn != old.uprn,
        _ => false,
    }
}

// The least rule that an insert under this key breaks, its number being the custodian's own.
fn insert_breach<K: Shelf>(keeper: &mut K, code: Code, key: &Key) -> Result<Option<u8>, ShelfFault>
    requires { IsJudging K.seen keeper.old code }
    ensures { ReadsView K.seen keeper.old keeper.new result
        (λ view r. r ≡ insert_breach view key.now) }
{
    if keeper.ever(code, key)? {
        return Ok(Some(rule::USED_AGAIN));
    }
    Ok(None)
}

// The least rule that an update to this item breaks, its number being the custodian's own.
fn update_breach<K: Shelf>(
    keeper: &mut K,
    code: Code,
    key: &Key,
    item: &Item,
) -> Result<Option<u8>, ShelfFault>
    requires { IsJudging K.seen keeper.old code }
    ensures { ReadsView K.seen keeper.old keeper.new result
        (λ view r. r ≡ update_breach view key.now item.now) }
{
    let Some(old) = keeper.current(code, key)? else {
        return Ok(Some(rule::MISSING));
    };
    Ok(is_moved(&old, item).then_some(rule::MOVES_WHAT_STAYS))
}

// The least rule that a deletion of this item breaks, its number being the custodian's own.
fn delete_breach<K: Shelf>(
    keeper: &mut K,
    code: Code,
    key: &Key,
    item: &Item,
) -> Result<Option<u8>, ShelfFault>
    requires { IsJudging K.seen keeper.old code }
    ensures { ReadsView K.seen keeper.old keeper.new result
        (λ view r. r ≡ delete_breach view key.now item.now) }
{
    if !is_there(keeper, code, key)? {
        return Ok(Some(rule::MISSING));
    }
    Ok(stays(item).then_some(rule::TAKES_WHAT_STAYS))
}

// The least record rule that a change of an entry breaks, its number being the custodian's own.
fn action_breach<K: Shelf>(
    keeper: &mut K,
    code: Code,
    change: &Change,
) -> Result<Option<u8>, ShelfFault>
    requires { IsJudging K.seen keeper.old code }
    ensures { ReadsView K.seen keeper.old keeper.new result (λ view r.
        (own : Blocks) (others : List (ℕ × View)) → is_entry change.now.item ≡ true
        → is_outside own view change.now.item ≡ false
        → r ≡ first_broken (record_rules code own others view change.now.action change.now.item)) }
{
    let key = key_of(&change.item);
    match change.action {
        Action::Insert => insert_breach(keeper, code, &key),
        Action::Update => update_breach(keeper, code, &key, &change.item),
        Action::Delete => delete_breach(keeper, code, &key, &change.item),
    }
}

// The least record rule that a change of an entry breaks.
fn entry_breach<K: Shelf>(
    keeper: &mut K,
    register: &Register,
    code: Code,
    change: &Change,
) -> Result<Option<u8>, ShelfFault>
    requires { IsJudging K.seen keeper.old code }
    ensures { ReadsView K.seen keeper.old keeper.new result (λ view r.
        (others : List (ℕ × View)) → is_entry change.now.item ≡ true
        → r ≡ first_broken (record_rules code (blocks_of register.now code) others view
        change.now.action change.now.item)) }
{
    if is_outside(keeper, register, code, &change.item)? {
        return Ok(Some(rule::OUTSIDE));
    }
    action_breach(keeper, code, change)
}

/// The least record rule that a change breaks on the working view of its custodian, 20 to 24 and 40
/// to 42 (our profile).
pub(crate) fn breach<K: Shelf>(
    keeper: &mut K,
    register: &Register,
    code: Code,
    bases: &[Basis],
    change: &Change,
) -> Result<Option<u8>, ShelfFault>
    requires { IsJudging K.seen keeper.old code }
    ensures { ReadsViews K.seen keeper.old keeper.new result bases.now (λ view others r.
        r ≡ first_broken (record_rules code (blocks_of register.now code) others view
        change.now.action change.now.item)) }
{
    match change.item.as_item() {
        Item::Release(release) => release_breach(keeper, register, code, release),
        Item::Adopt(adopt) => adopt_breach(keeper, code, bases, adopt),
        _ => entry_breach(keeper, register, code, change),
    }
}
