//! The end rules of a key, over any keeper.
ghost use Rattle.std.specs.Prelude.{◌≡◌, ◌||◌, true, IfNone, IfOk};
ghost use Rattle.std.specs.FinMap as map;
ghost use Rattle.gaz_records.specs.Keys.{key_of};
ghost use Rattle.gaz_end_rules.specs.Breaches.{answers, key_faults, numbered};
ghost use Rattle.gaz_end_rules.specs.EndRules.{end_rules};
ghost use Rattle.gaz_end_rules.specs.Knowing.{IsRight, Remembers, has_passed};
ghost use Rattle.gaz_end_rules.specs.Rings.{Knows};
ghost use Rattle.gaz_changefile.specs.Rules.{first_broken};
ghost use Rattle.gaz_end_rules.specs.Working.{IsJudging, ReadsView, ReadsViews};

use crate::blpu_faults::{blpu_faults, blpu_in, gone_faults};
use crate::key_faults::{KeyFaults, descriptor_faults, street_faults};
use crate::known::Known;
use crate::name_faults::{NameFaults, name_faults};
use crate::rings::Walked;
use crate::rule;
use gaz_changefile::Basis;
use gaz_ids::Code;
use gaz_keeper::{Shelf, ShelfFault};
use gaz_records::{Item, Key, SharedItem, key_of};

/// An end rule that was asked, and whether it is broken.
#[derive(Clone, Copy)]
struct Asked {
    rule: u8,
    is_broken: bool,
}

impl Asked {
    fn new(rule: u8, is_broken: bool) -> Asked
        ensures { result ≡ record { rule = rule; is_broken = is_broken } }
    {
        Asked { rule, is_broken }
    }

    // One that is broken in either of two ways.
    fn either(rule: u8, one: bool, other: bool) -> Asked
        ensures { result ≡ record { rule = rule; is_broken = one || other } }
    {
        Asked::new(rule, one || other)
    }
}

// The first of these rules that is broken.
fn first_broken(rules: &[Asked]) -> Option<u8>
    ensures { result ≡ first_broken (answers rules.now) }
{
    for asked in rules {
        if asked.is_broken {
            return Some(asked.rule);
        }
    }
    None
}

// The least rule that is broken.
fn least(names: NameFaults, keys: KeyFaults) -> Option<u8>
    ensures { result ≡ first_broken (numbered names keys) }
{
    let rules = [
        Asked::new(rule::SECOND, names.is_second),
        Asked::either(rule::UNTIED, names.lacks_blpu, keys.leaves_ties),
        Asked::new(rule::LACKS_STREET, names.lacks_street),
        Asked::new(rule::NAMES_CLOSED, names.names_closed),
        Asked::either(rule::UNNAMED, names.lacks_descriptor, keys.leaves_lpi),
        Asked::either(rule::APART, keys.lacks_parent, keys.leaves_parts),
        Asked::new(rule::OWN_ANCESTOR, keys.is_own_ancestor),
        Asked::either(rule::OUT_OF_DATE, names.names_past, keys.past_under_lpi),
        Asked::new(rule::LACKS_OWN_STREET, keys.lacks_own_street),
        Asked::new(rule::CLOSED_UNDER_LPI, keys.closed_under_lpi),
    ];
    first_broken(&rules)
}

// What a key breaks under which this stands.
fn key_faults<K: Shelf>(
    keeper: &mut K,
    code: Code,
    walked: &mut Walked,
    key: &Key,
    stored: &Option<SharedItem>,
) -> Result<KeyFaults, ShelfFault>
    requires { IsJudging K.seen keeper.old code }
    ensures { ReadsView K.seen keeper.old keeper.new result
        (λ v f. stored.now ≡ map.get v.items key.now → Knows v walked.old
        → Knows v walked.new × (f ≡ key_faults v key.now)) }
{
    match key {
        Key::Street(usrn) => street_faults(keeper, code, *usrn, stored),
        Key::Descriptor(usrn, lang) => descriptor_faults(keeper, code, *usrn, *lang, stored),
        Key::Blpu(uprn) => {
            let Some(blpu) = blpu_in(stored) else {
                return gone_faults(keeper, code, *uprn, stored);
            };
            blpu_faults(keeper, code, walked, *uprn, blpu)
        }
        Key::Xref(_) | Key::Lpi(_) => Ok(KeyFaults::none()),
    }
}

// The least end rule that a key breaks under which this stands.
fn breach_at<K: Shelf>(
    keeper: &mut K,
    code: Code,
    bases: &[Basis],
    known: &mut Known,
    key: &Key,
    stored: &Option<SharedItem>,
) -> Result<Option<u8>, ShelfFault>
    requires { IsJudging K.seen keeper.old code }
    ensures broken { ReadsViews K.seen keeper.old keeper.new result bases.now (λ view others r.
        stored.now ≡ map.get view.items key.now → Remembers view others known.old
        → Remembers view others known.new
        × (r ≡ first_broken (end_rules view others key.now))) }
    ensures passed { known.new.passed ≡ known.old.passed }
{
    let names = name_faults(keeper, code, bases, &mut known.street, key, stored)?;
    let keys = key_faults(keeper, code, &mut known.walked, key, stored)?;
    Ok(least(names, keys))
}

// The least end rule that a key breaks.
fn breach_of<K: Shelf>(
    keeper: &mut K,
    code: Code,
    bases: &[Basis],
    known: &mut Known,
    key: &Key,
) -> Result<Option<u8>, ShelfFault>
    requires { IsJudging K.seen keeper.old code }
    ensures broken { ReadsViews K.seen keeper.old keeper.new result bases.now (λ view others r.
        Remembers view others known.old
        → Remembers view others known.new
        × (r ≡ first_broken (end_rules view others key.now))) }
    ensures passed { known.new.passed ≡ known.old.passed }
{
    let stored = keeper.current(code, key)?;
    Ok(breach_at(keeper, code, bases, known, key, &stored)?)
}

/// The least end rule that the key of an item breaks, 30 to 39 (our profile), in the view that is
/// judged, where what is known is right of it and of the views that the bases name. A key that
/// broke none isn't asked again. What is known stays right as long as no rule is broken; after a
/// fault, `Memory` or `Store`, nothing is said of it.
pub fn breach<K: Shelf>(
    keeper: &mut K,
    code: Code,
    bases: &[Basis],
    known: &mut Known,
    item: &Item,
) -> Result<Option<u8>, ShelfFault>
    requires { IsJudging K.seen keeper.old code }
    ensures broken { ReadsViews K.seen keeper.old keeper.new result bases.now (λ view others r.
        IsRight view others known.old
        → IfNone r (IsRight view others known.new)
        × (r ≡ first_broken (end_rules view others (key_of item.now)))) }
    ensures passed { IfOk result (λ r.
        IfNone r (has_passed known.new.passed (key_of item.now) ≡ true)) }
{
    let key = key_of(item);
    let is_new = known.passed.add(&key)?;
    if !is_new {
        return Ok(None);
    }
    Ok(breach_of(keeper, code, bases, known, &key)?)
}
