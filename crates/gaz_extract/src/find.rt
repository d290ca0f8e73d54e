//! Single items and properties of a custodian's last view.
ghost use Rattle.std.specs.Prelude.{◌≡◌, is_some};
ghost use Rattle.std.specs.FinMap as map;
ghost use Rattle.std.specs.Option.{option_and_then};
ghost use Rattle.gaz_views.specs.Words.{property_of};
ghost use Rattle.gaz_extract.specs.Finding.{as_descriptor, descriptor_at};
ghost use Rattle.gaz_extract.specs.Finding.{is_closed, street_at};
ghost use Rattle.gaz_extract.specs.Readings.{LooksAtLast};
ghost use Rattle.gaz_keeper.specs.Telling.{IsNotJudging};

use crate::lend::street_in;
use gaz_ids::{Code, Lang, Uprn, Usrn};
use gaz_keeper::{Property, Shelf, ShelfFault};
use gaz_records::{Key, SharedItem};

// The item at a key.
fn item_now<K: Shelf>(
    keeper: &mut K,
    code: Code,
    key: &Key,
) -> Result<Option<SharedItem>, ShelfFault>
    requires { IsNotJudging K.seen keeper.old }
    ensures tells { LooksAtLast K.seen keeper.old keeper.new result code
        (λ view i. i ≡ map.get view.items key.now) }
    ensures not_open { IsNotJudging K.seen keeper.new }
{
    keeper.current(code, key)
}

/// Whether the street of this number is there, in a custodian's last view.
pub fn has_street<K: Shelf>(keeper: &mut K, code: Code, usrn: Usrn) -> Result<bool, ShelfFault>
    requires { IsNotJudging K.seen keeper.old }
    ensures tells { LooksAtLast K.seen keeper.old keeper.new result code
        (λ view b. b ≡ is_some (street_at view usrn)) }
    ensures not_open { IsNotJudging K.seen keeper.new }
{
    let item = item_now(keeper, code, &Key::Street(usrn))?;
    Ok(street_in(&item).is_some())
}

/// Whether the street of this number is there and closed, in a custodian's last view.
pub fn has_closed_street<K: Shelf>(
    keeper: &mut K,
    code: Code,
    usrn: Usrn,
) -> Result<bool, ShelfFault>
    requires { IsNotJudging K.seen keeper.old }
    ensures tells { LooksAtLast K.seen keeper.old keeper.new result code
        (λ view b. b ≡ is_closed view usrn) }
    ensures not_open { IsNotJudging K.seen keeper.new }
{
    let item = item_now(keeper, code, &Key::Street(usrn))?;
    match street_in(&item) {
        Some(street) => Ok(street.end.is_some()),
        None => Ok(false),
    }
}

/// The item that is the descriptor of a street in a language, in a custodian's last view.
pub fn descriptor_item<K: Shelf>(
    keeper: &mut K,
    code: Code,
    usrn: Usrn,
    lang: Lang,
) -> Result<Option<SharedItem>, ShelfFault>
    requires { IsNotJudging K.seen keeper.old }
    ensures tells { LooksAtLast K.seen keeper.old keeper.new result code
        (λ view i. option_and_then as_descriptor i ≡ descriptor_at view usrn lang) }
    ensures not_open { IsNotJudging K.seen keeper.new }
{
    item_now(keeper, code, &Key::Descriptor(usrn, lang))
}

/// The property of this number with its address, in a custodian's last view.
pub fn property_now<K: Shelf>(
    keeper: &mut K,
    code: Code,
    uprn: Uprn,
) -> Result<Option<Property>, ShelfFault>
    requires { IsNotJudging K.seen keeper.old }
    ensures tells { LooksAtLast K.seen keeper.old keeper.new result code
        (λ view p. p ≡ property_of view uprn) }
    ensures not_open { IsNotJudging K.seen keeper.new }
{
    keeper.property_of(code, uprn)
}
