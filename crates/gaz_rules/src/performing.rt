//! What a change does to the working view, over any keeper.
ghost use Rattle.std.specs.Prelude.{◌≡◌, true};
ghost use Rattle.gaz_records.specs.Items.{is_entry};
ghost use Rattle.gaz_views.specs.View.{with_adoption, with_item};
ghost use Rattle.gaz_rules.specs.Rules.{effect, entry_effect};
ghost use Rattle.gaz_end_rules.specs.Working.{IsJudging};
ghost use Rattle.gaz_rules.specs.Working.{MakesView};

use crate::adopting::item_of;
use gaz_changefile::{Action, Change};
use gaz_ids::Code;
use gaz_keeper::{Shelf, ShelfFault};
use gaz_records::{Adopt, Item, SharedItem, key_of};
use std::alloc::Global;

// Sets an item in the working view, which shares it with the file.
fn put_shared<K: Shelf>(keeper: &mut K, code: Code, item: &SharedItem) -> Result<(), ShelfFault>
    requires judging { IsJudging K.seen keeper.old code }
    requires entry { is_entry item.now ≡ true }
    ensures { MakesView K.seen keeper.old keeper.new result (λ v. with_item v item.now) }
{
    let shared = item.share()?;
    keeper.put(shared)
}

// Does a change of an entry on the working view.
fn enter<K: Shelf>(keeper: &mut K, code: Code, change: &Change) -> Result<(), ShelfFault>
    requires judging { IsJudging K.seen keeper.old code }
    requires entry { is_entry change.now.item ≡ true }
    ensures { MakesView K.seen keeper.old keeper.new result
        (λ v. entry_effect change.now.action v change.now.item) }
{
    match change.action {
        Action::Insert | Action::Update => put_shared(keeper, code, &change.item),
        Action::Delete => keeper.take(&key_of(&change.item)),
    }
}

// Adopts a property in the working view.
fn adopt<K: Shelf>(
    alloc: Global,
    keeper: &mut K,
    code: Code,
    adoption: &Adopt,
) -> Result<(), ShelfFault>
    requires { IsJudging K.seen keeper.old code }
    ensures { MakesView K.seen keeper.old keeper.new result
        (λ v. with_adoption v adoption.now.blpu adoption.now.from adoption.now.hop) }
{
    let blpu = item_of(alloc, &adoption.blpu)?;
    keeper.adopt(blpu, adoption.from, adoption.hop)
}

/// Does a change on the working view.
pub(crate) fn perform<K: Shelf>(
    alloc: Global,
    keeper: &mut K,
    code: Code,
    change: &Change,
) -> Result<(), ShelfFault>
    requires { IsJudging K.seen keeper.old code }
    ensures { MakesView K.seen keeper.old keeper.new result (λ v. effect v change.now) }
{
    match change.item.as_item() {
        Item::Release(release) => keeper.release(release.uprn, release.to, release.hop),
        Item::Adopt(adoption) => adopt(alloc, keeper, code, adoption),
        _ => enter(keeper, code, change),
    }
}
