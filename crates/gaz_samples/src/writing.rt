//! Writing over any keeper.
ghost use Rattle.std.specs.Prelude.{◌≡◌, ◌≢◌, [], true};
ghost use Rattle.std.specs.List.{list_all};
ghost use Rattle.gaz_records.specs.Items.{is_entry};
ghost use Rattle.gaz_keeper.specs.Keeper.{Idle, IsNotOpen, Refuses};
ghost use Rattle.gaz_samples.specs.Writing.{PutsAll, Writes};

use gaz_ids::Code;
use gaz_keeper::{Shelf, ShelfFault};
use gaz_records::SharedItem;

/// How a judgement is to end.
#[derive(Clone, Copy)]
pub enum Conclusion {
    /// The volume is applied.
    Keep,
    /// The board stays as it was.
    Abandon,
}

/// Whether each of these items is an entry, and so may stand in a view.
pub fn are_entries(items: &[SharedItem]) -> bool
    ensures { result ≡ list_all is_entry items.now }
{
    items.iter().all(|item| item.is_entry())
}

/// Sets these items, each an entry, in the working view, one after another, up to a fault.
pub fn put_all<S: Shelf>(keeper: &mut S, items: Vec<SharedItem>) -> Result<(), ShelfFault>
    requires begun { (S.seen keeper.old).progress ≢ Idle }
    requires entries { list_all is_entry items.items ≡ true }
    ensures sets { PutsAll S.seen keeper.old keeper.new result items.items }
    ensures refuses { items.items ≢ [] → Refuses (S.seen keeper.old) result }
{
    for item in items {
        keeper.put(item)?;
    }
    Ok(())
}

/// Sets these items, each an entry, on a custodian's last view, as its next volume, which is to be
/// at hand, and ends that judgement.
pub fn write_volume<S: Shelf>(
    keeper: &mut S,
    code: Code,
    items: Vec<SharedItem>,
    ending: Conclusion,
) -> Result<(), ShelfFault>
    requires idle { IsNotOpen (S.seen keeper.old).progress }
    requires entries { list_all is_entry items.items ≡ true }
    ensures { Writes S.seen keeper.old keeper.new result code items.items ending }
{
    keeper.begin(code)?;
    put_all(keeper, items)?;
    match ending {
        Conclusion::Keep => keeper.keep(),
        Conclusion::Abandon => keeper.abandon(),
    }
}
