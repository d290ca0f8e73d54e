//! What holds of a keeper over two, whichever call of the upper one fails.
ghost use Rattle.std.specs.Prelude.{◌≡◌, Some, IfOk, option_map};
ghost use Rattle.gaz_keeper.specs.Keeper.{IsNew, IsNotOpen};

use crate::faulty::Faulty;
use gaz_ids::{Code, Volume};
use gaz_keeper::{Inbox, ShelfFault};
use gaz_mirror::Mirror;
use gaz_shelf::{MemShelf, Seed};
use std::alloc::Global;

/// A file that was received is found, whichever call of the upper keeper fails.
pub fn finds_what_it_received(
    alloc: Global,
    seed: Seed,
    fails_at: u64,
    code: Code,
    volume: Volume,
    bytes: &[u8],
) -> Result<Option<Vec<u8>>, ShelfFault>
    ensures { IfOk result (λ found. option_map (λ b. b.items) found ≡ Some bytes.now) }
{
    let upper = Faulty::new(MemShelf::new(alloc, seed), fails_at);
    let mut mirror = Mirror::with(alloc, MemShelf::new(alloc, seed), upper);
    receive_and_find(&mut mirror, code, volume, bytes)
}

// Over any keeper: a new file is received, and asked for at once.
fn receive_and_find<K: Inbox>(
    keeper: &mut K,
    code: Code,
    volume: Volume,
    bytes: &[u8],
) -> Result<Option<Vec<u8>>, ShelfFault>
    requires { IsNotOpen (K.seen keeper.old).progress }
    ensures { (K.seen keeper.old).stands → IsNew (K.seen keeper.old).content code volume
        → (K.seen keeper.new).unharmed
        → IfOk result (λ found. option_map (λ b. b.items) found ≡ Some bytes.now) }
{
    keeper.receive(code, volume, bytes)?;
    keeper.received(code, volume)
}
