//! Received files that are brought to hand.
ghost use Rattle.std.specs.Prelude.{◌≡◌, IsSome, OnOk};
ghost use Rattle.std.specs.FinMap as map;
ghost use Rattle.gaz_keeper.specs.Keeper.{Idle, IsNew, with_received};
ghost use Rattle.gaz_shelf.specs.Mem.{content_in, seen_in};
ghost use Rattle.gaz_loaded.specs.Files.{AreThere, Copies, OnlyReads};

use crate::entering::enter;
use gaz_ids::{Code, Volume};
use gaz_keeper::{Inbox, ShelfFault};
use gaz_shelf::MemShelf;

// Receives a file at hand. A fault where one is there under its pair.
fn copy_bytes(
    shelf: &mut MemShelf,
    code: Code,
    volume: Volume,
    bytes: &[u8],
) -> Result<(), ShelfFault>
    requires { (seen_in shelf.old).progress ≡ Idle }
    ensures idle { OnOk result ((seen_in shelf.new).progress ≡ Idle) }
    ensures received { OnOk result (IsNew (content_in shelf.old) code volume
        × (content_in shelf.new ≡ with_received (content_in shelf.old) code volume bytes.now)) }
{
    if shelf.received(code, volume)?.is_some() {
        return Err(ShelfFault::Memory);
    }
    shelf.receive(code, volume, bytes)
}

// A file that was received, and what became of it. A fault where there is none, or where it is at
// hand.
fn copy_volume<L: Inbox>(
    lower: &mut L,
    shelf: &mut MemShelf,
    code: Code,
    volume: Volume,
) -> Result<(), ShelfFault>
    requires { (seen_in shelf.old).progress ≡ Idle }
    ensures reads { OnlyReads (L.seen lower.old) (L.seen lower.new) }
    ensures idle { OnOk result ((seen_in shelf.new).progress ≡ Idle) }
    ensures copies { OnOk result (Copies code (L.seen lower.old) (L.seen lower.new)
        (content_in shelf.old) (content_in shelf.new)) }
    ensures there { OnOk result
        (IsSome (map.get (content_in shelf.new).files (code, volume))) }
{
    let Some(bytes) = lower.received(code, volume)? else {
        return Err(ShelfFault::Memory);
    };
    copy_bytes(shelf, code, volume, &bytes)?;
    match lower.verdict(code, volume)? {
        Some(verdict) => enter(shelf, code, volume, verdict),
        None => Ok(()),
    }
}

/// The files of these volumes, and what became of them.
pub(crate) fn copy_volumes<L: Inbox>(
    lower: &mut L,
    shelf: &mut MemShelf,
    code: Code,
    volumes: &[Volume],
) -> Result<(), ShelfFault>
    requires { (seen_in shelf.old).progress ≡ Idle }
    ensures reads { OnlyReads (L.seen lower.old) (L.seen lower.new) }
    ensures idle { OnOk result ((seen_in shelf.new).progress ≡ Idle) }
    ensures copies { OnOk result (Copies code (L.seen lower.old) (L.seen lower.new)
        (content_in shelf.old) (content_in shelf.new)) }
    ensures there { OnOk result (AreThere code volumes.now (content_in shelf.new).files) }
{
    for volume in volumes {
        copy_volume(lower, shelf, code, *volume)?;
    }
    Ok(())
}
