//! What a custodian's next volume is, and what it waits for.
ghost use Rattle.std.specs.Prelude.{◌≡◌, ◌+◌};
ghost use Rattle.gaz_changefile.specs.Reading.{Bad, Good};
ghost use Rattle.gaz_keeper.specs.Board.{reached};
ghost use Rattle.gaz_hub.specs.Settling.{IsNext, IsNextFile, IsReadAs, IsWeighed, want_of};
ghost use Rattle.gaz_steps.specs.Outcomes.{first_unreached, wants};
ghost use Rattle.gaz_extract.specs.Readings.{LooksAtBoard};
ghost use Rattle.gaz_hub.specs.Telling.{LooksAtKept};
ghost use Rattle.gaz_hub.specs.Waiting.{IsSo};

use gaz_changefile::{Basis, ChangeFile, FileFault, read_file};
use gaz_ids::{Code, LAST_VOLUME, Volume};
use gaz_keeper::{Inbox, Shelf, ShelfFault};
use std::alloc::Global;

// A custodian's next volume.
#[derive(Drop)]
enum NextFile {
    // The last volume that there can be is judged.
    Past,
    // It wasn't received.
    Missing(Volume),
    // It has these bytes.
    Here(Volume, Vec<u8>),
}

/// What is to become of a custodian's next volume.
#[derive(Drop)]
pub enum Next {
    /// It is ready: a good file as this volume.
    Good(Volume, ChangeFile),
    /// It is ready: a file with this first fault, as this volume.
    Bad {
        volume: Volume,
        place: u64,
        rule: u8,
    },
    /// It waits for this custodian's volume.
    Waits(Code, Volume),
    /// There is none.
    Done,
}

impl Next {
    // The volume that it waits for, if any.
    fn wanted(&self) -> Option<(Code, Volume)>
        ensures { result ≡ want_of self.now }
    {
        match self {
            Next::Waits(custodian, volume) => Some((*custodian, *volume)),
            Next::Good(..) | Next::Bad { .. } | Next::Done => None,
        }
    }
}

// The next volume of a custodian, and its bytes where it was received.
fn next_file<K: Inbox>(keeper: &mut K, code: Code) -> Result<NextFile, ShelfFault>
    ensures { LooksAtKept K.seen keeper.old keeper.new result
        (λ files board. IsNextFile files board code) }
{
    let reached = keeper.reached(code)?;
    if reached >= LAST_VOLUME {
        return Ok(NextFile::Past);
    }
    let Some(volume) = Volume::of(reached + 1) else {
        return Ok(NextFile::Past);
    };
    match keeper.received(code, volume)? {
        Some(bytes) => Ok(NextFile::Here(volume, bytes)),
        None => Ok(NextFile::Missing(volume)),
    }
}

// The first basis line whose volume isn't reached.
fn first_unreached<K: Shelf>(keeper: &mut K, bases: &[Basis]) -> Result<Option<Basis>, ShelfFault>
    ensures { LooksAtBoard K.seen keeper.old keeper.new result
        (λ board basis. basis ≡ first_unreached board bases.now) }
{
    for basis in bases {
        if keeper.reached(basis.custodian)? < basis.volume.number() {
            return Ok(Some(*basis));
        }
    }
    Ok(None)
}

// What is to become of a good file that came as this volume.
fn weigh<K: Shelf>(keeper: &mut K, volume: Volume, file: ChangeFile) -> Result<Next, ShelfFault>
    ensures { LooksAtBoard K.seen keeper.old keeper.new result
        (λ board. IsWeighed board volume file) }
{
    match first_unreached(keeper, &file.bases)? {
        Some(basis) => Ok(Next::Waits(basis.custodian, basis.volume)),
        None => Ok(Next::Good(volume, file)),
    }
}

/// What is to become of a file of these bytes.
// A reader of CSV takes 32 KiB of the stack, which no look without a file should touch.
#[inline(never)]
fn read_next<K: Shelf>(
    alloc: Global,
    keeper: &mut K,
    code: Code,
    volume: Volume,
    bytes: &[u8],
) -> Result<Next, ShelfFault>
    ensures { LooksAtBoard K.seen keeper.old keeper.new result
        (λ board. IsReadAs board code volume bytes.now) }
{
    match read_file(alloc, bytes, code, volume) {
        Ok(file) => weigh(keeper, volume, file),
        Err(FileFault::Bad { place, rule }) => Ok(Next::Bad {
            volume,
            place,
            rule,
        }),
        Err(FileFault::Memory) => Err(ShelfFault::Memory),
    }
}

/// What is to become of a custodian's next volume.
pub fn look<K: Inbox>(alloc: Global, keeper: &mut K, code: Code) -> Result<Next, ShelfFault>
    ensures { LooksAtKept K.seen keeper.old keeper.new result
        (λ files board. IsNext files board code) }
{
    match next_file(keeper, code)? {
        NextFile::Past => Ok(Next::Done),
        NextFile::Missing(volume) => Ok(Next::Waits(code, volume)),
        NextFile::Here(volume, bytes) => read_next(alloc, keeper, code, volume, &bytes),
    }
}

// What a custodian's next volume waits for; nothing where it is ready, or after volume 999,999.
fn wants<K: Inbox>(
    alloc: Global,
    keeper: &mut K,
    code: Code,
) -> Result<Option<(Code, Volume)>, ShelfFault>
    ensures { LooksAtKept K.seen keeper.old keeper.new result
        (λ files board w. w ≡ wants files board code) }
{
    let next = look(alloc, keeper, code)?;
    Ok(next.wanted())
}

/// What a custodian's next volume waits for, where what is known of it is so. Where nothing is, its
/// file is read.
pub fn wants_as_known<K: Inbox>(
    alloc: Global,
    keeper: &mut K,
    code: Code,
    known: Option<(Code, Volume)>,
) -> Result<Option<(Code, Volume)>, ShelfFault>
    ensures { LooksAtKept K.seen keeper.old keeper.new result
        (λ files board w. IsSo files board code known → w ≡ wants files board code) }
{
    match known {
        Some(wanted) => Ok(Some(wanted)),
        None => wants(alloc, keeper, code),
    }
}
