//! A disk in memory.
ghost use Rattle.std.specs.Prelude.{◌≡◌, [], false, is_ok, refl, true};
ghost use Rattle.sqlite_disk.specs.Disk.{CountsFault};
ghost use Rattle.sqlite_disk.specs.Refusal.{finds_no_room};

use crate::changes::{overwrite, resize};
use sqlite_disk::{Disk, Tally, digest_of};
use std::alloc::{AllocError, Global};
use std::io;

/// A file in memory whose sync copies nothing.
///
/// A read within the file gives its bytes, and one beyond its end fails. A write puts its bytes in
/// their place and changes no other; where it begins behind the end, zeros fill what lies between.
/// A new length cuts the file, or adds zeros. A write and a greater length fail for want of memory
/// alone, which is counted. The file goes with the process, so a crash leaves what a read gives,
/// and a sync has nothing to do.
#[derive(Drop)]
pub struct QuietDisk {
    bytes: Vec<u8>,
    faults: u64,
    caught: u64,
}

impl QuietDisk {
    /// An empty file.
    pub fn new(alloc: Global) -> QuietDisk
        ensures { result.bytes.items ≡ [] }
    {
        QuietDisk {
            bytes: Vec::new(alloc),
            faults: 0,
            caught: 0,
        }
    }
}

impl Disk for QuietDisk {
    ghost seen = { λ d. d.bytes.items };

    ghost may_leave = { λ d left. left ≡ d.bytes.items };

    ghost is_usable = { λ _. true };

    ghost faults = { λ d. d.faults };

    ghost is_clean = { λ _. true };

    ghost tally_of = { λ d. record { caught = d.caught; refused = 0 } };

    ghost key_of = { λ _. 0 };

    ghost is_fair = { λ _ _. true };

    ghost fair_if_clean = { λ _ _ _. refl };

    ghost seen_may_stay = { λ _. refl };

    fn mixes(&self) -> bool {
        false
    }

    // It tells no lie, so it needs no secret.
    fn key(&self) -> u64 {
        0
    }

    fn tally(&self) -> Tally {
        Tally {
            caught: self.caught,
            refused: 0,
        }
    }

    fn may_be_used(&self) -> bool {
        true
    }

    fn len(&mut self) -> io::Result<usize> {
        Ok(self.bytes.len())
    }

    fn read_at(&mut self, at: usize, buf: &mut [u8]) -> io::Result<()> {
        if at > self.bytes.len() || buf.len() > self.bytes.len() - at {
            return Err(io::ErrorKind::UnexpectedEof.into());
        }
        buf.copy_from_slice(&self.bytes[at..at + buf.len()]);
        Ok(())
    }

    fn read_checked(&mut self, key: u64, want: u64, at: usize, buf: &mut [u8]) -> io::Result<()> {
        self.read_at(at, buf)?;
        if digest_of(key, buf) != want {
            self.faults = self.faults.saturating_add(1);
            self.caught = self.caught.saturating_add(1);
            return Err(io::ErrorKind::InvalidData.into());
        }
        Ok(())
    }

    fn write_at(&mut self, at: usize, bytes: &[u8]) -> io::Result<()> {
        count(overwrite(&mut self.bytes, at, bytes), &mut self.faults)
    }

    fn set_len(&mut self, len: usize) -> io::Result<()> {
        count(resize(&mut self.bytes, len), &mut self.faults)
    }

    fn sync(&mut self) -> io::Result<()> {
        Ok(())
    }
}

// The outcome of a write, counted where it found no memory.
fn count(outcome: Result<(), AllocError>, faults: &mut u64) -> io::Result<()>
    ensures variant { is_ok result ≡ is_ok outcome }
    ensures kind { finds_no_room result ≡ false }
    ensures faults { CountsFault result faults.old faults.new }
{
    if outcome.is_err() {
        *faults = faults.saturating_add(1);
        return Err(io::ErrorKind::OutOfMemory.into());
    }
    Ok(())
}
