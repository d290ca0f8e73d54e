ghost use Rattle.std.specs.Prelude.{◌+◌, ◌≤◌, ⊤, ℕ, List, Option, OnErr};
ghost use Rattle.std.specs.Io.{ReadsAtMost};
ghost use Rattle.std.specs.Io.KnownBytes.{ReadConsumes};

use std::io;
use std::io::Read;

/// What bytes are read from, one read at a time.
pub trait Source {
    // The bytes that reads will give from here on, where they are known.
    ghost remaining: { Self → Option (List ℕ) };

    // How often it was read, where that is counted: a read adds at most one.
    ghost reads: { Self → ℕ };

    // A read that led from the one to the other failed. Where this never holds no read can fail.
    ghost failed: { Self → Self → Type 0 };

    /// Reads once into `buf`, as `Read::read` does.
    fn read_once(&mut self, buf: &mut [u8]) -> io::Result<usize>
        ensures bound { ReadsAtMost result buf.new }
        ensures bytes { ReadConsumes (remaining self.old) (remaining self.new) result buf.new }
        ensures counted { reads self.new ≤ reads self.old + 1 }
        ensures told { OnErr result (failed self.old self.new) };
}

// Nothing counts the reads of std's readers, and any of them may fail.
impl<R: Read> Source for R {
    ghost remaining = { R.remaining };

    ghost reads = { λ _. 0 };

    ghost failed = { λ _ _. ⊤ };

    fn read_once(&mut self, buf: &mut [u8]) -> io::Result<usize> {
        self.read(buf)
    }
}
