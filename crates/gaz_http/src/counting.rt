ghost use Rattle.std.specs.Prelude.{◌≡◌, ◌+◌, ◌-◌, ◌^◌, ◌≤◌, min, OnErr};
ghost use Rattle.std.specs.Io.{ReadsAtMost};
ghost use Rattle.std.specs.Io.KnownBytes.{ReadConsumes};

use crate::source::Source;
use std::io;

/// A reader whose reads are counted, up to 18,446,744,073,709,551,615 of them.
#[derive(Drop)]
pub struct Counting<R: Source> {
    pub reader: R,
    pub reads: u64,
}

impl<R: Source> Counting<R> {
    /// A reader of which no read is counted yet.
    pub fn new(reader: R) -> Self
        ensures { result ≡ record { reader = reader; reads = 0 } }
    {
        Counting { reader, reads: 0 }
    }
}

impl<R: Source> Source for Counting<R> {
    ghost remaining = { λ counting. R.remaining counting.reader };

    ghost reads = { λ counting. counting.reads };

    ghost failed = { λ old new. R.failed old.reader new.reader };

    /// Reads the reader once, and counts one read, or none behind the greatest number.
    fn read_once(&mut self, buf: &mut [u8]) -> io::Result<usize>
        ensures bound { ReadsAtMost result buf.new }
        ensures bytes { ReadConsumes (R.remaining self.old.reader) (R.remaining self.new.reader)
            result buf.new }
        ensures counted { self.new.reads ≤ self.old.reads + 1 }
        ensures told { OnErr result (R.failed self.old.reader self.new.reader) }
        ensures counts { self.new.reads ≡ min (self.old.reads + 1) (2 ^ 64 - 1) }
        ensures once { R.reads self.new.reader ≤ R.reads self.old.reader + 1 }
    {
        self.reads = self.reads.saturating_add(1);
        self.reader.read_once(buf)
    }
}
