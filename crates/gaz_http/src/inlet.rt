ghost use Rattle.std.specs.Prelude.{◌≡◌, ◌≤◌, ◌<◌, ◌++◌, ◌+◌, ◌-◌, ℕ, List, [], length, take, drop};
ghost use Rattle.std.specs.Prelude.{MatchResult, OnErr};
ghost use Rattle.std.specs.Io.KnownBytes.{Consumes, IsAtEnd, Keeps};
ghost use Rattle.gaz_http.specs.Heads.{inlet_size};

use crate::heads::HEAD_LIMIT;
use crate::source::Source;
use std::io;
use std::marker::Model;

/// The bytes that a head may have, and one more, which shows that it has too many.
pub const INLET_SIZE: usize = HEAD_LIMIT + 1;

/// Bytes that were read and not yet used, at most 8,193 of them.
#[derive(Drop)]
pub struct Inlet {
    bytes: [u8; INLET_SIZE],
    start: usize,
    end: usize,
}

impl Model for Inlet {
    ghost Value = { List ℕ };

    ghost view = { λ b. drop b.start (take b.end b.bytes) };

    ghost invariant = { λ b. (b.start ≤ b.end) × (b.end ≤ inlet_size) };
}

// Moves a part to the front.
fn move_to_front(bytes: &mut [u8; INLET_SIZE], start: usize, end: usize)
    requires { (start ≤ end) × (end ≤ inlet_size) }
    ensures part { take (end - start) bytes.new ≡ drop start (take end bytes.old) }
    ensures length { length bytes.new ≡ inlet_size }
{
    bytes.copy_within(start..end, 0);
}

impl Inlet {
    /// Nothing read yet.
    pub fn new() -> Self
        ensures { result ≡ [] }
    {
        Inlet {
            bytes: [0; INLET_SIZE],
            start: 0,
            end: 0,
        }
    }

    /// The bytes.
    pub fn pending(&self) -> &[u8]
        ensures pending { result.now ≡ self.now }
        ensures short { length self.now ≤ inlet_size }
    {
        &self.bytes[self.start..self.end]
    }

    /// Uses the first `count` bytes up.
    pub fn take(&mut self, count: usize)
        requires { count ≤ length self.old }
        ensures { self.new ≡ drop count self.old }
    {
        self.start += count;
    }

    /// Reads once. No bytes come only at the end of the input.
    pub fn fill<R: Source>(&mut self, r: &mut R) -> io::Result<usize>
        requires { length self.old < inlet_size }
        ensures read { MatchResult result
            (λ n. (bs : List ℕ) × Consumes (R.remaining r.old) (R.remaining r.new) bs
            × (self.new ≡ self.old ++ bs) × (length bs ≡ n) × (n ≡ 0 → IsAtEnd (R.remaining r.new)))
            (λ _. Keeps (R.remaining r.old) (R.remaining r.new) × (self.new ≡ self.old)) }
        ensures counted { R.reads r.new ≤ R.reads r.old + 1 }
        ensures told { OnErr result (R.failed r.old r.new) }
    {
        move_to_front(&mut self.bytes, self.start, self.end);
        self.end -= self.start;
        self.start = 0;
        let n = r.read_once(&mut self.bytes[self.end..])?;
        self.end += n;
        Ok(n)
    }
}
