ghost use Rattle.std.specs.Prelude.{◌≡◌, ⊤, ℕ, List, Option, OnErr, false};
ghost use Rattle.std.specs.Io.{WritesAtMost};
ghost use Rattle.std.specs.Io.KnownBytes.{Keeps, WriteAppends};
ghost use Rattle.gaz_http.specs.Failing.{FailedInto, IfNotTaken};
ghost use Rattle.gaz_http.specs.Writing.{IsPut};

use std::io;
use std::io::Write;

/// What bytes are written to, one write at a time.
pub trait Sink {
    // The bytes that it holds, where they are known.
    ghost contents: { Self → Option (List ℕ) };

    // A write or a flush that led from the one to the other failed, or a write took nothing of what
    // it was given. Where this never holds none can fail.
    ghost failed: { Self → Self → Type 0 };

    /// Writes a front of the text, as `Write::write` does.
    fn write_once(&mut self, text: &[u8]) -> io::Result<usize>
        ensures bound { WritesAtMost result text.now }
        ensures bytes { WriteAppends (contents self.old) (contents self.new) result text.now }
        ensures told { IfNotTaken result text.now (failed self.old self.new) };

    /// Hands on what it holds back, as `Write::flush` does.
    fn flush_once(&mut self) -> io::Result<()>
        ensures bytes { Keeps (contents self.old) (contents self.new) }
        ensures told { OnErr result (failed self.old self.new) };
}

// Any of std's writers may fail.
impl<W: Write> Sink for W {
    ghost contents = { W.contents };

    ghost failed = { λ _ _. ⊤ };

    fn write_once(&mut self, text: &[u8]) -> io::Result<usize> {
        self.write(text)
    }

    fn flush_once(&mut self) -> io::Result<()> {
        self.flush()
    }
}

/// Writes the text. At `false` the writer failed, or took nothing, and perhaps a front of the text
/// is written, but not all.
pub fn write_all<W: Sink>(w: &mut W, text: &[u8]) -> bool
    ensures put { IsPut (W.contents w.old) (W.contents w.new) text.now result }
    ensures failed { result ≡ false → FailedInto W.failed w.new }
{
    let mut at = 0;
    'writes: while at < text.len() {
        let Ok(n) = w.write_once(&text[at..]) else {
            return false;
        };
        if n == 0 {
            return false;
        }
        at += n;
    }
    true
}
