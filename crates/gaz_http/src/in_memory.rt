ghost use Rattle.std.specs.Prelude.{◌≡◌, Some};

use crate::source::Source;
use std::io;

/// Bytes in memory as what is read from: no read of them fails.
#[derive(Drop)]
pub struct InMemory<'a> {
    bytes: &'a [u8],
}

impl<'a> InMemory<'a> {
    /// Over these bytes.
    pub fn new(bytes: &'a [u8]) -> Self
        ensures { result.bytes.now ≡ bytes.now }
    {
        InMemory { bytes }
    }
}

impl Source for InMemory<'_> {
    ghost remaining = { λ source. Some source.bytes.now };

    ghost reads = { λ _. 0 };

    ghost failed = { λ _ _. ⊥ };

    fn read_once(&mut self, buf: &mut [u8]) -> io::Result<usize> {
        let count = self.bytes.len().min(buf.len());
        buf[..count].copy_from_slice(&self.bytes[..count]);
        self.bytes = &self.bytes[count..];
        Ok(count)
    }
}
