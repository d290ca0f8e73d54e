//! Where peers come from, one after another.
ghost use Rattle.gaz_stored.specs.Meetings.{Left, Meeting, came};

use gaz_http::{Sink, Source};
use std::alloc::Global;

/// Where peers come from, one after another. What came of each is told, where that is known; of
/// those at a port of the system it isn't.
pub trait Peers {
    /// From this it is read what a peer says.
    type Reader: Source + Drop;

    /// To this it is written what a peer is told.
    type Writer: Sink + Drop;

    // This came from the one state to the other.
    ghost meets: { Self → Meeting → Self → Type 0 };

    /// The next peer; none where it can't be had.
    fn accept(&mut self, alloc: Global) -> Option<(Self::Reader, Self::Writer)>
        ensures { meets self.old
            (came Self.Reader.Source.remaining Self.Writer.Sink.contents result) self.new };

    /// Leaves a peer. Where the conversation was held to its end, it is told that no reply follows.
    fn leave(&mut self, reader: Self::Reader, writer: Self::Writer, is_whole: bool)
        ensures { meets self.old (Left (Self.Reader.Source.remaining reader)
            (Self.Writer.Sink.contents writer) is_whole) self.new };
}
