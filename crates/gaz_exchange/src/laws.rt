//! Laws over the definitions alone: what the bytes of a stream tell, and where none stops.
ghost use Rattle.gaz_exchange.specs.Conversing.{NeverStops};
ghost use Rattle.gaz_exchange.specs.Streams.{BytesTellRequests};
ghost use Rattle.gaz_exchange.specs.WorkedEnds.{WorkedEnds};
ghost use Rattle.gaz_exchange.specs.WorkedFraming.{WorkedFraming};
ghost use Rattle.gaz_exchange.specs.WorkedRefusals.{WorkedRefusals};
ghost use Rattle.gaz_exchange.specs.WorkedReplies.{WorkedReplies};
ghost use Rattle.gaz_exchange.specs.WorkedStreams.{WorkedStreams};

use gaz_http::{Sink, Source};

/// The bytes of a stream determine its requests.
pub fn bytes_tell_requests()
    ensures { BytesTellRequests }
{}

/// Which requests come in a stream, how they are answered and where none follows, on worked
/// examples.
pub fn worked_streams()
    ensures { WorkedStreams }
{}

/// How a conversation ends and what it has answered then, on worked examples.
pub fn worked_ends()
    ensures { WorkedEnds }
{}

/// How often a reader is read for a request that is refused, on worked examples.
pub fn worked_refusals()
    ensures { WorkedRefusals }
{}

/// How long the body of a request is, on worked examples.
pub fn worked_framing()
    ensures { WorkedFraming }
{}

/// The texts of replies, on worked examples.
pub fn worked_replies()
    ensures { WorkedReplies }
{}

/// Where neither the reader nor the writer can fail, no conversation stops.
pub fn no_conversation_stops<R: Source, W: Sink>()
    ensures { NeverStops R.failed W.failed }
{}
