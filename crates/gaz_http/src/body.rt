ghost use Rattle.std.specs.Prelude.{◌≡◌, ◌<◌, [], IfErr, IfOk};
ghost use Rattle.std.specs.Io.KnownBytes.{Keeps};
ghost use Rattle.gaz_http.specs.Bodies.{IfBodyFailed, IsBody, IsReadForBody, IsRefill};
ghost use Rattle.gaz_http.specs.Failing.{HasFailed};
ghost use Rattle.gaz_http.specs.Supplies.{IfSupplyFailed, IsReadForMore, Reads, Supplies};

use crate::inlet::Inlet;
use crate::sink::Sink;
use crate::source::Source;
use crate::supply::{Cause, Supply, read_more};
use std::alloc::{AllocError, Global};

/// What came of a body.
#[derive(Drop)]
pub enum Body {
    Whole(Vec<u8>),
    /// The input ended within it.
    Short,
    /// No memory for it.
    Memory,
    /// The reader or the writer failed within it.
    Failed(Cause),
}

// Asks for more where nothing is pending.
fn refill<R: Source, W: Sink>(r: &mut R, w: &mut W, inlet: &mut Inlet) -> Supply
    ensures read { Supplies R.remaining r.old r.new inlet.old inlet.new
        (λ _ left. IsRefill inlet.new left result) }
    ensures counted { IsReadForMore (R.reads r.old) (R.reads r.new) result }
    ensures written { Keeps (W.contents w.old) (W.contents w.new) }
    ensures failed { IfSupplyFailed result (HasFailed R.failed W.failed r.new w.new) }
{
    if !inlet.pending().is_empty() {
        return Supply::Some;
    }
    read_more(r, w, inlet)
}

// Room for a body of so many bytes: that of an earlier one, where it is enough.
fn room_for(alloc: Global, earlier: Vec<u8>, size: usize) -> Result<Vec<u8>, AllocError>
    ensures empty { IfOk result (λ room. room.items ≡ []) }
    ensures asked { IfErr result (λ _. 0 < size) }
{
    if earlier.capacity() < size {
        drop(earlier);
        return Vec::with_capacity(alloc, size);
    }
    let mut room = earlier;
    room.clear();
    Ok(room)
}

/// Reads a body of `size` bytes.
///
/// > If the sender closes the connection or the recipient times out before the indicated number of
/// > octets are received, the recipient MUST consider the message to be incomplete and close the
/// > connection. (RFC 9112, section 6.3)
///
/// It takes the room of an earlier one. An empty one takes no memory; that a body of 1,048,576
/// bytes finds it is tested, since no clause can say so.
pub fn read_body<R: Source, W: Sink>(
    alloc: Global,
    r: &mut R,
    w: &mut W,
    inlet: &mut Inlet,
    size: usize,
    earlier: Vec<u8>,
) -> Body
    ensures read { Reads R.remaining r.old r.new inlet.old
        (λ bytes left. IsBody bytes size inlet.new left result
        × IsReadForBody (R.reads r.old) (R.reads r.new) bytes size inlet.new left result) }
    ensures written { Keeps (W.contents w.old) (W.contents w.new) }
    ensures failed { IfBodyFailed result (HasFailed R.failed W.failed r.new w.new) }
{
    let Ok(mut out) = room_for(alloc, earlier, size) else {
        return Body::Memory;
    };
    'pieces: while out.len() < size {
        match refill(r, w, inlet) {
            Supply::Some => {}
            Supply::End => return Body::Short,
            Supply::Failed(cause) => return Body::Failed(cause),
        }
        let part = inlet.pending();
        let count = part.len().min(size - out.len());
        let Ok(()) = out.extend_from_slice(&part[..count]) else {
            return Body::Memory;
        };
        inlet.take(count);
    }
    Body::Whole(out)
}
