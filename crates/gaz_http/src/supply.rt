ghost use Rattle.std.specs.Prelude.{◌<◌, length};
ghost use Rattle.std.specs.Io.KnownBytes.{Keeps};
ghost use Rattle.gaz_http.specs.Failing.{HasFailed};
ghost use Rattle.gaz_http.specs.Heads.{inlet_size};
ghost use Rattle.gaz_http.specs.Supplies.{IfSupplyFailed, IsReadForMore, IsSupply, Supplies};

use crate::inlet::Inlet;
use crate::sink::Sink;
use crate::source::Source;

/// What failed in a conversation.
#[derive(Clone, Copy)]
pub enum Cause {
    /// The reader failed, whatever its error.
    ReadFault,
    /// The writer failed, whatever its error, or took nothing of what it was given.
    WriteFault,
}

/// What came of asking for more bytes.
#[derive(Clone, Copy)]
pub enum Supply {
    Some,
    /// The input ended.
    End,
    Failed(Cause),
}

/// Flushes the writer and then reads once, so that no reply waits for bytes that it doesn't need.
pub fn read_more<R: Source, W: Sink>(r: &mut R, w: &mut W, inlet: &mut Inlet) -> Supply
    requires { length inlet.old < inlet_size }
    ensures read { Supplies R.remaining r.old r.new inlet.old inlet.new
        (λ bytes left. IsSupply bytes left result) }
    ensures counted { IsReadForMore (R.reads r.old) (R.reads r.new) result }
    ensures written { Keeps (W.contents w.old) (W.contents w.new) }
    ensures failed { IfSupplyFailed result (HasFailed R.failed W.failed r.new w.new) }
{
    let Ok(()) = w.flush_once() else {
        return Supply::Failed(Cause::WriteFault);
    };
    match inlet.fill(r) {
        Ok(0) => Supply::End,
        Ok(_) => Supply::Some,
        Err(_) => Supply::Failed(Cause::ReadFault),
    }
}
