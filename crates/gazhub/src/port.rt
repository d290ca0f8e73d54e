//! Peers at a port of the system.

use std::alloc::Global;
use std::io::{self, BufWriter, Read};
use std::net::{Shutdown, TcpListener, TcpStream};
use std::time::Duration;

/// The seconds for which a peer is waited for that sends nothing.
const PATIENCE: u64 = 28;

/// The seconds for which a write waits. The system ends one only then, also one of which it took a
/// part, so that a peer that takes nothing is waited for two or three times as long.
const TAKING: u64 = 9;

/// The seconds for which one is waited for once all is told.
const PARTING: u64 = 1;

/// The most reads of what a peer sends behind the last reply.
const READS: u32 = 64;

/// The next peer, to read from and to write to. What is written leaves at once where it is flushed,
/// and no read waits longer for the peer than `PATIENCE`, no write than `TAKING`.
pub fn accepted(
    alloc: Global,
    listener: &TcpListener,
) -> io::Result<(TcpStream, BufWriter<TcpStream>)> {
    let (stream, _) = listener.accept()?;
    stream.set_nodelay(true)?;
    stream.set_read_timeout(Some(Duration::from_secs(PATIENCE)))?;
    stream.set_write_timeout(Some(Duration::from_secs(TAKING)))?;
    let w = BufWriter::new(alloc, stream.try_clone()?)?;
    Ok((stream, w))
}

/// Tells the peer that no reply follows, and reads on for a while: where bytes are left unread at
/// the end, the system drops what the peer has not taken yet of the last reply.
pub fn part(stream: &mut TcpStream) {
    let parting = Some(Duration::from_secs(PARTING));
    if stream.shutdown(Shutdown::Write).is_err() || stream.set_read_timeout(parting).is_err() {
        return;
    }
    let mut taken = [0; 32_768];
    for _ in 0..READS {
        match stream.read(&mut taken) {
            Ok(0) | Err(_) => return,
            Ok(_) => {}
        }
    }
}
