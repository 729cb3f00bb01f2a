//! The end of a connection whose peer may still send: what comes is read and dropped, so that the peer meets no reset and has the
//! last reply (RFC 9112, section 9.6).

use std::io;
use std::io::Read;
use std::net::{Shutdown, TcpStream};
use std::rt::HostRuntime;
use std::time::{Duration, Instant};

// How many bytes are dropped at most, and how many are read at once.
const MOST: usize = 1_048_576;

const BUFFER: usize = 4_096;

// How long the peer is waited for: each of its bytes, and all of them, in milliseconds.
const WAIT: u64 = 1_000;

// That time.
fn wait() -> Duration {
    Duration::from_millis(WAIT)
}

/// Ends what is sent to a peer, and drops what it sends until it ends too, 1,048,576 bytes came or a second passed.
pub fn part(rt: HostRuntime, mut stream: TcpStream) -> io::Result<()> {
    stream.shutdown(Shutdown::Write)?;
    stream.set_read_timeout(Some(wait()))?;
    let since = Instant::now(&rt)?;
    let mut buffer = [0u8; BUFFER];
    for _ in 0..MOST / BUFFER {
        let count = stream.read(&mut buffer)?;
        if count == 0 || since.elapsed(&rt)? >= wait() {
            return Ok(());
        }
    }
    Ok(())
}
