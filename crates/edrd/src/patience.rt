//! Streams whose peers have only so much time.
//!
//! All reads since the last reply was flushed share one time: so many seconds until the first byte of a head, and `PATIENCE` from there
//! on. A reply may wait for its peer `PATIENCE` seconds; each `LEAST_SPEED` bytes that the peer takes give back one of them. A peer
//! whose time is up is a fault of the read or the write.
ghost use Rattle.std.specs.Prelude.{◌≤◌, length, IfOk, IfSome};

use std::alloc::Global;
use std::io;
use std::io::{ErrorKind, Read, Write};
use std::net::TcpStream;
use std::rt::HostRuntime;
use std::sync::Arc;
use std::sync::atomic::{AtomicBool, Ordering};
use std::time::{Duration, Instant};

// How long a peer has to send a head once it began, and to take a reply that it doesn't read, in seconds.
const PATIENCE: u64 = 30;

// How many bytes of a reply a peer has to take in a second.
const LEAST_SPEED: u64 = 16_384;

// How long a stream waits at once in a write, in seconds. What the system takes for the peer while its buffer grows is counted
// after each of them, while most of the peer's time is left.
const WAIT: u64 = 1;

// That time.
fn patience() -> Duration {
    Duration::from_secs(PATIENCE)
}

// How long a stream waits at once.
fn one_wait() -> Duration {
    Duration::from_secs(WAIT)
}

// What is left of a time, where some is.
fn some_left(most: Duration, passed: Duration) -> io::Result<Duration> {
    match most.checked_sub(passed) {
        Some(left) if left > Duration::ZERO => Ok(left),
        _ => Err(io::Error::from(ErrorKind::TimedOut)),
    }
}

/// What a peer sends.
#[derive(Drop)]
pub struct PatientReader {
    rt: HostRuntime,
    stream: TcpStream,
    // how long a connection may be idle
    idle: Duration,
    // set where a reply was flushed since the last read
    flushed: Arc<AtomicBool, Global>,
    // since when the peer is waited for, and whether a byte came since
    since: Instant,
    begun: bool,
    // how long the stream waits in a read
    timeout: Duration,
}

impl PatientReader {
    // How long the next read may wait.
    fn left(&mut self) -> io::Result<Duration> {
        if self.flushed.swap(false, Ordering::Relaxed) {
            self.since = Instant::now(&self.rt)?;
            self.begun = false;
            return Ok(self.idle);
        }
        let most = if self.begun { patience() } else { self.idle };
        some_left(most, self.since.elapsed(&self.rt)?)
    }

    // Has the stream wait so long in a read.
    fn wait(&mut self, left: Duration) -> io::Result<()> {
        if left != self.timeout {
            self.stream.set_read_timeout(Some(left))?;
            self.timeout = left;
        }
        Ok(())
    }
}

impl Read for PatientReader {
    fn read(&mut self, buf: &mut [u8]) -> io::Result<usize> {
        let left = self.left()?;
        self.wait(left)?;
        let count = self.stream.read(buf)?;
        if !self.begun {
            self.begun = true;
            // where the clock fails, the peer's time goes on from where it was
            if let Ok(now) = Instant::now(&self.rt) {
                self.since = now;
            }
        }
        Ok(count)
    }
}

/// What is sent to a peer.
#[derive(Drop)]
pub struct PatientWriter {
    rt: HostRuntime,
    stream: TcpStream,
    flushed: Arc<AtomicBool, Global>,
    // how long the reply may still wait for its peer
    left: Duration,
}

impl PatientWriter {
    // Counts how long the peer was waited for, and the bytes that it took then.
    fn count(&mut self, waited: Duration, taken: usize) {
        let earned = Duration::from_millis((taken as u64).saturating_mul(1000) / LEAST_SPEED);
        let left = self.left.saturating_sub(waited).saturating_add(earned);
        self.left = left.min(patience());
    }

    // How many bytes the peer takes in one wait, or None where it takes none.
    fn write_once(&mut self, buf: &[u8]) -> io::Result<Option<usize>>
        ensures { IfOk result (λ taken. IfSome taken (λ count. count ≤ length buf.now)) }
    {
        some_left(self.left, Duration::ZERO)?;
        let begun = Instant::now(&self.rt)?;
        let outcome = self.stream.write(buf);
        let waited = begun.elapsed(&self.rt).unwrap_or(one_wait());
        match outcome {
            Ok(count) => {
                self.count(waited, count);
                Ok(Some(count))
            }
            Err(error) => match error.kind() {
                ErrorKind::WouldBlock => {
                    self.count(waited, 0);
                    Ok(None)
                }
                _ => Err(error),
            },
        }
    }
}

impl Write for PatientWriter {
    fn write(&mut self, buf: &[u8]) -> io::Result<usize> {
        for _ in 0..=PATIENCE {
            if let Some(count) = self.write_once(buf)? {
                return Ok(count);
            }
        }
        Err(io::Error::from(ErrorKind::TimedOut))
    }

    fn flush(&mut self) -> io::Result<()> {
        self.left = patience();
        self.flushed.store(true, Ordering::Relaxed);
        self.stream.flush()
    }
}

/// Both ends of a stream whose peer may be idle for so many seconds.
pub fn patient_ends(
    rt: HostRuntime,
    alloc: Global,
    stream: TcpStream,
    idle: u32,
) -> io::Result<(PatientReader, PatientWriter)> {
    let idle = Duration::from_secs(u64::from(idle));
    stream.set_nodelay(true)?;
    stream.set_read_timeout(Some(idle))?;
    stream.set_write_timeout(Some(one_wait()))?;
    let flushed = Arc::new(alloc, AtomicBool::new(false))?;
    let reader = PatientReader {
        rt,
        stream: stream.try_clone()?,
        idle,
        flushed: Arc::try_clone(&flushed)?,
        since: Instant::now(&rt)?,
        begun: false,
        timeout: idle,
    };
    let writer = PatientWriter {
        rt,
        stream,
        flushed,
        left: patience(),
    };
    Ok((reader, writer))
}
