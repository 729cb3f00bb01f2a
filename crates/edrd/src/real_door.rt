//! A door over a socket that listens.
ghost use Rattle.std.specs.Prelude.{◌≡◌, ◌≤◌, ◌<◌, ◌+◌, true, false, cond, is_err};
ghost use Rattle.edr_serve.specs.Connections.{outcome_of};
ghost use Rattle.edr_console.specs.Limits.{accept_limit};
ghost use Rattle.edr_base.specs.Limits.{count_limit};

use crate::accept::Accept;
use crate::parting::part;
use crate::patience::{PatientReader, PatientWriter, patient_ends};
use edr_base::{Failed, Faults, RealSink, RealSource};
use edr_serve::{Connection, End, Served, SessionFault, SessionReport};
use std::alloc::Global;
use std::io::{BufWriter, ErrorKind};
use std::net::{TcpListener, TcpStream};
use std::rt::HostRuntime;
use std::time::Duration;
use std::{io, thread};

// How many bytes of replies are gathered before they are written: the chunks of a long body go out many at a time.
const GATHERED: usize = 65_536;

// How long a door waits where the system had nothing left to accept with, in milliseconds.
const PAUSE: u64 = 10;

/// What a peer sends.
pub type Input = RealSource<PatientReader>;

/// What is sent to a peer.
pub type Output = RealSink<BufWriter<PatientWriter>>;

/// A door that takes so many connections.
#[derive(Drop)]
pub struct RealDoor {
    rt: HostRuntime,
    alloc: Global,
    listener: TcpListener,
    most: u64,
    idle: u32,
    // the stream of the connection that was handed out last
    last: Option<TcpStream>,
    given: u64,
    finished: u64,
    faulted: u64,
    over: bool,
    faults: u64,
    ghost bound: { (given ≤ most) × (most ≤ accept_limit) × (faulted ≤ finished) × (finished ≤ given) × (given ≤ accept_limit) },
    ghost fits: { faults ≤ count_limit },
}

// What is to be done where an accept failed.
#[derive(Clone, Copy)]
enum Step {
    // The fault was of one peer alone.
    GoOn,
    // The system has nothing left for a moment.
    Pause,
    // No accept will do better.
    Fail,
}

// The errors of Linux that accept(2) names as those of a peer: ENETDOWN, EPROTO, ENOPROTOOPT, EHOSTDOWN, ENONET,
// EHOSTUNREACH, EOPNOTSUPP, ENETUNREACH, ECONNABORTED, ETIMEDOUT and EPERM; and of the system: ENFILE, EMFILE, ENOBUFS and ENOMEM.
fn step_after(error: &io::Error) -> Step {
    match error.kind() {
        ErrorKind::Interrupted | ErrorKind::ConnectionAborted => return Step::GoOn,
        ErrorKind::OutOfMemory => return Step::Pause,
        _ => {}
    }
    match error.raw_os_error() {
        Some(1 | 64 | 71 | 92 | 95 | 100 | 101 | 103 | 110 | 112 | 113) => Step::GoOn,
        Some(12 | 23 | 24 | 105) => Step::Pause,
        _ => Step::Fail,
    }
}

// Whether the peer of a session may still send, and not know that nobody reads it.
fn may_send(outcome: &Result<SessionReport, SessionFault>) -> bool {
    match outcome {
        Ok(report) => match report.end {
            End::ClosedByRefusal(_) | End::RequestLimit => true,
            End::EndOfInput | End::ClosedByPeer => false,
        },
        Err(_) => false,
    }
}

// Both ends of a stream.
fn ends_of(
    rt: HostRuntime,
    alloc: Global,
    stream: TcpStream,
    idle: u32,
) -> io::Result<(Input, Output)> {
    let (reader, writer) = patient_ends(rt, alloc, stream, idle)?;
    let writer = BufWriter::with_capacity(alloc, GATHERED, writer)?;
    Ok((RealSource::of(reader), RealSink::of(writer)))
}

impl RealDoor {
    /// A door through which nothing came yet.
    pub fn of(
        rt: HostRuntime,
        alloc: Global,
        listener: TcpListener,
        most: u64,
        idle: u32,
    ) -> RealDoor
        requires { most ≤ accept_limit }
        ensures open_ { ⟦<RealDoor as Accept>⟧.over result ≡ false }
        ensures counts { (⟦<RealDoor as Accept>⟧.given result ≡ 0) × (⟦<RealDoor as Accept>⟧.finished result ≡ 0)
            × (⟦<RealDoor as Accept>⟧.faulted result ≡ 0) × (⟦<RealDoor as Faults>⟧.faults result ≡ 0) }
    {
        RealDoor {
            rt,
            alloc,
            listener,
            most,
            idle,
            last: None,
            given: 0,
            finished: 0,
            faulted: 0,
            over: false,
            faults: 0,
        }
    }

    /// How many connections it handed out.
    pub fn given(&self) -> u64
        ensures { result ≡ ⟦<RealDoor as Accept>⟧.given self.now }
    {
        self.given
    }

    /// How many of them ended with a fault of their session.
    pub fn faulted(&self) -> u64
        ensures { result ≡ ⟦<RealDoor as Accept>⟧.faulted self.now }
    {
        self.faulted
    }

    // The two ends of the next connection, and its stream. A connection that its peer gave up meanwhile is passed over, and so is
    // one that can't be set up; where the system has nothing left it waits a moment.
    fn next(&self) -> Result<(Input, Output, Option<TcpStream>), Failed> {
        for _ in 0..u64::MAX {
            match self.listener.accept() {
                Ok((stream, _peer)) => {
                    let last = stream.try_clone().ok();
                    if let Ok((input, output)) = ends_of(self.rt, self.alloc, stream, self.idle) {
                        return Ok((input, output, last));
                    }
                }
                Err(error) => match step_after(&error) {
                    Step::GoOn => {}
                    Step::Pause => thread::sleep(&self.rt, Duration::from_millis(PAUSE)),
                    Step::Fail => return Err(Failed),
                },
            }
        }
        Err(Failed)
    }
}

impl Faults for RealDoor {
    ghost faults = { λ s. s.faults };

    ghost bounded = { λ s. s.fits };
}

impl Accept for RealDoor {
    type In = RealSource<PatientReader>;

    type Out = RealSink<BufWriter<PatientWriter>>;

    ghost given = { λ s. s.given };

    ghost finished = { λ s. s.finished };

    ghost faulted = { λ s. s.faulted };

    ghost over = { λ s. s.over };

    fn accept(&mut self) -> Result<Option<Connection<Input, Output>>, Failed> {
        if self.given == self.most {
            self.over = true;
            return Ok(None);
        }
        self.over = false;
        match self.next() {
            Ok((input, output, last)) => {
                self.given += 1;
                self.last = last;
                Ok(Some(Connection::of(input, output)))
            }
            Err(Failed) => {
                self.faults = self.faults.saturating_add(1);
                Err(Failed)
            }
        }
    }

    fn finish(&mut self, served: Served<Input, Output>)
        requires { self.old.finished < self.old.given }
        ensures finished { self.new.finished ≡ self.old.finished + 1 }
        ensures faulted { self.new.faulted ≡ self.old.faulted + cond (is_err (outcome_of served)) 1 0 }
        ensures kept { (self.new.given ≡ self.old.given) × (self.new.over ≡ self.old.over) × (self.new.faults ≡ self.old.faults) }
    {
        let is_fault = served.outcome().is_err();
        self.finished += 1;
        if is_fault {
            self.faulted += 1;
        }
        let last = self.last.take();
        if let Some(stream) = last
            && may_send(served.outcome())
        {
            let _ = part(self.rt, stream);
        }
    }

    ghost within = { λ s. (s.bound.2, s.bound.3, s.bound.4) };
}
