//! The link of the runtime that a program got.
//!
//! It tells nothing of what comes and goes. Where the runtime's stream tells its bytes by the standard library's words,
//! the clauses `passes` say that each read and each write passes them on.
ghost use Rattle.std.specs.Prelude.{◌≡◌, ◌≤◌, ◌<◌, ◌+◌, ◌-◌, ◌^◌, min, length, Ok, Err, IfOk, IfSome, OnErr, IsErr, IsErrOf, IsOk, IsUtf8, None, is_none, is_err, true, false};
ghost use Rattle.std.specs.Io.KnownBytes.{ReadConsumes, WriteAppends, Keeps};
ghost use Rattle.edr_base.specs.Outside.{Rose, Ties};
ghost use Rattle.edr_base.specs.Calls.{Reads, Appended, Flushed, SourceLent, SinkLent, Opened, asked_after, Cause};
ghost use Rattle.edr_base.specs.Untold.{untold_aside, untold_beside};
ghost use Rattle.edr_base.specs.Limits.{count_limit};

use crate::counted::{flush_of, read_from, write_to};
use crate::outside::{Failed, Faults, Link, Sink, Source, Stop};
use std::io::ErrorKind;
use std::net::{Net, TcpStream};

/// A link over the network of the runtime that main gives. Each error of connecting, reading, writing and flushing is
/// a fault, but for `Interrupted`: then the same is tried again. Where memory for an address is wanting, that is no
/// fault.
#[derive(Drop)]
pub struct RealLink<R: Net + Drop> {
    rt: R,
    stream: Option<R::Stream>,
    faults: u64,
    ghost fits: { faults ≤ count_limit },
}

impl<R: Net + Drop> RealLink<R> {
    /// A link that connects by this runtime, and isn't connected.
    pub fn new(rt: R) -> RealLink<R>
        ensures aside { ⟦<RealLink<R> as Source>⟧.aside result ≡ untold_aside true }
        ensures beside { ⟦<RealLink<R> as Sink>⟧.beside result ≡ untold_beside true }
        ensures faults { ⟦<RealLink<R> as Faults>⟧.faults result ≡ 0 }
    {
        RealLink {
            rt,
            stream: None,
            faults: 0,
        }
    }
}

// Connects to a host by its name or its address, without the brackets of an address, again where a signal interrupts it.
fn connect_by<R: Net>(rt: &R, host: &str, port: u16) -> Result<R::Stream, Stop> {
    for _ in 0..u64::MAX {
        match TcpStream::connect(rt, (host, port)) {
            Ok(stream) => return Ok(stream),
            Err(error) => match error.kind() {
                ErrorKind::Interrupted => {}
                ErrorKind::OutOfMemory => return Err(Stop::OutOfMemory),
                _ => return Err(Stop::Failed),
            },
        }
    }
    Err(Stop::Failed)
}

// A host without the brackets that stand about an address of version 6.
fn without_brackets(host: &str) -> &str {
    match host.strip_prefix('[') {
        Some(rest) => rest.strip_suffix(']').unwrap_or(host),
        None => host,
    }
}

impl<R: Net + Drop> Faults for RealLink<R> {
    ghost faults = { λ s. s.faults };

    ghost bounded = { λ s. s.fits };
}

impl<R: Net + Drop> Source for RealLink<R> {
    ghost use Rattle.edr_base.specs.Adapters.{Counts};
    ghost use Rattle.edr_base.specs.RealLinkParts.{stream_of};

    ghost left = { λ s. None };

    ghost aside = { λ s. untold_aside (is_none s.stream) };

    fn read(&mut self, buf: &mut [u8]) -> Result<usize, Failed>
        ensures bound { IfOk result (λ n. n ≤ length buf.new) }
        ensures empty { length buf.new ≡ 0 → result ≡ Ok 0 }
        ensures bytes { Reads (⟦<RealLink<R> as Source>⟧.left self.old) (⟦<RealLink<R> as Source>⟧.left self.new) result buf.new }
        ensures lent { SourceLent (⟦<RealLink<R> as Source>⟧.aside self.old) (⟦<RealLink<R> as Source>⟧.aside self.new)
            (⟦<RealLink<R> as Faults>⟧.faults self.old) (⟦<RealLink<R> as Faults>⟧.faults self.new) }
        ensures cause { OnErr result (Rose (⟦<RealLink<R> as Faults>⟧.faults self.old) (⟦<RealLink<R> as Faults>⟧.faults self.new)) }
        ensures idle { (⟦<RealLink<R> as Source>⟧.aside self.old).idle ≡ true
            → (result ≡ Ok 0) × (⟦<RealLink<R> as Faults>⟧.faults self.new ≡ ⟦<RealLink<R> as Faults>⟧.faults self.old) }

        // beyond the trait: what the stream gives is passed on, and each error is counted once
        ensures passes { IfSome (stream_of self.old) (λ before. IfSome (stream_of self.new) (λ after.
            ReadConsumes (R.Stream.remaining before) (R.Stream.remaining after) result buf.new)) }
        ensures counts { Counts (IsErr result) (⟦<RealLink<R> as Faults>⟧.faults self.old) (⟦<RealLink<R> as Faults>⟧.faults self.new) }
    {
        let Some(stream) = &mut self.stream else {
            return Ok(0);
        };
        if buf.is_empty() {
            return Ok(0);
        }
        read_from(stream, buf, &mut self.faults)
    }
}

impl<R: Net + Drop> Sink for RealLink<R> {
    ghost use Rattle.edr_base.specs.Adapters.{Counts};
    ghost use Rattle.edr_base.specs.RealLinkParts.{stream_of};

    ghost written = { λ s. None };

    ghost flushed = { λ s. None };

    ghost beside = { λ s. untold_beside (is_none s.stream) };

    ghost bottomed = { λ s. tt };

    fn write(&mut self, piece: &[u8]) -> Result<usize, Stop>
        ensures bound { IfOk result (λ n. (n ≤ length piece.now) × (0 < length piece.now → 0 < n)) }
        ensures empty { length piece.now ≡ 0 → result ≡ Ok 0 }
        ensures bytes { Appended (⟦<RealLink<R> as Sink>⟧.written self.old) (⟦<RealLink<R> as Sink>⟧.written self.new) result piece.now }
        ensures flushed { ⟦<RealLink<R> as Sink>⟧.flushed self.new ≡ ⟦<RealLink<R> as Sink>⟧.flushed self.old }
        ensures lent { SinkLent (⟦<RealLink<R> as Sink>⟧.beside self.old) (⟦<RealLink<R> as Sink>⟧.beside self.new)
            (⟦<RealLink<R> as Faults>⟧.faults self.old) (⟦<RealLink<R> as Faults>⟧.faults self.new) }
        ensures cause { IsErrOf result Stop.Failed
            → Rose (⟦<RealLink<R> as Faults>⟧.faults self.old) (⟦<RealLink<R> as Faults>⟧.faults self.new) }
        ensures idle { (⟦<RealLink<R> as Sink>⟧.beside self.old).idle ≡ true → 0 < length piece.now
            → (result ≡ Err Stop.OutOfMemory) × (⟦<RealLink<R> as Faults>⟧.faults self.new ≡ ⟦<RealLink<R> as Faults>⟧.faults self.old) }

        // beyond the trait: what the stream takes is passed on once, and each error is counted once
        ensures passes { IfSome (stream_of self.old) (λ before. IfSome (stream_of self.new) (λ after.
            WriteAppends (R.Stream.contents before) (R.Stream.contents after) result piece.now)) }
        ensures counts { Counts (IsErrOf result Stop.Failed)
            (⟦<RealLink<R> as Faults>⟧.faults self.old) (⟦<RealLink<R> as Faults>⟧.faults self.new) }
    {
        if piece.is_empty() {
            return Ok(0);
        }
        let Some(stream) = &mut self.stream else {
            return Err(Stop::OutOfMemory);
        };
        write_to(stream, piece, &mut self.faults)
    }

    fn flush(&mut self) -> Result<(), Stop>
        ensures bytes { ⟦<RealLink<R> as Sink>⟧.written self.new ≡ ⟦<RealLink<R> as Sink>⟧.written self.old }
        ensures flushed { Flushed (⟦<RealLink<R> as Sink>⟧.written self.new) (⟦<RealLink<R> as Sink>⟧.flushed self.old)
            (⟦<RealLink<R> as Sink>⟧.flushed self.new) result }
        ensures lent { SinkLent (⟦<RealLink<R> as Sink>⟧.beside self.old) (⟦<RealLink<R> as Sink>⟧.beside self.new)
            (⟦<RealLink<R> as Faults>⟧.faults self.old) (⟦<RealLink<R> as Faults>⟧.faults self.new) }
        ensures cause { IsErrOf result Stop.Failed
            → Rose (⟦<RealLink<R> as Faults>⟧.faults self.old) (⟦<RealLink<R> as Faults>⟧.faults self.new) }
        ensures idle { (⟦<RealLink<R> as Sink>⟧.beside self.old).idle ≡ true
            → IsOk result × (⟦<RealLink<R> as Faults>⟧.faults self.new ≡ ⟦<RealLink<R> as Faults>⟧.faults self.old) }

        // beyond the trait: the stream keeps its bytes, and each error is counted once
        ensures passes { IfSome (stream_of self.old) (λ before. IfSome (stream_of self.new) (λ after.
            Keeps (R.Stream.contents before) (R.Stream.contents after))) }
        ensures counts { Counts (IsErr result) (⟦<RealLink<R> as Faults>⟧.faults self.old) (⟦<RealLink<R> as Faults>⟧.faults self.new) }
    {
        let Some(stream) = &mut self.stream else {
            return Ok(());
        };
        flush_of(stream, &mut self.faults)
    }
}

impl<R: Net + Drop> Link for RealLink<R> {
    ghost use Rattle.edr_base.specs.Adapters.{Counts};
    ghost use Rattle.edr_base.specs.LinkTies.{untold_ties};

    ghost ties = { λ s. untold_ties (is_none s.stream) };

    fn connect(&mut self, host: &[u8], port: u16) -> Result<(), Stop>
        requires { IsUtf8 host.now }
        ensures ready { (⟦<RealLink<R> as Source>⟧.aside self.new).idle ≡ is_err result }
        ensures left { Opened (⟦<RealLink<R> as Source>⟧.aside self.old).incoming (⟦<RealLink<R> as Source>⟧.left self.new) result }
        ensures incoming { (⟦<RealLink<R> as Source>⟧.aside self.new).incoming ≡ (⟦<RealLink<R> as Source>⟧.aside self.old).incoming }
        ensures asked { (⟦<RealLink<R> as Source>⟧.aside self.new).asked
            ≡ asked_after (⟦<RealLink<R> as Source>⟧.aside self.old).asked (host.now, port) result }
        ensures written { (⟦<RealLink<R> as Sink>⟧.written self.new ≡ ⟦<RealLink<R> as Sink>⟧.written self.old)
            × (⟦<RealLink<R> as Sink>⟧.flushed self.new ≡ ⟦<RealLink<R> as Sink>⟧.flushed self.old) }
        ensures kept { ((⟦<RealLink<R> as Sink>⟧.beside self.new).bottom ≡ (⟦<RealLink<R> as Sink>⟧.beside self.old).bottom)
            × ((⟦<RealLink<R> as Sink>⟧.beside self.new).held ≡ (⟦<RealLink<R> as Sink>⟧.beside self.old).held)
            × ((⟦<RealLink<R> as Source>⟧.aside self.new).content ≡ (⟦<RealLink<R> as Source>⟧.aside self.old).content) }
        ensures cause { Cause result (⟦<RealLink<R> as Faults>⟧.faults self.old) (⟦<RealLink<R> as Faults>⟧.faults self.new) }

        // beyond the trait: each error is counted once, but for want of memory
        ensures counts { Counts (IsErrOf result Stop.Failed)
            (⟦<RealLink<R> as Faults>⟧.faults self.old) (⟦<RealLink<R> as Faults>⟧.faults self.new) }
    {
        self.stream = None;
        let host = str::from_utf8(host).unwrap();
        match connect_by(&self.rt, without_brackets(host), port) {
            Ok(stream) => {
                self.stream = Some(stream);
                Ok(())
            }
            Err(stop) => {
                if matches!(stop, Stop::Failed) {
                    self.faults = self.faults.saturating_add(1);
                }
                Err(stop)
            }
        }
    }
}
