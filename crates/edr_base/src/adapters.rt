//! The standard library's readers and writers as sources and sinks.
//!
//! They tell nothing of contents by the words of `Source` and `Sink`. Where the reader or the writer tells its bytes
//! by the standard library's words, the clauses `passes` say that each call passes them on. That a flush is passed on
//! the standard library has no word for.
ghost use Rattle.std.specs.Prelude.{◌≡◌, ◌≤◌, ◌<◌, ◌+◌, ◌-◌, min, length, Ok, Err, IfOk, OnErr, IsErr, IsErrOf, IsOk, None, true, false};
ghost use Rattle.std.specs.Io.KnownBytes.{ReadConsumes, WriteAppends, Keeps};
ghost use Rattle.edr_base.specs.Outside.{Rose};
ghost use Rattle.edr_base.specs.Calls.{Reads, Appended, Flushed, SourceLent, SinkLent};
ghost use Rattle.edr_base.specs.Untold.{untold_aside, untold_beside};
ghost use Rattle.edr_base.specs.Limits.{count_limit};

use crate::counted::{flush_of, read_from, write_to};
use crate::outside::{Failed, Faults, Sink, Source, Stop};
use std::io::{Read, Write};

/// A source over a reader. Each error of the reader is a fault, but for `Interrupted`: then it is asked again.
#[derive(Drop)]
pub struct RealSource<T: Read> {
    reader: T,
    faults: u64,
    ghost fits: { faults ≤ count_limit },
}

impl<T: Read> RealSource<T> {
    ghost use Rattle.edr_base.specs.Adapters.{reader_of};

    /// A source that reads from this reader.
    pub fn of(reader: T) -> RealSource<T>
        ensures reader { reader_of result ≡ reader }
        ensures faults { ⟦<RealSource<T> as Faults>⟧.faults result ≡ 0 }
    {
        RealSource { reader, faults: 0 }
    }
}

impl<T: Read> Faults for RealSource<T> {
    ghost faults = { λ s. s.faults };

    ghost bounded = { λ s. s.fits };
}

impl<T: Read> Source for RealSource<T> {
    ghost use Rattle.edr_base.specs.Adapters.{reader_of, Counts};

    ghost left = { λ s. None };

    ghost aside = { λ s. untold_aside false };

    fn read(&mut self, buf: &mut [u8]) -> Result<usize, Failed>
        ensures bound { IfOk result (λ n. n ≤ length buf.new) }
        ensures empty { length buf.new ≡ 0 → result ≡ Ok 0 }
        ensures bytes { Reads (⟦<RealSource<T> as Source>⟧.left self.old) (⟦<RealSource<T> as Source>⟧.left self.new) result buf.new }
        ensures lent { SourceLent (⟦<RealSource<T> as Source>⟧.aside self.old) (⟦<RealSource<T> as Source>⟧.aside self.new)
            (⟦<RealSource<T> as Faults>⟧.faults self.old) (⟦<RealSource<T> as Faults>⟧.faults self.new) }
        ensures cause { OnErr result (Rose (⟦<RealSource<T> as Faults>⟧.faults self.old) (⟦<RealSource<T> as Faults>⟧.faults self.new)) }
        ensures idle { (⟦<RealSource<T> as Source>⟧.aside self.old).idle ≡ true
            → (result ≡ Ok 0) × (⟦<RealSource<T> as Faults>⟧.faults self.new ≡ ⟦<RealSource<T> as Faults>⟧.faults self.old) }

        // beyond the trait: what the reader gives is passed on, and each error is counted once
        ensures passes { ReadConsumes (T.remaining (reader_of self.old)) (T.remaining (reader_of self.new)) result buf.new }
        ensures counts { Counts (IsErr result) (⟦<RealSource<T> as Faults>⟧.faults self.old) (⟦<RealSource<T> as Faults>⟧.faults self.new) }
    {
        if buf.is_empty() {
            return Ok(0);
        }
        read_from(&mut self.reader, buf, &mut self.faults)
    }
}

/// A sink over a writer. Each error of the writer is a fault, and so is a write that takes nothing; after `Interrupted`
/// the writer is asked again.
#[derive(Drop)]
pub struct RealSink<T: Write> {
    writer: T,
    faults: u64,
    ghost fits: { faults ≤ count_limit },
}

impl<T: Write> RealSink<T> {
    ghost use Rattle.edr_base.specs.Adapters.{writer_of};

    /// A sink that writes to this writer.
    pub fn of(writer: T) -> RealSink<T>
        ensures writer { writer_of result ≡ writer }
        ensures faults { ⟦<RealSink<T> as Faults>⟧.faults result ≡ 0 }
    {
        RealSink { writer, faults: 0 }
    }
}

impl<T: Write> Faults for RealSink<T> {
    ghost faults = { λ s. s.faults };

    ghost bounded = { λ s. s.fits };
}

impl<T: Write> Sink for RealSink<T> {
    ghost use Rattle.edr_base.specs.Adapters.{writer_of, Counts};

    ghost written = { λ s. None };

    ghost flushed = { λ s. None };

    ghost beside = { λ s. untold_beside false };

    ghost bottomed = { λ s. tt };

    fn write(&mut self, piece: &[u8]) -> Result<usize, Stop>
        ensures bound { IfOk result (λ n. (n ≤ length piece.now) × (0 < length piece.now → 0 < n)) }
        ensures empty { length piece.now ≡ 0 → result ≡ Ok 0 }
        ensures bytes { Appended (⟦<RealSink<T> as Sink>⟧.written self.old) (⟦<RealSink<T> as Sink>⟧.written self.new) result piece.now }
        ensures flushed { ⟦<RealSink<T> as Sink>⟧.flushed self.new ≡ ⟦<RealSink<T> as Sink>⟧.flushed self.old }
        ensures lent { SinkLent (⟦<RealSink<T> as Sink>⟧.beside self.old) (⟦<RealSink<T> as Sink>⟧.beside self.new)
            (⟦<RealSink<T> as Faults>⟧.faults self.old) (⟦<RealSink<T> as Faults>⟧.faults self.new) }
        ensures cause { IsErrOf result Stop.Failed
            → Rose (⟦<RealSink<T> as Faults>⟧.faults self.old) (⟦<RealSink<T> as Faults>⟧.faults self.new) }
        ensures idle { (⟦<RealSink<T> as Sink>⟧.beside self.old).idle ≡ true → 0 < length piece.now
            → (result ≡ Err Stop.OutOfMemory) × (⟦<RealSink<T> as Faults>⟧.faults self.new ≡ ⟦<RealSink<T> as Faults>⟧.faults self.old) }

        // beyond the trait: what the writer takes is passed on once, and each error is counted once
        ensures passes { WriteAppends (T.contents (writer_of self.old)) (T.contents (writer_of self.new)) result piece.now }
        ensures counts { Counts (IsErr result) (⟦<RealSink<T> as Faults>⟧.faults self.old) (⟦<RealSink<T> as Faults>⟧.faults self.new) }
    {
        if piece.is_empty() {
            return Ok(0);
        }
        write_to(&mut self.writer, piece, &mut self.faults)
    }

    fn flush(&mut self) -> Result<(), Stop>
        ensures bytes { ⟦<RealSink<T> as Sink>⟧.written self.new ≡ ⟦<RealSink<T> as Sink>⟧.written self.old }
        ensures flushed { Flushed (⟦<RealSink<T> as Sink>⟧.written self.new) (⟦<RealSink<T> as Sink>⟧.flushed self.old)
            (⟦<RealSink<T> as Sink>⟧.flushed self.new) result }
        ensures lent { SinkLent (⟦<RealSink<T> as Sink>⟧.beside self.old) (⟦<RealSink<T> as Sink>⟧.beside self.new)
            (⟦<RealSink<T> as Faults>⟧.faults self.old) (⟦<RealSink<T> as Faults>⟧.faults self.new) }
        ensures cause { IsErrOf result Stop.Failed
            → Rose (⟦<RealSink<T> as Faults>⟧.faults self.old) (⟦<RealSink<T> as Faults>⟧.faults self.new) }
        ensures idle { (⟦<RealSink<T> as Sink>⟧.beside self.old).idle ≡ true
            → IsOk result × (⟦<RealSink<T> as Faults>⟧.faults self.new ≡ ⟦<RealSink<T> as Faults>⟧.faults self.old) }

        // beyond the trait: the writer keeps its bytes, and each error is counted once
        ensures passes { Keeps (T.contents (writer_of self.old)) (T.contents (writer_of self.new)) }
        ensures counts { Counts (IsErr result) (⟦<RealSink<T> as Faults>⟧.faults self.old) (⟦<RealSink<T> as Faults>⟧.faults self.new) }
    {
        flush_of(&mut self.writer, &mut self.faults)
    }
}
