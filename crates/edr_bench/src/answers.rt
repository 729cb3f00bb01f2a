//! What the commands print.
use covjson_checks::CovFault;
use edr_base::{OutOfMemory, ReadStop};
use edr_feed::FeedFault;
use edr_serve::AnswerFault;
use edr_wkt::WktFault;
use std::alloc::AllocError;
use std::fmt;

/// What a command that was done prints.
#[derive(Clone, Copy, Debug, PartialEq, Eq)]
pub enum Answer {
    /// How many positions a geometry has, how many samples a grid, how many bytes a text, or how many members an object.
    Count(usize),
    /// Why a text is no geometry.
    NoGeometry(WktFault),
}

/// Why a command wasn't done.
#[derive(Clone, Copy, Debug, PartialEq, Eq)]
pub enum BenchFault {
    /// The words are none of the commands'.
    Usage,
    /// The input wasn't read whole: a read failed, or it has more than 64 MiB.
    Input,
    /// The grid that was made isn't valid, or the input is no document.
    NotValid,
    /// Memory was wanting.
    OutOfMemory,
}

impl From<ReadStop> for BenchFault {
    fn from(stop: ReadStop) -> BenchFault {
        match stop {
            ReadStop::ReadFault | ReadStop::TooLong => BenchFault::Input,
            ReadStop::OutOfMemory => BenchFault::OutOfMemory,
        }
    }
}

impl From<CovFault> for BenchFault {
    fn from(fault: CovFault) -> BenchFault {
        match fault {
            CovFault::OutOfMemory => BenchFault::OutOfMemory,
            _ => BenchFault::NotValid,
        }
    }
}

impl From<FeedFault> for BenchFault {
    fn from(fault: FeedFault) -> BenchFault {
        match fault {
            FeedFault::OutOfMemory => BenchFault::OutOfMemory,
            _ => BenchFault::Input,
        }
    }
}

impl From<AnswerFault> for BenchFault {
    fn from(fault: AnswerFault) -> BenchFault {
        match fault {
            AnswerFault::OutOfMemory => BenchFault::OutOfMemory,
            AnswerFault::Refused(_) | AnswerFault::WriteFault => BenchFault::NotValid,
        }
    }
}

impl From<OutOfMemory> for BenchFault {
    fn from(_fault: OutOfMemory) -> BenchFault {
        BenchFault::OutOfMemory
    }
}

impl From<AllocError> for BenchFault {
    fn from(_fault: AllocError) -> BenchFault {
        BenchFault::OutOfMemory
    }
}

impl fmt::Display for Answer {
    fn fmt<W: fmt::Write>(&self, f: &mut fmt::Formatter<W>) -> fmt::Result {
        match self {
            Answer::Count(count) => write!(f, "{count}"),
            Answer::NoGeometry(fault) => write!(f, "{fault:?}"),
        }
    }
}

impl fmt::Display for BenchFault {
    fn fmt<W: fmt::Write>(&self, f: &mut fmt::Formatter<W>) -> fmt::Result {
        match self {
            BenchFault::Usage => {
                write!(
                    f,
                    "usage: edr_bench wkt | make COUNT | write COUNT ROUNDS | tree COUNT ROUNDS | read ROUNDS | parse ROUNDS | tiles1 ROUNDS | tiles5 ROUNDS | targets ROUNDS | pairs ROUNDS | answers TARGET ROUNDS"
                )
            }
            BenchFault::Input => write!(f, "input not read"),
            BenchFault::NotValid => write!(f, "not valid"),
            BenchFault::OutOfMemory => write!(f, "out of memory"),
        }
    }
}
