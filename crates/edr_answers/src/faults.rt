//! Why the cases of an input aren't answered.
use edr_base::{OutOfMemory, ReadStop};
use std::alloc::AllocError;
use std::fmt;

/// Why the cases of an input aren't answered.
#[derive(Clone, Copy, Debug, PartialEq, Eq)]
pub enum AnswerFault {
    /// The input wasn't read whole: a read failed, or it has more than 64 MiB.
    Input,
    /// Memory was wanting.
    OutOfMemory,
}

impl From<ReadStop> for AnswerFault {
    fn from(stop: ReadStop) -> AnswerFault {
        match stop {
            ReadStop::ReadFault | ReadStop::TooLong => AnswerFault::Input,
            ReadStop::OutOfMemory => AnswerFault::OutOfMemory,
        }
    }
}

impl From<OutOfMemory> for AnswerFault {
    fn from(_fault: OutOfMemory) -> AnswerFault {
        AnswerFault::OutOfMemory
    }
}

impl From<AllocError> for AnswerFault {
    fn from(_fault: AllocError) -> AnswerFault {
        AnswerFault::OutOfMemory
    }
}

impl fmt::Display for AnswerFault {
    fn fmt<W: fmt::Write>(&self, f: &mut fmt::Formatter<W>) -> fmt::Result {
        match self {
            AnswerFault::Input => write!(f, "input not read"),
            AnswerFault::OutOfMemory => write!(f, "out of memory"),
        }
    }
}
