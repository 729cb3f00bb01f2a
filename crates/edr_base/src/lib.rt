//! The ground of the product: the outside as traits, numbers and texts as they are read, and the refusals.
#![tactic(auto)]

mod adapters;
mod counted;
mod cuts;
mod digits;
mod fault_plan;
mod lent;
mod limits;
mod memory_files;
mod memory_link;
mod memory_sink;
mod memory_source;
mod names;
mod numbers;
mod outside;
mod places;
mod quiet_sink;
mod quiet_source;
mod reading;
mod real_files;
mod real_link;
mod refusals;
mod sending;
mod texts;

pub use adapters::{RealSink, RealSource};
pub use cuts::{cut_at, without_front};
pub use digits::{are_digits, value_of_digits};
pub use fault_plan::FaultPlan;
pub use lent::Lent;
pub use limits::{
    BUFFER_SIZE, COORDINATE_LIMIT, EARLIEST_TIME, FEED_LIMIT, LATEST_TIME, LINE_LIMIT, NODE_LIMIT,
    POSITION_LIMIT, SAMPLE_LIMIT,
};
pub use memory_files::MemoryFiles;
pub use memory_link::MemoryLink;
pub use memory_sink::MemorySink;
pub use memory_source::MemorySource;
pub use names::{is_blank, is_name, is_utf8, is_utf8_where_given};
pub use numbers::{Whole, numeral, numerals_tell_numbers, whole_number};
pub use outside::{Failed, Faults, Files, Link, Sink, Source, Stop};
pub use places::{Position, Spot, in_box};
pub use quiet_sink::QuietSink;
pub use quiet_source::QuietSource;
pub use reading::{ReadStop, read_all};
pub use real_files::RealFiles;
pub use real_link::RealLink;
pub use refusals::Refusal;
pub use sending::{SendFault, send, settle};
pub use texts::{Items, OutOfMemory, Text};
