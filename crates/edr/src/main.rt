//! `edr`: asks the coverages of a feed for their samples. This file makes the real objects; `run` does all else.
#![tactic(auto)]

mod asking;
mod checking;
mod commands;
mod endings;
mod explaining;
mod fetching;
mod helping;
mod importing;
mod making;
mod replaying;
mod running;
mod showing;
mod tabling;
mod working;

use edr_base::{RealFiles, RealLink, RealSink, RealSource};
use edr_program::words_of;
use endings::{Ending, tell};
use running::run;
use std::io::BufWriter;
use std::process::ExitCode;

fn main(rt: HostRuntime) -> ExitCode {
    let alloc = rt.alloc();
    let mut errors = RealSink::of(rt.stderr());
    let Ok(words) = words_of(&rt, alloc) else {
        tell(Ending::OutOfMemory, b"", &mut errors);
        return ExitCode::from(Ending::OutOfMemory.status());
    };
    let mut input = RealSource::of(rt.stdin());
    // small writes are gathered until they are flushed
    let Ok(buffered) = BufWriter::new(alloc, rt.stdout()) else {
        tell(Ending::OutOfMemory, b"", &mut errors);
        return ExitCode::from(Ending::OutOfMemory.status());
    };
    let mut output = RealSink::of(buffered);
    let mut files = RealFiles::new(rt);
    let mut link = RealLink::new(rt);
    let status = run(
        alloc,
        &words,
        &mut input,
        &mut output,
        &mut errors,
        &mut files,
        &mut link,
    );
    ExitCode::from(status)
}

#[cfg(test)]
mod document_tests;
#[cfg(test)]
mod explain_tests;
#[cfg(test)]
mod line_tests;
#[cfg(test)]
mod station_tests;
#[cfg(test)]
mod table_tests;
#[cfg(test)]
mod tests;
#[cfg(test)]
mod work_tests;
