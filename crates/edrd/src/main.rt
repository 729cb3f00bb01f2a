//! `edrd`: serves the editions of a feed over HTTP, and publishes one after another. This file makes the real objects;
//! `edrd_run` does all else.
#![tactic(auto)]

mod accept;
mod choosing;
mod doors;
mod endings;
mod feeding;
mod gate;
mod jobs;
mod parting;
mod patience;
mod publishing;
mod real_door;
mod real_doors;
mod real_gate;
mod running;
mod serving;
mod working;

use edr_base::{RealFiles, RealSink};
use edr_program::words_of;
use edr_share::Places;
use endings::{Ending, tell};
use real_doors::RealDoors;
use real_gate::RealGate;
use running::edrd_run;
use std::io::BufWriter;
use std::process::ExitCode;

fn main(rt: HostRuntime) -> ExitCode {
    let alloc = rt.alloc();
    let mut errors = RealSink::of(rt.stderr());
    let Ok(words) = words_of(&rt, alloc) else {
        tell(Ending::OutOfMemory, &mut errors);
        return ExitCode::from(Ending::OutOfMemory.status());
    };
    // a line is gathered until it is flushed
    let Ok(buffered) = BufWriter::new(alloc, rt.stdout()) else {
        tell(Ending::OutOfMemory, &mut errors);
        return ExitCode::from(Ending::OutOfMemory.status());
    };
    let mut output = RealSink::of(buffered);
    let mut files = RealFiles::new(rt);
    let mut doors = RealDoors::new(rt);
    let mut places = Places::new();
    let (status, _gate) = edrd_run(
        &rt,
        alloc,
        &words,
        &mut files,
        &mut doors,
        &mut places,
        RealGate::new(rt),
        &mut output,
        &mut errors,
    );
    ExitCode::from(status)
}

#[cfg(test)]
mod run_tests;
#[cfg(test)]
mod shelf_tests;
#[cfg(test)]
mod test_coming;
#[cfg(test)]
mod test_doors;
#[cfg(test)]
mod test_gate;
#[cfg(test)]
mod test_serving;
#[cfg(test)]
mod test_sink;
#[cfg(test)]
mod test_texts;
#[cfg(test)]
mod tests;
#[cfg(test)]
mod thread_tests;
#[cfg(test)]
mod word_tests;
