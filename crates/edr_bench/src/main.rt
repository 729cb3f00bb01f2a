//! `edr_bench`: does one piece of the work alone, so that its time and its memory can be measured.
//!
//! - `wkt` reads standard input whole as well-known text, and prints the number of its positions or why it is none.
//! - `make COUNT` makes a grid of so many samples of one digit, and prints their number. COUNT is a multiple of 1,000,
//!   up to 4,000,000.
//! - `write COUNT ROUNDS` makes that grid and writes it so many times, and prints the length of its text.
//! - `tree COUNT ROUNDS` makes that grid and its tree of JSON and writes the tree so many times, and prints the length.
//! - `read ROUNDS` reads standard input as a document of CoverageJSON so many times, and prints the number of its values, or
//!   of its coverages.
//! - `parse ROUNDS` reads it as a tree of JSON so many times, and prints the number of its members.
//! - `tiles1 ROUNDS` and `tiles5 ROUNDS` pack a grid of 2,000 by 2,000 samples of one or up to five digits, open each of its
//!   tiles so many times, and print how many were opened.
//! - `answers TARGET ROUNDS` reads standard input as a feed, answers the target from its last edition so many times, and
//!   prints how many bytes the answer has.
//! - `targets ROUNDS` reads each line of standard input as a target so many times, and prints how many ask for a page.
//! - `pairs ROUNDS` cuts and decodes the pairs of each such line so many times, and prints how many there are.
#![tactic(auto)]

mod answers;
mod commands;
mod feeds;
mod grids;
mod running;
mod targets;
mod tiles;

use answers::{Answer, BenchFault};
use commands::command_of;
use edr_base::{RealSource, Source};
use running::carry_out;
use std::process::ExitCode;
use std::rt::HostRuntime;
use std::{env, io};

// The words after the program's name.
fn words_of(rt: &HostRuntime) -> io::Result<Vec<String>> {
    let mut words = Vec::new(rt.alloc());
    for word in env::args(rt)?.skip(1) {
        words.push(word)?;
    }
    Ok(words)
}

// Does what the words ask for.
fn done<S: Source>(rt: &HostRuntime, input: &mut S) -> Result<Answer, BenchFault> {
    let words = words_of(rt).map_err(|_| BenchFault::OutOfMemory)?;
    let command = command_of(&words).ok_or(BenchFault::Usage)?;
    carry_out(rt.alloc(), &words, command, input)
}

fn main(rt: HostRuntime) -> ExitCode {
    let mut input = RealSource::of(rt.stdin());
    match done(&rt, &mut input) {
        Ok(answer) => match println!(rt; "{answer}") {
            Ok(()) => ExitCode::SUCCESS,
            Err(_) => ExitCode::FAILURE,
        },
        Err(fault) => {
            let _ = eprintln!(rt; "edr_bench: {fault}");
            ExitCode::FAILURE
        }
    }
}
