//! `edr_answers`: what each reader answers to the cases of standard input, to be compared with another program's answers.
//!
//! A case is the mark of a reader (`n` number, `i` instant, `t` times, `l` levels, `w` well-known text, `d` document,
//! `f` feed, `q` target), eight digits of a length, and so many bytes. An answer is eight digits of its length, so many bytes, and a
//! line feed. What follows the last case is passed over.
#![tactic(auto)]

mod answering;
mod cases;
mod editions;
mod faults;
mod notation;
mod targets;

use answering::answers_of;
use edr_base::{RealSource, Source, read_all};
use faults::AnswerFault;
use notation::Notation;
use std::alloc::Global;
use std::io::Write;
use std::process::ExitCode;
use std::rt::HostRuntime;

const MOST_INPUT: usize = 67_108_864;

fn answered<S: Source>(alloc: Global, input: &mut S) -> Result<Notation, AnswerFault> {
    let text = read_all(alloc, input, MOST_INPUT)?;
    answers_of(alloc, &text)
}

fn main(rt: HostRuntime) -> ExitCode {
    let mut input = RealSource::of(rt.stdin());
    match answered(rt.alloc(), &mut input) {
        Ok(answers) => match rt.stdout().write_all(answers.bytes()) {
            Ok(()) => ExitCode::SUCCESS,
            Err(_) => ExitCode::FAILURE,
        },
        Err(fault) => {
            let _ = eprintln!(rt; "edr_answers: {fault}");
            ExitCode::FAILURE
        }
    }
}
