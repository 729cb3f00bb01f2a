//! Answers the cases of an input, one after the other.
use crate::cases::first_case;
use crate::faults::AnswerFault;
use crate::notation::{Notation, put_answer};
use std::alloc::Global;

/// The answers to the cases of an input: for each eight digits of its length, the answer, and a line feed.
pub fn answers_of(alloc: Global, input: &[u8]) -> Result<Notation, AnswerFault> {
    let mut answers = Notation::new(alloc);
    let mut rest = input;
    for _ in 0..input.len() {
        let Some((case, after)) = first_case(rest) else {
            break;
        };
        let mut answer = Notation::new(alloc);
        put_answer(alloc, case, &mut answer)?;
        let length = answer.bytes().len();
        let head = format!(in alloc; "{length:08}")?;
        answers.put(head.as_bytes())?;
        answers.put(answer.bytes())?;
        answers.put(b"\n")?;
        rest = after;
    }
    Ok(answers)
}
