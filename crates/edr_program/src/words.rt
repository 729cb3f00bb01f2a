//! The words after the program's name.
use edr_base::{OutOfMemory, Text};
use std::alloc::Global;
use std::env::FillError;
use std::rt::Env;

// One word, and None past the last. The system passes no word of 64 MiB and more.
fn word_at<R: Env>(rt: &R, alloc: Global, place: usize) -> Result<Option<Text>, OutOfMemory> {
    for power in 8..27u32 {
        let mut buffer = vec![in alloc; 0u8; 1usize << power]?;
        match rt.arg(place, &mut buffer) {
            Ok(count) => {
                buffer.truncate(count);
                return Ok(Some(Text::from_vec(buffer)));
            }
            Err(FillError::NotPresent) => return Ok(None),
            Err(FillError::TooLong) => {}
        }
    }
    Err(OutOfMemory)
}

/// The words after the program's name, as bytes.
pub fn words_of<R: Env>(rt: &R, alloc: Global) -> Result<Vec<Text>, OutOfMemory> {
    let mut words = Vec::new(alloc);
    for place in 1..usize::MAX {
        match word_at(rt, alloc, place)? {
            Some(word) => words.push(word)?,
            None => break,
        }
    }
    Ok(words)
}
