//! The commands, as the words after the program's name give them.
use crate::grids::Rows;
use crate::tiles::Samples;

/// What is to be done.
#[derive(Clone, Copy, Debug, PartialEq, Eq)]
pub enum Command {
    /// Reads well-known text.
    Wkt,
    /// Makes a grid.
    Make(Rows),
    /// Makes a grid and writes it so many times.
    Write(Rows, u32),
    /// Makes a grid and its tree, and writes the tree so many times.
    Tree(Rows, u32),
    /// Reads a document of CoverageJSON so many times.
    Read(u32),
    /// Reads a tree of JSON so many times.
    Parse(u32),
    /// Reads targets so many times.
    Targets(u32),
    /// Cuts and decodes the pairs of targets so many times.
    Pairs(u32),
    /// Answers the target that the second word is so many times.
    Answers(u32),
    /// Packs a grid and opens each of its tiles so many times.
    Tiles(Samples, u32),
}

fn rows_of(word: &String) -> Option<Rows> {
    match word.as_str().parse::<u32>() {
        Ok(count) => Rows::of_samples(count),
        Err(_) => None,
    }
}

fn rounds_of(word: &String) -> Option<u32> {
    word.as_str().parse::<u32>().ok()
}

/// The command that some words are, or None where they are none.
pub fn command_of(words: &[String]) -> Option<Command> {
    match words {
        [name] if name.as_str() == "wkt" => Some(Command::Wkt),
        [name, count] if name.as_str() == "make" => Some(Command::Make(rows_of(count)?)),
        [name, count, rounds] if name.as_str() == "write" => {
            Some(Command::Write(rows_of(count)?, rounds_of(rounds)?))
        }
        [name, count, rounds] if name.as_str() == "tree" => {
            Some(Command::Tree(rows_of(count)?, rounds_of(rounds)?))
        }
        [name, _, rounds] if name.as_str() == "answers" => {
            Some(Command::Answers(rounds_of(rounds)?))
        }
        [name, rounds] if name.as_str() == "tiles1" => {
            Some(Command::Tiles(Samples::OneDigit, rounds_of(rounds)?))
        }
        [name, rounds] if name.as_str() == "tiles5" => {
            Some(Command::Tiles(Samples::FiveDigits, rounds_of(rounds)?))
        }
        [name, rounds] if name.as_str() == "read" => Some(Command::Read(rounds_of(rounds)?)),
        [name, rounds] if name.as_str() == "targets" => Some(Command::Targets(rounds_of(rounds)?)),
        [name, rounds] if name.as_str() == "pairs" => Some(Command::Pairs(rounds_of(rounds)?)),
        [name, rounds] if name.as_str() == "parse" => Some(Command::Parse(rounds_of(rounds)?)),
        _ => None,
    }
}
