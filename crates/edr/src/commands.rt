//! The commands, and the words that ask for them.
ghost use Rattle.std.specs.Prelude.{◌≡◌, true, option_map, IfSome, IsUtf8, [], ◌∷◌};
ghost use Rattle.std.specs.Str.{is_utf8};
ghost use Rattle.edr.specs.Commands.{Asked, asked_by, numbered};
ghost use Rattle.edr.specs.Naming.{IsNamed};

use edr_base::{Text, is_utf8};
use edr_program::number_of;

/// What the program can be asked to do.
#[derive(Clone, Copy, Debug, PartialEq, Eq)]
pub enum Command {
    /// `ask TARGET`: answers a target from the last edition of the feed on the input.
    Ask,
    /// `replay FEED`: serves the input as one connection, from the first edition of the feed in a file; true of
    /// `replay FEED --advance`, where each request but the first has the feed's next edition.
    Replay(bool),
    /// `check`: tells how many editions the feed on the input has; true first of `--summary`, which tells what each of them has,
    /// and then of `--why`, which explains where there is none.
    Check(bool, bool),
    /// `make NUMBER`: writes the feed that is made of this number.
    Make(u64),
    /// `work NUMBER`: makes the feed of this number and reads it, and tells of its edition and of the answers to four targets.
    Work(u64),
    /// `show`: writes the table of the document on the input; true of `--why`, which explains where there is none.
    Show(bool),
    /// `fetch URL`: asks the server that the URL names, and writes the table of the document that it replies; true of `--why`,
    /// which explains where there is none.
    Fetch(bool),
    /// `import`: writes the feed of the table on the input.
    Import,
    /// `export TARGET`: answers a target from the last edition of the feed on the input, with the table of the values.
    Export,
    /// `--help`: tells how the program is used.
    Help,
    /// `--version`: tells the version.
    Version,
}

// Whether a word can be the name of a file.
fn is_name(word: &[u8]) -> bool
    ensures is { result ≡ is_utf8 word.now }
    ensures named { result ≡ true → IsUtf8 word.now }
{
    is_utf8(word)
}

// What a word alone asks for.
fn asked_alone(word: &[u8]) -> Option<(Command, &'static [u8])>
    ensures asked { option_map (λ asked. record { command = asked.0; argument = asked.1.now }) result ≡ asked_by (word.now ∷ []) }
    ensures named { IfSome result (λ asked. IsNamed asked.0 asked.1.now) }
{
    if word == b"check".as_slice() {
        Some((Command::Check(false, false), &[]))
    } else if word == b"show".as_slice() {
        Some((Command::Show(false), &[]))
    } else if word == b"import".as_slice() {
        Some((Command::Import, &[]))
    } else if word == b"--help".as_slice() {
        Some((Command::Help, &[]))
    } else if word == b"--version".as_slice() {
        Some((Command::Version, &[]))
    } else {
        None
    }
}

// The command that a word asks for with a number behind it.
fn numbered(word: &[u8], number: &[u8]) -> Option<Command>
    ensures { result ≡ numbered word.now number.now }
{
    let value = number_of(number)?;
    if word == b"make".as_slice() {
        Some(Command::Make(value))
    } else if word == b"work".as_slice() {
        Some(Command::Work(value))
    } else {
        None
    }
}

// What a word asks for with another one behind it, which may be what it goes by.
fn asked_with<'a>(word: &[u8], next: &'a [u8]) -> Option<(Command, &'a [u8])>
    ensures asked { option_map (λ asked. record { command = asked.0; argument = asked.1.now }) result ≡ asked_by (word.now ∷ next.now ∷ []) }
    ensures named { IfSome result (λ asked. IsNamed asked.0 asked.1.now) }
{
    if word == b"ask".as_slice() {
        Some((Command::Ask, next))
    } else if word == b"replay".as_slice() && is_name(next) {
        Some((Command::Replay(false), next))
    } else if word == b"check".as_slice() && next == b"--summary".as_slice() {
        Some((Command::Check(true, false), &[]))
    } else if word == b"check".as_slice() && next == b"--why".as_slice() {
        Some((Command::Check(false, true), &[]))
    } else if word == b"show".as_slice() && next == b"--why".as_slice() {
        Some((Command::Show(true), &[]))
    } else if word == b"fetch".as_slice() {
        Some((Command::Fetch(false), next))
    } else if word == b"export".as_slice() {
        Some((Command::Export, next))
    } else {
        let command = numbered(word, next)?;
        Some((command, &[]))
    }
}

// What three words ask for.
fn asked_of_three<'a>(word: &[u8], next: &'a [u8], more: &[u8]) -> Option<(Command, &'a [u8])>
    ensures asked { option_map (λ asked. record { command = asked.0; argument = asked.1.now }) result ≡ asked_by (word.now ∷ next.now ∷ more.now ∷ []) }
    ensures named { IfSome result (λ asked. IsNamed asked.0 asked.1.now) }
{
    if word == b"replay".as_slice() && is_name(next) && more == b"--advance".as_slice() {
        Some((Command::Replay(true), next))
    } else if word == b"check".as_slice()
        && next == b"--summary".as_slice()
        && more == b"--why".as_slice()
    {
        Some((Command::Check(true, true), &[]))
    } else if word == b"fetch".as_slice() && more == b"--why".as_slice() {
        Some((Command::Fetch(true), next))
    } else {
        None
    }
}

/// The command that the words ask for, and the word behind it where it goes by one; None where they are none of the
/// commands'. Whether a word is a URL isn't looked at. It takes no memory.
pub fn asked_by(words: &[Text]) -> Option<(Command, &[u8])>
    ensures asked { option_map (λ asked. record { command = asked.0; argument = asked.1.now }) result ≡ asked_by words.now }
    ensures named { IfSome result (λ asked. IsNamed asked.0 asked.1.now) }
{
    match words {
        [word] => asked_alone(word.bytes()),
        [word, next] => asked_with(word.bytes(), next.bytes()),
        [word, next, more] => asked_of_three(word.bytes(), next.bytes(), more.bytes()),
        _ => None,
    }
}
