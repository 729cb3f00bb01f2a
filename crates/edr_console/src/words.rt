//! What the words after the program's name ask for.
ghost use Rattle.std.specs.Prelude.{◌≡◌, ◌≤◌, map, option_map, MatchOption, IfOk, OnErr, IfSome, true, false};
ghost use Rattle.std.specs.List.{list_all};
ghost use Rattle.std.specs.Str.{is_utf8};
ghost use Rattle.clap.specs.Words.{app_of, found_of, first_of, rows_of, with_rule};
ghost use Rattle.edr_console.specs.Words as spelled;
ghost use Rattle.edr_console.specs.Words.{all_words, asked_of};
ghost use Rattle.edr_console.specs.Settled.{AreWithin, IsWithin, TakesMemory};

use crate::limits::{
    CONNECTION_LIMIT, DEFAULT_IDLE, DEFAULT_PAUSE, DEFAULT_REQUESTS, DEFAULT_WORKERS, ENDLESS,
    IDLE_LIMIT, PAUSE_LIMIT, PORT_LIMIT, REQUEST_LIMIT, WORKER_LIMIT,
};
use clap::error::ErrorKind;
use clap::{Arg, ArgAction, ArgMatches, Command, Error};
use edr_base::{OutOfMemory, Text};
use edr_program::number_of;
use std::alloc::{AllocError, Global};

/// How the words ask the daemon to serve.
#[derive(Drop)]
pub struct Settings {
    /// The name of the feed's file.
    pub feed: Text,
    pub port: u16,
    pub workers: usize,
    /// How many seconds pass before each publish.
    pub every: u32,
    /// How many connections each worker serves at most; 0 is no end.
    pub connections: u64,
    /// How many seconds a connection may be idle, before the first byte of a head.
    pub idle: u32,
    /// How many requests a connection may have.
    pub requests: u32,
    /// Whether the last edition alone is served.
    pub last: bool,
}

/// What the words ask for.
#[derive(Drop)]
pub enum Asked {
    /// They are refused.
    Nothing,
    /// To be told how the daemon is asked.
    Help,
    /// To be told its version.
    Version,
    /// To serve.
    Serve(Settings),
}

// The words behind the name of the program; None where one isn't UTF-8.
fn texts_of<'a>(alloc: Global, words: &'a [Text]) -> Result<Option<Vec<&'a str>>, OutOfMemory>
    ensures { IfOk result (λ texts. MatchOption texts (list_all is_utf8 words.now ≡ false)
        (λ texts. (list_all is_utf8 words.now ≡ true) × (map (λ text. text.now) texts.items ≡ all_words words.now))) }
{
    let mut texts = Vec::new(alloc);
    texts.push("edrd")?;
    for word in words {
        match str::from_utf8(word.bytes()) {
            Ok(text) => texts.push(text)?,
            Err(_) => return Ok(None),
        }
    }
    Ok(Some(texts))
}

// The command with its feed.
fn feed_command<'a>(alloc: Global) -> Result<Command<'a>, AllocError>
    ensures { IfOk result (λ command. app_of command ≡ spelled.feed_command) }
{
    Command::new(alloc, "edrd").arg(Arg::new(alloc, "feed").required(true))
}

// The command with what it needs.
fn bare_command<'a>(alloc: Global) -> Result<Command<'a>, AllocError>
    ensures { IfOk result (λ command. app_of command ≡ spelled.bare_command) }
{
    feed_command(alloc)?.arg(Arg::new(alloc, "port").long("port").required(true))
}

// A command with one more option of one value.
fn with_option<'a>(
    alloc: Global,
    command: Command<'a>,
    name: &'a str,
) -> Result<Command<'a>, AllocError>
    ensures { IfOk result (λ more. app_of more ≡ with_rule (app_of command.entry) (spelled.option_rule name.now)) }
{
    command.arg(Arg::new(alloc, name).long(name))
}

// A command with one more flag.
fn with_flag<'a>(
    alloc: Global,
    command: Command<'a>,
    name: &'a str,
) -> Result<Command<'a>, AllocError>
    ensures { IfOk result (λ more. app_of more ≡ with_rule (app_of command.entry) (spelled.flag_rule name.now)) }
{
    command.arg(Arg::new(alloc, name).long(name).action(ArgAction::SetTrue))
}

// The command with how it serves.
fn serving_command<'a>(alloc: Global) -> Result<Command<'a>, AllocError>
    ensures { IfOk result (λ command. app_of command ≡ spelled.serving_command) }
{
    let command = with_option(alloc, bare_command(alloc)?, "workers")?;
    let command = with_option(alloc, command, "every")?;
    with_option(alloc, command, "connections")
}

// The command.
fn command<'a>(alloc: Global) -> Result<Command<'a>, AllocError>
    ensures { IfOk result (λ command. app_of command ≡ spelled.command) }
{
    let command = with_option(alloc, serving_command(alloc)?, "idle")?;
    let command = with_option(alloc, command, "requests")?;
    with_flag(alloc, command, "last")
}

// The number that a word writes, where it lies between two limits.
fn number_within(least: u64, most: u64, word: &str) -> Option<u64>
    ensures is { result ≡ spelled.number_within least most word.now }
    ensures within { IfSome result (λ number. (least ≤ number) × (number ≤ most)) }
{
    match number_of(word.as_bytes()) {
        Some(number) if least <= number && number <= most => Some(number),
        _ => None,
    }
}

// The same of a word that may be left out.
fn number_or(other: u64, least: u64, most: u64, word: Option<&str>) -> Option<u64>
    requires { (least ≤ other) × (other ≤ most) }
    ensures is { result ≡ spelled.number_or other least most (option_map (λ word. word.now) word.entry) }
    ensures within { IfSome result (λ number. (least ≤ number) × (number ≤ most)) }
{
    match word {
        Some(word) => number_within(least, most, word),
        None => Some(other),
    }
}

// Whether a flag stands, by its text.
fn is_true(word: Option<&str>) -> bool
    ensures { result ≡ spelled.is_true (option_map (λ word. word.now) word.entry) }
{
    match word {
        Some(word) => word == "true",
        None => false,
    }
}

// The text of an argument.
fn text_in<'a>(matches: &ArgMatches<'a>, name: &str) -> Option<&'a str>
    ensures { option_map (λ word. word.now) result ≡ first_of name.now (rows_of (found_of matches.now)) }
{
    matches.get_str(name)
}

// What is asked for where the command took the words.
fn settings_in(alloc: Global, matches: &ArgMatches<'_>) -> Result<Option<Settings>, OutOfMemory>
    ensures is { IfOk result (λ settings. settings ≡ spelled.settings_in (rows_of (found_of matches.now))) }
    ensures within { IfOk result (λ settings. IfSome settings IsWithin) }
{
    let (Some(feed), Some(port)) = (text_in(matches, "feed"), text_in(matches, "port")) else {
        return Ok(None);
    };
    let Some(port) = number_within(0, PORT_LIMIT, port) else {
        return Ok(None);
    };
    let workers = text_in(matches, "workers");
    let Some(workers) = number_or(DEFAULT_WORKERS, 1, WORKER_LIMIT, workers) else {
        return Ok(None);
    };
    let every = text_in(matches, "every");
    let Some(every) = number_or(DEFAULT_PAUSE, 0, PAUSE_LIMIT, every) else {
        return Ok(None);
    };
    let connections = text_in(matches, "connections");
    let Some(connections) = number_or(ENDLESS, 0, CONNECTION_LIMIT, connections) else {
        return Ok(None);
    };
    let Some(idle) = number_or(DEFAULT_IDLE, 1, IDLE_LIMIT, text_in(matches, "idle")) else {
        return Ok(None);
    };
    let requests = text_in(matches, "requests");
    let Some(requests) = number_or(DEFAULT_REQUESTS, 1, REQUEST_LIMIT, requests) else {
        return Ok(None);
    };
    Ok(Some(Settings {
        feed: Text::of(alloc, feed.as_bytes())?,
        port: port as u16,
        workers: workers as usize,
        every: every as u32,
        connections,
        idle: idle as u32,
        requests: requests as u32,
        last: is_true(text_in(matches, "last")),
    }))
}

// What words that are UTF-8 ask for, behind the name of the program.
fn parsed<'a>(alloc: Global, texts: &'a [&'a str]) -> Result<Option<Settings>, OutOfMemory>
    ensures is { IfOk result (λ settings. settings ≡ asked_of spelled.command (map (λ text. text.now) texts.now)) }
    ensures within { IfOk result (λ settings. IfSome settings IsWithin) }
{
    match command(alloc)?.try_get_matches_from(texts) {
        Ok(matches) => settings_in(alloc, &matches),
        Err(error) => match error.kind() {
            ErrorKind::OutOfMemory => Err(OutOfMemory),
            _ => Ok(None),
        },
    }
}

// How the words ask the daemon to serve, and `None` where they are refused: one isn't UTF-8, the command doesn't take them, or a
// number lies outside its limits.
fn settings_by(alloc: Global, words: &[Text]) -> Result<Option<Settings>, OutOfMemory>
    ensures is { IfOk result (λ settings. settings ≡ spelled.settings_by words.now) }
    ensures within { IfOk result (λ settings. IfSome settings IsWithin) }
{
    match texts_of(alloc, words)? {
        Some(texts) => parsed(alloc, &texts),
        None => Ok(None),
    }
}

// Whether the words are this one alone.
fn is_alone(word: &[u8], words: &[Text]) -> bool
    ensures { result ≡ spelled.is_alone word.now words.now }
{
    match words {
        [one] => one.bytes() == word,
        _ => false,
    }
}

/// What the words after the program's name ask for. `--help` and `--version` alone take no memory.
pub fn asked_by(alloc: Global, words: &[Text]) -> Result<Asked, OutOfMemory>
    ensures is { IfOk result (λ asked. asked ≡ spelled.asked_by words.now) }
    ensures within { IfOk result AreWithin }
    ensures memory { OnErr result (TakesMemory (spelled.asked_by words.now)) }
{
    if is_alone(b"--help", words) {
        return Ok(Asked::Help);
    }
    if is_alone(b"--version", words) {
        return Ok(Asked::Version);
    }
    match settings_by(alloc, words)? {
        Some(settings) => Ok(Asked::Serve(settings)),
        None => Ok(Asked::Nothing),
    }
}
