//! Lists of words: found, set and taken out by their ids, and shared.
use crate::cases::{Cases, are_right};
use edr_base::OutOfMemory;
use edr_ids::{ById, Identified};
use std::alloc::Global;
use std::rt::HostRuntime;

#[derive(Clone, Copy)]
struct Word(&'static str, usize);

impl Identified for Word {
    ghost id_of = { λ word. word.0.now };

    fn id(&self) -> &[u8] {
        self.0.as_bytes()
    }
}

// Words set one after another, numbered in that order, but for those for which memory is wanting.
fn words(alloc: Global, ids: &'static str) -> ById<Word> {
    let mut items = ById::empty();
    for (number, id) in ids.split(' ').enumerate() {
        let _ = items.put(alloc, Word(id, number));
    }
    items
}

fn number_of(items: &ById<Word>, id: &str) -> Option<usize> {
    match items.item_of(id.as_bytes()) {
        Some(word) => Some(word.1),
        None => None,
    }
}

fn is_word(word: &Word, text: &str) -> bool {
    match text.strip_prefix(word.0) {
        Some(number) => number.parse::<usize>().ok() == Some(word.1),
        None => false,
    }
}

// Whether a list has these words in this order, each with its number; `-` are none.
fn are_words(items: &ById<Word>, texts: &str) -> bool {
    let mut place = 0;
    for text in texts.split(' ') {
        if text != "-" {
            if place >= items.len() || !is_word(items.at(place), text) {
                return false;
            }
            place += 1;
        }
    }
    place == items.len()
}

// Words that are set in turn and an id: the number of its word, and the words when it is taken out.
const TABLE: &str = "\
d b f/a => none b1 d0 f2
d b f/b => 1 d0 f2
d b f/bb => none b1 d0 f2
d b f/d => 0 b1 f2
d b f/e => none b1 d0 f2
d b f/f => 2 b1 d0
d b f/~ => none b1 d0 f2
d b f/ => none b1 d0 f2
b d a/x => none a2 b0 d1
b bb c/b => 0 bb1 c2
b d b/x => none b2 d1
b b b/b => 2 -
a b c d e f g h/d => 3 a0 b1 c2 e4 f5 g6 h7
h g f e d c b a/d => 4 a7 b6 c5 e3 f2 g1 h0
a h b g c f d e/f => 5 a0 b2 c4 d6 e7 g3 h1
a b c d e f g h c/a => 0 b1 c8 d3 e4 f5 g6 h7
";

// Whether an id has this number, and is taken out so of a list, and not of its copy.
fn is_taken_out(
    alloc: Global,
    items: &mut ById<Word>,
    id: &str,
    number: Option<usize>,
    left: &str,
) -> Result<bool, OutOfMemory> {
    let copy = items.share()?;
    let found = number_of(items, id);
    let was = items.take_out(alloc, id.as_bytes())?;
    Ok(
        found == number
            && was == number.is_some()
            && number_of(&copy, id) == number
            && are_words(items, left),
    )
}

/// Whether this becomes of words and an id.
pub fn is_answered(alloc: Global, asked: &'static str, answer: &str) -> bool {
    let (ids, id) = asked.split_once('/').unwrap_or((asked, ""));
    let (number, left) = answer.split_once(' ').unwrap_or((answer, ""));
    let mut items = words(alloc, ids);
    is_taken_out(alloc, &mut items, id, number.parse::<usize>().ok(), left) == Ok(true)
}

// Whether a copy stays as it is where a word of its list is set anew, and one that wasn't there.
fn copy_stays(alloc: Global, items: &mut ById<Word>) -> bool {
    match items.share() {
        Ok(copy) => {
            items.put(alloc, Word("b", 7)).is_ok()
                && items.put(alloc, Word("e", 8)).is_ok()
                && are_words(&copy, "b1 d0 f2")
                && are_words(items, "b7 d0 e8 f2")
        }
        Err(_) => false,
    }
}

/// Whether a type can be sent to threads and shared by them is looked at where this is compiled.
pub fn is_shared_by_threads<T: Send + Sync + Drop>(_: &T) {}

// Whether a copy stays as it is; lists are shared by threads.
fn stays(alloc: Global) -> bool {
    let mut items = words(alloc, "d b f");
    is_shared_by_threads(&items);
    copy_stays(alloc, &mut items)
}

#[test]
fn found_set_taken_out_and_shared(rt: HostRuntime) {
    are_right(&rt, rt.alloc(), Cases::Ids, TABLE);
    assert!(rt; stays(rt.alloc()));
}
