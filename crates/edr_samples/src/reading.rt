//! Texts of JSON, read to trees in one pass over the tokens of the JSON library.
ghost use Rattle.std.specs.Prelude.{◌≡◌, ◌<◌, ◌≤◌, ℕ, ◌∷◌, List, length, map, Some, None, Err, IfOk, IsErrOf, OnOk, IsUtf8, MatchResult, option_map};
ghost use Rattle.json.specs.Json.{parse_map, after_end_array, read_key};
ghost use Rattle.json.specs.Reads.{token_of};
ghost use Rattle.json.specs.Token.{Token as SpecToken};
ghost use Rattle.serde_json.specs.Data.{array};
ghost use Rattle.serde_json.specs.Read.{read as read_text};
ghost use Rattle.edr_samples.specs.Tokens.{sample_data};
ghost use Rattle.edr_samples.specs.Trees.{tree_view, items_view, members_view};
ghost use Rattle.edr_samples.specs.Turns.{items_onto};
ghost use Rattle.edr_samples.specs.Turns as turns;

use crate::faults::JsonFault;
use crate::numbers::{code_in, number_of};
use crate::plain_reading::plain_tree;
use crate::samples::Samples;
use crate::trees::{MAX_DEPTH, Tree};
use crate::unpacking::unpacked;
use json::{Reader, Scratch, Token};
use serde_json::Map;
use std::alloc::Global;

/// The tree of a text of JSON (RFC 8259): the data that `serde_json` reads there. NotJson exactly where it reads none; or
/// OutOfMemory.
pub fn read_tree(alloc: Global, text: &[u8]) -> Result<Tree, JsonFault>
    ensures tree { IfOk result (λ tree. IsUtf8 text.now × (read_text text.now ≡ Some (tree_view tree))) }
    ensures none { IsErrOf result JsonFault.NotJson → IsUtf8 text.now → read_text text.now ≡ None }
{
    match simdutf8::compat::from_utf8(text) {
        Ok(text) => match plain_tree(alloc, text.as_bytes()) {
            Some(tree) => Ok(tree),
            None => whole_text(alloc, text),
        },
        Err(_) => Err(JsonFault::NotJson),
    }
}

fn whole_text(alloc: Global, text: &str) -> Result<Tree, JsonFault>
    ensures tree { IfOk result (λ tree. read_text text.now ≡ Some (tree_view tree)) }
    ensures none { result ≡ Err JsonFault.NotJson → read_text text.now ≡ None }
{
    let mut scratch = Scratch::new(alloc);
    let mut reader = Reader::new(text, &mut scratch)?;
    let tree = next_tree(alloc, &mut reader, MAX_DEPTH)?;
    if reader.next().is_some() {
        return Err(JsonFault::NotJson);
    }
    Ok(tree)
}

#[cycle(read)]
#[inline(always)]
fn next_tree(alloc: Global, reader: &mut Reader<'_>, depth: usize) -> Result<Tree, JsonFault>
    ensures ok { IfOk result (λ tree. turns.data_from depth reader.old ≡ Some (tree_view tree, reader.new)) }
    ensures shorter { OnOk result (length reader.new < length reader.old) }
    ensures not_json { result ≡ Err JsonFault.NotJson → turns.data_from depth reader.old ≡ None }
{
    let Some(token) = reader.next() else {
        return Err(JsonFault::NotJson);
    };
    tree_from(alloc, reader, token, depth)
}

// The tree that begins with a token, which was taken.
#[cycle(read)]
#[inline(always)]
fn tree_from(
    alloc: Global,
    reader: &mut Reader<'_>,
    token: Token<'_>,
    depth: usize,
) -> Result<Tree, JsonFault>
    ensures ok { IfOk result (λ tree. turns.data_from depth (token_of token.entry ∷ reader.old) ≡ Some (tree_view tree, reader.new)) }
    ensures shorter { OnOk result (length reader.new ≤ length reader.old) }
    ensures not_json { result ≡ Err JsonFault.NotJson → turns.data_from depth (token_of token.entry ∷ reader.old) ≡ None }
{
    match token {
        Token::String(text) => Ok(Tree::Text(String::from_str(alloc, text)?)),
        Token::Number(text) => match number_of(text) {
            Some(number) => Ok(Tree::Number(number)),
            None => Err(JsonFault::NotJson),
        },
        Token::Bool(b) => Ok(Tree::Bool(b)),
        Token::Null => Ok(Tree::Null),
        Token::EndObject | Token::EndArray | Token::Key(_) | Token::Bad => Err(JsonFault::NotJson),
        Token::BeginArray => {
            if depth == 0 {
                return Err(JsonFault::NotJson);
            }
            list_from(alloc, reader, depth - 1)
        }
        Token::BeginObject => {
            if depth == 0 {
                return Err(JsonFault::NotJson);
            }
            Ok(Tree::Object(members_from(alloc, reader, depth - 1)?))
        }
    }
}

// The list whose bracket was taken: packed, until an item is no sample that has a code.
#[cycle(read)]
#[inline(never)]
fn list_from(alloc: Global, reader: &mut Reader<'_>, depth: usize) -> Result<Tree, JsonFault>
    ensures ok { IfOk result (λ tree. parse_map array (turns.items_from depth (length reader.old) reader.old) ≡ Some (tree_view tree, reader.new)) }
    ensures shorter { OnOk result (length reader.new < length reader.old) }
    ensures not_json { result ≡ Err JsonFault.NotJson → turns.items_from depth (length reader.old) reader.old ≡ None }
{
    let mut samples = Samples::new(alloc);
    'samples: while !reader.take_end_array() {
        let Some(token) = reader.next() else {
            return Err(JsonFault::NotJson);
        };
        let Some(code) = code_in(token) else {
            let found = mixed_from(alloc, reader, token, depth, &samples)?;
            return Ok(Tree::Items(found));
        };
        samples.push(code)?;
    }
    Ok(Tree::Samples(samples))
}

// The first item of a list that isn't packed, whose token was taken. It isn't inlined, so that the code of `tree_from` stands
// once in `mixed_from`.
#[cycle(read)]
#[inline(never)]
fn first_from(
    alloc: Global,
    reader: &mut Reader<'_>,
    token: Token<'_>,
    depth: usize,
) -> Result<Tree, JsonFault>
    ensures ok { IfOk result (λ tree. turns.data_from depth (token_of token.entry ∷ reader.old) ≡ Some (tree_view tree, reader.new)) }
    ensures shorter { OnOk result (length reader.new ≤ length reader.old) }
    ensures not_json { result ≡ Err JsonFault.NotJson → turns.data_from depth (token_of token.entry ∷ reader.old) ≡ None }
{
    tree_from(alloc, reader, token, depth)
}

// The list that begins with these samples, then the item of a token, which was taken.
#[cycle(read)]
#[inline(never)]
fn mixed_from(
    alloc: Global,
    reader: &mut Reader<'_>,
    token: Token<'_>,
    depth: usize,
    samples: &Samples,
) -> Result<Vec<Tree>, JsonFault>
    requires { (ts : List SpecToken) → after_end_array (token_of token ∷ ts) ≡ None }
    ensures ok { IfOk result (λ v. (n : ℕ) → length reader.old < n
        → parse_map (items_onto (map sample_data samples.now)) (turns.items_from depth n (token_of token.entry ∷ reader.old))
        ≡ Some (items_view v.items, reader.new)) }
    ensures shorter { OnOk result (length reader.new < length reader.old) }
    ensures not_json { result ≡ Err JsonFault.NotJson → (n : ℕ) → length reader.old < n
        → turns.items_from depth n (token_of token.entry ∷ reader.old) ≡ None }
{
    let mut found = unpacked(alloc, samples.codes())?;
    let first = first_from(alloc, reader, token, depth)?;
    found.push(first)?;
    'items: while !reader.take_end_array() {
        let item = next_tree(alloc, reader, depth)?;
        found.push(item)?;
    }
    Ok(found)
}

// The name of the next member, or None at the brace that closes the object.
#[inline(always)]
fn next_name<'a>(reader: &mut Reader<'a>) -> Result<Option<&'a str>, JsonFault>
    ensures { MatchResult result (λ k. read_key reader.old ≡ Some (option_map (λ s. s.now) k, reader.new))
        (λ fault. (fault ≡ JsonFault.NotJson) × (read_key reader.old ≡ None)) }
{
    match reader.next_key() {
        Ok(name) => Ok(name),
        Err(_) => Err(JsonFault::NotJson),
    }
}

// The members of the object whose brace was taken.
#[cycle(read)]
#[inline(never)]
fn members_from(
    alloc: Global,
    reader: &mut Reader<'_>,
    depth: usize,
) -> Result<Map<String, Tree>, JsonFault>
    ensures ok { IfOk result (λ m. turns.members_from depth reader.old ≡ Some (members_view m.entries, reader.new)) }
    ensures shorter { OnOk result (length reader.new < length reader.old) }
    ensures not_json { result ≡ Err JsonFault.NotJson → turns.members_from depth reader.old ≡ None }
{
    let mut found = Map::new(alloc);
    'members: while let Some(name) = next_name(reader)? {
        let key = String::from_str(alloc, name)?;
        let member = next_tree(alloc, reader, depth)?;
        drop(found.insert(key, member)?);
    }
    Ok(found)
}
