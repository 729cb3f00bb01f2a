//! Plain texts of JSON, read to trees past the JSON library's tokens. None says that a text isn't plain, or that memory was
//! wanting: then it is read over those tokens.
ghost use Rattle.std.specs.Prelude.{◌≡◌, ◌<◌, ◌≤◌, ℕ, length, map, Some, IfSome};
ghost use Rattle.json.specs.Json.{parse_map};
ghost use Rattle.serde_json.specs.Data.{array};
ghost use Rattle.serde_json.specs.Read.{read as read_text};
ghost use Rattle.edr_samples.specs.Tokens.{sample_data};
ghost use Rattle.edr_samples.specs.Trees.{tree_view, items_view, members_view};
ghost use Rattle.edr_samples.specs.Turns.{items_onto};
ghost use Rattle.edr_samples.specs.Turns as turns;

use crate::plain::Plain;
use crate::samples::Samples;
use crate::trees::{MAX_DEPTH, Tree};
use crate::unpacking::unpacked;
use serde_json::{Map, Number};
use std::alloc::Global;

// The tree of a plain text.
pub(crate) fn plain_tree(alloc: Global, text: &[u8]) -> Option<Tree>
    ensures { IfSome result (λ tree. read_text text.now ≡ Some (tree_view tree)) }
{
    let mut plain = Plain::new(text);
    let tree = next_tree(alloc, &mut plain, MAX_DEPTH)?;
    if plain.is_done() { Some(tree) } else { None }
}

#[cycle(plain)]
#[inline(always)]
fn next_tree(alloc: Global, plain: &mut Plain<'_>, depth: usize) -> Option<Tree>
    ensures tree { IfSome result (λ tree. turns.data_from depth plain.old ≡ Some (tree_view tree, plain.new)) }
    ensures shorter { IfSome result (λ _. length plain.new < length plain.old) }
{
    match plain.byte() {
        b'"' => text_tree(alloc, plain),
        b'[' => {
            if depth == 0 || !plain.take_begin_array() {
                return None;
            }
            list_from(alloc, plain, depth - 1)
        }
        b'{' => {
            if depth == 0 || !plain.take_begin_object() {
                return None;
            }
            Some(Tree::Object(members_from(alloc, plain, depth - 1)?))
        }
        b'n' => null_tree(plain),
        _ => number_tree(plain),
    }
}

#[inline(always)]
fn text_tree(alloc: Global, plain: &mut Plain<'_>) -> Option<Tree>
    ensures tree { IfSome result (λ tree. (depth : ℕ) → turns.data_from depth plain.old ≡ Some (tree_view tree, plain.new)) }
    ensures shorter { IfSome result (λ _. length plain.new < length plain.old) }
{
    let text = plain.take_text()?;
    match String::from_str(alloc, text) {
        Ok(text) => Some(Tree::Text(text)),
        Err(_) => None,
    }
}

#[inline(always)]
fn null_tree(plain: &mut Plain<'_>) -> Option<Tree>
    ensures tree { IfSome result (λ tree. (depth : ℕ) → turns.data_from depth plain.old ≡ Some (tree_view tree, plain.new)) }
    ensures shorter { IfSome result (λ _. length plain.new < length plain.old) }
{
    if plain.take_null() {
        Some(Tree::Null)
    } else {
        None
    }
}

#[inline(always)]
fn number_tree(plain: &mut Plain<'_>) -> Option<Tree>
    ensures tree { IfSome result (λ tree. (depth : ℕ) → turns.data_from depth plain.old ≡ Some (tree_view tree, plain.new)) }
    ensures shorter { IfSome result (λ _. length plain.new < length plain.old) }
{
    let whole = plain.take_whole()?;
    Some(Tree::Number(Number::from(whole)))
}

// The list whose bracket was taken: packed, until an item is no sample that has a code.
#[cycle(plain)]
#[inline(never)]
fn list_from(alloc: Global, plain: &mut Plain<'_>, depth: usize) -> Option<Tree>
    ensures list { IfSome result (λ tree. parse_map array (turns.items_from depth (length plain.old) plain.old) ≡ Some (tree_view tree, plain.new)) }
    ensures shorter { IfSome result (λ _. length plain.new < length plain.old) }
{
    let mut samples = Samples::new(alloc);
    'samples: while !plain.take_end_array() {
        let Some(code) = plain.take_code() else {
            let found = mixed_from(alloc, plain, depth, &samples)?;
            return Some(Tree::Items(found));
        };
        let Ok(_) = samples.push(code) else {
            return None;
        };
    }
    Some(Tree::Samples(samples))
}

// The list that begins with these samples.
#[cycle(plain)]
#[inline(never)]
fn mixed_from(
    alloc: Global,
    plain: &mut Plain<'_>,
    depth: usize,
    samples: &Samples,
) -> Option<Vec<Tree>>
    ensures list { IfSome result (λ v. (n : ℕ) → length plain.old ≤ n
        → parse_map (items_onto (map sample_data samples.now)) (turns.items_from depth n plain.old)
        ≡ Some (items_view v.items, plain.new)) }
    ensures shorter { IfSome result (λ _. length plain.new < length plain.old) }
{
    let Ok(mut found) = unpacked(alloc, samples.codes()) else {
        return None;
    };
    'items: while !plain.take_end_array() {
        let item = next_tree(alloc, plain, depth)?;
        let Ok(_) = found.push(item) else {
            return None;
        };
    }
    Some(found)
}

// The members of the object whose brace was taken.
#[cycle(plain)]
#[inline(never)]
fn members_from(alloc: Global, plain: &mut Plain<'_>, depth: usize) -> Option<Map<String, Tree>>
    ensures object { IfSome result (λ m. turns.members_from depth plain.old ≡ Some (members_view m.entries, plain.new)) }
    ensures shorter { IfSome result (λ _. length plain.new < length plain.old) }
{
    let mut found = Map::new(alloc);
    'members: while let Some(name) = plain.next_key()? {
        let Ok(key) = String::from_str(alloc, name) else {
            return None;
        };
        let member = next_tree(alloc, plain, depth)?;
        let Ok(before) = found.insert(key, member) else {
            return None;
        };
        drop(before);
    }
    Some(found)
}
