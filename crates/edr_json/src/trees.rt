//! What is asked of trees of JSON everywhere: members and their texts, and whole numbers.
ghost use Rattle.std.specs.Prelude.{◌≡◌, option_map};
ghost use Rattle.edr_samples.specs.Trees.{list_view, tree_view};
ghost use Rattle.serde_json.specs.Find.{get, as_str};
ghost use Rattle.edr_json.specs.Trees.{text_or_empty, text_in, has_members, natural_of, whole_of, is_text, count_items};

use edr_samples::{List, Tree};

/// The text of the member of a name, or the empty text where it has none.
pub fn text_or_empty<'a>(tree: &'a Tree, name: &str) -> &'a str
    ensures { result.now ≡ text_or_empty (get name.now (tree_view tree.now)) }
{
    match tree.get(name) {
        Some(found) => match found.as_str() {
            Some(text) => text,
            None => "",
        },
        None => "",
    }
}

/// The text of the member of a name, where it is one.
pub fn text_in<'a>(tree: &'a Tree, name: &str) -> Option<&'a str>
    ensures { option_map (λ s. s.now) result ≡ text_in name.now (tree_view tree.now) }
{
    match tree.get(name) {
        Some(found) => found.as_str(),
        None => None,
    }
}

/// Whether the tree is an object of so many members.
pub fn has_members(tree: &Tree, count: usize) -> bool
    ensures { result ≡ has_members count (tree_view tree.now) }
{
    match tree.as_object() {
        Some(members) => members.len() == count,
        None => false,
    }
}

/// The number that is held as a whole number, where the item is one.
pub fn whole_of(item: &Tree) -> Option<i128>
    ensures { result ≡ whole_of (tree_view item.now) }
{
    match item.as_number() {
        Some(number) => number.as_i128(),
        None => None,
    }
}

/// The number that is held as a whole number from 0, where the item is one.
pub fn natural_of(item: &Tree) -> Option<u64>
    ensures { result ≡ natural_of (tree_view item.now) }
{
    match item.as_number() {
        Some(number) => number.as_u64(),
        None => None,
    }
}

/// Whether a value is that text.
pub fn is_text(item: &Tree, text: &str) -> bool
    ensures { result ≡ is_text text.now (as_str (tree_view item.now)) }
{
    match item.as_str() {
        Some(found) => found == text,
        None => false,
    }
}

/// How many items a list has.
pub fn count_items(list: List<'_>) -> usize
    ensures { result ≡ count_items (list_view list.entry) }
{
    match list {
        List::Samples(samples) => samples.len(),
        List::Items(items) => items.len(),
    }
}
