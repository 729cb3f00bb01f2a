//! The trees of texts, times and samples, and members of objects.
ghost use Rattle.std.specs.Prelude.{◌≡◌, ◌++◌, ◌∷◌, [], codes, map, IfOk, OnOk, IsUtf8, option_map};
ghost use Rattle.serde_json.specs.Data.{string, object, no_members, member, put};
ghost use Rattle.serde_json.specs.View.{view, members_view};
ghost use Rattle.edr_axes.specs.Instants.{IsTime, instant_text};
ghost use Rattle.covjson_value.specs.Trees.{sample_data, array_of};
ghost use Rattle.covjson_value.specs.Puts.{put_if};

use edr_axes::{times_are_written, write_instant};
use edr_base::OutOfMemory;
use serde_json::{Map, Value};
use std::alloc::Global;
use std::str;

/// The text that some bytes of UTF-8 are.
pub fn text_of(bytes: &[u8]) -> &str
    requires { IsUtf8 bytes.now }
    ensures { result.now ≡ bytes.now }
{
    match str::from_utf8(bytes) {
        Ok(text) => text,
        Err(_) => unreachable!(),
    }
}

/// A time, as its text. It is in seconds since 1970-01-01T00:00:00Z.
pub fn time_tree(alloc: Global, time: i64) -> Result<Value, OutOfMemory>
    requires { IsTime time }
    ensures { IfOk result (λ v. view v ≡ string (instant_text time)) }
{
    times_are_written();
    let bytes = write_instant(time);
    Ok(Value::try_from_str(alloc, text_of(&bytes))?)
}

fn sample_tree(sample: Option<i64>) -> Value
    ensures { view result ≡ sample_data sample }
{
    match sample {
        Some(value) => Value::from(value),
        None => Value::Null,
    }
}

/// Puts a tree behind others.
pub fn push_tree(trees: &mut Vec<Value>, tree: Value) -> Result<(), OutOfMemory>
    ensures { OnOk result (map view trees.new.items ≡ map view trees.old.items ++ view tree ∷ []) }
{
    Ok(trees.push(tree)?)
}

/// Puts a text behind other trees.
pub fn push_text(trees: &mut Vec<Value>, alloc: Global, text: &str) -> Result<(), OutOfMemory>
    ensures { OnOk result (map view trees.new.items ≡ map view trees.old.items ++ string text.now ∷ []) }
{
    push_tree(trees, Value::try_from_str(alloc, text)?)
}

/// Puts a list of samples, with null where one is absent.
pub fn put_samples(
    members: &mut Map<String, Value>,
    alloc: Global,
    samples: &[Option<i64>],
) -> Result<(), OutOfMemory>
    ensures { OnOk result (members_view members.new.entries
        ≡ put (codes "values") (array_of sample_data samples.now) (members_view members.old.entries)) }
{
    let mut items = Vec::with_capacity(alloc, samples.len())?;
    for sample in samples {
        push_tree(&mut items, sample_tree(*sample))?;
    }
    put_tree(members, alloc, "values", Value::Array(items))
}

/// An object of one member.
pub fn only_member(alloc: Global, key: &str, tree: Value) -> Result<Value, OutOfMemory>
    ensures { IfOk result (λ v. view v ≡ object (member key.now (view tree) no_members)) }
{
    let mut members = Map::new(alloc);
    put_tree(&mut members, alloc, key, tree)?;
    Ok(Value::Object(members))
}

/// Puts a member.
pub fn put_tree(
    members: &mut Map<String, Value>,
    alloc: Global,
    key: &str,
    tree: Value,
) -> Result<(), OutOfMemory>
    ensures { OnOk result (members_view members.new.entries
        ≡ put key.now (view tree) (members_view members.old.entries)) }
{
    Ok(serde_json::put(members, alloc, key, tree)?)
}

/// The object of some members, and of the one that tells its type.
pub fn typed_object(
    mut members: Map<String, Value>,
    alloc: Global,
    kind: &str,
) -> Result<Value, OutOfMemory>
    ensures { IfOk result (λ v. view v ≡ object (put (codes "type") (string kind.now) (members_view members.entries))) }
{
    put_text(&mut members, alloc, "type", kind)?;
    Ok(Value::Object(members))
}

/// Puts a member that is a text.
pub fn put_text(
    members: &mut Map<String, Value>,
    alloc: Global,
    key: &str,
    text: &str,
) -> Result<(), OutOfMemory>
    ensures { OnOk result (members_view members.new.entries
        ≡ put key.now (string text.now) (members_view members.old.entries)) }
{
    put_tree(members, alloc, key, Value::try_from_str(alloc, text)?)
}

/// Puts a member where its value is given.
pub fn put_given(
    members: &mut Map<String, Value>,
    alloc: Global,
    key: &str,
    tree: Option<Value>,
) -> Result<(), OutOfMemory>
    ensures { OnOk result (members_view members.new.entries
        ≡ put_if key.now (option_map view tree) (members_view members.old.entries)) }
{
    match tree {
        Some(tree) => put_tree(members, alloc, key, tree),
        None => Ok(()),
    }
}
