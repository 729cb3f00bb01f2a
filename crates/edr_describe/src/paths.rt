//! Links to pages.
ghost use Rattle.std.specs.Prelude.{◌≡◌, ◌++◌, ◌∷◌, codes, None, Some, IfOk, OnOk, option_map, string_bytes};
ghost use Rattle.percent_encoding.specs.Percent.{percent_encode as escaped};
ghost use Rattle.serde_json.specs.Data.{object, no_members, member};
ghost use Rattle.serde_json.specs.View.{view};
ghost use Rattle.edr_query.specs.declared.addresses.TheConstants.{ID_SET as IDS};
ghost use Rattle.edr_describe.specs.Descriptions.{link_data};
ghost use Rattle.edr_describe.specs.Describing.{data_path, linked};

use covjson_value::{only_member, put_text};
use edr_base::OutOfMemory;
use edr_query::ID_SET;
use percent_encoding::percent_encode;
use serde_json::{Map, Value};
use std::alloc::Global;

// Puts a part behind a path: a slash, and the part with its bytes escaped.
fn push_part(path: &mut String, part: &[u8]) -> Result<(), OutOfMemory>
    ensures { OnOk result (string_bytes path.new ≡ string_bytes path.old ++ 47 ∷ escaped IDS part.now) }
{
    path.push('/')?;
    percent_encode(part, ID_SET).append_to(path)?;
    Ok(())
}

// Puts two parts behind a path.
fn push_parts(path: &mut String, first: &[u8], second: &[u8]) -> Result<(), OutOfMemory>
    ensures { OnOk result (string_bytes path.new ≡ (string_bytes path.old ++ 47 ∷ escaped IDS first.now) ++ 47 ∷ escaped IDS second.now) }
{
    push_part(path, first)?;
    push_part(path, second)
}

// The path of a collection.
fn collection_path(alloc: Global, collection: &[u8]) -> Result<String, OutOfMemory>
    ensures { IfOk result (λ path. string_bytes path ≡ data_path collection.now None) }
{
    let mut path = String::new(alloc);
    push_parts(&mut path, b"collections", collection)?;
    Ok(path)
}

// The path of an instance of a collection.
fn instance_path(alloc: Global, collection: &[u8], instance: &[u8]) -> Result<String, OutOfMemory>
    ensures { IfOk result (λ path. string_bytes path ≡ data_path collection.now (Some instance.now)) }
{
    let mut path = collection_path(alloc, collection)?;
    push_parts(&mut path, b"instances", instance)?;
    Ok(path)
}

/// The path of a collection, or of an instance of it.
pub fn path_of_data(
    alloc: Global,
    collection: &[u8],
    instance: Option<&[u8]>,
) -> Result<String, OutOfMemory>
    ensures { IfOk result (λ path. string_bytes path ≡ data_path collection.now (option_map (λ id. id.now) instance.entry)) }
{
    match instance {
        Some(instance) => instance_path(alloc, collection, instance),
        None => collection_path(alloc, collection),
    }
}

/// A link by its relation.
pub fn link_tree(alloc: Global, href: &str, relation: &str) -> Result<Value, OutOfMemory>
    ensures { IfOk result (λ v. view v ≡ link_data href.now relation.now) }
{
    let mut members = Map::new(alloc);
    put_text(&mut members, alloc, "href", href)?;
    put_text(&mut members, alloc, "rel", relation)?;
    Ok(Value::Object(members))
}

// A path with one part more.
fn longer_path(alloc: Global, path: &str, name: &str) -> Result<String, OutOfMemory>
    ensures { IfOk result (λ longer. string_bytes longer ≡ path.now ++ 47 ∷ escaped IDS name.now) }
{
    let mut longer = String::new(alloc);
    longer.push_str(path)?;
    push_part(&mut longer, name.as_bytes())?;
    Ok(longer)
}

/// The link of a page of some data, by the last part of its path.
pub fn linked_tree(alloc: Global, path: &str, name: &str) -> Result<Value, OutOfMemory>
    ensures { IfOk result (λ v. view v ≡ linked (path.now ++ 47 ∷ escaped IDS name.now)) }
{
    let href = longer_path(alloc, path, name)?;
    let link = link_tree(alloc, href.as_str(), "data")?;
    only_member(alloc, "link", link)
}
