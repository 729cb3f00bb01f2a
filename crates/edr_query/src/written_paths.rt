//! Writing the path of an address.
ghost use Rattle.std.specs.Prelude.{◌≡◌, ◌∷◌, ◌++◌, [], codes, IfOk, OnOk, string_bytes};
ghost use Rattle.edr_query.specs.declared.addresses.Address.TheVariants.{Query};
ghost use Rattle.edr_query.specs.Paths.{parts_of, path_text};
ghost use Rattle.edr_query.specs.PathReads.{with_parts, with_address};

use crate::addresses::{Address, ID_SET, QueryKind};
use edr_base::{OutOfMemory, Text};
use percent_encoding::percent_encode;
use std::alloc::Global;

// One more part: a slash, and the part with its bytes escaped.
#[tactic(auto, unfolding(crate::specs::PathReads::with_part))]
fn add_part(path: &mut String, part: &[u8]) -> Result<(), OutOfMemory>
    ensures { OnOk result (string_bytes path.new ≡ with_parts (string_bytes path.old) (part.now ∷ [])) }
{
    path.push_str("/")?;
    percent_encode(part, ID_SET).append_to(path)?;
    Ok(())
}

// The path of a collection, and a part below it.
fn add_below(path: &mut String, collection: &Text, part: &[u8]) -> Result<(), OutOfMemory>
    ensures { OnOk result (string_bytes path.new ≡ with_parts (string_bytes path.old) (codes "collections" ∷ collection.now ∷ part.now ∷ [])) }
{
    add_part(path, b"collections")?;
    add_part(path, collection.bytes())?;
    add_part(path, part)?;
    Ok(())
}

// The path of a collection, and two parts below it.
fn add_two_below(
    path: &mut String,
    collection: &Text,
    part: &[u8],
    id: &Text,
) -> Result<(), OutOfMemory>
    ensures { OnOk result (string_bytes path.new ≡ with_parts (string_bytes path.old) (codes "collections" ∷ collection.now ∷ part.now ∷ id.now ∷ [])) }
{
    add_below(path, collection, part)?;
    add_part(path, id.bytes())
}

// The path of an instance, and a part below it.
fn add_below_instance(
    path: &mut String,
    collection: &Text,
    instance: &Text,
    part: &[u8],
) -> Result<(), OutOfMemory>
    ensures { OnOk result (string_bytes path.new ≡ with_parts (string_bytes path.old) (codes "collections" ∷ collection.now ∷ codes "instances" ∷ instance.now ∷ part.now ∷ [])) }
{
    add_two_below(path, collection, b"instances", instance)?;
    add_part(path, part)
}

// The path of a query.
fn add_query(
    path: &mut String,
    kind: QueryKind,
    collection: &Text,
    instance: &Option<Text>,
) -> Result<(), OutOfMemory>
    ensures { OnOk result (string_bytes path.new ≡ with_parts (string_bytes path.old) (parts_of (Query kind collection.now instance.now))) }
{
    match instance {
        Some(instance) => add_below_instance(path, collection, instance, kind.name()),
        None => add_below(path, collection, kind.name()),
    }
}

// The path of a collection.
fn add_collection(path: &mut String, collection: &Text) -> Result<(), OutOfMemory>
    ensures { OnOk result (string_bytes path.new ≡ with_parts (string_bytes path.old) (codes "collections" ∷ collection.now ∷ [])) }
{
    add_part(path, b"collections")?;
    add_part(path, collection.bytes())
}

// The path of the landing page.
fn add_root(path: &mut String) -> Result<(), OutOfMemory>
    ensures { OnOk result (string_bytes path.new ≡ string_bytes path.old ++ codes "/") }
{
    Ok(path.push_str("/")?)
}

// The path of an address.
fn add_address(path: &mut String, address: &Address) -> Result<(), OutOfMemory>
    ensures { OnOk result (string_bytes path.new ≡ with_address (string_bytes path.old) address.now) }
{
    match address {
        Address::Landing => add_root(path),
        Address::Conformance => add_part(path, b"conformance"),
        Address::Collections => add_part(path, b"collections"),
        Address::Collection(collection) => add_collection(path, collection),
        Address::Instances(collection) => add_below(path, collection, b"instances"),
        Address::Instance(collection, instance) => {
            add_two_below(path, collection, b"instances", instance)
        }
        Address::Locations(collection) => add_below(path, collection, b"locations"),
        Address::Location(collection, station) => {
            add_two_below(path, collection, b"locations", station)
        }
        Address::Query {
            kind,
            collection,
            instance,
        } => add_query(path, *kind, collection, instance),
    }
}

/// The path of an address as it is written, such as `/collections/c%20d/position` (OGC 19-086r6, section 7).
///
/// In its ids all bytes are escaped but letters, digits, `-`, `.`, `_` and `~`. Its only error is want of memory.
#[tactic(auto, using(crate::proofs::WrittenParts::written_is))]
pub fn path_of(alloc: Global, address: &Address) -> Result<Text, OutOfMemory>
    ensures { IfOk result (λ path. path ≡ path_text address.now) }
{
    let mut path = String::new(alloc);
    add_address(&mut path, address)?;
    Ok(Text::from_vec(path.into_bytes()))
}
