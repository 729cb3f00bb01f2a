//! Reading the path of a target.
ghost use Rattle.std.specs.Prelude.{◌≡◌, ◌∷◌, [], ◌↔◌, All, IfOk, IsTrue, MatchOption};
ghost use Rattle.std.specs.Cow.{cow_slice_items};
ghost use Rattle.percent_encoding.specs.Percent.{percent_decode};
ghost use Rattle.edr_query.specs.Paths.{IsPart, IsPath, ids_of, path_in, query_in};
ghost use Rattle.edr_query.specs.PathReads.{HasNoAddress, parts_in, kind_in, top_page, named_page, id_page, instance_page, collection_page, address_in};

use crate::addresses::{Address, QueryKind};
use crate::pairs::lacks;
use edr_base::{OutOfMemory, Text, cut_at, is_utf8, without_front};
use std::alloc::Global;
use std::borrow::CowSlice;

/// What stands before the first `?` of a target, and what follows it.
pub fn cut_target(target: &[u8]) -> (&[u8], &[u8])
    ensures path { result.0.now ≡ path_in target.now }
    ensures query { result.1.now ≡ query_in target.now }
{
    match target.iter().position(|&byte| byte == b'?') {
        Some(i) => (&target[..i], &target[i + 1..]),
        None => (target, &[]),
    }
}

// The first part of what stands behind a slash, as it is written, and what stands behind it; None where no part is left.
fn first_part(text: &[u8]) -> Option<(&[u8], &[u8])>
    ensures { MatchOption result (parts_in text.now ≡ []) (λ parts. parts_in text.now ≡ percent_decode parts.0.now ∷ parts_in parts.1.now) }
{
    if text.is_empty() {
        return None;
    }
    match cut_at(text, b'/') {
        Some((front, back)) => Some((front, back)),
        None => Some((text, &[])),
    }
}

// A part of a path, decoded. It takes no memory where nothing is escaped.
fn decoded(alloc: Global, raw: &[u8]) -> Result<CowSlice<'_, u8, Global>, OutOfMemory>
    ensures { IfOk result (λ part. cow_slice_items part ≡ percent_decode raw.now) }
{
    if lacks(raw, b'%') {
        return Ok(CowSlice::Borrowed(raw));
    }
    Ok(percent_encoding::percent_decode(raw).into_cow(alloc)?)
}

// An id, decoded.
fn read_id(alloc: Global, raw: &[u8]) -> Result<Text, OutOfMemory>
    ensures { IfOk result (λ id. id ≡ percent_decode raw.now) }
{
    match decoded(alloc, raw)? {
        CowSlice::Borrowed(bytes) => Text::of(alloc, bytes),
        CowSlice::Owned(bytes) => Ok(Text::from_vec(bytes)),
    }
}

// The kind of query that a part names.
fn kind_of(name: &[u8]) -> Option<QueryKind>
    ensures { result ≡ kind_in name.now }
{
    if name == b"position".as_slice() {
        Some(QueryKind::Position)
    } else if name == b"radius".as_slice() {
        Some(QueryKind::Radius)
    } else if name == b"area".as_slice() {
        Some(QueryKind::Area)
    } else if name == b"cube".as_slice() {
        Some(QueryKind::Cube)
    } else if name == b"trajectory".as_slice() {
        Some(QueryKind::Trajectory)
    } else if name == b"corridor".as_slice() {
        Some(QueryKind::Corridor)
    } else {
        None
    }
}

// A page of one part.
fn top_page(name: &[u8]) -> Option<Address>
    ensures { result ≡ top_page name.now }
{
    if name == b"conformance".as_slice() {
        Some(Address::Conformance)
    } else if name == b"collections".as_slice() {
        Some(Address::Collections)
    } else {
        None
    }
}

// A page below a collection.
fn named_page(collection: Text, name: &[u8]) -> Option<Address>
    ensures { result ≡ named_page collection name.now }
{
    if name == b"instances".as_slice() {
        return Some(Address::Instances(collection));
    }
    if name == b"locations".as_slice() {
        return Some(Address::Locations(collection));
    }
    match kind_of(name) {
        Some(kind) => Some(Address::Query {
            kind,
            collection,
            instance: None,
        }),
        None => None,
    }
}

// The page of an instance or of a station.
fn id_page(collection: Text, name: &[u8], id: Text) -> Option<Address>
    ensures { result ≡ id_page collection name.now id }
{
    if name == b"instances".as_slice() {
        Some(Address::Instance(collection, id))
    } else if name == b"locations".as_slice() {
        Some(Address::Location(collection, id))
    } else {
        None
    }
}

// A query of an instance.
fn instance_page(collection: Text, name: &[u8], id: Text, last: &[u8]) -> Option<Address>
    ensures { result ≡ instance_page collection name.now id last.now }
{
    if name != b"instances".as_slice() {
        return None;
    }
    match kind_of(last) {
        Some(kind) => Some(Address::Query {
            kind,
            collection,
            instance: Some(id),
        }),
        None => None,
    }
}

// What stands below an id of a collection, or its page.
fn page_below_id(
    alloc: Global,
    collection: Text,
    name: &[u8],
    id: Text,
    below: &[u8],
) -> Result<Option<Address>, OutOfMemory>
    ensures { IfOk result (λ address. address ≡ collection_page collection (name.now ∷ id ∷ parts_in below.now)) }
{
    let Some((last, below)) = first_part(below) else {
        return Ok(id_page(collection, name, id));
    };
    let last = decoded(alloc, last)?;
    match first_part(below) {
        Some(_) => Ok(None),
        None => Ok(instance_page(collection, name, id, last.as_slice())),
    }
}

// What stands below a part of a collection, or its page.
fn page_below_name(
    alloc: Global,
    collection: Text,
    name: &[u8],
    below: &[u8],
) -> Result<Option<Address>, OutOfMemory>
    ensures { IfOk result (λ address. address ≡ collection_page collection (name.now ∷ parts_in below.now)) }
{
    let Some((id, below)) = first_part(below) else {
        return Ok(named_page(collection, name));
    };
    let id = read_id(alloc, id)?;
    page_below_id(alloc, collection, name, id, below)
}

// A collection, or what stands below it.
fn collection_page(
    alloc: Global,
    collection: Text,
    below: &[u8],
) -> Result<Option<Address>, OutOfMemory>
    ensures { IfOk result (λ address. address ≡ collection_page collection (parts_in below.now)) }
{
    let Some((name, below)) = first_part(below) else {
        return Ok(Some(Address::Collection(collection)));
    };
    let name = decoded(alloc, name)?;
    page_below_name(alloc, collection, name.as_slice(), below)
}

// What stands below a part that a path begins with, or its page.
fn page_below(alloc: Global, name: &[u8], below: &[u8]) -> Result<Option<Address>, OutOfMemory>
    ensures { IfOk result (λ address. address ≡ address_in (name.now ∷ parts_in below.now)) }
{
    let Some((collection, below)) = first_part(below) else {
        return Ok(top_page(name));
    };
    if name != b"collections".as_slice() {
        return Ok(None);
    }
    let collection = read_id(alloc, collection)?;
    collection_page(alloc, collection, below)
}

// The address that the parts behind a slash have, whatever its ids are.
fn address_of(alloc: Global, inner: &[u8]) -> Result<Option<Address>, OutOfMemory>
    ensures { IfOk result (λ address. address ≡ address_in (parts_in inner.now)) }
{
    let Some((name, below)) = first_part(inner) else {
        return Ok(Some(Address::Landing));
    };
    let name = decoded(alloc, name)?;
    page_below(alloc, name.as_slice(), below)
}

// Whether some bytes are a part of a path.
fn is_part(bytes: &[u8]) -> bool
    ensures { IsTrue result ↔ IsPart bytes.now }
{
    !bytes.is_empty() && is_utf8(bytes)
}

// Whether two texts are parts of a path.
fn are_parts(one: &[u8], other: &[u8]) -> bool
    ensures { IsTrue result ↔ All IsPart (one.now ∷ other.now ∷ []) }
{
    is_part(one) && is_part(other)
}

// Whether the ids of an address are parts of a path.
fn has_ids(address: &Address) -> bool
    ensures { IsTrue result ↔ All IsPart (ids_of address.now) }
{
    match address {
        Address::Landing | Address::Conformance | Address::Collections => true,
        Address::Collection(id) | Address::Instances(id) | Address::Locations(id) => {
            is_part(id.bytes())
        }
        Address::Instance(collection, instance) => are_parts(collection.bytes(), instance.bytes()),
        Address::Location(collection, station) => are_parts(collection.bytes(), station.bytes()),
        Address::Query {
            collection,
            instance,
            ..
        } => match instance {
            Some(instance) => are_parts(collection.bytes(), instance.bytes()),
            None => is_part(collection.bytes()),
        },
    }
}

/// The address that a path names, or None where it names no page (OGC 19-086r6, section 7).
///
/// It is cut at slashes before its parts are decoded. One empty part at its end doesn't count.
pub fn read_address(alloc: Global, path: &[u8]) -> Result<Option<Address>, OutOfMemory>
    ensures { IfOk result (λ address. MatchOption address (HasNoAddress path.now) (λ named. IsPath path.now named)) }
{
    let Some(inner) = without_front(path, b"/") else {
        return Ok(None);
    };
    let Some(address) = address_of(alloc, inner)? else {
        return Ok(None);
    };
    if has_ids(&address) {
        Ok(Some(address))
    } else {
        Ok(None)
    }
}
