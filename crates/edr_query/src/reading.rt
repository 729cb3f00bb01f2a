//! Reading targets.
ghost use Rattle.std.specs.Prelude.{◌≡◌, All, IfOk, List};
ghost use Rattle.edr_query.specs.Paths.{parts_of, IsPart, page_kind};
ghost use Rattle.edr_query.specs.Targets.{MatchTarget, IsPage};
ghost use Rattle.edr_query.specs.declared.addresses.Address.TheVariants.{Location, Query};
ghost use Rattle.edr_query.specs.declared.addresses.PageKind.TheVariants.{Description};
ghost use Rattle.edr_query.specs.Parameters.{Pair, pairs_in};
ghost use Rattle.edr_query.specs.Reads.{IsAllSaid, IsGoodPage, Steps};

use crate::addresses::{Address, PageKind, QueryKind};
use crate::asking::{ask, shape_of};
use crate::pages::Page;
use crate::pairs::{Parameters, read_parameters};
use crate::paths::{cut_target, read_address};
use crate::said::Said;
use crate::shapes::Shape;
use crate::steps::read_said;
use edr_base::{OutOfMemory, Refusal, Text};
use std::alloc::{AllocError, Global};

/// Why a target wasn't read.
#[derive(Clone, Copy, Debug, PartialEq, Eq)]
pub enum TargetFault {
    /// It is refused: the first refusal that applies.
    Refused(Refusal),
    /// Memory was wanting.
    OutOfMemory,
}

impl From<OutOfMemory> for TargetFault {
    ghost use Rattle.edr_query.specs.declared.reading.TargetFault.TheVariants.{OutOfMemory as out_of_memory};

    ghost from_gives = { λ _ fault. fault ≡ out_of_memory };

    fn from(_: OutOfMemory) -> TargetFault {
        TargetFault::OutOfMemory
    }
}

impl From<AllocError> for TargetFault {
    ghost use Rattle.edr_query.specs.declared.reading.TargetFault.TheVariants.{OutOfMemory as out_of_memory};

    ghost from_gives = { λ _ fault. fault ≡ out_of_memory };

    fn from(_: AllocError) -> TargetFault {
        TargetFault::OutOfMemory
    }
}

// The data of a station, whose parameters are read.
fn station_page(
    alloc: Global,
    collection: Text,
    station: Text,
    said: Said,
    parameters: &Parameters<'_>,
) -> Result<Page, OutOfMemory>
    requires parts { All IsPart (parts_of (Location collection station)) }
    requires said { IsAllSaid (page_kind (Location collection station)) parameters.now said }
    ensures { IfOk result (λ page. IsPage (Location collection station) parameters.now page) }
{
    let query = ask(
        alloc,
        collection,
        None,
        Shape::Location(station),
        said.times,
        said.levels,
        parameters,
    )?;
    Ok(Page::Ask(query))
}

// The data of a query, whose parameters are read.
fn query_page(
    alloc: Global,
    kind: QueryKind,
    collection: Text,
    instance: Option<Text>,
    said: Said,
    parameters: &Parameters<'_>,
) -> Result<Page, OutOfMemory>
    requires parts { All IsPart (parts_of (Query kind collection instance)) }
    requires said { IsAllSaid (page_kind (Query kind collection instance)) parameters.now said }
    ensures { IfOk result (λ page. IsPage (Query kind collection instance) parameters.now page) }
{
    let found = shape_of(
        kind,
        said.coords,
        said.within,
        said.bbox,
        said.width,
        said.height,
    );
    let Some(shape) = found else { unreachable!() };
    let query = ask(
        alloc,
        collection,
        instance,
        shape,
        said.times,
        said.levels,
        parameters,
    )?;
    Ok(Page::Ask(query))
}

// The page of an address that describes something.
fn description(address: Address) -> Page
    requires { page_kind address ≡ Description }
    ensures { (pairs : List Pair) → IsPage address pairs result }
{
    match address {
        Address::Landing => Page::Landing,
        Address::Conformance => Page::Conformance,
        Address::Collections => Page::Collections,
        Address::Collection(collection) => Page::Collection(collection),
        Address::Instances(collection) => Page::Instances(collection),
        Address::Instance(collection, instance) => Page::Instance(collection, instance),
        Address::Locations(collection) => Page::Locations(collection),
        Address::Location(..) | Address::Query { .. } => unreachable!(),
    }
}

// The page of an address whose parameters are read, and of which no refusal applies.
fn page_of(
    alloc: Global,
    address: Address,
    said: Said,
    parameters: &Parameters<'_>,
) -> Result<Page, OutOfMemory>
    requires parts { All IsPart (parts_of address) }
    requires said { IsAllSaid (page_kind address) parameters.now said }
    ensures { IfOk result (λ page. IsPage address parameters.now page) }
{
    match address {
        Address::Location(collection, station) => {
            station_page(alloc, collection, station, said, parameters)
        }
        Address::Query {
            kind,
            collection,
            instance,
        } => query_page(alloc, kind, collection, instance, said, parameters),
        _ => Ok(description(address)),
    }
}

// The parameters of a query text, and what they say to a page; or the first refusal.
fn read_query_text(
    alloc: Global,
    kind: PageKind,
    text: &[u8],
) -> Result<(Parameters<'_>, Said), TargetFault>
    ensures { Steps result (λ read. (read.0 ≡ pairs_in text.now) × IsAllSaid kind read.0 read.1) kind (pairs_in text.now) }
{
    let parameters = read_parameters(alloc, kind, text)?;
    let said = read_said(alloc, kind, &parameters)?;
    Ok((parameters, said))
}

// The page of an address and a query text, or the first refusal.
fn read_page(alloc: Global, address: Address, text: &[u8]) -> Result<Page, TargetFault>
    requires { All IsPart (parts_of address) }
    ensures { Steps result (λ page. IsGoodPage address (pairs_in text.now) page) (page_kind address) (pairs_in text.now) }
{
    let (parameters, said) = read_query_text(alloc, address.page_kind(), text)?;
    Ok(page_of(alloc, address, said, &parameters)?)
}

/// The page that a target asks for, or the first refusal that applies (OGC 19-086r6, sections 7 and 8).
///
/// The target is a path, and behind a `?` pairs of the form of the URL Standard, section 5. The path is cut at slashes
/// before it is decoded. Of the refusals that apply the one with the least number is answered, wherever its cause stands
/// in the text.
pub fn read_target(alloc: Global, target: &[u8]) -> Result<Page, TargetFault>
    ensures { MatchTarget result target.now }
{
    let (path, text) = cut_target(target);
    let Some(address) = read_address(alloc, path)? else {
        return Err(TargetFault::Refused(Refusal::NoSuchPage));
    };
    read_page(alloc, address, text)
}
