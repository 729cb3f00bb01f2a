//! Descriptions.
ghost use Rattle.std.specs.Prelude.{◌≡◌, false, None, Some, IfOk, IfErr};
ghost use Rattle.serde_json.specs.View.{view};
ghost use Rattle.serde_json.specs.Written.{compact_text, has_float};
ghost use Rattle.edr_query.specs.declared.pages.Page.TheVariants.{Collection, Instances, Instance, Locations};
ghost use Rattle.edr_base.specs.declared.refusals.Refusal.TheVariants.{UnknownCollection};
ghost use Rattle.edr_describe.specs.declared.describing.DescribeFault.TheVariants as why;
ghost use Rattle.edr_describe.specs.Descriptions.{landing_page, conformance_page};
ghost use Rattle.edr_edition.specs.Stores.{collection_in};
ghost use Rattle.edr_describe.specs.Describing.{IsDescription, MatchDescription, landing_links, IsTreeOf, IsFoundText, IsFaultOf};

use crate::leaves::pair_of;
use crate::locations::locations_tree;
use crate::pages::{collection_tree, collections_tree, instance_tree, instances_tree};
use crate::paths::link_tree;
use covjson_value::{only_member, put_text};
use edr_base::{OutOfMemory, Refusal, Text};
use edr_edition::{CollectionData, Edition, Kind};
use edr_query::Page;
use serde_json::{Map, Value};
use std::alloc::Global;

/// Why there is no description.
#[derive(Clone, Copy, Debug, PartialEq, Eq)]
pub enum DescribeFault {
    /// The page is refused: `UnknownCollection`, `UnknownInstance` or `QueryNotOffered`.
    Refused(Refusal),
    /// Memory was wanting.
    OutOfMemory,
}

impl From<OutOfMemory> for DescribeFault {
    ghost from_gives = { λ _ fault. fault ≡ why.OutOfMemory };

    fn from(_: OutOfMemory) -> DescribeFault {
        DescribeFault::OutOfMemory
    }
}

// The links to all collections, and to what the service conforms to.
fn links_tree(alloc: Global) -> Result<Value, OutOfMemory>
    ensures { IfOk result (λ v. view v ≡ landing_links) }
{
    let collections = link_tree(alloc, "/collections", "data")?;
    let conformance = link_tree(alloc, "/conformance", "conformance")?;
    pair_of(alloc, collections, conformance)
}

// The page that leads to all others.
fn landing_tree(alloc: Global) -> Result<Value, OutOfMemory>
    ensures { IfOk result (λ v. view v ≡ landing_page) }
{
    let mut members = Map::new(alloc);
    let links = links_tree(alloc)?;
    serde_json::put(&mut members, alloc, "links", links)?;
    put_text(&mut members, alloc, "title", "EDR")?;
    Ok(Value::Object(members))
}

fn conformance_tree(alloc: Global) -> Result<Value, OutOfMemory>
    ensures { IfOk result (λ v. view v ≡ conformance_page) }
{
    only_member(alloc, "conformsTo", Value::Array(Vec::new(alloc)))
}

// The collection of an id.
fn found<'a>(edition: &'a Edition, id: &[u8]) -> Result<&'a CollectionData, DescribeFault>
    ensures found { IfOk result (λ collection. collection_in edition.now.collections id.now ≡ Some collection.now) }
    ensures none { IfErr result (λ fault. (collection_in edition.now.collections id.now ≡ None) × (fault ≡ why.Refused UnknownCollection)) }
{
    match edition.collection(id) {
        Some(collection) => Ok(collection),
        None => Err(DescribeFault::Refused(Refusal::UnknownCollection)),
    }
}

// The page of a collection.
fn collection_page_of(alloc: Global, edition: &Edition, id: &[u8]) -> Result<Value, DescribeFault>
    ensures tree { IfOk result (λ v. IsTreeOf edition.now (Collection id.now) (view v)) }
    ensures fault { IfErr result (IsFaultOf edition.now (Collection id.now)) }
{
    Ok(collection_tree(alloc, found(edition, id)?)?)
}

// The page of the instances of a collection.
fn instances_page_of(alloc: Global, edition: &Edition, id: &[u8]) -> Result<Value, DescribeFault>
    ensures tree { IfOk result (λ v. IsTreeOf edition.now (Instances id.now) (view v)) }
    ensures fault { IfErr result (IsFaultOf edition.now (Instances id.now)) }
{
    let collection = found(edition, id)?;
    match collection.kind() {
        Kind::Grid => Ok(instances_tree(alloc, collection)?),
        Kind::Station => Err(DescribeFault::Refused(Refusal::QueryNotOffered)),
    }
}

// The page of an instance of a collection.
fn instance_page_of(
    alloc: Global,
    edition: &Edition,
    id: &[u8],
    instance: &[u8],
) -> Result<Value, DescribeFault>
    ensures tree { IfOk result (λ v. IsTreeOf edition.now (Instance id.now instance.now) (view v)) }
    ensures fault { IfErr result (IsFaultOf edition.now (Instance id.now instance.now)) }
{
    let collection = found(edition, id)?;
    match collection.kind() {
        Kind::Grid => match collection.instance(instance) {
            Some(instance) => Ok(instance_tree(alloc, collection, instance)?),
            None => Err(DescribeFault::Refused(Refusal::UnknownInstance)),
        },
        Kind::Station => Err(DescribeFault::Refused(Refusal::QueryNotOffered)),
    }
}

// The page of the stations of a collection.
fn locations_page_of(alloc: Global, edition: &Edition, id: &[u8]) -> Result<Value, DescribeFault>
    ensures tree { IfOk result (λ v. IsTreeOf edition.now (Locations id.now) (view v)) }
    ensures fault { IfErr result (IsFaultOf edition.now (Locations id.now)) }
{
    let collection = found(edition, id)?;
    match collection.stations() {
        None => Err(DescribeFault::Refused(Refusal::QueryNotOffered)),
        Some(stations) => Ok(locations_tree(alloc, stations)?),
    }
}

// The tree of a description.
fn tree_of(alloc: Global, page: &Page, edition: &Edition) -> Result<Value, DescribeFault>
    requires { IsDescription page.now }
    ensures tree { IfOk result (λ v. IsTreeOf edition.now page.now (view v)) }
    ensures fault { IfErr result (IsFaultOf edition.now page.now) }
{
    match page {
        Page::Landing => Ok(landing_tree(alloc)?),
        Page::Conformance => Ok(conformance_tree(alloc)?),
        Page::Collections => Ok(collections_tree(alloc, edition)?),
        Page::Collection(id) => collection_page_of(alloc, edition, id.bytes()),
        Page::Instances(id) => instances_page_of(alloc, edition, id.bytes()),
        Page::Instance(id, instance) => {
            instance_page_of(alloc, edition, id.bytes(), instance.bytes())
        }
        Page::Locations(id) => locations_page_of(alloc, edition, id.bytes()),
        Page::Ask(_) => unreachable!(),
    }
}

// The text of the tree of a description.
fn text_of(alloc: Global, tree: &Value) -> Result<Text, OutOfMemory>
    requires { has_float (view tree.now) ≡ false }
    ensures { IfOk result (λ text. text ≡ compact_text (view tree.now)) }
{
    Ok(Text::from_vec(tree.to_vec(alloc)?))
}

// The text of the description that is found.
#[tactic(auto, using(crate::proofs::NoFloat::description_no_float))]
fn found_text(alloc: Global, page: &Page, edition: &Edition) -> Result<Text, DescribeFault>
    requires { IsDescription page.now }
    ensures text { IfOk result (IsFoundText edition.now page.now) }
    ensures fault { IfErr result (IsFaultOf edition.now page.now) }
{
    let tree = tree_of(alloc, page, edition)?;
    Ok(text_of(alloc, &tree)?)
}

/// The text of a page that describes (OGC 19-086r6, section 7): the service, its collections, an instance, the stations of a
/// collection. It is compact JSON whose keys ascend. Or the first refusal that applies.
pub fn describe(alloc: Global, page: &Page, edition: &Edition) -> Result<Text, DescribeFault>
    requires { IsDescription page.now }
    ensures { MatchDescription result edition.now page.now }
{
    found_text(alloc, page, edition)
}
