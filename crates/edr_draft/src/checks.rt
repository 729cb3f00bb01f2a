//! Whether a coverage may be set in a collection.
ghost use Rattle.std.specs.Prelude.{◌≡◌, ◌≢◌, ◌↔◌, true, false, is_some, Some, [], IsTrue, IsNone, IfSome, MatchOption};
ghost use Rattle.covjson_value.specs.declared.domains.CoordinateName.TheVariants.{T, Z};
ghost use Rattle.covjson_value.specs.Domains.{has_axis, count_of};
ghost use Rattle.covjson_value.specs.Coverages.{IsValid, AscendById};
ghost use Rattle.edr_draft.specs.Changes.{as_instance, as_station, AppliesToSet};
ghost use Rattle.edr_draft.specs.Parameters.{DifferFirstAt};
ghost use Rattle.edr_draft.specs.Steps.{Finds, AppliesBeside};

use crate::changes::ChangeFault;
use crate::differences::first_difference;
use crate::series::is_series;
use covjson_value::{CoordinateName, Coverage, Parameter};
use edr_base::{NODE_LIMIT, Text};
use edr_edition::{CollectionData, Kind};
use edr_station::Station;
use std::alloc::Global;

fn has_times(coverage: &Coverage) -> bool
    ensures { result ≡ has_axis coverage.now.domain T }
{
    coverage.domain.axis(CoordinateName::T).is_some()
}

fn has_levels(coverage: &Coverage) -> bool
    ensures { result ≡ has_axis coverage.now.domain Z }
{
    coverage.domain.axis(CoordinateName::Z).is_some()
}

// The coverage's system is given, and isn't the collection's.
fn crs_differs(coverage: &Coverage, collection: &CollectionData) -> bool
    ensures { IsTrue result ↔ ((coverage.now.referencing.crs ≢ []) × (coverage.now.referencing.crs ≢ collection.now.referencing.crs)) }
{
    let crs = coverage.referencing.crs.bytes();
    !crs.is_empty() && crs != collection.referencing().crs.bytes()
}

// How many nodes the domain has: as many as a range has values.
fn node_count(coverage: &Coverage) -> usize
    requires { IsValid coverage.now }
    ensures { result ≡ count_of coverage.now.domain }
{
    coverage.ranges.items()[0].values.items().len()
}

// The first id at which parameters aren't those of a collection, where it has others that have them; None exactly where they
// are the same or nothing else has them.
fn differing_id<'a>(
    has_others: bool,
    collection: &'a CollectionData,
    parameters: &'a [Parameter],
) -> Option<&'a [u8]>
    requires { AscendById parameters.now }
    ensures { MatchOption result (IsTrue has_others → collection.now.parameters ≡ parameters.now)
        (λ id. IsTrue has_others × DifferFirstAt collection.now.parameters parameters.now id.now) }
{
    if has_others {
        return first_difference(collection.parameters(), parameters);
    }
    None
}

// Times, the system, the count of nodes and the parameters of a coverage whose kind fits: the first fault.
fn check_coverage(
    alloc: Global,
    has_others: bool,
    collection: &CollectionData,
    coverage: &Coverage,
) -> Result<(), ChangeFault>
    requires { IsValid coverage.now }
    ensures { Finds (AppliesBeside (IsTrue has_others) collection.now coverage.now) result }
{
    if !has_times(coverage) {
        return Err(ChangeFault::NoTimes);
    }
    if crs_differs(coverage, collection) {
        return Err(ChangeFault::CrsDiffers);
    }
    let count = node_count(coverage);
    if count > NODE_LIMIT {
        return Err(ChangeFault::TooManyNodes(count));
    }
    match differing_id(has_others, collection, coverage.parameters.items()) {
        Some(differing) => Err(ChangeFault::ParametersDiffer(Text::of(alloc, differing)?)),
        None => Ok(()),
    }
}

// Whether another station has levels where a coverage has none, or has none where it has some.
fn levels_differ(other: Option<&Station>, coverage: &Coverage) -> bool
    ensures some { IfSome other.entry (λ s. (result ≡ true) ↔ (is_some s.now.zs ≢ has_axis coverage.now.domain Z)) }
    ensures none { IsNone other.entry → result ≡ false }
{
    match other {
        Some(station) => station.levels().is_some() != has_levels(coverage),
        None => false,
    }
}

/// Whether a grid may become the instance of an id of a collection, or the first fault.
pub fn check_grid(
    alloc: Global,
    collection: &CollectionData,
    id: &[u8],
    coverage: &Coverage,
) -> Result<(), ChangeFault>
    requires { IsValid coverage.now }
    ensures { Finds (AppliesToSet (as_instance id.now) (Some collection.now) coverage.now) result }
{
    if collection.kind() != Kind::Grid || !coverage.domain.is_grid() {
        return Err(ChangeFault::WrongKind);
    }
    let has_others = collection.other_instance(id).is_some();
    check_coverage(alloc, has_others, collection, coverage)
}

/// Whether a series may become the station of an id of a collection, or the first fault.
pub fn check_series(
    alloc: Global,
    collection: &CollectionData,
    id: &[u8],
    coverage: &Coverage,
) -> Result<(), ChangeFault>
    requires { IsValid coverage.now }
    ensures { Finds (AppliesToSet (as_station id.now) (Some collection.now) coverage.now) result }
{
    if collection.kind() != Kind::Station || !is_series(&coverage.domain) {
        return Err(ChangeFault::WrongKind);
    }
    let other = collection.other_station(id);
    check_coverage(alloc, other.is_some(), collection, coverage)?;
    if levels_differ(other, coverage) {
        return Err(ChangeFault::LevelsDiffer);
    }
    Ok(())
}
