//! Ranges (OGC 21-069r2, NdArray objects).
ghost use Rattle.std.specs.Prelude.{◌≡◌, ◌≢◌, IfOk, IfErr, Err, codes, length, map};
ghost use Rattle.serde_json.specs.View.{items_of};
ghost use Rattle.edr_samples.specs.Tokens.{sample_data};
ghost use Rattle.edr_samples.specs.Trees.{tree_view, items_view, list_view};
ghost use Rattle.serde_json.specs.Find.{get};
ghost use Rattle.covjson_value.specs.Domains.{count_of};
ghost use Rattle.covjson_value.specs.declared.coverages.NdArray.{NdArray};
ghost use Rattle.covjson_value.specs.Coverages.{HasAxes, HasTuples, IsRange};
ghost use Rattle.covjson_checks.specs.Answers.{GivesUnlessMemory, each};
ghost use Rattle.covjson_checks.specs.declared.faults.CovFault.TheVariants.{OutOfMemory};
ghost use Rattle.covjson_ranges.specs.Ranges.{StandsForRange};
ghost use Rattle.covjson_ranges.specs.RangeRows.{RangeRows};
ghost use Rattle.covjson_ranges.specs.Ranges as axes;
ghost use Rattle.covjson_ranges.specs.RangeAnswers as ranges;
ghost use Rattle.edr_json.specs.Trees as trees;

use crate::orders::in_order;
use crate::places::{axis_len, has_axis};
use covjson_checks::{
    CovFault, Member, ReadDomain, Wanted, list_at, need, need_form, need_wholes, object_at,
    text_of, wholes_or_nulls,
};
use covjson_value::{AxisName, Domain, NdArray, axis_by_name};
use edr_base::{Items, SAMPLE_LIMIT};
use edr_json::{List, Samples, Tree, count_items, natural_of, text_or_empty};
use std::alloc::Global;

// An object of the type NdArray: WrongType, UnsupportedRange.
fn need_array(alloc: Global, tree: &Tree) -> Result<(), CovFault>
    ensures { GivesUnlessMemory (λ u. u) result (ranges.is_array (tree_view tree.now)) }
{
    let _members = object_at(tree, Member::Ranges)?;
    let kind = text_or_empty(tree, "type");
    if kind != "NdArray" {
        return Err(CovFault::UnsupportedRange(text_of(alloc, kind)?));
    }
    Ok(())
}

// Whole numbers: Missing, UnsupportedRange.
fn need_integers(alloc: Global, tree: &Tree) -> Result<(), CovFault>
    ensures { GivesUnlessMemory (λ u. u) result (ranges.has_integers (tree_view tree.now)) }
{
    let _data_type = need(tree, "dataType", Member::DataType)?;
    let name = text_or_empty(tree, "dataType");
    if name != "integer" {
        return Err(CovFault::UnsupportedRange(text_of(alloc, name)?));
    }
    Ok(())
}

// The axis that an item names: WrongType.
fn axis_named(item: &Tree) -> Result<AxisName, CovFault>
    ensures { result ≡ ranges.axis_named (tree_view item.now) }
{
    let Some(text) = item.as_str() else {
        return Err(CovFault::WrongType(Member::AxisNames))
    };
    match axis_by_name(text) {
        Some(name) => Ok(name),
        None => Err(CovFault::WrongType(Member::AxisNames)),
    }
}

// The axes that a list names: WrongType.
fn axes_named(alloc: Global, items: &Vec<Tree>) -> Result<Vec<AxisName>, CovFault>
    ensures { GivesUnlessMemory (λ v. v.items) result (each ranges.axis_named (items_view items.now.items)) }
{
    let mut names = Vec::new(alloc);
    for item in items {
        let name = axis_named(item)?;
        names.push(name)?;
    }
    Ok(names)
}

// The axes that a list names: WrongType. Samples are none.
fn axes_in(alloc: Global, list: List<'_>) -> Result<Vec<AxisName>, CovFault>
    ensures { GivesUnlessMemory (λ v. v.items) result (each ranges.axis_named (list_view list.entry)) }
{
    match list {
        List::Samples(samples) => {
            if samples.len() != 0 {
                return Err(CovFault::WrongType(Member::AxisNames));
            }
            Ok(Vec::new(alloc))
        }
        List::Items(items) => axes_named(alloc, items),
    }
}

fn is_named(name: AxisName, names: &[AxisName]) -> bool
    ensures { result ≡ axes.is_named name names.now }
{
    for other in names {
        if *other == name {
            return true;
        }
    }
    false
}

fn are_distinct(names: &[AxisName]) -> bool
    ensures { result ≡ ranges.are_distinct names.now }
{
    for place in 0..names.len() {
        if is_named(names[place], &names[place + 1..]) {
            return false;
        }
    }
    true
}

fn are_owned(names: &[AxisName], domain: &Domain) -> bool
    ensures { result ≡ ranges.are_owned domain.now names.now }
{
    for name in names {
        if !has_axis(domain, *name) {
            return false;
        }
    }
    true
}

// An axis of several values is among these.
fn is_kept(name: AxisName, names: &[AxisName], domain: &Domain) -> bool
    ensures { result ≡ ranges.is_kept domain.now names.now name }
{
    axis_len(domain, name) <= 1 || is_named(name, names)
}

fn are_range_axes(names: &[AxisName], domain: &Domain) -> bool
    ensures { result ≡ ranges.are_range_axes domain.now names.now }
{
    are_distinct(names)
        && are_owned(names, domain)
        && is_kept(AxisName::T, names, domain)
        && is_kept(AxisName::Z, names, domain)
        && is_kept(AxisName::Y, names, domain)
        && is_kept(AxisName::X, names, domain)
        && is_kept(AxisName::Composite, names, domain)
}

fn is_one_place(domain: &Domain) -> bool
    ensures { result ≡ ranges.is_one_place domain.now }
{
    axis_len(domain, AxisName::T) <= 1
        && axis_len(domain, AxisName::Z) <= 1
        && axis_len(domain, AxisName::Y) <= 1
        && axis_len(domain, AxisName::X) <= 1
        && axis_len(domain, AxisName::Composite) <= 1
}

// The names of a range's axes in their order; none where they are left out: Missing, WrongType.
fn names_at(alloc: Global, tree: &Tree, domain: &Domain) -> Result<Vec<AxisName>, CovFault>
    ensures { GivesUnlessMemory (λ v. v.items) result (ranges.names_in domain.now (get (codes "axisNames") (tree_view tree.now))) }
{
    let Some(list) = tree.get("axisNames") else {
        return if is_one_place(domain) {
            Ok(Vec::new(alloc))
        } else {
            Err(CovFault::Missing(Member::AxisNames))
        };
    };
    let items = list_at(list, Member::AxisNames)?;
    let names = axes_in(alloc, items)?;
    if !are_range_axes(&names, domain) {
        return Err(CovFault::WrongType(Member::AxisNames));
    }
    Ok(names)
}

// These lengths, each that of its axis: WrongType, WrongCount.
fn need_lengths(items: &Vec<Tree>, names: &[AxisName], domain: &Domain) -> Result<(), CovFault>
    requires { length items.now.items ≡ length names.now }
    ensures { result ≡ ranges.lengths_are (map (axes.length_of domain.now) names.now) (items_view items.now.items) }
{
    for place in 0..names.len() {
        let length = axis_len(domain, names[place]);
        match natural_of(&items[place]) {
            Some(found) => {
                if found != length as u64 {
                    return Err(CovFault::WrongCount(Member::Shape, length as u128, found as u128));
                }
            }
            None => return Err(CovFault::WrongType(Member::Shape)),
        }
    }
    Ok(())
}

// The sample is that length: WrongType, WrongCount.
fn need_length(sample: Option<i64>, length: usize) -> Result<(), CovFault>
    ensures { result ≡ ranges.length_is length (sample_data sample) }
{
    let Some(found) = sample else {
        return Err(CovFault::WrongType(Member::Shape));
    };
    if found < 0 {
        return Err(CovFault::WrongType(Member::Shape));
    }
    if found as u64 != length as u64 {
        return Err(CovFault::WrongCount(Member::Shape, length as u128, found as u128));
    }
    Ok(())
}

// Lengths that are samples.
fn need_sample_lengths(
    samples: &Samples,
    names: &[AxisName],
    domain: &Domain,
) -> Result<(), CovFault>
    requires { length samples.now ≡ length names.now }
    ensures { result ≡ ranges.lengths_are (map (axes.length_of domain.now) names.now) (items_of (map sample_data samples.now)) }
{
    for place in 0..names.len() {
        need_length(samples.get(place), axis_len(domain, names[place]))?;
    }
    Ok(())
}

// The lengths of these axes, each a whole number from 0: WrongType, WrongCount.
fn need_list_lengths(list: List<'_>, names: &[AxisName], domain: &Domain) -> Result<(), CovFault>
    requires { trees.count_items (list_view list) ≡ length names.now }
    ensures { result ≡ ranges.lengths_are (map (axes.length_of domain.now) names.now) (list_view list.entry) }
{
    match list {
        List::Samples(samples) => need_sample_lengths(samples, names, domain),
        List::Items(items) => need_lengths(items, names, domain),
    }
}

// The lengths of the axes, where they are given: Missing, WrongType, WrongCount.
fn need_shape(tree: &Tree, names: &[AxisName], domain: &Domain) -> Result<(), CovFault>
    ensures { result ≡ ranges.shape_in domain.now names.now (get (codes "shape") (tree_view tree.now)) }
{
    let Some(list) = tree.get("shape") else {
        return if is_one_place(domain) {
            Ok(())
        } else {
            Err(CovFault::Missing(Member::Shape))
        };
    };
    let items = list_at(list, Member::Shape)?;
    need_form(items, Wanted::Naturals, Member::Shape)?;
    let count = count_items(items);
    if count != names.len() {
        return Err(CovFault::WrongCount(Member::Shape, names.len() as u128, count as u128));
    }
    need_list_lengths(items, names, domain)
}

// How many values a range has. Each axis has fewer values than its limits have numbers, so that no product is beyond its type.
fn wanted_count(domain: &Domain) -> u128
    requires axes { HasAxes domain.now }
    requires tuples { HasTuples domain.now }
    ensures { result ≡ count_of domain.now }
{
    let times = axis_len(domain, AxisName::T) as u128;
    let levels = axis_len(domain, AxisName::Z) as u128;
    let rows = axis_len(domain, AxisName::Y) as u128;
    let columns = axis_len(domain, AxisName::X) as u128;
    let tuples = axis_len(domain, AxisName::Composite) as u128;
    times * (levels * (rows * (columns * tuples)))
}

// The samples that items are, absent where they are null: WrongType, NotWhole, OutOfRangeAt. They are read in one pass, and looked
// at in the order of the checks only where one of them is none.
fn samples_of(alloc: Global, items: List<'_>) -> Result<Vec<Option<i64>>, CovFault>
    ensures { GivesUnlessMemory (λ v. v.items) result (ranges.samples_of (list_view items.entry)) }
{
    match wholes_or_nulls(alloc, items, Member::Values, SAMPLE_LIMIT) {
        Ok(found) => Ok(found),
        Err(fault) => {
            need_form(items, Wanted::NumbersOrNulls, Member::Values)?;
            need_wholes(items, Wanted::WholesOrNulls, Member::Values)?;
            Err(fault)
        }
    }
}

// The values of a range: Missing, WrongType, WrongCount, and then sample by sample.
fn samples(alloc: Global, tree: &Tree, wanted: u128) -> Result<Vec<Option<i64>>, CovFault>
    ensures { GivesUnlessMemory (λ v. v.items) result (ranges.samples_in wanted (tree_view tree.now)) }
{
    let list = need(tree, "values", Member::Values)?;
    let items = list_at(list, Member::Values)?;
    let found = count_items(items) as u128;
    if found != wanted {
        return Err(CovFault::WrongCount(Member::Values, wanted, found));
    }
    samples_of(alloc, items)
}

// The range of a tree: its form, its axes, their lengths and its values.
fn range_read(alloc: Global, tree: &Tree, read: &ReadDomain) -> Result<NdArray, CovFault>
    requires axes { HasAxes read.now.domain }
    requires tuples { HasTuples read.now.domain }
    ensures { GivesUnlessMemory (λ r. r) result (ranges.range_of read.now (tree_view tree.now)) }
{
    need_array(alloc, tree)?;
    need_integers(alloc, tree)?;
    let names = names_at(alloc, tree, &read.domain)?;
    need_shape(tree, &names, &read.domain)?;
    let values = samples(alloc, tree, wanted_count(&read.domain))?;
    let values = in_order(alloc, values, &read.domain, read.turned, &names)?;
    Ok(NdArray {
        values: Items::of(values),
    })
}

/// The range over a domain that a tree stands for (OGC 21-069r2, NdArray objects): its values in row-major order t, z, y, x or
/// along the tuples, whatever the order of its axes in the tree and whichever of them are turned round.
///
/// Else the first that applies: WrongType or UnsupportedRange of the range itself, Missing or UnsupportedRange of `dataType`,
/// Missing or WrongType of `axisNames`, Missing, WrongType or WrongCount of `shape`, and Missing, WrongType, WrongCount,
/// NotWhole or OutOfRangeAt of `values`; or OutOfMemory.
pub fn range_of(alloc: Global, tree: &Tree, read: &ReadDomain) -> Result<NdArray, CovFault>
    requires axes { HasAxes read.now.domain }
    requires tuples { HasTuples read.now.domain }
    ensures stands { IfOk result (StandsForRange read.now.domain read.now.turned (tree_view tree.now)) }
    ensures fault { IfErr result (λ fault. fault ≢ OutOfMemory → RangeRows read.now (tree_view tree.now) (Err fault)) }
    ensures stands_not { IfErr result (λ fault. fault ≢ OutOfMemory
        → (range : NdArray) → ¬ (StandsForRange read.now.domain read.now.turned (tree_view tree.now) range)) }
    ensures answer { GivesUnlessMemory (λ r. r) result (ranges.range_of read.now (tree_view tree.now)) }
    ensures valid { IfOk result (IsRange read.now.domain) }
{
    range_read(alloc, tree, read)
}
