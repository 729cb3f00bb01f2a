//! The trees of coverages and documents.
ghost use Rattle.std.specs.Prelude.{◌≡◌, codes, All, IfOk, OnOk, IfSome, IsUtf8, false, option_map};
ghost use Rattle.serde_json.specs.Data.{string};
ghost use Rattle.serde_json.specs.View.{view, members_view};
ghost use Rattle.serde_json.specs.Written.{has_float};
ghost use Rattle.covjson_value.specs.Coverages.{IsValid, IsValidDocument};
ghost use Rattle.covjson_value.specs.Trees.{array_of, domain_data, parameters_data, ranges_data, coverage_data, collection_data, document_data};
ghost use Rattle.covjson_value.specs.Puts.{put_if, put_coverage};

use crate::coverages::{Coverage, Document};
use crate::domain_trees::put_domain;
use crate::leaves::{push_tree, put_text, put_tree, text_of, typed_object};
use crate::parameter_trees::parameters_tree;
use crate::range_trees::put_ranges;
use edr_base::{OutOfMemory, Text};
use serde_json::{Map, Value};
use std::alloc::Global;

// Puts an id, where it is given.
fn put_id(
    members: &mut Map<String, Value>,
    alloc: Global,
    id: &Option<Text>,
) -> Result<(), OutOfMemory>
    requires { IfSome id.now IsUtf8 }
    ensures { OnOk result (members_view members.new.entries
        ≡ put_if (codes "id") (option_map string id.now) (members_view members.old.entries)) }
{
    match id {
        Some(id) => put_text(members, alloc, "id", text_of(id.bytes())),
        None => Ok(()),
    }
}

// Puts the members of a coverage, but for its type.
fn put_members(
    members: &mut Map<String, Value>,
    alloc: Global,
    coverage: &Coverage,
) -> Result<(), OutOfMemory>
    requires { IsValid coverage.now }
    ensures { OnOk result (members_view members.new.entries
        ≡ put_coverage (domain_data coverage.now.domain coverage.now.referencing) (option_map string coverage.now.id) (parameters_data coverage.now.parameters)
        (ranges_data coverage.now.domain coverage.now.parameters coverage.now.ranges) (members_view members.old.entries)) }
{
    put_domain(members, alloc, &coverage.domain, &coverage.referencing)?;
    put_id(members, alloc, &coverage.id)?;
    let parameters = coverage.parameters.items();
    put_tree(
        members,
        alloc,
        "parameters",
        parameters_tree(alloc, parameters)?,
    )?;
    put_ranges(
        members,
        alloc,
        &coverage.domain,
        parameters,
        coverage.ranges.items(),
    )
}

/// The tree of a coverage (OGC 21-069r2, Coverage objects) that is valid (`Coverage::is_valid`), with the members of each
/// object in ascending order of their keys. An axis x, y or z of 3 to `NODE_LIMIT` values that are equally far apart is
/// written by `num`, `start` and `stop`; every other axis lists its values. Want of memory is the only error.
pub fn tree_of(alloc: Global, coverage: &Coverage) -> Result<Value, OutOfMemory>
    requires { IsValid coverage.now }
    ensures tree { IfOk result (λ v. view v ≡ coverage_data coverage.now) }
    ensures no_float { IfOk result (λ v. has_float (view v) ≡ false) }
{
    let mut members = Map::new(alloc);
    put_members(&mut members, alloc, coverage)?;
    typed_object(members, alloc, "Coverage")
}

fn collection_tree(alloc: Global, coverages: &[Coverage]) -> Result<Value, OutOfMemory>
    requires { All IsValid coverages.now }
    ensures { IfOk result (λ v. view v ≡ collection_data (array_of coverage_data coverages.now)) }
{
    let mut items = Vec::with_capacity(alloc, coverages.len())?;
    for coverage in coverages {
        push_tree(&mut items, tree_of(alloc, coverage)?)?;
    }
    let mut members = Map::new(alloc);
    put_tree(&mut members, alloc, "coverages", Value::Array(items))?;
    typed_object(members, alloc, "CoverageCollection")
}

/// The tree of a document (OGC 21-069r2, Coverage and CoverageCollection objects) that is valid (`Document::is_valid`), with
/// the members of each object in ascending order of their keys. Want of memory is the only error.
pub fn document_tree(alloc: Global, document: &Document) -> Result<Value, OutOfMemory>
    requires { IsValidDocument document.now }
    ensures tree { IfOk result (λ v. view v ≡ document_data document.now) }
    ensures no_float { IfOk result (λ v. has_float (view v) ≡ false) }
{
    match document {
        Document::One(coverage) => tree_of(alloc, coverage),
        Document::Many(coverages) => collection_tree(alloc, coverages.items()),
    }
}
