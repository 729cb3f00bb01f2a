//! All ranges of a coverage, each with its parameter.
ghost use Rattle.std.specs.Prelude.{◌≡◌, [], IfOk};
ghost use Rattle.edr_samples.specs.Trees.{tree_view, members_view};
ghost use Rattle.covjson_value.specs.Coverages.{HasAxes, HasTuples};
ghost use Rattle.covjson_checks.specs.Answers.{GivesUnlessMemory};
ghost use Rattle.covjson_read.specs.Parameters.{HaveNames};
ghost use Rattle.covjson_read.specs.Collected.{AreValid};
ghost use Rattle.covjson_read.specs.CollectedAnswers as ranges;

use crate::parameters::parameter_of;
use covjson_checks::{CovFault, Member, ReadDomain, need, object_at};
use covjson_ranges::range_of;
use covjson_value::{NdArray, Parameter};
use edr_base::Items;
use edr_json::Tree;
use serde_json::Map;
use std::alloc::Global;

/// The ranges that were read, and the parameter of each.
#[derive(Drop)]
pub struct ReadRanges {
    /// The parameters, in ascending order of their ids.
    pub parameters: Items<Parameter>,
    /// The range of each.
    pub ranges: Items<NdArray>,
}

// Each range in turn, and the parameter of its name, put to none.
fn ranges_from(
    alloc: Global,
    members: &Map<String, Tree>,
    parameters: &Tree,
    read: &ReadDomain,
    kept: &mut Vec<Parameter>,
    found: &mut Vec<NdArray>,
) -> Result<(), CovFault>
    requires axes { HasAxes read.now.domain }
    requires tuples { HasTuples read.now.domain }
    requires named { HaveNames (tree_view parameters.now) }
    requires none_kept { kept.old.items ≡ [] }
    requires none_found { found.old.items ≡ [] }
    ensures answer { GivesUnlessMemory (λ _. ranges.both kept.new.items found.new.items) result (
        ranges.ranges_from read.now (tree_view parameters.now) (members_view members.now.entries)) }
    ensures valid { IfOk result (λ _. AreValid read.now.domain kept.new.items found.new.items) }
{
    for (id, range) in members.iter() {
        let tree = need(parameters, id, Member::Parameters)?;
        let parameter = parameter_of(alloc, id, tree)?;
        kept.push(parameter)?;
        let array = range_of(alloc, range, read)?;
        found.push(array)?;
    }
    Ok(())
}

/// The ranges of a coverage and their parameters: Missing, WrongType, WrongCount, and then range by range.
pub fn ranges_in(
    alloc: Global,
    tree: &Tree,
    parameters: &Tree,
    read: &ReadDomain,
) -> Result<ReadRanges, CovFault>
    requires axes { HasAxes read.now.domain }
    requires tuples { HasTuples read.now.domain }
    requires named { HaveNames (tree_view parameters.now) }
    ensures answer { GivesUnlessMemory (λ r. r) result (ranges.ranges_in read.now (tree_view parameters.now) (tree_view tree.now)) }
    ensures valid { IfOk result (λ r. AreValid read.now.domain r.parameters r.ranges) }
{
    let found = need(tree, "ranges", Member::Ranges)?;
    let members = object_at(found, Member::Ranges)?;
    if members.is_empty() {
        return Err(CovFault::WrongCount(Member::Ranges, 1, 0));
    }
    let mut kept = Vec::new(alloc);
    let mut found = Vec::new(alloc);
    ranges_from(alloc, members, parameters, read, &mut kept, &mut found)?;
    Ok(ReadRanges {
        parameters: Items::of(kept),
        ranges: Items::of(found),
    })
}
