//! The domains and the sizes of stacks.
ghost use Rattle.std.specs.Prelude.{◌≡◌, ◌≢◌, ◌<◌, ◌≤◌, [], nat_lt, IfOk, MatchOption};
ghost use Rattle.edr_edition.specs.Instances.{HasGrid};
ghost use Rattle.edr_select.specs.Limits.{value_limit};
ghost use Rattle.edr_select.specs.Stacks.{AreSides};
ghost use Rattle.edr_lines.specs.Plans as plans;
ghost use Rattle.edr_lines.specs.Plans.{domain_over, HasNodes};

use covjson_value::Domain;
use edr_base::OutOfMemory;
use edr_edition::GridInstance;
use edr_select::{StackSides, axis_at, axis_from, levels_at, value_product};
use std::alloc::Global;

// The times, the levels and the rows and columns of a stack (OGC 21-069r2, domain type Grid).
pub(crate) fn domain_of(
    alloc: Global,
    instance: &GridInstance,
    sides: &StackSides,
) -> Result<Domain, OutOfMemory>
    requires grid { HasGrid instance.now }
    requires sides { AreSides instance.now.grid.shape sides.now }
    requires nodes { HasNodes sides.now }
    ensures { IfOk result (λ domain. domain ≡ domain_over instance.now sides.now) }
{
    let t = axis_at(alloc, instance.times(), sides.times.items())?;
    let z = levels_at(alloc, instance, sides.levels.items())?;
    let y = axis_from(alloc, instance.ys(), sides.row, sides.rows)?;
    let x = axis_from(alloc, instance.xs(), sides.column, sides.columns)?;
    Ok(Domain::Grid {
        t: Some(t),
        z,
        y,
        x,
    })
}

// How many values some parameters have over a stack, or None where they are above the limit.
fn stacked_count(parameters: &[u64], sides: &StackSides) -> Option<u64>
    requires parameters { parameters.now ≢ [] }
    requires nodes { HasNodes sides.now }
    ensures { MatchOption result (value_limit < plans.stacked_count parameters.now sides.now)
        (λ count. (count ≡ plans.stacked_count parameters.now sides.now) × (count ≤ value_limit)) }
{
    let plane = value_product(u64::from(sides.rows), u64::from(sides.columns))?;
    let planes = value_product(sides.levels.items().len() as u64, plane)?;
    let nodes = value_product(sides.times.items().len() as u64, planes)?;
    value_product(parameters.len() as u64, nodes)
}

// Whether some parameters have more values over a stack than a reply may have.
pub(crate) fn is_too_large(parameters: &[u64], sides: &StackSides) -> bool
    requires parameters { parameters.now ≢ [] }
    requires nodes { HasNodes sides.now }
    ensures { result ≡ nat_lt value_limit (plans.stacked_count parameters.now sides.now) }
{
    stacked_count(parameters, sides).is_none()
}
