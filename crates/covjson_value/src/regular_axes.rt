//! Axes of numbers that are equally far apart, and their short form (OGC 21-069r2, regularly spaced axes).
ghost use Rattle.std.specs.Prelude.{◌≡◌, ◌<◌, ◌≤◌, ◌-◌, ◌-ℤ◌, IfOk, All, length};
ghost use Rattle.serde_json.specs.View.{view};
ghost use Rattle.edr_axes.specs.Axes.{value_at};
ghost use Rattle.edr_base.specs.Limits.{IsCoordinate};
ghost use Rattle.covjson_value.specs.Trees.{is_regular, span_data};

use crate::leaves::put_tree;
use edr_base::{NODE_LIMIT, OutOfMemory};
use serde_json::{Map, Value};
use std::alloc::Global;

// An axis of fewer values is listed.
const REGULAR_LEAST: usize = 3;

// How far a value is above the one before.
fn gap_at(values: &[i64], place: usize) -> i64
    requires within { All IsCoordinate values.now }
    requires after { 1 ≤ place }
    requires inside { place < length values.now }
    ensures { result ≡ value_at values.now place -ℤ value_at values.now (place - 1) }
{
    values[place] - values[place - 1]
}

/// Whether an axis of these numbers is written short: three or more, no more than may be read so, all neighbours equally
/// far apart. One pass over them, and no memory.
pub fn is_regular(values: &[i64]) -> bool
    requires { All IsCoordinate values.now }
    ensures { result ≡ is_regular values.now }
{
    if values.len() < REGULAR_LEAST || values.len() > NODE_LIMIT {
        return false;
    }
    let step = gap_at(values, 1);
    for place in 2..values.len() {
        if gap_at(values, place) != step {
            return false;
        }
    }
    true
}

/// The tree of an axis by its count of values, the first and the last.
pub fn span_tree(alloc: Global, values: &[i64]) -> Result<Value, OutOfMemory>
    requires { 0 < length values.now }
    ensures { IfOk result (λ v. view v ≡ span_data values.now) }
{
    let mut members = Map::new(alloc);
    let last = values[values.len() - 1];
    put_tree(&mut members, alloc, "num", Value::from(values.len()))?;
    put_tree(&mut members, alloc, "start", Value::from(values[0]))?;
    put_tree(&mut members, alloc, "stop", Value::from(last))?;
    Ok(Value::Object(members))
}
