//! The sizes of replies over frames.
ghost use Rattle.std.specs.Prelude.{◌≡◌, ◌<◌, ◌≤◌, nat_lt, MatchOption};
ghost use Rattle.edr_select.specs.AreaPlans as area_plans;
ghost use Rattle.edr_select.specs.AreaPlans.{TakesSome};
ghost use Rattle.edr_select.specs.Limits.{value_limit};

use crate::frames::Frame;
use crate::sizes::value_product;

// How many values some parameters have over a frame, or None where they are above the limit.
fn framed_count(parameters: &[u64], frame: &Frame) -> Option<u64>
    requires { TakesSome parameters.now frame.now.times frame.now.levels }
    ensures { MatchOption result (value_limit < area_plans.framed_count parameters.now frame.now)
        (λ count. (count ≡ area_plans.framed_count parameters.now frame.now) × (count ≤ value_limit)) }
{
    let plane = value_product(u64::from(frame.rows), u64::from(frame.columns))?;
    let planes = value_product(frame.levels.items().len() as u64, plane)?;
    let nodes = value_product(frame.times.items().len() as u64, planes)?;
    value_product(parameters.len() as u64, nodes)
}

// Whether some parameters have more values over a frame than a reply may have.
pub(crate) fn is_too_large(parameters: &[u64], frame: &Frame) -> bool
    requires { TakesSome parameters.now frame.now.times frame.now.levels }
    ensures { result ≡ nat_lt value_limit (area_plans.framed_count parameters.now frame.now) }
{
    framed_count(parameters, frame).is_none()
}
