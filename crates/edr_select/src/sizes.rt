//! The sizes of replies.
ghost use Rattle.std.specs.Prelude.{◌≡◌, ◌<◌, ◌≤◌, ◌*◌, ◌||◌, nat_lt, MatchOption};
ghost use Rattle.edr_select.specs.Choices.{IsSome};
ghost use Rattle.edr_select.specs.Limits.{value_limit, coverage_limit};
ghost use Rattle.edr_select.specs.Steps as steps;

use crate::choices::Choice;
use crate::forms::Form;
use crate::limits::{COVERAGE_LIMIT, VALUE_LIMIT};

/// The product of two counts, or None where it is above the limit of values.
pub fn value_product(count: u64, other: u64) -> Option<u64>
    ensures { MatchOption result (value_limit < count * other) (λ product. (product ≡ count * other) × (product ≤ value_limit)) }
{
    let product = count.checked_mul(other)?;
    if product > VALUE_LIMIT {
        return None;
    }
    Some(product)
}

// How many values are chosen, or None where they are above the limit.
fn value_count(choice: &Choice) -> Option<u64>
    requires { IsSome choice.now }
    ensures { MatchOption result (value_limit < steps.value_count choice.now) (λ count. (count ≡ steps.value_count choice.now) × (count ≤ value_limit)) }
{
    let planes = value_product(choice.levels.len() as u64, choice.spots.len() as u64)?;
    let nodes = value_product(choice.times.len() as u64, planes)?;
    value_product(choice.parameters.len() as u64, nodes)
}

// How many coverages a reply has.
fn coverage_count(choice: &Choice, form: Form) -> usize
    ensures { result ≡ steps.coverage_count choice.now form }
{
    match form {
        Form::AtPoint(_) => 1,
        Form::Along(_, _) => 1,
        Form::Apart => choice.spots.len(),
    }
}

// Whether a reply has more values or coverages than one may have.
pub(crate) fn is_too_large(choice: &Choice, form: Form) -> bool
    requires { IsSome choice.now }
    ensures { result ≡ (nat_lt value_limit (steps.value_count choice.now) || nat_lt coverage_limit (steps.coverage_count choice.now form)) }
{
    value_count(choice).is_none() || coverage_count(choice, form) > COVERAGE_LIMIT
}
