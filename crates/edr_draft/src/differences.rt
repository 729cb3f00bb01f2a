//! How two lists of parameters differ.
ghost use Rattle.std.specs.Prelude.{◌≡◌, ◌↔◌, if◌then◌else◌, IsTrue, MatchOption};
ghost use Rattle.std.specs.Ordering.{is_lt};
ghost use Rattle.covjson_value.specs.Coverages.{AscendById};
ghost use Rattle.edr_base.specs.Names.{order};
ghost use Rattle.edr_draft.specs.Parameters.{DifferFirstAt};

use covjson_value::Parameter;
use edr_base::Text;
use std::cmp::Ordering;

fn same_text_where_given(one: &Option<Text>, other: &Option<Text>) -> bool
    ensures { IsTrue result ↔ (one.now ≡ other.now) }
{
    match (one, other) {
        (Some(one), Some(other)) => one.bytes() == other.bytes(),
        (None, None) => true,
        _ => false,
    }
}

fn same_parameter(one: &Parameter, other: &Parameter) -> bool
    ensures { IsTrue result ↔ (one.now ≡ other.now) }
{
    one.id.bytes() == other.id.bytes()
        && one.lang.bytes() == other.lang.bytes()
        && one.label.bytes() == other.label.bytes()
        && same_text_where_given(&one.unit, &other.unit)
}

fn lower_id<'a>(one: &'a Parameter, other: &'a Parameter) -> &'a [u8]
    ensures { result.now ≡ (if is_lt (order other.now.id one.now.id) then other.now.id else one.now.id) }
{
    match other.id.bytes().cmp(one.id.bytes()) {
        Ordering::Less => other.id.bytes(),
        Ordering::Equal | Ordering::Greater => one.id.bytes(),
    }
}

/// The least id that only one side has, or at which the sides differ; None exactly where they are the same.
pub fn first_difference<'a>(one: &'a [Parameter], other: &'a [Parameter]) -> Option<&'a [u8]>
    requires one { AscendById one.now }
    requires other { AscendById other.now }
    ensures { MatchOption result (one.now ≡ other.now) (λ id. DifferFirstAt one.now other.now id.now) }
{
    let both = one.len().min(other.len());
    for place in 0..both {
        let left = &one[place];
        let right = &other[place];
        if !same_parameter(left, right) {
            return Some(lower_id(left, right));
        }
    }
    if one.len() > both {
        Some(one[both].id.bytes())
    } else if other.len() > both {
        Some(other[both].id.bytes())
    } else {
        None
    }
}
