//! Which coverages are valid.
ghost use Rattle.std.specs.Prelude.{◌≡◌, ◌↔◌, true, map, IsTrue, IfSome, IsSome, IsNone, All};
ghost use Rattle.std.specs.declared.cmp.Ordering.TheVariants.{Less};
ghost use Rattle.covjson_value.specs.declared.domains.CoordinateName.TheVariants.{T, Z};
ghost use Rattle.covjson_value.specs.Domains.{axis_of, tuples_of, coordinates_of, coordinate, is_among, has_coordinate};
ghost use Rattle.edr_base.specs.Limits.{HasSample};
ghost use Rattle.edr_base.specs.Names.{order};
ghost use Rattle.covjson_value.specs.Coverages.{IsAxisValue, IsNamedAxis, HasAxes, IsTupleValue, IsTuple, NeverFall, AreTuples, HasTuples, IsParameter, IsReferencing, AscendById, IsRange, IsValid, IsValidDocument};

use crate::coverages::{Coverage, Document, NdArray, Parameter, Referencing};
use crate::domains::{CoordinateName, Domain};
use edr_base::{
    COORDINATE_LIMIT, EARLIEST_TIME, LATEST_TIME, Position, SAMPLE_LIMIT, is_name, is_utf8,
    is_utf8_where_given,
};

fn is_axis_value(name: CoordinateName, value: i64) -> bool
    ensures { IsTrue result ↔ IsAxisValue name value }
{
    match name {
        CoordinateName::T => EARLIEST_TIME <= value && value <= LATEST_TIME,
        CoordinateName::Z | CoordinateName::Y | CoordinateName::X => value.unsigned_abs()
            <= COORDINATE_LIMIT,
    }
}

// An axis that the domain hasn't is none at fault.
fn is_named_axis(domain: &Domain, name: CoordinateName) -> bool
    ensures { IsTrue result ↔ IfSome (axis_of domain.now name) (IsNamedAxis name) }
{
    match domain.axis(name) {
        Some(values) => values.iter().all(|value| is_axis_value(name, *value)),
        None => true,
    }
}

fn has_axes(domain: &Domain) -> bool
    ensures { IsTrue result ↔ HasAxes domain.now }
{
    is_named_axis(domain, CoordinateName::T)
        && is_named_axis(domain, CoordinateName::Z)
        && is_named_axis(domain, CoordinateName::Y)
        && is_named_axis(domain, CoordinateName::X)
}

// What is no coordinate is 0.
fn is_tuple_value(is_coordinate: bool, name: CoordinateName, value: i64) -> bool
    ensures { IsTrue result ↔ IsTupleValue is_coordinate name value }
{
    if is_coordinate {
        is_axis_value(name, value)
    } else {
        value == 0
    }
}

fn is_tuple(domain: &Domain, tuple: &Position) -> bool
    ensures { IsTrue result ↔ IsTuple (coordinates_of domain.now) tuple.now }
{
    is_tuple_value(
        domain.is_in_tuples(CoordinateName::T),
        CoordinateName::T,
        tuple.m,
    ) && is_tuple_value(
        domain.is_in_tuples(CoordinateName::Z),
        CoordinateName::Z,
        tuple.z,
    ) && is_tuple_value(
        domain.is_in_tuples(CoordinateName::Y),
        CoordinateName::Y,
        tuple.y,
    ) && is_tuple_value(
        domain.is_in_tuples(CoordinateName::X),
        CoordinateName::X,
        tuple.x,
    )
}

fn never_fall(tuples: &[Position]) -> bool
    ensures { IsTrue result ↔ NeverFall (map (coordinate T) tuples.now) }
{
    for place in 1..tuples.len() {
        if tuples[place].m < tuples[place - 1].m {
            return false;
        }
    }
    true
}

// The tuples that a domain has are in order.
fn has_good_tuples(domain: &Domain) -> bool
    ensures { IsTrue result ↔ IfSome (tuples_of domain.now) (AreTuples (coordinates_of domain.now)) }
{
    match domain.tuples() {
        Some(tuples) => {
            !tuples.is_empty()
                && tuples.iter().all(|tuple| is_tuple(domain, tuple))
                && never_fall(tuples)
        }
        None => true,
    }
}

// A coordinate of tuples has no axis of its own.
fn is_once(domain: &Domain, name: CoordinateName) -> bool
    ensures { IsTrue result ↔ (is_among name (coordinates_of domain.now) ≡ true → IsNone (axis_of domain.now name)) }
{
    !domain.is_in_tuples(name) || domain.axis(name).is_none()
}

fn has_tuples(domain: &Domain) -> bool
    ensures { IsTrue result ↔ HasTuples domain.now }
{
    has_good_tuples(domain)
        && is_once(domain, CoordinateName::T)
        && is_once(domain, CoordinateName::Z)
        && is_once(domain, CoordinateName::Y)
        && is_once(domain, CoordinateName::X)
}

fn is_parameter(parameter: &Parameter) -> bool
    ensures { IsTrue result ↔ IsParameter parameter.now }
{
    is_name(parameter.id.bytes())
        && is_utf8(parameter.lang.bytes())
        && is_utf8(parameter.label.bytes())
        && is_utf8_where_given(&parameter.unit)
}

fn is_referencing(referencing: &Referencing) -> bool
    ensures { IsTrue result ↔ IsReferencing referencing.now }
{
    is_utf8(referencing.crs.bytes()) && is_utf8_where_given(&referencing.vertical)
}

fn is_below(one: &Parameter, other: &Parameter) -> bool
    ensures { IsTrue result ↔ (order one.now.id other.now.id ≡ Less) }
{
    one.id.bytes().cmp(other.id.bytes()).is_lt()
}

fn ascend_by_id(parameters: &[Parameter]) -> bool
    ensures { IsTrue result ↔ AscendById parameters.now }
{
    for place in 1..parameters.len() {
        if !is_below(&parameters[place - 1], &parameters[place]) {
            return false;
        }
    }
    true
}

fn is_sample(value: Option<i64>) -> bool
    ensures { IsTrue result ↔ HasSample value }
{
    match value {
        Some(value) => value.unsigned_abs() <= SAMPLE_LIMIT,
        None => true,
    }
}

fn is_range(range: &NdArray, domain: &Domain) -> bool
    ensures { IsTrue result ↔ IsRange domain.now range.now }
{
    domain.count() == Some(range.values.items().len())
        && range.values.items().iter().all(|value| is_sample(*value))
}

fn are_parameters(parameters: &[Parameter]) -> bool
    ensures { IsTrue result ↔ All IsParameter parameters.now }
{
    parameters.iter().all(|parameter| is_parameter(parameter))
}

fn are_ranges(ranges: &[NdArray], domain: &Domain) -> bool
    ensures { IsTrue result ↔ All (IsRange domain.now) ranges.now }
{
    ranges.iter().all(|range| is_range(range, domain))
}

// A vertical system is given only where there are levels.
fn has_vertical_in_place(referencing: &Referencing, domain: &Domain) -> bool
    ensures { IsTrue result ↔ (IsSome referencing.now.vertical → IsTrue (has_coordinate domain.now Z)) }
{
    referencing.vertical.is_none() || domain.has(CoordinateName::Z)
}

impl Coverage {
    /// Whether the coverage is valid (OGC 21-069r2, Coverage objects): at least one parameter, strictly ascending by ids
    /// that are names, with one range each, of as many values as the domain has; texts of UTF-8; axes strictly ascending
    /// and not empty; at least one tuple in a composite axis, times of a Trajectory that never fall, and a level of its own
    /// only where its tuples have none; a vertical system only where the domain has z; coordinates, levels, times and
    /// samples within their limits. It takes no memory.
    pub fn is_valid(&self) -> bool
        ensures { IsTrue result ↔ IsValid self.now }
    {
        let parameters = self.parameters.items();
        let ranges = self.ranges.items();
        is_utf8_where_given(&self.id)
            && has_axes(&self.domain)
            && has_tuples(&self.domain)
            && is_referencing(&self.referencing)
            && has_vertical_in_place(&self.referencing, &self.domain)
            && !parameters.is_empty()
            && are_parameters(parameters)
            && ascend_by_id(parameters)
            && ranges.len() == parameters.len()
            && are_ranges(ranges, &self.domain)
    }
}

impl Document {
    /// Whether each of its coverages is valid (OGC 21-069r2, CoverageCollection objects); a collection of none is. It takes
    /// no memory.
    pub fn is_valid(&self) -> bool
        ensures { IsTrue result ↔ IsValidDocument self.now }
    {
        match self {
            Document::One(coverage) => coverage.is_valid(),
            Document::Many(coverages) => {
                coverages.items().iter().all(|coverage| coverage.is_valid())
            }
        }
    }
}
