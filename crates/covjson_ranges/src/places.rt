//! Places on the axes of a domain, and the numbers of values in row-major order.
ghost use Rattle.std.specs.Prelude.{◌≡◌, ◌<◌, ◌^◌};
ghost use Rattle.covjson_value.specs.Domains.{axis_of, count_of};
ghost use Rattle.edr_axes.specs.Axes.{axis_length};
ghost use Rattle.covjson_ranges.specs.Ranges.{AreInside, AreRangeAxes};
ghost use Rattle.covjson_ranges.specs.Ranges as ranges;
ghost use Rattle.covjson_ranges.specs.Orders as orders;

use covjson_checks::Turned;
use covjson_value::{AxisName, CoordinateName, Domain};

/// Places on the axes of a domain, each from 0. An axis that the domain hasn't has the place 0 alone.
#[derive(Clone, Copy)]
pub struct Places {
    /// The place of the time.
    pub t: usize,
    /// The place of the level.
    pub z: usize,
    /// The place of the second coordinate.
    pub y: usize,
    /// The place of the first coordinate.
    pub x: usize,
    /// The place of the tuple.
    pub tuple: usize,
}

fn values_len(domain: &Domain, name: CoordinateName) -> usize
    ensures length { result ≡ axis_length (axis_of domain.now name) }
    ensures some { 0 < result }
{
    match domain.axis(name) {
        Some(values) => values.len(),
        None => 1,
    }
}

/// How many values the axis of a name has, and 1 where the domain hasn't it.
pub fn axis_len(domain: &Domain, name: AxisName) -> usize
    ensures { result ≡ ranges.length_of domain.now name }
{
    match name {
        AxisName::T => values_len(domain, CoordinateName::T),
        AxisName::Z => values_len(domain, CoordinateName::Z),
        AxisName::Y => values_len(domain, CoordinateName::Y),
        AxisName::X => values_len(domain, CoordinateName::X),
        AxisName::Composite => match domain.tuples() {
            Some(tuples) => tuples.len(),
            None => 1,
        },
    }
}

/// Whether the domain has the axis of a name.
pub fn has_axis(domain: &Domain, name: AxisName) -> bool
    ensures { result ≡ ranges.has_range_axis domain.now name }
{
    match name {
        AxisName::T => domain.axis(CoordinateName::T).is_some(),
        AxisName::Z => domain.axis(CoordinateName::Z).is_some(),
        AxisName::Y => domain.axis(CoordinateName::Y).is_some(),
        AxisName::X => domain.axis(CoordinateName::X).is_some(),
        AxisName::Composite => domain.tuples().is_some(),
    }
}

// The place on an axis as the tree has it.
fn tree_place(domain: &Domain, turned: Turned, places: Places, name: AxisName) -> usize
    requires { AreInside domain.now places }
    ensures { result ≡ ranges.tree_place domain.now turned places name }
{
    let (place, is_turned) = match name {
        AxisName::T => (places.t, turned.t),
        AxisName::Z => (places.z, turned.z),
        AxisName::Y => (places.y, turned.y),
        AxisName::X => (places.x, turned.x),
        AxisName::Composite => (places.tuple, false),
    };
    if is_turned {
        axis_len(domain, name) - 1 - place
    } else {
        place
    }
}

/// The number, among the values of a tree with its axes in that order, of the value at some places of the domain.
pub fn tree_number(domain: &Domain, turned: Turned, names: &[AxisName], places: Places) -> usize
    requires inside { AreInside domain.now places }
    requires axes { AreRangeAxes domain.now names.now }
    requires few { count_of domain.now < 2 ^ 64 }
    ensures number { result ≡ ranges.tree_number domain.now turned names.now places }
    ensures inside { result < count_of domain.now }
{
    let mut number = 0;
    for name in names {
        number = number * axis_len(domain, *name) + tree_place(domain, turned, places, *name);
    }
    number
}

/// The places whose value has that number in the domain's own order.
pub fn places_of(domain: &Domain, number: usize) -> Places
    requires { number < count_of domain.now }
    ensures places { result ≡ orders.places_at domain.now number }
    ensures inside { AreInside domain.now result }
    ensures number { ranges.number_of domain.now result ≡ number }
{
    let tuples = axis_len(domain, AxisName::Composite);
    let columns = axis_len(domain, AxisName::X);
    let rows = axis_len(domain, AxisName::Y);
    let levels = axis_len(domain, AxisName::Z);
    let node = number / tuples;
    let row = node / columns;
    let level = row / rows;
    Places {
        t: level / levels,
        z: level % levels,
        y: row % rows,
        x: node % columns,
        tuple: number % tuples,
    }
}
