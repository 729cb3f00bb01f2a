//! The names of axes.
ghost use Rattle.std.specs.Prelude.{◌≡◌};
ghost use Rattle.covjson_value.specs.AxisNames.{axis_by_name, axis_key, axis_name};

use crate::domains::CoordinateName;

/// The name of an axis (OGC 21-069r2, Domain objects and NdArray objects).
#[derive(Clone, Copy, PartialEq, Eq)]
pub enum AxisName {
    /// Times.
    T,
    /// Levels.
    Z,
    /// Second coordinates.
    Y,
    /// First coordinates.
    X,
    /// Tuples.
    Composite,
}

/// The name of an axis in CoverageJSON. It takes no memory.
pub fn axis_key(name: AxisName) -> &'static str
    ensures { result.now ≡ axis_key name }
{
    match name {
        AxisName::T => "t",
        AxisName::Z => "z",
        AxisName::Y => "y",
        AxisName::X => "x",
        AxisName::Composite => "composite",
    }
}

/// The axis that has a name in CoverageJSON, and none where no axis has it. It takes no memory.
pub fn axis_by_name(name: &str) -> Option<AxisName>
    ensures { result ≡ axis_by_name name.now }
{
    match name {
        "t" => Some(AxisName::T),
        "z" => Some(AxisName::Z),
        "y" => Some(AxisName::Y),
        "x" => Some(AxisName::X),
        "composite" => Some(AxisName::Composite),
        _ => None,
    }
}

/// The axis that has the name of a coordinate.
pub fn axis_name(name: CoordinateName) -> AxisName
    ensures { result ≡ axis_name name }
{
    match name {
        CoordinateName::T => AxisName::T,
        CoordinateName::Z => AxisName::Z,
        CoordinateName::Y => AxisName::Y,
        CoordinateName::X => AxisName::X,
    }
}
