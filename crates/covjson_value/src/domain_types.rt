//! The domain types by their names.
ghost use Rattle.std.specs.Prelude.{◌≡◌};
ghost use Rattle.covjson_value.specs.DomainTypes.{type_by_name};

/// The type of a domain (OGC 21-069r2, Domain types).
#[derive(Clone, Copy)]
pub enum DomainType {
    /// All nodes of some axes.
    Grid,
    /// One place.
    Point,
    /// Several times at one place.
    PointSeries,
    /// Several levels at one place.
    VerticalProfile,
    /// Several places.
    MultiPoint,
    /// Several places at their times.
    Trajectory,
}

/// The type that has a name in CoverageJSON, and none where no type has it. It takes no memory.
pub fn type_by_name(name: &str) -> Option<DomainType>
    ensures { result ≡ type_by_name name.now }
{
    match name {
        "Grid" => Some(DomainType::Grid),
        "Point" => Some(DomainType::Point),
        "PointSeries" => Some(DomainType::PointSeries),
        "VerticalProfile" => Some(DomainType::VerticalProfile),
        "MultiPoint" => Some(DomainType::MultiPoint),
        "Trajectory" => Some(DomainType::Trajectory),
        _ => None,
    }
}
