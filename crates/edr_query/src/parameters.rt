//! The query parameters of a target.
ghost use Rattle.std.specs.Prelude.{◌≡◌};
ghost use Rattle.edr_query.specs.Parameters.{is_required, is_filter, is_taken};
ghost use Rattle.edr_query.specs.Reads.{parameter_in, place_in};

use crate::addresses::{PageKind, QueryKind};

/// The query parameters that targets have (OGC 19-086r6, section 8).
#[derive(Clone, Copy, Debug, PartialEq, Eq)]
pub enum Parameter {
    /// `f`: the format of the reply.
    Format,
    /// `coords`: a geometry as well-known text.
    Coords,
    /// `within`: the radius, a distance.
    Within,
    /// `within-units`
    WithinUnits,
    /// `bbox`: a box.
    Bbox,
    /// `corridor-width`: the whole width of a corridor, a distance.
    CorridorWidth,
    /// `width-units`
    WidthUnits,
    /// `corridor-height`: the whole height of a corridor, a distance.
    CorridorHeight,
    /// `height-units`
    HeightUnits,
    /// `datetime`: an instant or an interval.
    Datetime,
    /// `z`: levels.
    Z,
    /// `parameter-name`: ids of parameters of the data.
    ParameterName,
    /// `crs`: the id of the coordinate reference system.
    Crs,
}

// The parameter of a name that says where a query selects.
fn place_of(name: &[u8]) -> Option<Parameter>
    ensures { result ≡ place_in name.now }
{
    if name == b"within".as_slice() {
        Some(Parameter::Within)
    } else if name == b"within-units".as_slice() {
        Some(Parameter::WithinUnits)
    } else if name == b"bbox".as_slice() {
        Some(Parameter::Bbox)
    } else if name == b"corridor-width".as_slice() {
        Some(Parameter::CorridorWidth)
    } else if name == b"width-units".as_slice() {
        Some(Parameter::WidthUnits)
    } else if name == b"corridor-height".as_slice() {
        Some(Parameter::CorridorHeight)
    } else if name == b"height-units".as_slice() {
        Some(Parameter::HeightUnits)
    } else {
        None
    }
}

/// The parameter of a name.
pub fn parameter_of(name: &[u8]) -> Option<Parameter>
    ensures { result ≡ parameter_in name.now }
{
    if name == b"f".as_slice() {
        Some(Parameter::Format)
    } else if name == b"coords".as_slice() {
        Some(Parameter::Coords)
    } else if name == b"datetime".as_slice() {
        Some(Parameter::Datetime)
    } else if name == b"z".as_slice() {
        Some(Parameter::Z)
    } else if name == b"parameter-name".as_slice() {
        Some(Parameter::ParameterName)
    } else if name == b"crs".as_slice() {
        Some(Parameter::Crs)
    } else {
        place_of(name)
    }
}

/// Whether a page can't do without a parameter.
pub fn is_required(kind: PageKind, parameter: Parameter) -> bool
    ensures { result ≡ is_required kind parameter }
{
    match kind {
        PageKind::Query(QueryKind::Cube) => parameter == Parameter::Bbox,
        PageKind::Query(QueryKind::Radius) => matches!(
            parameter,
            Parameter::Coords | Parameter::Within | Parameter::WithinUnits
        ),
        PageKind::Query(QueryKind::Corridor) => matches!(
            parameter,
            Parameter::Coords | Parameter::CorridorWidth | Parameter::WidthUnits
        ),
        PageKind::Query(_) => parameter == Parameter::Coords,
        _ => false,
    }
}

// Whether a parameter selects times, levels, parameters or the reference system of any query.
fn is_filter(parameter: Parameter) -> bool
    ensures { result ≡ is_filter parameter }
{
    matches!(
        parameter,
        Parameter::Datetime | Parameter::Z | Parameter::ParameterName | Parameter::Crs
    )
}

/// Whether a page takes a parameter.
pub fn is_taken(kind: PageKind, parameter: Parameter) -> bool
    ensures { result ≡ is_taken kind parameter }
{
    match (kind, parameter) {
        (_, Parameter::Format) => true,
        (PageKind::Description, _) => false,
        (
            PageKind::Query(QueryKind::Corridor),
            Parameter::CorridorHeight | Parameter::HeightUnits,
        ) => true,
        _ => is_filter(parameter) || is_required(kind, parameter),
    }
}
