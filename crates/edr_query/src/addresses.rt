//! What the path of a target names.
ghost use Rattle.std.specs.Prelude.{◌≡◌};
ghost use Rattle.edr_query.specs.Paths.{kind_text, page_kind};

use edr_base::Text;
use percent_encoding::{AsciiSet, NON_ALPHANUMERIC, ascii_set};

/// The bytes of an id that are escaped in a path: all but letters, digits, `-`, `.`, `_` and `~` (RFC 3986, section 2.3).
pub const ID_SET: AsciiSet = ascii_set!(
    NON_ALPHANUMERIC
        .remove(b'-')
        .remove(b'.')
        .remove(b'_')
        .remove(b'~')
);

/// The data queries that a path names by its last part (OGC 19-086r6, section 8).
#[derive(Clone, Copy, Debug, PartialEq, Eq)]
pub enum QueryKind {
    Position,
    Radius,
    Area,
    Cube,
    Trajectory,
    Corridor,
}

impl QueryKind {
    /// Its name, the last part of the path of a query.
    pub fn name(self) -> &'static [u8]
        ensures { result.now ≡ kind_text self }
    {
        match self {
            QueryKind::Position => b"position",
            QueryKind::Radius => b"radius",
            QueryKind::Area => b"area",
            QueryKind::Cube => b"cube",
            QueryKind::Trajectory => b"trajectory",
            QueryKind::Corridor => b"corridor",
        }
    }
}

/// The kinds of page, each with parameters of its own.
#[derive(Clone, Copy, Debug, PartialEq, Eq)]
pub enum PageKind {
    /// A page that describes the service, a collection or an instance.
    Description,
    /// The data of one station.
    Location,
    /// The data that a query selects.
    Query(QueryKind),
}

/// What the path of a target names (OGC 19-086r6, section 7).
#[derive(Debug, Drop)]
pub enum Address {
    /// `/`
    Landing,
    /// `/conformance`
    Conformance,
    /// `/collections`
    Collections,
    /// `/collections/c`
    Collection(Text),
    /// `/collections/c/instances`
    Instances(Text),
    /// `/collections/c/instances/i`
    Instance(Text, Text),
    /// `/collections/c/locations`
    Locations(Text),
    /// `/collections/c/locations/s`: the data of one station.
    Location(Text, Text),
    /// A query of a collection, or of one of its instances: `/collections/c/q` or `/collections/c/instances/i/q`.
    Query {
        kind: QueryKind,
        collection: Text,
        instance: Option<Text>,
    },
}

impl Address {
    /// The kind of its page.
    pub fn page_kind(&self) -> PageKind
        ensures { result ≡ page_kind self.now }
    {
        match self {
            Address::Query { kind, .. } => PageKind::Query(*kind),
            Address::Location(..) => PageKind::Location,
            _ => PageKind::Description,
        }
    }
}
