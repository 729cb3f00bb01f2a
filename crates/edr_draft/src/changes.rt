//! Changes of a draft.
ghost use Rattle.std.specs.Prelude.{◌≡◌};

use covjson_value::Coverage;
use edr_base::{OutOfMemory, Text};
use edr_edition::Kind;

/// One change of the collections of a draft. Ids are names, other texts are UTF-8, and coverages are valid.
#[derive(Drop)]
pub enum Change {
    /// A new empty collection.
    Collection {
        /// Its id.
        id: Text,
        /// What it has.
        kind: Kind,
        /// Its name, for people.
        title: Text,
        /// The coordinate reference system of x and y.
        crs: Text,
        /// The reference system of z, where there is one.
        vertical: Option<Text>,
    },
    /// A grid becomes an instance of a collection, in place of one of that id.
    Grid {
        /// The collection's id.
        collection: Text,
        /// The instance's id.
        instance: Text,
        /// The grid.
        coverage: Coverage,
    },
    /// The series of one place becomes a station of a collection, in place of one of that id: a PointSeries, or a Grid of one x
    /// and one y.
    Station {
        /// The collection's id.
        collection: Text,
        /// The station's id.
        id: Text,
        /// What people call it.
        label: Text,
        /// The series.
        coverage: Coverage,
    },
    /// A collection is dropped.
    DropCollection(Text),
    /// An instance of a collection is dropped.
    DropInstance(Text, Text),
    /// A station of a collection is dropped.
    DropStation(Text, Text),
    /// A grid becomes the instance `1` of the collection `grid`, which is made where it isn't there: of grids, with the title
    /// `grid` and the coverage's systems.
    Bare(Coverage),
}

/// Why a change isn't made: the first that applies, in this order.
#[derive(Debug, Drop)]
pub enum ChangeFault {
    /// A collection of that id is there already.
    SameCollection,
    /// There is no collection of that id.
    UnknownCollection,
    /// The collection is of another kind, or the coverage's domain isn't a Grid, or for a station neither a PointSeries nor a
    /// Grid of one x and one y.
    WrongKind,
    /// There is no instance of that id.
    UnknownInstance,
    /// There is no station of that id.
    UnknownStation,
    /// The coverage has no times.
    NoTimes,
    /// The coverage's coordinate reference system is given, and isn't the collection's.
    CrsDiffers,
    /// The coverage has that many nodes, and more than `edr_base::NODE_LIMIT`.
    TooManyNodes(usize),
    /// The parameters aren't those of the collection's other instances or stations: the least id that only one side has, or at
    /// which the two sides differ in language, label or unit.
    ParametersDiffer(Text),
    /// The collection's other stations have levels where this one has none, or have none where it has some.
    LevelsDiffer,
    /// Memory was wanting. No change has this fault by itself.
    OutOfMemory,
}

impl From<OutOfMemory> for ChangeFault {
    ghost use Rattle.edr_draft.specs.declared.changes.ChangeFault.TheVariants.{OutOfMemory};

    ghost from_gives = { λ _ fault. fault ≡ OutOfMemory };

    fn from(_: OutOfMemory) -> ChangeFault {
        ChangeFault::OutOfMemory
    }
}
