//! The shape of a grid's values, and a place in it.
ghost use Rattle.std.specs.Prelude.{◌≡◌, ◌^◌, ◌<◌};
ghost use Rattle.edr_chunk.specs.Places.{Within, IsShape, NumbersTellPlaces, nodes, count, node_number};
ghost use Rattle.edr_chunk.specs.RowMajor.{RowMajorIsBelow, RowMajorRises, RowMajorIsOnce};
ghost use Rattle.edr_chunk.specs.Places as places;

/// How many parameters, times, levels, rows and columns the values of a grid have: each at least one, and one level where
/// there is no axis of levels. Values are in the order parameter, t, z, y, x, the last fastest (OGC 21-069r2, NdArray objects).
#[derive(Clone, Copy)]
pub struct GridShape {
    /// The parameters.
    pub parameters: u64,
    /// The values of the axis t.
    pub times: u32,
    /// The values of the axis z, and 1 where there is none.
    pub levels: u32,
    /// The values of the axis y.
    pub rows: u32,
    /// The values of the axis x.
    pub columns: u32,
}

/// A place of a grid's values; each number counts from 0.
#[derive(Clone, Copy, Debug)]
pub struct GridPlace {
    /// The place of the parameter.
    pub parameter: u64,
    /// The place on the axis t.
    pub t: u32,
    /// The place on the axis z, and 0 where there is none.
    pub z: u32,
    /// The place on the axis y.
    pub y: u32,
    /// The place on the axis x.
    pub x: u32,
}

impl GridShape {
    /// The number of a place's value among all, in the order parameter, t, z, y, x. It takes no memory.
    pub fn number(self, place: GridPlace) -> u64
        requires shape { IsShape self }
        requires within { Within self place }
        requires fits { count self < 2 ^ 64 }
        ensures number { result ≡ places.number self place }
        ensures inside { result < count self }
    {
        let time = place.parameter * self.times as u64 + place.t as u64;
        let profile = time * self.levels as u64 + place.z as u64;
        let row = profile * self.rows as u64 + place.y as u64;
        row * self.columns as u64 + place.x as u64
    }

    /// The number of a place's node among those of its parameter, in the order t, z, y, x. It takes no memory.
    pub fn node_number(self, place: GridPlace) -> u64
        requires shape { IsShape self }
        requires within { Within self place }
        ensures number { result ≡ node_number self place }
        ensures inside { result < nodes self }
    {
        let one = GridShape {
            parameters: 1,
            ..self
        };
        one.number(GridPlace {
            parameter: 0,
            ..place
        })
    }
}

/// Numbers tell places: they are below the count, no two places have one, and each parameter's values stand together.
pub fn numbers_tell_places()
    ensures { (shape : GridShape) → NumbersTellPlaces shape }
{}

/// Row-major numbers tell places along any axes.
pub fn row_major_tells_places<A>()
    ensures below { RowMajorIsBelow A }
    ensures rises { RowMajorRises A }
    ensures once { RowMajorIsOnce A }
{}
