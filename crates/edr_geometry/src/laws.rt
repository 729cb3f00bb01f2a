//! Laws of places.
ghost use Rattle.edr_geometry.specs.Limits.{GeometriesArePlaced};
ghost use Rattle.edr_geometry.specs.Ranges.{NearIsExchanged};

/// The polygons of each geometry that is read or written have places within the limits.
pub fn geometries_are_placed()
    ensures { GeometriesArePlaced }
{}

/// A place is near a segment exactly where both are with x and y exchanged.
pub fn near_is_exchanged()
    ensures { NearIsExchanged }
{}
