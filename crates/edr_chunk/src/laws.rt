//! Laws of places and of tiles, for the proofs of callers: functions that do nothing and promise a law.
ghost use Rattle.edr_chunk.specs.declared.shapes.GridShape.{GridShape};
ghost use Rattle.edr_chunk.specs.Places.{IsShape};
ghost use Rattle.edr_chunk.specs.LawsOfPlaces.{PlacesAreListed, ReadsByNumber, ReadsWhole, AgreesWithin, TilesAreNumbered, TilesHavePlaces, SidesAreSmall};

/// The list of all places of a shape has each place within it once, at its number, and no other place.
///
/// A list of one value for each place of a shape, in the order of the places, and a function from places to values are told
/// by each other. The list that a function gives has at a place's number the function's value there; a list that is read at
/// the number of each place in turn is the list again; and functions that agree on each place within the shape give one list.
pub fn values_stand_by_number<A>()
    ensures listed { (shape : GridShape) → PlacesAreListed shape }
    ensures reads { ReadsByNumber A }
    ensures whole { ReadsWhole A }
    ensures agrees { AgreesWithin A }
{}

/// The tile of each place within a shape lies among the tiles, its number is below how many tiles there are, and no two
/// tiles have one number. There are no more tiles than values.
pub fn tiles_are_numbered()
    ensures { (shape : GridShape) → TilesAreNumbered shape }
{}

/// Each number below how many tiles a shape has is the number of some place's tile: no number is left out, and no tile is
/// without a place.
pub fn tiles_have_places()
    ensures { (shape : GridShape) → TilesHavePlaces shape }
{}

/// None of the times, levels, rows and columns of a shape are more than the nodes that a parameter may have.
pub fn sides_are_small()
    ensures { (shape : GridShape) → IsShape shape → SidesAreSmall shape }
{}
