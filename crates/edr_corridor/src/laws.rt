//! Laws of corridors.
ghost use Rattle.edr_corridor.specs.BoxLaws.{BoxesAreWanted, CorridorsAreCut, NearPlacesAreWithin};

/// The boxes of all segments together take the nodes that are wanted, and no others.
pub fn boxes_are_wanted()
    ensures { BoxesAreWanted }
{}

/// What is wanted, cut by the times that are asked where the line has no m, and by the levels that are asked where no height goes
/// about a level, is what one and the same segment takes of the times and levels that are asked.
pub fn corridors_are_cut()
    ensures { CorridorsAreCut }
{}

/// A place that is near a segment is at most half the width away from the segment's x, and from its y.
pub fn near_places_are_within()
    ensures { NearPlacesAreWithin }
{}
