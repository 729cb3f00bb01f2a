//! What a segment takes of the nodes of a grid.

/// Some rows and columns of a plane, by their places, from 0. Of each there is one at least.
///
/// A range has its first place, and the one behind its last.
#[derive(Clone, Copy, Debug)]
pub struct Rectangle {
    pub rows: (usize, usize),
    pub columns: (usize, usize),
}

/// What a segment takes of the nodes of a grid, by their places on its axes, from 0.
///
/// A node is taken where the places of its time and its level lie in the two ranges, and a rectangle has its row and its column. A
/// range has its first place, and the one behind its last.
#[derive(Debug, Drop)]
pub struct SegmentBox {
    /// The times.
    pub times: (usize, usize),
    /// The levels; without an axis of levels they are 0 and 1.
    pub levels: (usize, usize),
    /// The rows and columns.
    pub rectangles: Vec<Rectangle>,
}
