//! Numbers, axes and pictures that are words, for tests.
ghost use Rattle.std.specs.Prelude.{IfSome};
ghost use Rattle.std.specs.List.{All};
ghost use Rattle.edr_base.specs.Limits.{IsCoordinate, IsMetres};

use edr_axes::Axis;
use edr_base::COORDINATE_LIMIT;
use std::alloc::Global;

// A coordinate or a level in metres.
pub(crate) fn coordinate(text: &str) -> Option<i64>
    ensures { IfSome result IsCoordinate }
{
    match text.parse::<i64>() {
        Ok(number) if number.unsigned_abs() <= COORDINATE_LIMIT => Some(number),
        _ => None,
    }
}

// A radius, a width or a height in metres.
pub(crate) fn distance(text: &str) -> Option<i64>
    ensures { IfSome result IsMetres }
{
    match text.parse::<i64>() {
        Ok(number) if 0 <= number && number <= 400_000_000 => Some(number),
        _ => None,
    }
}

// Coordinates with blanks between.
pub(crate) fn coordinates(alloc: Global, text: &str) -> Option<Vec<i64>>
    ensures { IfSome result (λ numbers. All IsCoordinate numbers.items) }
{
    let mut numbers = Vec::new(alloc);
    for word in text.split(' ') {
        numbers.push(coordinate(word)?).ok()?;
    }
    Some(numbers)
}

// An axis of coordinates.
pub(crate) fn axis_of(alloc: Global, text: &str) -> Option<Axis>
    ensures { IfSome result (λ axis. All IsCoordinate axis) }
{
    let numbers = coordinates(alloc, text)?;
    Axis::of(alloc, &numbers).ok()
}

// Whether a picture has a place as one that is taken.
pub(crate) fn is_marked(picture: &str, place: usize) -> bool {
    place < picture.len() && picture.as_bytes()[place] == b'#'
}
