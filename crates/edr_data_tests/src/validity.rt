//! Tables of what is valid, and of the axes of domains.
use crate::cases::{Cases, are_right};
use crate::documents::{document, domain};
use covjson_value::{AxisName, CoordinateName, Domain, axis_key};
use std::alloc::Global;
use std::rt::HostRuntime;

// A line for each document, and whether it is valid.
const DOCUMENTS: &str = "\
# parameters and ranges
Point y=0 x=0 ids=a values=1 => valid
Point y=0 x=0 ids=a,b values=- => valid
Point y=0 x=0 ids=a,aa,b values=0 => valid
Point y=0 x=0 ids=b,a values=1 => wrong
Point y=0 x=0 ids=a,a values=1 => wrong
Point y=0 x=0 ids=a?b values=1 => wrong
Point y=0 x=0 values=1 => wrong
Point y=0 x=0 ids=a ranges=0 values=- => wrong
Point y=0 x=0 ids=a ranges=2 values=- => wrong
Point y=0 x=0 ids=a => wrong
Point y=0 x=0 ids=a values=1,2 => wrong
Point y=0 x=0 ids=a values=9007199254740991 => valid
Point y=0 x=0 ids=a values=-9007199254740992 => wrong
# ids and systems
Point y=0 x=0 ids=a values=- id=a => valid
Point y=0 x=0 ids=a values=- id=? => wrong
Point z=1 y=0 x=0 ids=a values=- crs=m vertical=depth => valid
Point z=1 y=0 x=0 ids=a values=- crs=? vertical=depth => wrong
Point z=1 y=0 x=0 ids=a values=- crs=m vertical=? => wrong
Point y=0 x=0 ids=a values=- crs=m vertical=depth => wrong
MultiPoint at=1/2/0/0 own=z ids=a values=- crs=m vertical=depth => valid
MultiPoint at=1/2/0/0 ids=a values=- crs=m vertical=depth => wrong
# coordinates, levels and times
Point y=100000000 x=-100000000 ids=a values=- => valid
Point t=-62167219200 z=0 y=0 x=0 ids=a values=- => valid
Point t=-62167219201 y=0 x=0 ids=a values=- => wrong
Point t=253402300799 y=0 x=0 ids=a values=- => valid
Point t=253402300800 y=0 x=0 ids=a values=- => wrong
Point z=100000001 y=0 x=0 ids=a values=- => wrong
Point y=-9223372036854775808 x=0 ids=a values=- => wrong
Point y=0 x=100000001 ids=a values=- => wrong
PointSeries t=-1,0 z=9 y=0 x=0 ids=a values=-,- => valid
PointSeries t=-1,0 z=9 y=0 x=0 ids=a values=- => wrong
VerticalProfile z=-1,0 y=0 x=0 ids=a values=-,- => valid
VerticalProfile z=-1,0 y=0 x=0 ids=a values=- => wrong
VerticalProfile z=0,100000001 y=0 x=0 ids=a values=-,- => wrong
Grid t=0 y=0,1 x=0,1 ids=a values=1,2,3,4 => valid
Grid t=0 y=0,1 x=0,1 ids=a values=1,2 => wrong
# places, also one twice and in any order
MultiPoint at=1/2/0/0 ids=a values=- => valid
MultiPoint t=0 at=1/2/3/0 own=z ids=a values=- => valid
MultiPoint at=2/2/0/0,1/1/0/0,2/2/0/0 ids=a values=-,-,- => valid
MultiPoint ids=a => wrong
MultiPoint own=z ids=a values=- => wrong
MultiPoint at=1/2/3/0 ids=a values=- => wrong
MultiPoint at=1/2/0/3 ids=a values=- => wrong
MultiPoint at=1/2/3/-1 own=z ids=a values=- => wrong
MultiPoint at=1/2/100000001/0 own=z ids=a values=- => wrong
MultiPoint at=0/0/0/0,1/-100000001/0/0 ids=a values=-,- => wrong
MultiPoint t=253402300800 at=1/2/0/0 ids=a values=- => wrong
MultiPoint at=1/2/0/0,3/4/0/0 ids=a values=- => wrong
MultiPoint t=0 at=1/2/0/0 ids=a values=-,- => wrong
# places and times, which may stand still and don't fall
Trajectory at=1/2/0/7 ids=a values=- => valid
Trajectory at=1/2/3/7 own=z ids=a values=- => valid
Trajectory z=3 at=1/2/0/7 ids=a values=- => valid
Trajectory z=3 at=1/2/3/7 own=z ids=a values=- => wrong
Trajectory z=100000001 at=1/2/0/7 ids=a values=- => wrong
Trajectory ids=a => wrong
Trajectory at=1/2/3/7 ids=a values=- => wrong
Trajectory at=1/2/-100000001/7 own=z ids=a values=- => wrong
Trajectory at=100000001/0/0/2 ids=a values=- => wrong
Trajectory at=1/2/0/253402300800 ids=a values=- => wrong
Trajectory at=1/2/0/-62167219200,1/2/0/253402300799 ids=a values=-,- => valid
Trajectory at=1/2/0/7,3/4/0/7 ids=a values=-,- => valid
Trajectory at=1/2/0/7,1/2/0/6 ids=a values=-,- => wrong
Trajectory at=0/0/5/1,0/0/4/3,0/0/3/3 own=z ids=a values=-,-,- => valid
Trajectory at=0/0/5/1,0/0/4/3,0/0/3/2 own=z ids=a values=-,-,- => wrong
Trajectory at=1/2/0/7,3/4/0/7 ids=a values=- => wrong
# collections
[] => valid
[Point y=0 x=0 ids=a values=-;Point y=0 x=0 ids=a values=-] => valid
[Point y=0 x=0 ids=a values=-;Point y=0 x=0 values=-] => wrong
[Point y=0 x=0 values=-;Point y=0 x=0 ids=a values=-] => wrong
";

// A line for each domain: how many values a parameter has, the coordinates of the domain, the axes of its ranges, and the
// coordinates of its tuples.
const DOMAINS: &str = "\
Grid z=1,2 y=3 x=4,5,6 => 6 zyx zyx -
Grid t=0 y=3,4 x=5 => 2 tyx tyx -
Point t=0 y=0 x=0 => 1 tyx - -
PointSeries t=0,1,2 z=5 y=0 x=0 => 3 tzyx t -
VerticalProfile t=0 z=5,6 y=0 x=0 => 2 tzyx z -
MultiPoint t=0 at=1/2/0/0,3/4/0/0 => 2 tyx composite xy
MultiPoint at=1/2/3/0 own=z => 1 zyx - xyz
Trajectory z=5 at=1/2/0/3 => 1 tzyx - txy
Trajectory at=1/2/3/4,1/2/3/4 own=z => 2 tzyx composite txyz
";

/// Whether a document is judged so.
pub fn is_judged(alloc: Global, words: &str, answer: &str) -> Option<bool> {
    let document = document(alloc, words, "")?;
    Some(document.is_valid() == (answer == "valid"))
}

// Whether a coordinate is had by a domain, and is an axis of its ranges, where these letters say so.
fn has_letter(domain: &Domain, name: CoordinateName, had: &str, along: &str) -> bool {
    domain.has(name) == had.contains(name.letter())
        && domain.range_axis(name).is_some() == along.contains(name.letter())
}

// Whether the tuples of a domain have these letters, in this order.
fn are_within(domain: &Domain, letters: &str) -> bool {
    let mut rest = letters;
    for name in domain.coordinates() {
        match rest.strip_prefix(name.letter()) {
            Some(more) if domain.is_in_tuples(*name) => rest = more,
            _ => return false,
        }
    }
    rest.is_empty() && domain.tuples().is_some() != letters.is_empty()
}

// Whether a domain has the coordinates of a word, the axes of its ranges those of the second, and its tuples those of the third.
fn has_letters(domain: &Domain, words: &str) -> bool {
    let (had, words) = words.split_once(' ').unwrap_or((words, ""));
    let (along, within) = words.split_once(' ').unwrap_or((words, ""));
    let is_composite = along == axis_key(AxisName::Composite);
    let along = if is_composite { "-" } else { along };
    let mut whole = domain.range_tuples().is_some() == is_composite;
    for name in [
        CoordinateName::T,
        CoordinateName::Z,
        CoordinateName::Y,
        CoordinateName::X,
    ] {
        whole = has_letter(domain, name, had, along) && whole;
    }
    whole && are_within(domain, if within == "-" { "" } else { within })
}

// Whether a domain has this type, and this many values and letters.
fn is_described(domain: &Domain, kind: &str, answer: &str) -> bool {
    let (count, letters) = answer.split_once(' ').unwrap_or((answer, ""));
    kind == domain.type_name()
        && domain.is_grid() == (kind == "Grid")
        && domain.count() == count.parse::<usize>().ok()
        && has_letters(domain, letters)
}

/// Whether a domain is described so.
pub fn is_domain(alloc: Global, words: &str, answer: &str) -> Option<bool> {
    let (kind, _) = words.split_once(' ')?;
    let domain = domain(alloc, words)?;
    Some(is_described(&domain, kind, answer))
}

#[test]
fn documents_are_valid_and_domains_have_axes(rt: HostRuntime) {
    are_right(&rt, rt.alloc(), Cases::Documents, DOCUMENTS);
    are_right(&rt, rt.alloc(), Cases::Domains, DOMAINS);
}
