//! Which editions of a feed are served.
ghost use Rattle.std.specs.Prelude.{◌≡◌, [], ◌∷◌};
ghost use Rattle.edr_edition.specs.Shelves.{IsLog};
ghost use Rattle.edrd.specs.Ends.{served_of};
ghost use Rattle.edrd.specs.Serving.{Continues};

use edr_edition::Edition;

/// The edition that is served from the start, and those that are published beside that: the first and all others, or the last
/// alone.
pub fn begin_with(last: bool, editions: Vec<Edition>) -> (Edition, Vec<Edition>)
    requires log { IsLog editions.items }
    ensures served { result.0 ∷ result.1.items ≡ served_of last editions.items }
    ensures numbers { Continues (result.0 ∷ []) result.1.items }
{
    let mut rest = editions;
    if last {
        let newest = rest.pop().unwrap();
        rest.clear();
        return (newest, rest);
    }
    let first = rest.remove(0);
    (first, rest)
}
