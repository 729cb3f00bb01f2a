//! How many coverages a reply has, and of what.
ghost use Rattle.std.specs.Prelude.{◌≡◌, ◌∷◌, [], false, length};
ghost use Rattle.edr_wkt.specs.Geometries.{is_multi_point};
ghost use Rattle.edr_select.specs.Steps as steps;
ghost use Rattle.edr_select.specs.Steps.{IsForm};

use crate::choices::Choice;
use edr_wkt::Geometry;

/// What the coverages of a reply to a position are of.
#[derive(Clone, Copy, Debug, PartialEq, Eq)]
pub enum Form {
    /// One coverage, of one spot, at each time and level.
    AtPoint(u64),
    /// One coverage, of several spots, at one time and one place of levels.
    Along(u64, u64),
    /// A coverage for each spot, at each time and level.
    Apart,
}

// The first of numbers, which is alone.
fn alone_in(numbers: &[u64]) -> u64
    requires { length numbers.now ≡ 1 }
    ensures { numbers.now ≡ result ∷ [] }
{
    numbers[0]
}

// How the coverages of a reply are made.
pub(crate) fn form_of(geometry: &Geometry, choice: &Choice) -> Form
    requires { is_multi_point geometry.now ≡ false → length choice.now.spots ≡ 1 }
    ensures { IsForm geometry.now choice.now result }
{
    if !geometry.is_multi_point() {
        return Form::AtPoint(alone_in(&choice.spots));
    }
    if choice.times.len() == 1 && choice.levels.len() == 1 {
        return Form::Along(alone_in(&choice.times), alone_in(&choice.levels));
    }
    Form::Apart
}

impl Form {
    // Whether the reply is a collection.
    pub(crate) fn is_many(self) -> bool
        ensures { result ≡ steps.is_many self }
    {
        match self {
            Form::AtPoint(_) => false,
            Form::Along(_, _) => false,
            Form::Apart => true,
        }
    }
}
