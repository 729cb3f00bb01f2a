//! Cuts of a line, where odd and even change. A cut is told by how many places stand behind it.
ghost use Rattle.std.specs.Prelude.{◌≡◌, ◌≤◌, length, OnOk};
ghost use Rattle.std.specs.List.Sorted.{IsNonDecreasing};
ghost use Rattle.edr_geometry.specs.Lines.{AreCuts, Toggles, odd_behind};
ghost use Rattle.edr_geometry.specs.Ranges.{IsRange, lies_in};
ghost use Rattle.edr_geometry.specs.Rows.{Joins};

use std::alloc::AllocError;

/// Changes odd and even at the places of a range, among so many.
pub fn toggle(cuts: &mut Vec<usize>, count: usize, range: (usize, usize)) -> Result<(), AllocError>
    requires inside { IsRange count range }
    requires cuts { AreCuts count cuts.old.items }
    ensures cuts { OnOk result (AreCuts count cuts.new.items) }
    ensures toggles { OnOk result (Toggles count cuts.old.items cuts.new.items (lies_in range)) }
{
    if range.0 < range.1 {
        cuts.push(count - range.1)?;
        cuts.push(count - range.0)?;
    }
    Ok(())
}

/// Sets the places of a range.
pub fn mark(mask: &mut [bool], range: (usize, usize))
    requires { IsRange (length mask.old) range }
    ensures { Joins mask.old mask.new (lies_in range) }
{
    mask[range.0..range.1].fill(true);
}

/// Sets each place behind which an odd number of cuts stands. They ascend.
pub fn join_odd(mask: &mut [bool], cuts: &[usize])
    requires cuts { AreCuts (length mask.old) cuts.now }
    requires ascend { IsNonDecreasing cuts.now }
    ensures { Joins mask.old mask.new (odd_behind (length mask.old) cuts.now) }
{
    let count = mask.len();
    let mut first = 0;
    'pairs: while first + 1 < cuts.len() {
        mark(mask, (count - cuts[first + 1], count - cuts[first]));
        first += 2;
    }
    if first < cuts.len() {
        mark(mask, (0, count - cuts[first]));
    }
}
