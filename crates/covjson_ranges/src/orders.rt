//! Values of a tree in the order of the domain's axes.
ghost use Rattle.std.specs.Prelude.{◌≡◌, ◌*◌, ◌<◌, ◌≤◌, ◌^◌, ◌++◌, None, Ok, IfOk, IfErr, length, map, true};
ghost use Rattle.std.specs.Bool.{OnTrue};
ghost use Rattle.std.specs.List.{slice_index_or};
ghost use Rattle.covjson_value.specs.Domains.{count_of};
ghost use Rattle.covjson_checks.specs.Answers.{GivesUnlessMemory};
ghost use Rattle.covjson_ranges.specs.Ranges.{AreRangeAxes};
ghost use Rattle.covjson_ranges.specs.Orders.{below, ordered, IsUsual, IsUnturned, in_row, StaysInside, AreRows};
ghost use Rattle.covjson_checks.specs.declared.faults.CovFault.TheVariants.{OutOfMemory};

use crate::places::{Places, axis_len, places_of, tree_number};
use covjson_checks::{CovFault, Turned};
use covjson_value::{AxisName, Domain};
use std::alloc::Global;

// Whether the axes stand in the domain's own order.
fn is_usual(names: &[AxisName]) -> bool
    ensures { OnTrue result (IsUsual names.now) }
{
    match names {
        [AxisName::T, AxisName::Z, AxisName::Y, AxisName::X] => true,
        [AxisName::T, AxisName::Y, AxisName::X] => true,
        [AxisName::Z, AxisName::Y, AxisName::X] => true,
        [AxisName::Y, AxisName::X] => true,
        [AxisName::T] => true,
        [AxisName::Z] => true,
        [AxisName::Composite] => true,
        [] => true,
        _ => false,
    }
}

fn is_unturned(turned: Turned) -> bool
    ensures { OnTrue result (IsUnturned turned) }
{
    !turned.t && !turned.z && !turned.y && !turned.x
}

// Values along the fastest axis of a domain: how many there are, how far from each other they stand in a tree, and whether
// it has them backwards.
#[derive(Clone, Copy)]
struct Row {
    length: usize,
    step: usize,
    turned: bool,
}

// The rows of a domain: its tuples where it has several, else its columns. Neighbours on an axis stand as far from each other in
// a tree as the number there of the second place on it says.
fn row_of(domain: &Domain, turned: Turned, names: &[AxisName]) -> Row
    requires axes { AreRangeAxes domain.now names.now }
    requires few { count_of domain.now < 2 ^ 64 }
    requires some { 0 < count_of domain.now }
    ensures { AreRows domain.now turned names.now result }
{
    let tuples = axis_len(domain, AxisName::Composite);
    let columns = axis_len(domain, AxisName::X);
    let unturned = Turned {
        t: false,
        z: false,
        y: false,
        x: false,
    };
    let origin = Places {
        t: 0,
        z: 0,
        y: 0,
        x: 0,
        tuple: 0,
    };
    if tuples > 1 {
        Row {
            length: tuples,
            step: tree_number(domain, unturned, names, Places { tuple: 1, ..origin }),
            turned: false,
        }
    } else if columns > 1 {
        Row {
            length: columns,
            step: tree_number(domain, unturned, names, Places { x: 1, ..origin }),
            turned: turned.x,
        }
    } else {
        Row {
            length: 1,
            step: 0,
            turned: false,
        }
    }
}

// The number in a tree of the value at a place in a row, by that of the first.
fn number_in_row(row: Row, first: usize, place: usize) -> usize
    requires back { row.turned ≡ true → place * row.step ≤ first }
    requires fits { in_row row first place < 2 ^ 64 }
    ensures { result ≡ in_row row first place }
{
    if row.turned {
        first - place * row.step
    } else {
        first + place * row.step
    }
}

// The values of a row, after others.
fn push_row(
    found: &mut Vec<Option<i64>>,
    values: &[Option<i64>],
    row: Row,
    first: usize,
) -> Result<(), CovFault>
    requires { StaysInside row first (length values.now) }
    ensures ok { IfOk result (λ u. found.new.items ≡ found.old.items ++ map (λ place. slice_index_or values.now (in_row row first place) None) (below row.length)) }
    ensures err { IfErr result (λ f. f ≡ OutOfMemory) }
{
    for place in 0..row.length {
        let value = values[number_in_row(row, first, place)];
        found.push(value)?;
    }
    Ok(())
}

// The value at each of the domain's places, in turn.
fn arranged(
    alloc: Global,
    values: &[Option<i64>],
    domain: &Domain,
    turned: Turned,
    names: &[AxisName],
) -> Result<Vec<Option<i64>>, CovFault>
    requires axes { AreRangeAxes domain.now names.now }
    requires counted { length values.now ≡ count_of domain.now }
    ensures { GivesUnlessMemory (λ v. v.items) result (Ok (ordered domain.now turned names.now values.now)) }
{
    let mut found = Vec::with_capacity(alloc, values.len())?;
    if values.is_empty() {
        return Ok(found);
    }
    let row = row_of(domain, turned, names);
    for number in 0..values.len() / row.length {
        let first = tree_number(
            domain,
            turned,
            names,
            places_of(domain, number * row.length),
        );
        push_row(&mut found, values, row, first)?;
    }
    Ok(found)
}

/// The values of a range in the order of the domain's axes, t, z, y, x, or along its tuples, the last fastest: those of the
/// tree where it has its axes in this order and ascending, else the value at each place in turn.
pub fn in_order(
    alloc: Global,
    values: Vec<Option<i64>>,
    domain: &Domain,
    turned: Turned,
    names: &[AxisName],
) -> Result<Vec<Option<i64>>, CovFault>
    requires axes { AreRangeAxes domain.now names.now }
    requires counted { length values.items ≡ count_of domain.now }
    ensures { GivesUnlessMemory (λ v. v.items) result (Ok (ordered domain.now turned names.now values.items)) }
{
    if is_usual(names) && is_unturned(turned) {
        Ok(values)
    } else {
        arranged(alloc, &values, domain, turned, names)
    }
}
