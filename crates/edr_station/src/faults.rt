//! Which inputs aren't the stations of a collection.
ghost use Rattle.std.specs.Prelude.{◌≡◌, ◌≢◌, ◌↔◌, ◌+◌, ◌<◌, length, All, IsTrue, IfSome, IfOk, IfErr, OnOk};
ghost use Rattle.edr_base.specs.FirstThatApplies.{IsLeast, NoneApplies};
ghost use Rattle.edr_station.specs.Stations.{values_along};
ghost use Rattle.edr_station.specs.Inputs.{station_of, HasCounts, rank, Applies};
ghost use Rattle.edr_station.specs.Seen.{AreSeen};
ghost use Rattle.edr_station.specs.Least.{IsRepeatAt, IsMiscountedAt, IsLeastPlace, IsLesser, HaveOwnIds};

use crate::inputs::{StationFault, StationInput};
use edr_base::{Items, OutOfMemory, Text};
use std::alloc::Global;
use std::cmp::Ordering;
use std::collections::BTreeSet;

// Whether an input before a place has the id of the one there: the ids of those before it were seen, and this one is too.
fn is_repeat<'a>(
    inputs: &'a [StationInput],
    place: usize,
    seen: &mut BTreeSet<&'a [u8]>,
) -> Result<bool, OutOfMemory>
    requires place { place < length inputs.now }
    requires seen { AreSeen seen.old inputs.now place }
    ensures repeat { IfOk result (λ repeat. IsTrue repeat ↔ IsRepeatAt inputs.now place) }
    ensures seen { OnOk result (AreSeen seen.new inputs.now (place + 1)) }
{
    let added = seen.insert(inputs[place].id.bytes())?;
    Ok(!added)
}

// Whether a list has one value for each time and level of an input.
fn is_long(input: &StationInput, values: &[Option<i64>]) -> bool
    ensures { IsTrue result ↔ (length values.now ≡ values_along (station_of input.now)) }
{
    let levels = match &input.levels {
        Some(levels) => levels.len(),
        None => 1,
    };
    match input.times.len().checked_mul(levels) {
        Some(count) => values.len() == count,
        None => false,
    }
}

// Whether each list has one value for each time and level of an input.
fn are_long(input: &StationInput, series: &[Items<Option<i64>>]) -> bool
    ensures { IsTrue result ↔ All (λ values. length values ≡ values_along (station_of input.now)) series.now }
{
    for values in series {
        if !is_long(input, values.items()) {
            return false;
        }
    }
    true
}

/// Whether an input has a list for each parameter, with one value for each time and level.
pub fn has_counts(parameters: usize, input: &StationInput) -> bool
    ensures { IsTrue result ↔ HasCounts parameters input.now }
{
    let series = input.series.items();
    series.len() == parameters && are_long(input, series)
}

// Whether it hasn't.
fn is_miscounted(parameters: usize, input: &StationInput) -> bool
    ensures { IsTrue result ↔ (¬ (HasCounts parameters input.now)) }
{
    !has_counts(parameters, input)
}

// Of a place, if one is given, and another one that with the lower id, or else the first.
fn lesser(inputs: &[StationInput], least: Option<usize>, place: usize) -> Option<usize>
    requires place { place < length inputs.now }
    requires least { IfSome least (λ at. at < length inputs.now) }
    ensures { IsLesser inputs.now least place result }
{
    let Some(at) = least else {
        return Some(place);
    };
    match inputs[place].id.bytes().cmp(inputs[at].id.bytes()) {
        Ordering::Less => Some(place),
        _ => Some(at),
    }
}

// The place of the least id that two inputs have, where there is such an id, in a time that grows with the number of inputs
// and its logarithm; or want of memory.
fn least_repeated(alloc: Global, inputs: &[StationInput]) -> Result<Option<usize>, OutOfMemory>
    ensures { IfOk result (λ least. IsLeastPlace inputs.now (IsRepeatAt inputs.now) (length inputs.now) least) }
{
    let mut seen = BTreeSet::new(alloc);
    let mut least = None;
    for place in 0..inputs.len() {
        if is_repeat(inputs, place, &mut seen)? {
            least = lesser(inputs, least, place);
        }
    }
    Ok(least)
}

// The place of the least id whose input has no list for each of so many parameters, or a list without one value for each
// time and level, where there is such an id.
fn least_miscounted(parameters: usize, inputs: &[StationInput]) -> Option<usize>
    ensures { IsLeastPlace inputs.now (IsMiscountedAt parameters inputs.now) (length inputs.now) result }
{
    let mut least = None;
    for place in 0..inputs.len() {
        if is_miscounted(parameters, &inputs[place]) {
            least = lesser(inputs, least, place);
        }
    }
    least
}

// An answer of the least id whose input has a wrong count, where no id is repeated.
fn find_miscount(
    alloc: Global,
    parameters: usize,
    inputs: &[StationInput],
) -> Result<(), StationFault>
    requires { HaveOwnIds inputs.now }
    ensures counts { OnOk result (All (HasCounts parameters) inputs.now) }
    ensures none { OnOk result (NoneApplies (Applies parameters inputs.now)) }
    ensures refused { IfErr result (λ fault. fault ≢ StationFault.OutOfMemory → IsLeast rank (Applies parameters inputs.now) fault) }
{
    match least_miscounted(parameters, inputs) {
        Some(place) => {
            let id = Text::of(alloc, inputs[place].id.bytes())?;
            Err(StationFault::WrongCount(id))
        }
        None => Ok(()),
    }
}

/// Ok where some inputs have no fault, or the first fault that applies.
pub fn find_fault(
    alloc: Global,
    parameters: usize,
    inputs: &[StationInput],
) -> Result<(), StationFault>
    ensures once { OnOk result (HaveOwnIds inputs.now) }
    ensures counts { OnOk result (All (HasCounts parameters) inputs.now) }
    ensures none { OnOk result (NoneApplies (Applies parameters inputs.now)) }
    ensures refused { IfErr result (λ fault. fault ≢ StationFault.OutOfMemory → IsLeast rank (Applies parameters inputs.now) fault) }
{
    match least_repeated(alloc, inputs)? {
        Some(place) => {
            let id = Text::of(alloc, inputs[place].id.bytes())?;
            Err(StationFault::SameId(id))
        }
        None => find_miscount(alloc, parameters, inputs),
    }
}
