//! Reading times, levels, names of parameters and reference systems.
ghost use Rattle.std.specs.List.{list_any};
ghost use Rattle.std.specs.Prelude.{◌≡◌, bytes_eq, IfOk, IfSome, OnOk, IsUtf8, option_map};
ghost use Rattle.edr_base.specs.declared.refusals.Refusal.TheVariants.{BadDatetime, BadLevel};
ghost use Rattle.edr_axes.specs.Times.{IsTimesText};
ghost use Rattle.edr_axes.specs.Levels.{IsLevelsText};
ghost use Rattle.edr_query.specs.declared.parameters.Parameter.TheVariants as p;
ghost use Rattle.edr_query.specs.Parameters.{value_of, MaySay};
ghost use Rattle.edr_query.specs.Queries.{with_name, names_in, AreNames};
ghost use Rattle.edr_query.specs.Targets.{HasBadTimes, HasBadLevels};
ghost use Rattle.edr_query.specs.Reads.{Checks};
ghost use Rattle.edr_query.specs.Seen.{AreSeen, AreSeenIf};

use crate::pairs::Parameters;
use crate::parameters::Parameter;
use crate::reading::TargetFault;
use edr_axes::{LevelFault, Levels, Times, read_levels, read_times};
use edr_base::{Items, OutOfMemory, Refusal, Text, cut_at};
use std::alloc::Global;
use std::collections::BTreeSet;

/// The times of `datetime`, where it is given.
pub fn read_datetime(parameters: &Parameters<'_>) -> Result<Option<Times>, TargetFault>
    ensures { Checks result (λ times. MaySay IsTimesText (value_of p.Datetime parameters.now) times) BadDatetime (HasBadTimes parameters.now) }
{
    let Some(text) = parameters.get(Parameter::Datetime) else {
        return Ok(None);
    };
    match read_times(text.as_bytes()) {
        Some(times) => Ok(Some(times)),
        None => Err(TargetFault::Refused(Refusal::BadDatetime)),
    }
}

/// The levels of `z`, where it is given.
pub fn read_z(alloc: Global, parameters: &Parameters<'_>) -> Result<Option<Levels>, TargetFault>
    ensures { Checks result (λ levels. MaySay IsLevelsText (value_of p.Z parameters.now) levels) BadLevel (HasBadLevels parameters.now) }
{
    let Some(text) = parameters.get(Parameter::Z) else {
        return Ok(None);
    };
    match read_levels(alloc, text.as_bytes()) {
        Ok(levels) => Ok(Some(levels)),
        Err(LevelFault::NotLevels) => Err(TargetFault::Refused(Refusal::BadLevel)),
        Err(LevelFault::OutOfMemory) => Err(TargetFault::OutOfMemory),
    }
}

// From so many bytes on a text may have many names, and a set of those that were seen is kept.
const MANY: usize = 64;

// Whether a name is among some.
fn is_among(names: &[Text], name: &[u8]) -> bool
    ensures { result ≡ list_any (bytes_eq name.now) names.now }
{
    names.iter().any(|other| name == other.bytes())
}

// One more name, unless it is among the others.
fn add_few(alloc: Global, names: &mut Vec<Text>, name: &[u8]) -> Result<(), OutOfMemory>
    ensures { OnOk result (names.new.items ≡ with_name names.old.items name.now) }
{
    if !is_among(names, name) {
        names.push(Text::of(alloc, name)?)?;
    }
    Ok(())
}

// One more name, unless it was seen before: the names that were seen are those of the list.
fn add_seen<'a>(
    alloc: Global,
    names: &mut Vec<Text>,
    seen: &mut BTreeSet<&'a [u8]>,
    name: &'a [u8],
) -> Result<(), OutOfMemory>
    requires { AreSeen seen.old names.old.items }
    ensures names { OnOk result (names.new.items ≡ with_name names.old.items name.now) }
    ensures seen { OnOk result (AreSeen seen.new names.new.items) }
{
    if seen.insert(name)? {
        names.push(Text::of(alloc, name)?)?;
    }
    Ok(())
}

// One more name, unless the list has it. Where many may come, the set has the names of the list.
fn add_name<'a>(
    alloc: Global,
    many: bool,
    names: &mut Vec<Text>,
    seen: &mut BTreeSet<&'a [u8]>,
    name: &'a [u8],
) -> Result<(), OutOfMemory>
    requires { AreSeenIf many seen.old names.old.items }
    ensures names { OnOk result (names.new.items ≡ with_name names.old.items name.now) }
    ensures seen { OnOk result (AreSeenIf many seen.new names.new.items) }
{
    if many {
        add_seen(alloc, names, seen, name)
    } else {
        add_few(alloc, names, name)
    }
}

// The names between the commas of a text, each once.
fn names_of(alloc: Global, text: &[u8]) -> Result<Items<Text>, OutOfMemory>
    requires { IsUtf8 text.now }
    ensures { IfOk result (λ names. (names ≡ names_in text.now) × AreNames names) }
{
    let many = text.len() >= MANY;
    let mut names = Vec::new(alloc);
    let mut seen = BTreeSet::new(alloc);
    let mut rest = text;
    while let Some((front, back)) = cut_at(rest, b',') {
        add_name(alloc, many, &mut names, &mut seen, front)?;
        rest = back;
    }
    add_name(alloc, many, &mut names, &mut seen, rest)?;
    Ok(Items::of(names))
}

/// The names of `parameter-name`, where it is given.
pub fn read_names(
    alloc: Global,
    parameters: &Parameters<'_>,
) -> Result<Option<Items<Text>>, OutOfMemory>
    ensures { IfOk result (λ names. (names ≡ option_map names_in (value_of p.ParameterName parameters.now)) × IfSome names AreNames) }
{
    match parameters.get(Parameter::ParameterName) {
        Some(text) => Ok(Some(names_of(alloc, text.as_bytes())?)),
        None => Ok(None),
    }
}

/// The text of `crs`, where it is given.
pub fn read_crs(alloc: Global, parameters: &Parameters<'_>) -> Result<Option<Text>, OutOfMemory>
    ensures { IfOk result (λ crs. (crs ≡ value_of p.Crs parameters.now) × IfSome crs IsUtf8) }
{
    match parameters.get(Parameter::Crs) {
        Some(text) => Ok(Some(Text::of(alloc, text.as_bytes())?)),
        None => Ok(None),
    }
}
