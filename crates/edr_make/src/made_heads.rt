//! The coverages of the feed that is made of a number, but for their values.
ghost use Rattle.std.specs.Prelude.{◌≡◌, ◌+◌, ◌*◌, ◌<◌, pos, [], ◌∷◌, codes, None, IfOk};
ghost use Rattle.edr_make.specs.Made.{spaced, coverage_over, grid_domain, series_domain};
ghost use Rattle.edr_make.specs.MadeParts.{parameter_over};

use covjson_value::{Coverage, Domain, Parameter, Referencing};
use edr_axes::Axis;
use edr_base::{Items, OutOfMemory, Text};
use std::alloc::Global;

const FIRST_TIME: u32 = 1_704_067_200;

// A number that is some steps above the first.
fn number_at(first: u32, step: u16, n: u32) -> i64
    ensures { result ≡ pos (first + step * n) }
{
    (first as u64 + step as u64 * n as u64) as i64
}

// Numbers, each a step above the one before.
#[tactic(auto, using(crate::proofs::MadeLists::no_spaced, crate::proofs::MadeLists::spaced_more))]
fn numbers(alloc: Global, first: u32, step: u16, count: u32) -> Result<Vec<i64>, OutOfMemory>
    ensures { IfOk result (λ numbers. numbers.items ≡ spaced first step count) }
{
    let mut numbers = Vec::new(alloc);
    for n in 0..count {
        numbers.push(number_at(first, step, n))?;
    }
    Ok(numbers)
}

// The axis of such numbers.
fn axis(alloc: Global, first: u32, step: u16, count: u32) -> Result<Axis, OutOfMemory>
    requires rises { 0 < step }
    requires some { 0 < count }
    ensures { IfOk result (λ axis. axis ≡ spaced first step count) }
{
    let numbers = numbers(alloc, first, step, count)?;
    Axis::over(alloc, &numbers)
}

// A parameter whose label is its id.
fn parameter(alloc: Global, id: &[u8], unit: &[u8]) -> Result<Parameter, OutOfMemory>
    ensures { IfOk result (λ parameter. parameter ≡ parameter_over id.now unit.now) }
{
    let unit = Text::of(alloc, unit)?;
    let lang = Text::of(alloc, b"en")?;
    let label = Text::of(alloc, id)?;
    let id = Text::of(alloc, id)?;
    Ok(Parameter {
        id,
        lang,
        label,
        unit: Some(unit),
    })
}

// It alone.
fn parameters(alloc: Global, id: &[u8], unit: &[u8]) -> Result<Items<Parameter>, OutOfMemory>
    ensures { IfOk result (λ parameters. parameters ≡ parameter_over id.now unit.now ∷ []) }
{
    let mut parameters = Vec::new(alloc);
    parameters.push(parameter(alloc, id, unit)?)?;
    Ok(Items::of(parameters))
}

// A coverage by its parts, without ranges.
fn coverage_of(alloc: Global, domain: Domain, crs: Text, parameters: Items<Parameter>) -> Coverage
    ensures { result ≡ record { id = None; domain = domain; referencing = record { crs = crs; vertical = None }; parameters = parameters; ranges = [] } }
{
    Coverage {
        id: None,
        domain,
        referencing: Referencing {
            crs,
            vertical: None,
        },
        parameters,
        ranges: Items::of(Vec::new(alloc)),
    }
}

// A coverage over a domain, without ranges.
fn head(alloc: Global, domain: Domain, id: &[u8], unit: &[u8]) -> Result<Coverage, OutOfMemory>
    ensures { IfOk result (λ head. head ≡ coverage_over domain id.now unit.now []) }
{
    let crs = Text::of(alloc, b"local")?;
    let parameters = parameters(alloc, id, unit)?;
    Ok(coverage_of(alloc, domain, crs, parameters))
}

/// The grid, without its values.
#[tactic(auto, using(crate::proofs::MadeHeads::one_spaced))]
pub fn grid_head(alloc: Global, rows: u32, columns: u32) -> Result<Coverage, OutOfMemory>
    requires rows { 0 < rows }
    requires columns { 0 < columns }
    ensures { IfOk result (λ head. head ≡ coverage_over (grid_domain rows columns) (codes "temp") (codes "Cel") []) }
{
    let domain = Domain::Grid {
        t: Some(axis(alloc, FIRST_TIME, 1, 1)?),
        z: None,
        y: axis(alloc, 0, 100, rows)?,
        x: axis(alloc, 0, 100, columns)?,
    };
    head(alloc, domain, b"temp", b"Cel")
}

/// A station, without its values.
pub fn series_head(alloc: Global, times: u32, station: u32) -> Result<Coverage, OutOfMemory>
    requires { 0 < times }
    ensures { IfOk result (λ head. head ≡ coverage_over (series_domain times station) (codes "level") (codes "m") []) }
{
    let domain = Domain::PointSeries {
        t: axis(alloc, FIRST_TIME, 3_600, times)?,
        z: None,
        y: 500 * station as i64,
        x: 1_000 * station as i64,
    };
    head(alloc, domain, b"level", b"m")
}
