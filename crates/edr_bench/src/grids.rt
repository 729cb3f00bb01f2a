//! Grids of samples of one digit.
use covjson_value::{Coverage, Domain, NdArray, Parameter, Referencing};
use edr_axes::Axis;
use edr_base::{Items, OutOfMemory, Text};
use std::alloc::Global;

const COLUMNS: u16 = 1000;

const MOST_ROWS: u32 = 4000;

/// How many rows a grid has, of 1,000 columns each: 1 to 4,000.
#[derive(Clone, Copy, Debug, PartialEq, Eq)]
pub struct Rows {
    count: u16,
}

impl Rows {
    /// The rows of so many samples, or None where they aren't whole rows, are none, or are too many.
    pub fn of_samples(samples: u32) -> Option<Rows> {
        let count = samples / 1000;
        if samples % 1000 != 0 || count == 0 || count > MOST_ROWS {
            return None;
        }
        Some(Rows {
            count: count as u16,
        })
    }
}

// 0, 100, 200 and so on, in metres.
fn spaced(alloc: Global, count: u16) -> Result<Axis, OutOfMemory> {
    let mut values = Vec::new(alloc);
    for place in 0..count {
        values.push(100 * i64::from(place))?;
    }
    // They ascend.
    Axis::of(alloc, &values).map_err(|_| OutOfMemory)
}

fn domain_of(alloc: Global, rows: Rows) -> Result<Domain, OutOfMemory> {
    Ok(Domain::Grid {
        t: Some(Axis::of(alloc, &[0]).map_err(|_| OutOfMemory)?),
        z: None,
        y: spaced(alloc, rows.count)?,
        x: spaced(alloc, COLUMNS)?,
    })
}

fn digits(alloc: Global, rows: Rows) -> Result<NdArray, OutOfMemory> {
    let count = u32::from(rows.count) * u32::from(COLUMNS);
    let mut values = Vec::with_capacity(alloc, count as usize)?;
    for place in 0..count {
        values.push(Some(i64::from(place % 10)))?;
    }
    Ok(NdArray {
        values: Items::of(values),
    })
}

fn parameter(alloc: Global) -> Result<Parameter, OutOfMemory> {
    Ok(Parameter {
        id: Text::of(alloc, b"temp")?,
        lang: Text::of(alloc, b"en")?,
        label: Text::of(alloc, b"temp")?,
        unit: Some(Text::of(alloc, b"Cel")?),
    })
}

/// A grid of one time and one parameter, whose samples are of one digit.
pub fn grid_of(alloc: Global, rows: Rows) -> Result<Coverage, OutOfMemory> {
    let mut parameters = Vec::new(alloc);
    parameters.push(parameter(alloc)?)?;
    let mut ranges = Vec::new(alloc);
    ranges.push(digits(alloc, rows)?)?;
    Ok(Coverage {
        id: None,
        domain: domain_of(alloc, rows)?,
        referencing: Referencing {
            crs: Text::of(alloc, b"local")?,
            vertical: None,
        },
        parameters: Items::of(parameters),
        ranges: Items::of(ranges),
    })
}
