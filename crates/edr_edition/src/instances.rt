//! Instances of collections of grids.
ghost use Rattle.std.specs.Prelude.{◌≡◌, option_map, length, All, IfOk};
ghost use Rattle.edr_chunk.specs.Places.{IsShape};
ghost use Rattle.covjson_value.specs.declared.domains.CoordinateName.TheVariants.{T, Z, Y, X};
ghost use Rattle.covjson_value.specs.Domains.{axis_of};
ghost use Rattle.covjson_value.specs.Samples.{values_or_none};
ghost use Rattle.covjson_value.specs.declared.coverages.NdArray.{NdArray as NdArrayValue};
ghost use Rattle.edr_base.specs.Names.{IsName};
ghost use Rattle.edr_edition.specs.Instances.{IsTimedGrid, instance_of, values_of, IsInstance, shape_of, shape_over, FillsNodes};
ghost use Rattle.edr_station.specs.Tallies.{tally_of};
ghost use Rattle.std.specs.Arc.{arc_value};

use covjson_value::{Coverage, Domain, NdArray, Parameter};
use edr_axes::Axis;
use edr_base::{Items, OutOfMemory, Text};
use edr_chunk::{GridPacker, GridShape, PackedGrid};
use edr_ids::Identified;
use edr_station::Tally;
use std::alloc::Global;
use std::marker::Model;
use std::sync::Arc;

/// One grid of a collection, such as one run of a forecast (OGC 19-086r6, instances).
///
/// It stands for a valid coverage of CoverageJSON whose domain is a Grid (OGC 21-069r2, domain types) with times and at
/// most `edr_base::NODE_LIMIT` nodes; contracts see its axes, and its values in the order parameter, t, z, y, x. They are
/// kept in packed tiles.
#[derive(Drop)]
pub struct GridInstance {
    id: Text,
    times: Axis,
    levels: Option<Axis>,
    ys: Axis,
    xs: Axis,
    parameters: Arc<Items<Parameter>>,
    grid: PackedGrid,
    tally: Tally,
}

impl Model for GridInstance {
    ghost use Rattle.std.specs.Prelude.{◌≡◌};
    ghost use Rattle.edr_edition.specs.Values.{InstanceValue};
    ghost use Rattle.edr_edition.specs.Instances.{IsInstance};
    ghost use Rattle.edr_station.specs.Tallies.{tally_of};
    ghost use Rattle.std.specs.Arc.{arc_value};

    ghost Value = { InstanceValue };

    ghost view = { λ i. record {
      id = i.id;
      parameters = arc_value i.parameters;
      ts = i.times;
      zs = i.levels;
      ys = i.ys;
      xs = i.xs;
      grid = i.grid;
    } };

    ghost invariant = { λ i. IsInstance (record {
      id = i.id;
      parameters = arc_value i.parameters;
      ts = i.times;
      zs = i.levels;
      ys = i.ys;
      xs = i.xs;
      grid = i.grid;
    }) × (i.tally ≡ tally_of i.grid.values) };
}

// The shape of a grid of some parameters over some axes.
fn shape_of(
    parameters: usize,
    times: &Axis,
    levels: &Option<Axis>,
    ys: &Axis,
    xs: &Axis,
) -> GridShape
    requires { IsShape (shape_over parameters times.now levels.now ys.now xs.now) }
    ensures { result ≡ shape_over parameters times.now levels.now ys.now xs.now }
{
    let levels = match levels {
        Some(levels) => levels.len(),
        None => 1,
    };
    GridShape {
        parameters: parameters as u64,
        times: times.len() as u32,
        levels: levels as u32,
        rows: ys.len() as u32,
        columns: xs.len() as u32,
    }
}

// A grid of that shape with the values of each parameter's range.
fn packed(alloc: Global, shape: GridShape, ranges: &[NdArray]) -> Result<PackedGrid, OutOfMemory>
    requires shape { IsShape shape }
    requires many { shape.parameters ≡ length ranges.now }
    requires ranges { All (λ (range : NdArrayValue). FillsNodes shape range.values) ranges.now }
    ensures { IfOk result (λ grid. grid ≡ record { shape = shape; values = values_of ranges.now }) }
{
    let mut packer = GridPacker::new(alloc, shape);
    for range in ranges {
        packer.add(alloc, range.values.items())?;
    }
    Ok(packer.finish())
}

// The grid of the values of a coverage's ranges over its axes.
fn grid_of(alloc: Global, coverage: &Coverage) -> Result<PackedGrid, OutOfMemory>
    requires { IsTimedGrid coverage.now }
    ensures { IfOk result (λ grid. grid ≡ record { shape = shape_of coverage.now; values = values_of coverage.now.ranges }) }
{
    match &coverage.domain {
        Domain::Grid {
            t: Some(times),
            z: levels,
            y: ys,
            x: xs,
        } => {
            let shape = shape_of(coverage.parameters.items().len(), times, levels, ys, xs);
            packed(alloc, shape, coverage.ranges.items())
        }
        _ => unreachable!(),
    }
}

// The tally of all values.
fn tally_of(ranges: &[NdArray]) -> Result<Tally, OutOfMemory>
    ensures { IfOk result (λ tally. tally ≡ tally_of (values_of ranges.now)) }
{
    let mut tally = Tally::none();
    for range in ranges {
        tally = tally.with_all(range.values.items())?;
    }
    Ok(tally)
}

// The grid of a coverage's values, and their tally.
fn packed_and_told(alloc: Global, coverage: &Coverage) -> Result<(PackedGrid, Tally), OutOfMemory>
    requires { IsTimedGrid coverage.now }
    ensures grid { IfOk result (λ made. made.0 ≡ record { shape = shape_of coverage.now; values = values_of coverage.now.ranges }) }
    ensures tally { IfOk result (λ made. made.1 ≡ tally_of (values_of coverage.now.ranges)) }
{
    let tally = tally_of(coverage.ranges.items())?;
    Ok((grid_of(alloc, coverage)?, tally))
}

// What an instance keeps of a coverage beside its values.
struct Frame {
    times: Axis,
    levels: Option<Axis>,
    ys: Axis,
    xs: Axis,
    parameters: Items<Parameter>,
}

fn frame_of(coverage: Coverage) -> Frame
    requires { IsTimedGrid coverage }
    ensures times { result.times ≡ values_or_none (axis_of coverage.domain T) }
    ensures levels { result.levels ≡ axis_of coverage.domain Z }
    ensures ys { result.ys ≡ values_or_none (axis_of coverage.domain Y) }
    ensures xs { result.xs ≡ values_or_none (axis_of coverage.domain X) }
    ensures parameters { result.parameters ≡ coverage.parameters }
{
    let domain = coverage.domain;
    let parameters = coverage.parameters;
    let Domain::Grid {
        t,
        z: levels,
        y: ys,
        x: xs,
    } = domain
    else {
        unreachable!()
    };
    let Some(times) = t else { unreachable!() };
    Frame {
        times,
        levels,
        ys,
        xs,
        parameters,
    }
}

impl Identified for GridInstance {
    ghost id_of = { λ instance. instance.id };

    fn id(&self) -> &[u8] {
        self.id.bytes()
    }
}

impl GridInstance {
    /// The instance of that id that a grid is. The only error is want of memory.
    pub fn of(alloc: Global, id: Text, coverage: Coverage) -> Result<GridInstance, OutOfMemory>
        requires id { IsName id }
        requires grid { IsTimedGrid coverage }
        ensures { IfOk result (λ instance. instance ≡ instance_of id coverage) }
    {
        let (grid, tally) = match packed_and_told(alloc, &coverage) {
            Ok(made) => made,
            Err(fault) => {
                // by name, since what falls at a `?` is proved anew in each function
                drop(coverage);
                return Err(fault);
            }
        };
        let Frame {
            times,
            levels,
            ys,
            xs,
            parameters,
        } = frame_of(coverage);
        let parameters = Arc::new(alloc, parameters)?;
        Ok(GridInstance {
            id,
            times,
            levels,
            ys,
            xs,
            parameters,
            grid,
            tally,
        })
    }

    /// Its id, which is a name.
    pub fn id(&self) -> &[u8]
        ensures id { result.now ≡ self.now.id }
        ensures instance { IsInstance self.now }
    {
        self.id.bytes()
    }

    /// Its times, in seconds since 1970-01-01T00:00:00Z.
    pub fn times(&self) -> &Axis
        ensures { result.now ≡ self.now.ts }
    {
        &self.times
    }

    /// Its levels in metres, where it has them.
    pub fn levels(&self) -> Option<&Axis>
        ensures { option_map (λ axis. axis.now) result ≡ self.now.zs }
    {
        self.levels.as_ref()
    }

    /// Its second coordinates, in metres.
    pub fn ys(&self) -> &Axis
        ensures { result.now ≡ self.now.ys }
    {
        &self.ys
    }

    /// Its first coordinates, in metres.
    pub fn xs(&self) -> &Axis
        ensures { result.now ≡ self.now.xs }
    {
        &self.xs
    }

    /// What its values tell, in strictly ascending order of ids; at least one.
    pub fn parameters(&self) -> &[Parameter]
        ensures parameters { result.now ≡ self.now.parameters }
        ensures instance { IsInstance self.now }
    {
        self.parameters.items()
    }

    // The same, shared.
    pub(crate) fn share_parameters(&self) -> Result<Arc<Items<Parameter>>, OutOfMemory>
        ensures parameters { IfOk result (λ parameters. arc_value parameters ≡ self.now.parameters) }
        ensures instance { IsInstance self.now }
    {
        Ok(Arc::try_clone(&self.parameters)?)
    }

    /// Its values, in packed tiles.
    pub fn grid(&self) -> &PackedGrid
        ensures { result.now ≡ self.now.grid }
    {
        &self.grid
    }

    /// How many samples it has, how many of them aren't missing, and their sum.
    pub fn tally(&self) -> Tally
        ensures { result ≡ tally_of self.now.grid.values }
    {
        self.tally
    }
}
