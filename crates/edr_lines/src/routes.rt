//! Routes: the nodes nearest to the vertices of a trajectory, in each turn of time and level.
ghost use Rattle.std.specs.Prelude.{◌≡◌, ◌↔◌, ◌<◌, ◌^◌, [], ◌∷◌, IfOk, IsTrue};
ghost use Rattle.edr_query.specs.Queries.{IsShape};
ghost use Rattle.edr_query.specs.declared.shapes.Shape.TheVariants as at;
ghost use Rattle.edr_lines.specs.Plans.{axes_of};
ghost use Rattle.edr_lines.specs.Routes as routes;
ghost use Rattle.edr_lines.specs.Routes.{HasTurns, route_at};
ghost use Rattle.edr_lines.specs.Vertices.{IsFewAlong};
ghost use Rattle.edr_edition.specs.Instances.{HasGrid};

use crate::corridors::line_of;
use crate::spreads::Axes;
use crate::vertices::steps_of;
use edr_base::OutOfMemory;
use edr_edition::GridInstance;
use edr_query::Query;
use edr_select::{GridNode, levels_of_query, times_taken};
use edr_wkt::Geometry;
use std::alloc::Global;
use std::marker::Model;

// The nodes of a trajectory, and the places of its turns: those of times where the vertices have none of their own, and those of
// levels likewise.
#[derive(Drop)]
pub(crate) struct Route {
    pub(crate) has_z: bool,
    pub(crate) has_m: bool,
    pub(crate) steps: Vec<GridNode>,
    pub(crate) times: Vec<u64>,
    pub(crate) levels: Vec<u64>,
}

impl Model for Route {
    ghost use Rattle.edr_lines.specs.Routes.{RouteValue};

    ghost Value = { RouteValue };

    ghost view = { λ r. record {
      has_z = r.has_z;
      has_m = r.has_m;
      steps = r.steps.items;
      times = r.times.items;
      levels = r.levels.items;
    } };
}

// The one turn.
fn alone(alloc: Global) -> Result<Vec<u64>, OutOfMemory>
    ensures { IfOk result (λ turns. turns.items ≡ 0 ∷ []) }
{
    let mut turns = Vec::new(alloc);
    turns.push(0)?;
    Ok(turns)
}

// The route of a trajectory.
pub(crate) fn route_of(
    alloc: Global,
    query: &Query,
    geometry: &Geometry,
    instance: &GridInstance,
) -> Result<Route, OutOfMemory>
    requires shape { query.now.shape ≡ at.Trajectory geometry.now }
    requires valid { IsShape query.now.shape }
    requires grid { HasGrid instance.now }
    requires few { IsFewAlong (axes_of instance.now) }
    ensures { IfOk result (λ route. route ≡ route_at instance.now query.now geometry.now) }
{
    let axes = Axes::of_grid(instance);
    let (_, has_z, has_m) = line_of(geometry);
    let steps = steps_of(alloc, geometry, &axes)?;
    let times = if has_m {
        alone(alloc)?
    } else {
        times_taken(alloc, &query.times, axes.ts)?
    };
    let levels = if has_z {
        alone(alloc)?
    } else {
        levels_of_query(alloc, query, axes.zs)?
    };
    Ok(Route {
        has_z,
        has_m,
        steps,
        times,
        levels,
    })
}

impl Route {
    // Whether it has a node.
    pub(crate) fn is_some(&self) -> bool
        ensures { IsTrue result ↔ HasTurns self.now }
    {
        !self.steps.is_empty() && !self.times.is_empty() && !self.levels.is_empty()
    }

    // The node of a step in a turn of time and level.
    fn node_at(&self, step: &GridNode, t: u64, z: u64) -> GridNode
        requires t { t < 2 ^ 32 }
        requires z { z < 2 ^ 32 }
        ensures { result ≡ routes.turned self.now t z step.now }
    {
        GridNode {
            t: if self.has_m { step.t } else { t as u32 },
            z: if self.has_z { step.z } else { z as u32 },
            y: step.y,
            x: step.x,
        }
    }

    // The nodes of a turn of time and level.
    pub(crate) fn nodes_at(
        &self,
        alloc: Global,
        t: u64,
        z: u64,
    ) -> Result<Vec<GridNode>, OutOfMemory>
        requires t { t < 2 ^ 32 }
        requires z { z < 2 ^ 32 }
        ensures { IfOk result (λ nodes. nodes.items ≡ routes.nodes_of_turn self.now t z) }
    {
        let mut nodes = Vec::new(alloc);
        for step in &self.steps {
            nodes.push(self.node_at(step, t, z))?;
        }
        Ok(nodes)
    }
}
