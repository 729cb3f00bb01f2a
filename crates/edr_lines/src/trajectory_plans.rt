//! Plans of the replies to queries along trajectories.
ghost use Rattle.std.specs.Prelude.{◌≡◌, ◌≢◌, [], Contains, ◌<◌, ◌++◌, ◌||◌, nat_lt, if◌then◌else◌, All, length, map, None, IfOk, IfErr, OnOk, IfSome};
ghost use Rattle.edr_axes.specs.Axes.{axis_length};
ghost use Rattle.covjson_value.specs.declared.domains.Domain.TheVariants.{Trajectory};
ghost use Rattle.edr_chunk.specs.Places.{Within};
ghost use Rattle.edr_edition.specs.Instances.{HasGrid};
ghost use Rattle.edr_query.specs.declared.shapes.Shape.TheVariants as at;
ghost use Rattle.edr_select.specs.declared.plans.Reply.TheVariants.{Listed};
ghost use Rattle.edr_select.specs.Checks.{refused_query};
ghost use Rattle.edr_corridor.specs.Boxes as boxes;
ghost use Rattle.edr_select.specs.Heads.{step_at};
ghost use Rattle.edr_select.specs.Limits.{value_limit, coverage_limit};
ghost use Rattle.edr_select.specs.Listings.{place_at};
ghost use Rattle.edr_select.specs.Samples.{node_at};
ghost use Rattle.edr_select.specs.Steps.{IsFaultOf, IsPlanIn};
ghost use Rattle.edr_lines.specs.Asked.{IsAskedAlong};
ghost use Rattle.edr_lines.specs.Routes.{HasTurns, LiesOn, turn_count, value_count, planned_turn, planned_turns};

use crate::routes::{Route, route_of};
use crate::spreads::Axes;
use crate::steps::parameters_asked;
use covjson_value::{Domain, Referencing};
use edr_base::{Items, OutOfMemory, Position, Refusal};
use edr_edition::{CollectionData, GridInstance};
use edr_query::Query;
use edr_select::{COVERAGE_LIMIT, GridNode, Listing, PlanFault, Planned, head_of, value_product};
use edr_wkt::Geometry;
use std::alloc::Global;

// Whether a reply along a route has more values or coverages than one may have.
fn is_too_large(parameters: &[u64], route: &Route) -> bool
    requires parameters { parameters.now ≢ [] }
    requires turns { HasTurns route.now }
    ensures { result ≡ (nat_lt value_limit (value_count parameters.now route.now) || nat_lt coverage_limit (turn_count route.now)) }
{
    let Some(turns) = value_product(route.times.len() as u64, route.levels.len() as u64) else {
        return true;
    };
    let Some(nodes) = value_product(turns, route.steps.len() as u64) else {
        return true;
    };
    turns > COVERAGE_LIMIT as u64 || value_product(parameters.len() as u64, nodes).is_none()
}

// The level of a place on the axis of levels, where there is one.
fn level_at(axes: &Axes<'_>, place: u64) -> Option<i64>
    requires { IfSome axes.now.zs (λ zs. place < length zs) }
    ensures { result ≡ boxes.level_at axes.now.zs place }
{
    match axes.zs {
        Some(axis) => Some(axis.value(place as usize)),
        None => None,
    }
}

// The step of a trajectory at a node (OGC 21-069r2, domain type Trajectory).
fn position_of(instance: &GridInstance, has_z: bool, node: &GridNode) -> Position
    requires grid { HasGrid instance.now }
    requires within { Within instance.now.grid.shape (place_at 0 node.now) }
    ensures { result ≡ step_at has_z (node_at instance.now (place_at 0 node.now)) }
{
    let axes = Axes::of_grid(instance);
    Position {
        x: axes.xs.value(node.x as usize),
        y: axes.ys.value(node.y as usize),
        z: match level_at(&axes, u64::from(node.z)) {
            Some(level) if has_z => level,
            _ => 0,
        },
        m: axes.ts.value(node.t as usize),
    }
}

// The domain of some nodes, of which each has a level of its own, or all have one or none.
fn domain_of(
    alloc: Global,
    instance: &GridInstance,
    has_z: bool,
    z: u64,
    nodes: &[GridNode],
) -> Result<Domain, OutOfMemory>
    requires grid { HasGrid instance.now }
    requires within { All (λ n. Within instance.now.grid.shape (place_at 0 n)) nodes.now }
    requires level { z < axis_length instance.now.zs }
    ensures { IfOk result (λ domain. domain ≡ Trajectory (if has_z then None else boxes.level_at instance.now.zs z) has_z (map (λ n. step_at has_z (node_at instance.now (place_at 0 n))) nodes.now)) }
{
    let mut steps = Vec::new(alloc);
    for node in nodes {
        steps.push(position_of(instance, has_z, node))?;
    }
    let axes = Axes::of_grid(instance);
    Ok(Domain::Trajectory {
        z: if has_z { None } else { level_at(&axes, z) },
        has_z,
        steps: Items::of(steps),
    })
}

// What is planned for a turn of time and level.
fn planned_at(
    alloc: Global,
    referencing: &Referencing,
    instance: &GridInstance,
    parameters: &[u64],
    route: &Route,
    t: u64,
    z: u64,
) -> Result<Planned, OutOfMemory>
    requires grid { HasGrid instance.now }
    requires route { LiesOn instance.now route.now }
    requires turns { HasTurns route.now }
    requires parameters { All (λ p. p < length instance.now.parameters) parameters.now }
    requires t { Contains route.now.times t }
    requires z { Contains route.now.levels z }
    ensures { IfOk result (λ p. p ≡ planned_turn referencing.now instance.now parameters.now route.now t z) }
{
    let nodes = route.nodes_at(alloc, t, z)?;
    let domain = domain_of(alloc, instance, route.has_z, z, &nodes)?;
    let head = head_of(
        alloc,
        referencing,
        instance.parameters(),
        parameters,
        domain,
    )?;
    Ok(Planned {
        head,
        cells: Items::of(nodes),
    })
}

// Adds what is planned for the turns of one time, level by level.
fn add_time(
    alloc: Global,
    coverages: &mut Vec<Planned>,
    referencing: &Referencing,
    instance: &GridInstance,
    parameters: &[u64],
    route: &Route,
    t: u64,
) -> Result<(), OutOfMemory>
    requires grid { HasGrid instance.now }
    requires route { LiesOn instance.now route.now }
    requires turns { HasTurns route.now }
    requires parameters { All (λ p. p < length instance.now.parameters) parameters.now }
    requires t { Contains route.now.times t }
    ensures { OnOk result (coverages.new.items ≡ coverages.old.items ++ map (planned_turn referencing.now instance.now parameters.now route.now t) route.now.levels) }
{
    for z in &route.levels {
        coverages.push(planned_at(alloc, referencing, instance, parameters, route, t, *z)?)?;
    }
    Ok(())
}

// What is planned for all turns, time first and then level.
fn coverages_of(
    alloc: Global,
    referencing: &Referencing,
    instance: &GridInstance,
    parameters: &[u64],
    route: &Route,
) -> Result<Vec<Planned>, OutOfMemory>
    requires grid { HasGrid instance.now }
    requires route { LiesOn instance.now route.now }
    requires turns { HasTurns route.now }
    requires parameters { All (λ p. p < length instance.now.parameters) parameters.now }
    ensures { IfOk result (λ coverages. coverages.items ≡ planned_turns referencing.now instance.now parameters.now route.now) }
{
    let mut coverages = Vec::new(alloc);
    for t in &route.times {
        add_time(
            alloc,
            &mut coverages,
            referencing,
            instance,
            parameters,
            route,
            *t,
        )?;
    }
    Ok(coverages)
}

// The list that the reply to a trajectory is read from, or the first refusal that applies from that of names on.
pub(crate) fn listing_of(
    alloc: Global,
    query: &Query,
    collection: &CollectionData,
    instance: &GridInstance,
    geometry: &Geometry,
) -> Result<Listing, PlanFault>
    requires asked { IsAskedAlong collection.now query.now instance.now }
    requires shape { query.now.shape ≡ at.Trajectory geometry.now }
    ensures planned { IfOk result (λ listing. IsPlanIn collection.now query.now instance.now (record { query = query.now; reply = Listed listing })) }
    ensures refused { IfErr result (IsFaultOf (refused_query collection.now query.now)) }
{
    let parameters = parameters_asked(alloc, query, collection, instance)?;
    let route = route_of(alloc, query, geometry, instance)?;
    if !route.is_some() {
        return Err(PlanFault::Refused(Refusal::NoSamples));
    }
    if is_too_large(&parameters, &route) {
        return Err(PlanFault::Refused(Refusal::TooLarge));
    }
    let referencing = collection.referencing();
    let coverages = coverages_of(alloc, referencing, instance, &parameters, &route)?;
    Ok(Listing {
        shape: instance.grid().shape(),
        parameters: Items::of(parameters),
        many: coverages.len() != 1,
        coverages: Items::of(coverages),
    })
}
