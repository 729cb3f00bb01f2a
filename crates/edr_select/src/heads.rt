//! The heads of a reply's coverages: all of them but their ranges.
ghost use Rattle.std.specs.Prelude.{◌≡◌, ◌<◌, All, length, IfOk};
ghost use Rattle.edr_select.specs.Documents as documents;
ghost use Rattle.edr_select.specs.Planned as planned;

use covjson_value::{CoordinateName, Coverage, Domain, Parameter, Referencing};
use edr_base::{Items, OutOfMemory, Text};
use std::alloc::Global;

// Copies of the parameters at some places.
fn parameters_at(
    alloc: Global,
    parameters: &[Parameter],
    places: &[u64],
) -> Result<Vec<Parameter>, OutOfMemory>
    requires { All (λ place. place < length parameters.now) places.now }
    ensures { IfOk result (λ copies. copies.items ≡ planned.parameters_at parameters.now places.now) }
{
    let mut copies = Vec::new(alloc);
    for place in places {
        copies.push(parameters[*place as usize].copy(alloc)?)?;
    }
    Ok(copies)
}

// The systems of a domain's coordinates: that of z only where the domain has z.
fn referencing_over(
    alloc: Global,
    domain: &Domain,
    referencing: &Referencing,
) -> Result<Referencing, OutOfMemory>
    ensures { IfOk result (λ copy. copy ≡ documents.referencing_over domain.now referencing.now) }
{
    let crs = Text::of(alloc, referencing.crs.bytes())?;
    if !domain.has(CoordinateName::Z) {
        return Ok(Referencing {
            crs,
            vertical: None,
        });
    }
    let vertical = Text::copied(alloc, &referencing.vertical)?;
    Ok(Referencing { crs, vertical })
}

/// The head of a coverage over a domain, with the parameters at some places.
pub fn head_of(
    alloc: Global,
    referencing: &Referencing,
    parameters: &[Parameter],
    places: &[u64],
    domain: Domain,
) -> Result<Coverage, OutOfMemory>
    requires { All (λ place. place < length parameters.now) places.now }
    ensures { IfOk result (λ head. head ≡ planned.head_of referencing.now (planned.parameters_at parameters.now places.now) domain) }
{
    let referencing = referencing_over(alloc, &domain, referencing)?;
    let parameters = parameters_at(alloc, parameters, places)?;
    Ok(Coverage {
        id: None,
        domain,
        referencing,
        parameters: Items::of(parameters),
        ranges: Items::of(Vec::new(alloc)),
    })
}
