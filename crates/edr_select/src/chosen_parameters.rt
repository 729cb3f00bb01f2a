//! The parameters of an instance that a query asks for.
ghost use Rattle.std.specs.Prelude.{◌≡◌, ◌<◌, false, true, Some, None, IfOk, MatchOption};
ghost use Rattle.edr_select.specs.PlacesOfIds.{IsPlaceOfId};
ghost use Rattle.covjson_value.specs.Coverages.{ids_of, AscendById};
ghost use Rattle.edr_edition.specs.Values.{parameter_id};
ghost use Rattle.edr_select.specs.Refusals.{names_other};
ghost use Rattle.edr_select.specs.Choices.{parameter_places};

use crate::numbers::{ascending_once, numbers_between};
use covjson_value::Parameter;
use edr_base::{Items, OutOfMemory, Text};
use std::alloc::Global;

// `Ok` with the place of the parameter of an id, or `Err` with the place where it would stand.
fn place_of(parameters: &[Parameter], id: &[u8]) -> Result<usize, usize>
    requires { AscendById parameters.now }
    ensures { IsPlaceOfId parameter_id id.now parameters.now result }
{
    parameters.binary_search_by(|parameter| parameter.id.bytes().cmp(id))
}

// The places of the parameters of these ids, or None exactly where one of them is no parameter's.
fn places_of_names(
    alloc: Global,
    names: &[Text],
    parameters: &[Parameter],
) -> Result<Option<Vec<u64>>, OutOfMemory>
    requires { AscendById parameters.now }
    ensures { IfOk result (λ found. MatchOption found (names_other (Some names.now) (ids_of parameters.now) ≡ true)
        (λ places. (names_other (Some names.now) (ids_of parameters.now) ≡ false) × (places.items ≡ parameter_places (Some names.now) parameters.now))) }
{
    let mut places = Vec::new(alloc);
    for name in names {
        match place_of(parameters, name.bytes()) {
            Ok(place) => places.push(place as u64)?,
            Err(_) => return Ok(None),
        }
    }
    Ok(Some(ascending_once(places)))
}

/// The places of the parameters that are asked, or None exactly where a name is no parameter's id. Without names all are asked.
pub fn parameters_taken(
    alloc: Global,
    names: &Option<Items<Text>>,
    parameters: &[Parameter],
) -> Result<Option<Vec<u64>>, OutOfMemory>
    requires { AscendById parameters.now }
    ensures { IfOk result (λ found. MatchOption found (names_other names.now (ids_of parameters.now) ≡ true)
        (λ places. (names_other names.now (ids_of parameters.now) ≡ false) × (places.items ≡ parameter_places names.now parameters.now))) }
{
    match names {
        None => Ok(Some(numbers_between(alloc, 0, parameters.len())?)),
        Some(names) => places_of_names(alloc, names.items(), parameters),
    }
}
