//! The trees of parameters.
ghost use Rattle.std.specs.Prelude.{◌≡◌, codes, IfOk, OnOk, All, IfSome, IsUtf8, option_map};
ghost use Rattle.serde_json.specs.View.{view, members_view};
ghost use Rattle.covjson_value.specs.Coverages.{IsParameter, AscendById};
ghost use Rattle.covjson_value.specs.Trees.{unit_data, parameter_data, parameters_data};
ghost use Rattle.covjson_value.specs.Puts.{put_if};

use crate::coverages::Parameter;
use crate::leaves::{only_member, put_tree, text_of, typed_object};
use edr_base::{OutOfMemory, Text};
use serde_json::{Map, Value};
use std::alloc::Global;

// Puts the unit of a parameter, where it has one.
fn put_unit(
    members: &mut Map<String, Value>,
    alloc: Global,
    unit: &Option<Text>,
) -> Result<(), OutOfMemory>
    requires { IfSome unit.now IsUtf8 }
    ensures { OnOk result (members_view members.new.entries
        ≡ put_if (codes "unit") (option_map unit_data unit.now) (members_view members.old.entries)) }
{
    match unit {
        Some(unit) => {
            let symbol = Value::try_from_str(alloc, text_of(unit.bytes()))?;
            put_tree(
                members,
                alloc,
                "unit",
                only_member(alloc, "symbol", symbol)?,
            )
        }
        None => Ok(()),
    }
}

fn parameter_tree(alloc: Global, parameter: &Parameter) -> Result<Value, OutOfMemory>
    requires { IsParameter parameter.now }
    ensures { IfOk result (λ v. view v ≡ parameter_data parameter.now) }
{
    let label = Value::try_from_str(alloc, text_of(parameter.label.bytes()))?;
    let labels = only_member(alloc, text_of(parameter.lang.bytes()), label)?;
    let property = only_member(alloc, "label", labels)?;
    let mut members = Map::new(alloc);
    put_tree(&mut members, alloc, "observedProperty", property)?;
    put_unit(&mut members, alloc, &parameter.unit)?;
    typed_object(members, alloc, "Parameter")
}

/// The tree of some parameters, by their ids.
pub fn parameters_tree(alloc: Global, parameters: &[Parameter]) -> Result<Value, OutOfMemory>
    requires each { All IsParameter parameters.now }
    requires ascending { AscendById parameters.now }
    ensures { IfOk result (λ v. view v ≡ parameters_data parameters.now) }
{
    let mut members = Map::new(alloc);
    for parameter in parameters {
        let tree = parameter_tree(alloc, parameter)?;
        put_tree(&mut members, alloc, text_of(parameter.id.bytes()), tree)?;
    }
    Ok(Value::Object(members))
}
