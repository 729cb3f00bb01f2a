//! Times, levels, parameters and the reference system of a query, as pairs of a form.
ghost use Rattle.std.specs.Prelude.{◌≡◌, IfSome, option_map, OnOk};
ghost use Rattle.edr_axes.specs.Times.{IsTimes};
ghost use Rattle.edr_wkt.specs.Spelling.{joined};
ghost use Rattle.edr_query.specs.declared.parameters.Parameter.TheVariants as p;
ghost use Rattle.edr_query.specs.Queries.{IsQuery};
ghost use Rattle.edr_query.specs.Spelling.{times_text, levels_text};
ghost use Rattle.edr_target.specs.Forms.{with_pair, with_filters};

use crate::forms::push_pair;
use crate::texts::{levels_text, names_text, times_text};
use edr_axes::{Levels, Times};
use edr_base::{Items, OutOfMemory, Text};
use edr_query::Query;
use std::alloc::Global;

fn push_times(form: &mut Vec<u8>, alloc: Global, times: Option<Times>) -> Result<(), OutOfMemory>
    requires { IfSome times IsTimes }
    ensures { OnOk result (form.new.items ≡ with_pair form.old.items p.Datetime (option_map times_text times)) }
{
    let Some(times) = times else {
        return Ok(());
    };
    let text = times_text(alloc, times)?;
    push_pair(form, b"datetime", &text)
}

fn push_levels(
    form: &mut Vec<u8>,
    alloc: Global,
    levels: &Option<Levels>,
) -> Result<(), OutOfMemory>
    ensures { OnOk result (form.new.items ≡ with_pair form.old.items p.Z (option_map levels_text levels.now)) }
{
    let Some(levels) = levels else {
        return Ok(());
    };
    let text = levels_text(alloc, levels)?;
    push_pair(form, b"z", &text)
}

fn push_names(
    form: &mut Vec<u8>,
    alloc: Global,
    names: &Option<Items<Text>>,
) -> Result<(), OutOfMemory>
    ensures { OnOk result (form.new.items ≡ with_pair form.old.items p.ParameterName (option_map (joined (λ name. name)) names.now)) }
{
    let Some(names) = names else {
        return Ok(());
    };
    let text = names_text(alloc, names.items())?;
    push_pair(form, b"parameter-name", &text)
}

fn push_crs(form: &mut Vec<u8>, crs: &Option<Text>) -> Result<(), OutOfMemory>
    ensures { OnOk result (form.new.items ≡ with_pair form.old.items p.Crs crs.now) }
{
    let Some(crs) = crs else {
        return Ok(());
    };
    push_pair(form, b"crs", crs.bytes())
}

/// Puts the pairs that say what else a query selects by.
pub fn push_filters(form: &mut Vec<u8>, alloc: Global, query: &Query) -> Result<(), OutOfMemory>
    requires { IsQuery query.now }
    ensures { OnOk result (form.new.items ≡ with_filters form.old.items query.now) }
{
    push_times(form, alloc, query.times)?;
    push_levels(form, alloc, &query.levels)?;
    push_names(form, alloc, &query.parameters)?;
    push_crs(form, &query.crs)
}
