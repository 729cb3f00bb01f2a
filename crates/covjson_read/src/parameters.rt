//! Parameters (OGC 21-069r2, Parameter objects).
ghost use Rattle.std.specs.Prelude.{◌≡◌, option_map, IfOk, codes};
ghost use Rattle.edr_samples.specs.Trees.{tree_view, members_view};
ghost use Rattle.serde_json.specs.Find.{get};
ghost use Rattle.covjson_value.specs.Coverages.{IsParameter};
ghost use Rattle.covjson_checks.specs.Answers.{GivesAnswer, GivesUnlessMemory};
ghost use Rattle.edr_base.specs.Names.{IsName};
ghost use Rattle.edr_base.specs.NameTests.{is_name};
ghost use Rattle.covjson_read.specs.ParameterAnswers as parameters;

use covjson_checks::{
    CovFault, Member, found_or_missing, need, object_at, part, text_at, text_of, text_where_given,
};
use covjson_value::Parameter;
use edr_base::is_name;
use edr_json::Tree;
use serde_json::Map;
use std::alloc::Global;

fn all_texts(members: &Map<String, Tree>) -> bool
    ensures { result ≡ parameters.all_texts (members_view members.now.entries) }
{
    for (_, text) in members.iter() {
        if text.as_str().is_none() {
            return false;
        }
    }
    true
}

// Of a label's members that of English, else the first; with its language.
fn said_in<'a>(label: &'a Tree, members: &'a Map<String, Tree>) -> Option<(&'a str, &'a Tree)>
    ensures { option_map (λ p. (p.0.now, tree_view p.1.now)) result
        ≡ parameters.said_in (get (codes "en") (tree_view label.now)) (members_view members.now.entries) }
{
    if let Some(english) = label.get("en") {
        return Some(("en", english));
    }
    for (lang, text) in members.iter() {
        return Some((lang, text));
    }
    None
}

// The language and the text of a label.
fn label_at<'a>(tree: &'a Tree, member: Member) -> Result<(&'a str, &'a str), CovFault>
    ensures { GivesAnswer (λ p. (p.0.now, p.1.now)) result (parameters.label_at member (tree_view tree.now)) }
{
    let label = part(tree, "label", member)?;
    let members = object_at(label, member)?;
    if !all_texts(members) {
        return Err(CovFault::WrongType(member));
    }
    let Some((lang, said)) = said_in(label, members) else {
        return Err(CovFault::WrongType(member));
    };
    let text = text_at(said, member)?;
    Ok((lang, text))
}

fn parameter_label(tree: &Tree) -> Result<(&str, &str), CovFault>
    ensures { GivesAnswer (λ p. (p.0.now, p.1.now)) result (parameters.parameter_label (tree_view tree.now)) }
{
    let property = need(tree, "observedProperty", Member::ObservedProperty)?;
    if property.get("categories").is_some() {
        return Err(CovFault::WrongType(Member::ObservedProperty));
    }
    label_at(property, Member::ObservedProperty)
}

fn unit_label(unit: &Tree) -> Result<&str, CovFault>
    ensures { GivesAnswer (λ s. s.now) result (parameters.unit_label (tree_view unit.now)) }
{
    let (_, text) = label_at(unit, Member::Unit)?;
    Ok(text)
}

// The text of a unit: its symbol, or the value of its symbol, else its label.
fn unit_text(unit: &Tree) -> Result<&str, CovFault>
    ensures { GivesAnswer (λ s. s.now) result (parameters.unit_by_symbol (tree_view unit.now) (get (codes "symbol") (tree_view unit.now))) }
{
    let Some(symbol) = unit.get("symbol") else {
        return unit_label(unit);
    };
    if let Some(text) = symbol.as_str() {
        return Ok(text);
    }
    if symbol.as_object().is_none() {
        return unit_label(unit);
    }
    let value = part(symbol, "value", Member::Unit)?;
    text_at(value, Member::Unit)
}

fn parameter_unit(tree: &Tree) -> Result<Option<&str>, CovFault>
    ensures { GivesAnswer (λ o. option_map (λ s. s.now) o) result (parameters.parameter_unit (tree_view tree.now)) }
{
    let Some(unit) = tree.get("unit") else {
        return Ok(None);
    };
    let text = unit_text(unit)?;
    Ok(Some(text))
}

fn parameter_forms(members: &Map<String, Tree>) -> Result<(), CovFault>
    ensures { result ≡ parameters.parameter_forms (members_view members.now.entries) }
{
    for (_, tree) in members.iter() {
        let _label = parameter_label(tree)?;
        let _unit = parameter_unit(tree)?;
    }
    Ok(())
}

// Whether a text is the name of a parameter.
fn is_named(name: &str) -> bool
    ensures { result ≡ is_name name.now }
{
    is_name(name.as_bytes())
}

fn all_named_objects(members: &Map<String, Tree>) -> bool
    ensures { result ≡ parameters.all_named_objects (members_view members.now.entries) }
{
    for (name, tree) in members.iter() {
        if !is_named(name) || tree.as_object().is_none() {
            return false;
        }
    }
    true
}

/// The parameters, which were found in the coverage or elsewhere: an object of objects by names, each of which is as it has
/// to be. Missing, WrongType.
pub fn parameters_of(found: Option<&Tree>) -> Result<&Tree, CovFault>
    ensures { GivesAnswer (λ v. tree_view v.now) result (parameters.parameters_of (option_map (λ v. tree_view v.now) found.entry)) }
{
    let found = found_or_missing(found, Member::Parameters)?;
    let members = object_at(found, Member::Parameters)?;
    if !all_named_objects(members) {
        return Err(CovFault::WrongType(Member::Parameters));
    }
    parameter_forms(members)?;
    Ok(found)
}

/// The parameter of an id that a tree stands for.
pub fn parameter_of(alloc: Global, id: &str, tree: &Tree) -> Result<Parameter, CovFault>
    ensures answer { GivesUnlessMemory (λ p. p) result (parameters.parameter_of id.now (tree_view tree.now)) }
    ensures valid { IfOk result (λ p. IsName id.now → IsParameter p) }
{
    let (lang, label) = parameter_label(tree)?;
    let unit = parameter_unit(tree)?;
    let id = text_of(alloc, id)?;
    let lang = text_of(alloc, lang)?;
    let label = text_of(alloc, label)?;
    let unit = text_where_given(alloc, unit)?;
    Ok(Parameter {
        id,
        lang,
        label,
        unit,
    })
}
