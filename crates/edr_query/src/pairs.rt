//! Reading the pairs of a query text.
ghost use Rattle.std.specs.Prelude.{◌≡◌, ◌++◌, ◌∷◌, [], Some, None, true, is_some, MatchOption, OnOk, map};
ghost use Rattle.std.specs.Prelude.{IfOk, IsTrue};
ghost use Rattle.std.specs.Cow.{cow_str_bytes};
ghost use Rattle.edr_base.specs.declared.refusals.Refusal.TheVariants.{UnknownParameter};
ghost use Rattle.edr_query.specs.Parameters.{name_of, value_of, is_taken, pairs_in, IsUnknown};
ghost use Rattle.edr_query.specs.Reads.{parameter_in, read_text, Lacks, Checks, Steps, AreRead, with_pair};

use crate::addresses::PageKind;
use crate::parameters::{Parameter, is_taken, parameter_of};
use crate::reading::TargetFault;
use edr_base::{OutOfMemory, Refusal};
use std::alloc::Global;
use std::borrow::CowStr;
use std::marker::Model;
use std::str;

/// The parameters of a target, each once. Contracts see their names and values as pairs.
#[derive(Debug, Drop)]
pub struct Parameters<'a> {
    found: Vec<(Parameter, CowStr<'a, Global>)>,
}

impl<'a> Model for Parameters<'a> {
    ghost use Rattle.std.specs.Prelude.{map};
    ghost use Rattle.edr_query.specs.Parameters.{Pair};
    ghost use Rattle.std.specs.Prelude.{List};

    ghost Value = { List Pair };

    ghost use Rattle.edr_query.specs.Named.{named};

    ghost view = { λ parameters. map named parameters.found.items };
}

impl<'a> Parameters<'a> {
    fn new(alloc: Global) -> Parameters<'a>
        ensures { result ≡ [] }
    {
        Parameters {
            found: Vec::new(alloc),
        }
    }

    /// The value of a parameter, if it is given.
    pub fn get(&self, parameter: Parameter) -> Option<&str>
        ensures { MatchOption result (value_of parameter self.now ≡ None) (λ text. value_of parameter self.now ≡ Some text.now) }
    {
        for entry in &self.found {
            if entry.0 == parameter {
                return Some(entry.1.as_str());
            }
        }
        None
    }

    /// Whether a parameter is given.
    pub fn has(&self, parameter: Parameter) -> bool
        ensures { result ≡ is_some (value_of parameter self.now) }
    {
        self.get(parameter).is_some()
    }

    // One more parameter, with its value as it is written.
    fn add(&mut self, alloc: Global, parameter: Parameter, raw: &'a [u8]) -> Result<(), OutOfMemory>
        ensures { OnOk result (self.new ≡ self.old ++ (name_of parameter, read_text raw.now) ∷ []) }
    {
        let value = read_value(alloc, raw)?;
        self.found.push((parameter, value))?;
        Ok(())
    }
}

/// Whether a text lacks a byte.
pub fn lacks(text: &[u8], byte: u8) -> bool
    ensures { IsTrue result → Lacks byte text.now }
{
    !text.contains(&byte)
}

// A value, decoded. It takes no memory where nothing is escaped.
fn read_value(alloc: Global, raw: &[u8]) -> Result<CowStr<'_, Global>, OutOfMemory>
    ensures { IfOk result (λ text. cow_str_bytes text ≡ read_text raw.now) }
{
    if !lacks(raw, b'+') {
        return Ok(form_urlencoded::decode(alloc, raw)?);
    }
    if lacks(raw, b'%') {
        if let Ok(text) = str::from_utf8(raw) {
            return Ok(CowStr::Borrowed(text));
        }
    }
    Ok(percent_encoding::percent_decode(raw).decode_utf8_lossy(alloc)?)
}

// The parameter of a name as it is written. It takes no memory where nothing is escaped.
fn read_name(alloc: Global, raw: &[u8]) -> Result<Option<Parameter>, OutOfMemory>
    ensures { IfOk result (λ parameter. parameter ≡ parameter_in (read_text raw.now)) }
{
    if let Some(parameter) = parameter_of(raw) {
        return Ok(Some(parameter));
    }
    let name = form_urlencoded::decode(alloc, raw)?;
    Ok(parameter_of(name.as_str().as_bytes()))
}

// The parameter of a name as it is written, which a page takes.
fn known(alloc: Global, page: PageKind, raw: &[u8]) -> Result<Parameter, TargetFault>
    ensures { Checks result (λ parameter. (read_text raw.now ≡ name_of parameter) × (is_taken page parameter ≡ true)) UnknownParameter (IsUnknown page (read_text raw.now)) }
{
    match read_name(alloc, raw)? {
        Some(parameter) => {
            if is_taken(page, parameter) {
                Ok(parameter)
            } else {
                Err(TargetFault::Refused(Refusal::UnknownParameter))
            }
        }
        None => Err(TargetFault::Refused(Refusal::UnknownParameter)),
    }
}

// The parameters so far with one more; none where its name stands twice.
fn with_pair<'a>(
    alloc: Global,
    found: Option<Parameters<'a>>,
    parameter: Parameter,
    raw: &'a [u8],
) -> Result<Option<Parameters<'a>>, OutOfMemory>
    ensures { IfOk result (λ more. more ≡ with_pair found.entry parameter (read_text raw.now)) }
{
    let Some(mut parameters) = found else {
        return Ok(None);
    };
    if parameters.has(parameter) {
        return Ok(None);
    }
    parameters.add(alloc, parameter, raw)?;
    Ok(Some(parameters))
}

/// The parameters of a query text, whose names the page takes and which stand once; or the first refusal.
pub fn read_parameters(
    alloc: Global,
    page: PageKind,
    text: &[u8],
) -> Result<Parameters<'_>, TargetFault>
    ensures { Steps result (λ read. AreRead page (pairs_in text.now) read) page (pairs_in text.now) }
{
    let mut found = Some(Parameters::new(alloc));
    for (name, value) in form_urlencoded::raw_pairs(text) {
        let parameter = known(alloc, page, name)?;
        found = with_pair(alloc, found, parameter, value)?;
    }
    match found {
        Some(parameters) => Ok(parameters),
        None => Err(TargetFault::Refused(Refusal::RepeatedParameter)),
    }
}
