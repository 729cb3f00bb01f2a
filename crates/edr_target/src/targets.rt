//! The written form of a query.
ghost use Rattle.std.specs.Prelude.{◌≡◌, ◌++◌, [], Ok, IfOk, OnOk};
ghost use Rattle.edr_query.specs.declared.pages.Page.TheVariants.{Ask};
ghost use Rattle.edr_query.specs.Paths.{path_text};
ghost use Rattle.edr_query.specs.Queries.{IsQuery};
ghost use Rattle.edr_query.specs.Spelling.{address_of, pairs_of, query_text, spell};
ghost use Rattle.edr_query.specs.Targets.{IsTarget};
ghost use Rattle.form_urlencoded.specs.Form.{extend_pairs};

use crate::addresses::address_of;
use crate::filters::push_filters;
use crate::places::push_place;
use edr_base::{OutOfMemory, Text};
use edr_query::{Query, path_of, written_queries_read_back};
use std::alloc::Global;

// Every query is one.
fn query_stands(query: &Query)
    ensures { IsQuery query.now }
{
    let _ = &query.shape;
}

// The pairs of a query, as a form.
#[tactic(auto, using(crate::proofs::FormLemmas::query_pairs))]
fn form_of(alloc: Global, query: &Query) -> Result<Vec<u8>, OutOfMemory>
    requires { IsQuery query.now }
    ensures { IfOk result (λ form. form.items ≡ extend_pairs [] (pairs_of query.now)) }
{
    let mut form = Vec::new(alloc);
    push_place(&mut form, alloc, &query.shape)?;
    push_filters(&mut form, alloc, query)?;
    Ok(form)
}

// Puts the query text of a query behind its `?`, or nothing where it has no pair.
fn push_query(text: &mut Vec<u8>, alloc: Global, query: &Query) -> Result<(), OutOfMemory>
    requires { IsQuery query.now }
    ensures { OnOk result (text.new.items ≡ text.old.items ++ query_text (pairs_of query.now)) }
{
    let form = form_of(alloc, query)?;
    if form.is_empty() {
        return Ok(());
    }
    text.push(b'?')?;
    text.extend_from_slice(&form)?;
    Ok(())
}

// The path that a query is asked at.
fn path_at(alloc: Global, query: &Query) -> Result<Text, OutOfMemory>
    ensures { IfOk result (λ path. path ≡ path_text (address_of query.now)) }
{
    let address = address_of(alloc, query)?;
    path_of(alloc, &address)
}

/// The target that asks a query, as it is written (OGC 19-086r6, sections 7 and 8): its path, in whose ids all bytes are
/// escaped but letters, digits, `-`, `.`, `_` and `~`; and, where it has any, `?` and its parameters as forms write them,
/// in the order coords, within, within-units, bbox, corridor-width, width-units, corridor-height, height-units, datetime,
/// z, parameter-name, crs. Distances are in metres.
///
/// What is written asks for just that query. Want of memory is the only error.
pub fn target_of(alloc: Global, query: &Query) -> Result<Text, OutOfMemory>
    ensures written { IfOk result (λ text. text ≡ spell query.now) }
    ensures asks { IfOk result (λ text. IsTarget text (Ok (Ask query.now))) }
{
    written_queries_read_back();
    query_stands(query);
    let path = path_at(alloc, query)?;
    let mut text = Vec::from_slice(alloc, path.bytes())?;
    push_query(&mut text, alloc, query)?;
    Ok(Text::from_vec(text))
}
