//! Axes of numbers by their first value, their last, and how many there are (OGC 21-069r2, regularly spaced axes).
ghost use Rattle.std.specs.Prelude.{◌≡◌, ◌≤◌, ◌<◌, ◌^◌, ◌+ℤ◌, ◌-ℤ◌, ◌*◌, ◌*ℤ◌, IfOk, pos, unsigned_abs, true};
ghost use Rattle.serde_json.specs.View.{number_view};
ghost use Rattle.edr_samples.specs.Trees.{tree_view};
ghost use Rattle.edr_base.specs.Limits.{coordinate_limit, node_limit, IsCoordinate};
ghost use Rattle.covjson_checks.specs.Answers.{GivesAnswer, GivesUnlessMemory};
ghost use Rattle.covjson_checks.specs.Members as members;
ghost use Rattle.covjson_domains.specs.AxisAnswers as axes;
ghost use Rattle.covjson_domains.specs.SpanAnswers as spans;

use covjson_checks::{CovFault, Member, is_within, number_at, part};
use edr_base::{COORDINATE_LIMIT, NODE_LIMIT};
use edr_json::Tree;
use serde_json::Number;
use std::alloc::Global;

// A member that is a number: WrongType.
fn number_in<'a>(axis: &'a Tree, key: &str, member: Member) -> Result<&'a Number, CovFault>
    ensures { GivesAnswer (λ n. number_view n.now) result (axes.number_in key.now member (tree_view axis.now)) }
{
    let found = part(axis, key, member)?;
    number_at(found, member)
}

// The number as it is held whole, which is of 64 bits: NotWhole.
fn whole_in(number: &Number, member: Member) -> Result<i128, CovFault>
    ensures whole { result ≡ members.held_whole member (number_view number.now) }
    ensures small { IfOk result (λ z. unsigned_abs z < 2 ^ 64) }
{
    match number.as_u64() {
        Some(natural) => Ok(natural as i128),
        None => match number.as_i64() {
            Some(whole) => Ok(whole as i128),
            None => Err(CovFault::NotWhole(member)),
        },
    }
}

// Whether so many values lie in equal whole steps from the first to the last.
fn has_whole_steps(first: i128, last: i128, count: i128) -> bool
    requires first { unsigned_abs first < 2 ^ 64 }
    requires last { unsigned_abs last < 2 ^ 64 }
    ensures { result ≡ axes.has_whole_steps first last count }
{
    if count < 1 {
        true
    } else if count <= 1 {
        last == first
    } else {
        (last - first) % (count - 1) == 0
    }
}

fn is_span_within(first: i128, last: i128, count: i128) -> bool
    ensures { result ≡ axes.is_span_within first last count }
{
    is_within(first, COORDINATE_LIMIT)
        && is_within(last, COORDINATE_LIMIT)
        && 1 <= count
        && count <= NODE_LIMIT as i128
}

// As many values as that from the first on, in steps of that size.
fn stepped(alloc: Global, first: i64, step: i64, count: usize) -> Result<Vec<i64>, CovFault>
    requires some { 1 ≤ count }
    requires few { count ≤ node_limit }
    requires first { IsCoordinate first }
    requires last { IsCoordinate (first +ℤ step *ℤ (pos count -ℤ pos 1)) }
    ensures { GivesUnlessMemory (λ v. v.items) result (Ok (axes.stepped first step count)) }
{
    let mut values = Vec::with_capacity(alloc, count)?;
    for place in 0..count {
        values.push(first + place as i64 * step)?;
    }
    Ok(values)
}

// How far each value is above the one before.
fn step_of(first: i128, last: i128, count: i128) -> i128
    requires even { axes.has_whole_steps first last count ≡ true }
    requires within { axes.is_span_within first last count ≡ true }
    ensures regular { axes.stepped first result (unsigned_abs count) ≡ axes.regular first last (unsigned_abs count) }
    ensures reaches { first +ℤ result *ℤ (count -ℤ pos 1) ≡ last }
    ensures short { unsigned_abs result ≤ 2 * coordinate_limit }
{
    if count <= 1 {
        0
    } else {
        (last - first) / (count - 1)
    }
}

// The values from the first to the last.
fn regular(alloc: Global, first: i128, last: i128, count: i128) -> Result<Vec<i64>, CovFault>
    requires even { axes.has_whole_steps first last count ≡ true }
    requires within { axes.is_span_within first last count ≡ true }
    ensures { GivesUnlessMemory (λ v. v.items) result (Ok (axes.regular first last (unsigned_abs count))) }
{
    let step = step_of(first, last, count);
    stepped(alloc, first as i64, step as i64, count as usize)
}

// The values between these whole numbers: NotWhole where the step isn't whole, then OutOfRange.
fn spanned_between(
    alloc: Global,
    first: i128,
    last: i128,
    count: i128,
    member: Member,
) -> Result<Vec<i64>, CovFault>
    requires first { unsigned_abs first < 2 ^ 64 }
    requires last { unsigned_abs last < 2 ^ 64 }
    ensures { GivesUnlessMemory (λ v. v.items) result (spans.spanned_between member first last count) }
{
    if !has_whole_steps(first, last, count) {
        return Err(CovFault::NotWhole(member));
    }
    if !is_span_within(first, last, count) {
        return Err(CovFault::OutOfRange(member));
    }
    regular(alloc, first, last, count)
}

/// The values of an axis of numbers by `start`, `stop` and `num`: WrongType, then NotWhole where one of them or the step
/// isn't whole, then OutOfRange.
pub fn spanned(alloc: Global, axis: &Tree, member: Member) -> Result<Vec<i64>, CovFault>
    ensures { GivesUnlessMemory (λ v. v.items) result (axes.spanned member (tree_view axis.now)) }
{
    let start = number_in(axis, "start", member)?;
    let stop = number_in(axis, "stop", member)?;
    let num = number_in(axis, "num", member)?;
    let first = whole_in(start, member)?;
    let last = whole_in(stop, member)?;
    let count = whole_in(num, member)?;
    spanned_between(alloc, first, last, count, member)
}
