//! The texts of times, levels, boxes and names.
ghost use Rattle.std.specs.Prelude.{◌≡◌, ◌++◌, ◌∷◌, OnOk, IfOk};
ghost use Rattle.std.specs.Fmt.{signed_decimal};
ghost use Rattle.std.specs.List.{flat_map};
ghost use Rattle.edr_axes.specs.Times.{IsSideTime, IsTimes};
ghost use Rattle.edr_axes.specs.declared.levels.Levels.TheVariants.{Series};
ghost use Rattle.edr_wkt.specs.Spelling.{joined};
ghost use Rattle.edr_query.specs.Boxes.{numbers_with};
ghost use Rattle.edr_query.specs.Spelling.{side_text, times_text, levels_text};

use edr_axes::{Levels, Times, write_instant};
use edr_base::{OutOfMemory, Spot, Text};
use itoa::Buffer;
use std::alloc::Global;

fn push_number(text: &mut Vec<u8>, number: i64) -> Result<(), OutOfMemory>
    ensures { OnOk result (text.new.items ≡ text.old.items ++ signed_decimal number) }
{
    let mut buffer = Buffer::new();
    text.extend_from_slice(buffer.format(number).as_bytes())?;
    Ok(())
}

/// The text of a number.
pub fn number_text(alloc: Global, number: i64) -> Result<Vec<u8>, OutOfMemory>
    ensures { IfOk result (λ text. text.items ≡ signed_decimal number) }
{
    let mut text = Vec::new(alloc);
    push_number(&mut text, number)?;
    Ok(text)
}

// Puts a number behind a comma.
fn push_next(text: &mut Vec<u8>, number: i64) -> Result<(), OutOfMemory>
    ensures { OnOk result (text.new.items ≡ text.old.items ++ 44 ∷ signed_decimal number) }
{
    text.push(b',')?;
    push_number(text, number)?;
    Ok(())
}

// Puts numbers, each behind a comma.
fn push_more(text: &mut Vec<u8>, numbers: &[i64]) -> Result<(), OutOfMemory>
    ensures { OnOk result (text.new.items ≡ text.old.items ++ flat_map (λ number. 44 ∷ signed_decimal number) numbers.now) }
{
    for number in numbers {
        push_next(text, *number)?;
    }
    Ok(())
}

// Puts numbers with commas between them.
fn push_numbers(text: &mut Vec<u8>, numbers: &[i64]) -> Result<(), OutOfMemory>
    ensures { OnOk result (text.new.items ≡ text.old.items ++ joined signed_decimal numbers.now) }
{
    let Some((first, rest)) = numbers.split_first() else {
        return Ok(());
    };
    push_number(text, *first)?;
    push_more(text, rest)
}

/// The numbers of a box with commas between them, four or six.
pub fn box_text(
    alloc: Global,
    lo: Spot,
    hi: Spot,
    levels: Option<(i64, i64)>,
) -> Result<Vec<u8>, OutOfMemory>
    ensures { IfOk result (λ text. text.items ≡ joined signed_decimal (numbers_with lo hi levels)) }
{
    let mut text = Vec::new(alloc);
    match levels {
        Some((low, high)) => push_numbers(&mut text, &[lo.x, lo.y, low, hi.x, hi.y, high])?,
        None => push_numbers(&mut text, &[lo.x, lo.y, hi.x, hi.y])?,
    }
    Ok(text)
}

// A side of an interval, `..` where it is open.
fn push_side(text: &mut Vec<u8>, side: Option<i64>) -> Result<(), OutOfMemory>
    requires { IsSideTime side }
    ensures { OnOk result (text.new.items ≡ text.old.items ++ side_text side) }
{
    match side {
        Some(time) => Ok(text.extend_from_slice(&write_instant(time))?),
        None => Ok(text.extend_from_slice(b"..")?),
    }
}

/// Times as they are written: an instant, or two sides with a slash between them.
pub fn times_text(alloc: Global, times: Times) -> Result<Vec<u8>, OutOfMemory>
    requires { IsTimes times }
    ensures { IfOk result (λ text. text.items ≡ times_text times) }
{
    let mut text = Vec::new(alloc);
    match times {
        Times::All => text.extend_from_slice(b"../..")?,
        Times::At(only) => push_side(&mut text, Some(only))?,
        Times::Between(first, last) => {
            push_side(&mut text, first)?;
            text.push(b'/')?;
            push_side(&mut text, last)?;
        }
    }
    Ok(text)
}

// Two numbers with a slash between them.
fn push_two(text: &mut Vec<u8>, one: i64, other: i64) -> Result<(), OutOfMemory>
    ensures { OnOk result (text.new.items ≡ text.old.items ++ (signed_decimal one ++ 47 ∷ signed_decimal other)) }
{
    push_number(text, one)?;
    text.push(b'/')?;
    push_number(text, other)?;
    Ok(())
}

// Three numbers with slashes between them.
fn push_three(text: &mut Vec<u8>, n: i64, first: i64, step: i64) -> Result<(), OutOfMemory>
    ensures { OnOk result (text.new.items ≡ text.old.items ++ (signed_decimal n ++ 47 ∷ (signed_decimal first ++ 47 ∷ signed_decimal step))) }
{
    push_number(text, n)?;
    text.push(b'/')?;
    push_two(text, first, step)?;
    Ok(())
}

// A series: `R` and three numbers with slashes between them.
fn push_series(text: &mut Vec<u8>, n: i64, first: i64, step: i64) -> Result<(), OutOfMemory>
    ensures { OnOk result (text.new.items ≡ text.old.items ++ levels_text (Series n first step)) }
{
    text.push(b'R')?;
    push_three(text, n, first, step)?;
    Ok(())
}

/// Levels as they are written: a number, `min/max`, `a,b` or `Rn/min/step`; nothing for all levels.
pub fn levels_text(alloc: Global, levels: &Levels) -> Result<Vec<u8>, OutOfMemory>
    ensures { IfOk result (λ text. text.items ≡ levels_text levels.now) }
{
    let mut text = Vec::new(alloc);
    match levels {
        Levels::All => {}
        Levels::At(only) => push_number(&mut text, *only)?,
        Levels::Between(low, high) => push_two(&mut text, *low, *high)?,
        Levels::List(levels) => push_numbers(&mut text, levels.items())?,
        Levels::Series { n, first, step } => push_series(&mut text, *n, *first, *step)?,
    }
    Ok(text)
}

/// Names with commas between them.
pub fn names_text(alloc: Global, names: &[Text]) -> Result<Vec<u8>, OutOfMemory>
    ensures { IfOk result (λ text. text.items ≡ joined (λ name. name) names.now) }
{
    let mut text = Vec::new(alloc);
    if let [first, rest @ ..] = names {
        text.extend_from_slice(first.bytes())?;
        for name in rest {
            text.push(b',')?;
            text.extend_from_slice(name.bytes())?;
        }
    }
    Ok(text)
}
