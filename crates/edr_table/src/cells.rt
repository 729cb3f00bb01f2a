//! The cells of a line, put behind a text.
ghost use Rattle.std.specs.Prelude.{◌≡◌, ◌++◌, ◌∷◌, [], OnOk, IfSome};
ghost use Rattle.std.specs.Fmt.{signed_decimal};
ghost use Rattle.edr_axes.specs.Instants.{IsTime};
ghost use Rattle.edr_table.specs.Tables.{number_cell, time_cell};
ghost use Rattle.edr_table.specs.Turns.{line_front, line_back};

use edr_axes::write_instant;
use edr_base::OutOfMemory;
use itoa::Buffer;

// Puts a number, and the byte that ends its cell.
fn push_number(text: &mut Vec<u8>, number: i64, end: u8) -> Result<(), OutOfMemory>
    ensures { OnOk result (text.new.items ≡ text.old.items ++ (signed_decimal number ++ end ∷ [])) }
{
    let mut buffer = Buffer::new();
    text.extend_from_slice(buffer.format(number).as_bytes())?;
    text.push(end)?;
    Ok(())
}

// Puts a number where there is one, and the byte that ends its cell.
fn push_number_cell(text: &mut Vec<u8>, number: Option<i64>, end: u8) -> Result<(), OutOfMemory>
    ensures { OnOk result (text.new.items ≡ text.old.items ++ (number_cell number ++ end ∷ [])) }
{
    let Some(number) = number else {
        return Ok(text.extend_from_slice(&[b'-', end])?);
    };
    push_number(text, number, end)
}

// Puts a time where there is one, and a tab.
fn push_time_cell(text: &mut Vec<u8>, time: Option<i64>) -> Result<(), OutOfMemory>
    requires { IfSome time IsTime }
    ensures { OnOk result (text.new.items ≡ text.old.items ++ (time_cell time ++ 9 ∷ [])) }
{
    match time {
        Some(time) => text.extend_from_slice(&write_instant(time))?,
        None => text.push(b'-')?,
    }
    text.push(b'\t')?;
    Ok(())
}

// Puts an id, and a tab.
fn push_id(text: &mut Vec<u8>, id: &[u8]) -> Result<(), OutOfMemory>
    ensures { OnOk result (text.new.items ≡ text.old.items ++ (id.now ++ 9 ∷ [])) }
{
    text.extend_from_slice(id)?;
    text.push(b'\t')?;
    Ok(())
}

/// Puts a line as far as its x.
pub fn push_front(
    text: &mut Vec<u8>,
    parameter: &[u8],
    t: Option<i64>,
    z: Option<i64>,
    y: i64,
) -> Result<(), OutOfMemory>
    requires { IfSome t IsTime }
    ensures { OnOk result (text.new.items ≡ text.old.items ++ line_front parameter.now t z y) }
{
    push_id(text, parameter)?;
    push_time_cell(text, t)?;
    push_number_cell(text, z, b'\t')?;
    push_number(text, y, b'\t')?;
    Ok(())
}

/// Puts a line from its x on.
pub fn push_back(text: &mut Vec<u8>, x: i64, value: Option<i64>) -> Result<(), OutOfMemory>
    ensures { OnOk result (text.new.items ≡ text.old.items ++ line_back x value) }
{
    push_number(text, x, b'\t')?;
    push_number_cell(text, value, b'\n')?;
    Ok(())
}
