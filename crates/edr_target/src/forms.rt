//! Forms, `application/x-www-form-urlencoded`, as bytes.
ghost use Rattle.std.specs.Prelude.{◌≡◌, ◌++◌, OnOk};
ghost use Rattle.form_urlencoded.specs.Form as form;

use edr_base::OutOfMemory;
use form_urlencoded::byte_serialize;

// Puts bytes, escaped as a form writes them.
fn push_escaped(text: &mut Vec<u8>, bytes: &[u8]) -> Result<(), OutOfMemory>
    ensures { OnOk result (text.new.items ≡ text.old.items ++ form.byte_serialize bytes.now) }
{
    for piece in byte_serialize(bytes) {
        text.extend_from_slice(piece.as_bytes())?;
    }
    Ok(())
}

// Puts `&`, where a pair stands before.
fn push_separator(text: &mut Vec<u8>) -> Result<(), OutOfMemory>
    ensures { OnOk result (text.new.items ≡ text.old.items ++ form.separator text.old.items) }
{
    if !text.is_empty() {
        text.push(b'&')?;
    }
    Ok(())
}

/// Puts a pair of a name and a value behind those of a form.
pub fn push_pair(text: &mut Vec<u8>, name: &[u8], value: &[u8]) -> Result<(), OutOfMemory>
    ensures { OnOk result (text.new.items ≡ form.append_pair text.old.items name.now value.now) }
{
    push_separator(text)?;
    push_escaped(text, name)?;
    text.push(b'=')?;
    push_escaped(text, value)?;
    Ok(())
}
