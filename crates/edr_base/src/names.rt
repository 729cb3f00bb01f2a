//! Names, blanks, and texts that are UTF-8.
ghost use Rattle.std.specs.Prelude.{◌≡◌, ◌↔◌, IsTrue, IfSome, IsUtf8};
ghost use Rattle.edr_base.specs.Names.{IsNameByte, IsName, is_blank};

use crate::limits::NAME_LIMIT;
use crate::texts::Text;
use std::str;

/// Whether a byte is a blank: a space, a tab, a line feed or a carriage return.
pub fn is_blank(byte: u8) -> bool
    ensures { result ≡ is_blank byte }
{
    byte == b' ' || byte == b'\t' || byte == b'\n' || byte == b'\r'
}

fn is_name_byte(byte: u8) -> bool
    ensures { IsTrue result ↔ IsNameByte byte }
{
    byte >= 32 && byte != 127 && byte != b','
}

/// Whether some bytes are UTF-8.
pub fn is_utf8(text: &[u8]) -> bool
    ensures { IsTrue result ↔ IsUtf8 text.now }
{
    str::from_utf8(text).is_ok()
}

/// Whether a text is UTF-8, or isn't given.
pub fn is_utf8_where_given(text: &Option<Text>) -> bool
    ensures { IsTrue result ↔ IfSome text.now IsUtf8 }
{
    match text {
        Some(text) => is_utf8(text.bytes()),
        None => true,
    }
}

/// Whether a text is a name: 1 to `NAME_LIMIT` bytes of UTF-8 without bytes below 32, byte 127 and the comma. It takes no
/// memory.
pub fn is_name(text: &[u8]) -> bool
    ensures { IsTrue result ↔ IsName text.now }
{
    !text.is_empty()
        && text.len() <= NAME_LIMIT
        && text.iter().all(|byte| is_name_byte(*byte))
        && is_utf8(text)
}
