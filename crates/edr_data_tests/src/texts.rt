//! Numbers of digits, and copies of texts.
use crate::cases::{Cases, are_right};
use edr_base::{Text, are_digits, value_of_digits};
use std::alloc::Global;
use std::rt::HostRuntime;

// A line for each text: the text, and the number that its digits write, or why it has none.
const DIGITS: &str = "\
0 => 0
7 => 7
007 => 7
1234567890 => 1234567890
18446744073709551615 => 18446744073709551615
00018446744073709551615 => 18446744073709551615
18446744073709551616 => too large
18446744073709551625 => too large
99999999999999999999999 => too large
+7 => no digits
-7 => no digits
7. => no digits
7 7 => no digits
/ => no digits
: => no digits
";

/// Whether this is the answer to a text.
pub fn is_answered(text: &[u8], answer: &str) -> bool {
    if !are_digits(text) {
        return answer == "no digits";
    }
    match value_of_digits(text) {
        Some(value) => answer.parse::<u64>() == Ok(value),
        None => answer == "too large",
    }
}

// Whether the copy of a text that is given has these bytes.
fn copy_has(alloc: Global, text: &Option<Text>, bytes: &[u8]) -> bool {
    match Text::copied(alloc, text) {
        Ok(Some(copy)) => copy.bytes() == bytes,
        _ => false,
    }
}

#[test]
fn digits_write_numbers(rt: HostRuntime) {
    are_right(&rt, rt.alloc(), Cases::Digits, DIGITS);
    assert!(rt; are_digits(b""));
}

#[test]
fn texts_are_copied(rt: HostRuntime) {
    let alloc = rt.alloc();
    let text = Text::of(alloc, b"a text").ok();
    assert!(rt; copy_has(alloc, &text, b"a text") && !copy_has(alloc, &text, b"a tex"));
    assert!(rt; !copy_has(alloc, &None, b""));
}
