//! Whole numbers as text.
use crate::cases::{Cases, are_right};
use edr_base::{Whole, whole_number};
use std::rt::HostRuntime;

// A line for each text: the text, and the answer to it with the limit 100, which is its value or why it has none.
const TABLE: &str = "\
5 => 5
+5 => 5
-5 => -5
005 => 5
5. => 5
5.00 => 5
.0 => 0
-.0 => 0
-0 => 0
  5   => 5
 -12.  => -12
100 => 100
-100 => -100
00000000000000000000000000000000000100 => 100
101 => TooLarge
-101 => TooLarge
1000 => TooLarge
99999999999999999999999999999999999999999999 => TooLarge
18446744073709551616.0 => TooLarge
 => NotWhole
  => NotWhole
. => NotWhole
+ => NotWhole
+. => NotWhole
5.5 => NotWhole
5.05 => NotWhole
5..0 => NotWhole
5 5 => NotWhole
- 5 => NotWhole
--5 => NotWhole
5- => NotWhole
1e3 => NotWhole
\t5 => NotWhole
99999999999999999999999999999999999999999999x => NotWhole
";

/// Whether this is the answer to a text.
pub fn is_answered(text: &str, answer: &str) -> bool {
    match whole_number(text.as_bytes(), 100) {
        Whole::Value(value) => answer.parse::<i64>() == Ok(value),
        Whole::TooLarge => answer == "TooLarge",
        Whole::NotWhole => answer == "NotWhole",
    }
}

#[test]
fn whole_numbers(rt: HostRuntime) {
    are_right(&rt, rt.alloc(), Cases::Wholes, TABLE);
    assert!(rt; whole_number(b"-9223372036854775807", i64::MAX) == Whole::Value(-i64::MAX));
    assert!(rt; whole_number(b"0", 0) == Whole::Value(0));
}
