//! Numbers that digits write.
ghost use Rattle.std.specs.Prelude.{◌≡◌, ◌^◌, ◌<◌, ◌≤◌, ◌↔◌, IsTrue, MatchOption};
ghost use Rattle.std.specs.Char.{is_ascii_digit};
ghost use Rattle.std.specs.List.{AllPass};
ghost use Rattle.std.specs.Str.Parse.{digits_value};

use crate::numbers::size_within;

/// Whether all bytes are digits.
pub fn are_digits(text: &[u8]) -> bool
    ensures { IsTrue result ↔ AllPass is_ascii_digit text.now }
{
    text.iter().all(|byte| byte.is_ascii_digit())
}

/// The number that some digits write, and none where 64 bits don't hold it. It takes no memory.
pub fn value_of_digits(digits: &[u8]) -> Option<u64>
    requires { AllPass is_ascii_digit digits.now }
    ensures { MatchOption result (2 ^ 64 ≤ digits_value 10 digits.now) (λ value. (value ≡ digits_value 10 digits.now) × (value < 2 ^ 64)) }
{
    size_within(digits, u64::MAX)
}
