//! Numbers that fields write.
ghost use Rattle.edr_reply.specs.Finding.{TellsNumber};

use edr_base::{are_digits, value_of_digits};

/// What a text is as a number.
#[derive(Clone, Copy)]
pub(crate) enum Number {
    /// Digits that write it.
    Value(u64),
    /// Digits of a number that 64 bits don't hold.
    TooLarge,
    /// No digits.
    NoNumber,
}

/// What a text is as a number: one or more digits, and nothing else.
pub(crate) fn number_of(text: &[u8]) -> Number
    ensures { TellsNumber text.now result }
{
    if text.is_empty() || !are_digits(text) {
        return Number::NoNumber;
    }
    match value_of_digits(text) {
        Some(value) => Number::Value(value),
        None => Number::TooLarge,
    }
}
