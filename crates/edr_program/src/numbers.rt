//! Numbers among the words.
ghost use Rattle.std.specs.Prelude.{◌≡◌, true, false, MatchOption};
ghost use Rattle.std.specs.Str.Parse.{digits_value};
ghost use Rattle.edr_program.specs.Numbers.{is_number};

use edr_base::{are_digits, value_of_digits};

// How many digits a number has at most.
const DIGIT_LIMIT: usize = 20;

/// The number that a word writes, where it is 1 to 20 digits of a number that 64 bits hold. It takes no memory.
#[tactic(auto, using(crate::proofs::NumberLemmas::answered))]
pub fn number_of(word: &[u8]) -> Option<u64>
    ensures { MatchOption result (is_number word.now ≡ false) (λ number. (is_number word.now ≡ true) × (number ≡ digits_value 10 word.now)) }
{
    if word.is_empty() || word.len() > DIGIT_LIMIT || !are_digits(word) {
        return None;
    }
    value_of_digits(word)
}
