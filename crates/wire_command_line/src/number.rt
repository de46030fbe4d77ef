//! The number of workers, how many races are tried, and how many ranks or nodes there are, as words say them.

ghost use Rattle.std.specs.List.{list_all};
ghost use Rattle.std.specs.Prelude.{◌≡◌, ◌≤◌, true, min, option_map, IfSome};
ghost use Rattle.std.specs.Int.NonZero.{non_zero_u32_get};
ghost use Rattle.wire_command_line.specs.Workers as spec;
ghost use Rattle.wire_command_line.specs.Workers.{most_said, nonzero_said, number_said, workers_said};

use std::num::NonZeroU32;

/// The greatest number that a word is told apart by: one more than the most workers.
const MOST_AND_ONE: usize = 65;

/// So many races are tried at most, though a plan can have more. It has fewer ranks, and fewer nodes.
const ALL_RACES: usize = 1_000_000_000;

/// Whether a byte is a digit.
fn is_digit(byte: u8) -> bool
    ensures { result ≡ spec.is_digit byte }
{
    48 <= byte && byte <= 57
}

/// Whether each byte is a digit.
fn has_digits(word: &[u8]) -> bool
    ensures { result ≡ list_all spec.is_digit word.now }
{
    word.iter().all(|b| is_digit(*b))
}

/// The number that the digits say, or the limit where that is less.
fn number_of(digits: &[u8], limit: usize) -> usize
    requires { limit ≤ 1000000000 }
    ensures { result ≡ min (number_said digits.now) limit }
{
    let mut number = 0usize;
    for digit in digits {
        number = (number * 10 + digit.saturating_sub(48) as usize).min(limit);
    }
    number
}

/// The number of workers that a word says, 65 for every greater one. A word that isn't one or more
/// digits says none.
pub fn workers_of(word: &str) -> Option<usize>
    ensures { result ≡ workers_said word.now }
{
    let digits = word.as_bytes();
    if digits.is_empty() || !has_digits(digits) {
        return None;
    }
    Some(number_of(digits, MOST_AND_ONE))
}

/// How many races are tried by what a word says, 1,000,000,000 for every greater number. A word that isn't one or
/// more digits says none.
pub(crate) fn most_of(word: &str) -> Option<usize>
    ensures said { result ≡ most_said word.now }
    ensures capped { IfSome result (λ n. n ≤ 1000000000) }
{
    let digits = word.as_bytes();
    if digits.is_empty() || !has_digits(digits) {
        return None;
    }
    Some(number_of(digits, ALL_RACES))
}

/// The number that a word says, 1,000,000,000 for every greater one. A word that isn't one or more digits says none,
/// nor does one that says 0.
pub(crate) fn nonzero_of(word: &str) -> Option<NonZeroU32>
    ensures { option_map non_zero_u32_get result ≡ nonzero_said word.now }
{
    let Some(number) = most_of(word) else {
        return None;
    };
    NonZeroU32::new(number as u32)
}
