//! Times as words: the interval between crashes, and those that the program's options name.

ghost use Rattle.std.specs.Prelude.{◌≡◌, ◌≤◌};
ghost use Rattle.std.specs.Str.{bytes_eq};
ghost use Rattle.otp_suggest.specs.Times.{ends_with, split, time_in, time_of};

use otp_text::read_number;

/// The greatest number that stands before a unit.
const MOST_UNITS: u64 = 1_000_000_000_000;

/// Whether two texts are the same.
fn is_text(one: &[u8], other: &[u8]) -> bool
    ensures { result ≡ bytes_eq one.now other.now }
{
    one == other
}

/// Whether a word ends with this text.
fn ends_with(word: &[u8], end: &[u8]) -> bool
    ensures { result ≡ ends_with word.now end.now }
{
    end.len() <= word.len() && is_text(&word[word.len() - end.len()..], end)
}

/// The number, and how many milliseconds its unit has.
#[tactic(auto, unfolding(crate::specs::Times::split))]
fn split(word: &[u8]) -> (&[u8], u64)
    ensures number { result.0.now ≡ (split word.now).0 }
    ensures unit { result.1 ≡ (split word.now).1 }
    ensures limit { result.1 ≤ 3600000 }
{
    let length = word.len();
    if ends_with(word, b"ms") {
        (&word[..length - 2], 1)
    } else if ends_with(word, b"s") {
        (&word[..length - 1], 1000)
    } else if ends_with(word, b"m") {
        (&word[..length - 1], 60_000)
    } else if ends_with(word, b"h") {
        (&word[..length - 1], 3_600_000)
    } else {
        (word, 1)
    }
}

/// How many milliseconds a word says: a number with `ms`, `s`, `m` or `h` behind it, or of milliseconds. None where it is no
/// such word, or its number is above 10^12.
#[tactic(auto, unfolding(crate::specs::Times::time_of))]
pub fn read_time(word: &str) -> Option<u64>
    ensures { result ≡ time_in word.now }
{
    let (digits, unit) = split(word.as_bytes());
    match read_number(MOST_UNITS, digits) {
        None => None,
        Some(count) => Some(count * unit),
    }
}
