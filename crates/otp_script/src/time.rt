//! Times as a script writes them: each form in which the program prints one.

ghost use Rattle.std.specs.Prelude.{◌≡◌, ◌==◌, ◌<◌, ◌≤◌, IfSome, length, not, position};
ghost use Rattle.std.specs.List.{list_all};
ghost use Rattle.otp_script.specs.Read.{read_as};
ghost use Rattle.otp_script.specs.Times.{digit_value, fault_of_number, is_no_digit, is_of_number, milliseconds_in, most_of, next_time, next_unit, split_unit, thousandths_in, time_and, time_before, time_counted, time_in, time_of, time_with, unit_of};
ghost use Rattle.otp_text.specs.Words.{is_digit};

use crate::fault::ScriptFault;
use crate::words::{is_text, next_word};
use otp_spec::MAX_READING;
use otp_text::read_number;

/// The greatest number of seconds, minutes or hours that a word may say, so that it is at most [`MAX_READING`] milliseconds.
const MOST_UNITS: u64 = 1_000_000_000_000;

/// What the number of a time counts.
#[derive(Clone, Copy, Debug, PartialEq, Eq)]
enum Unit {
    Millisecond,
    Second,
    Minute,
    Hour,
}

impl Unit {
    /// The unit of this word.
    #[tactic(auto, unfolding(crate::specs::Times::unit_of))]
    fn of_word(word: &[u8]) -> Option<Self>
        ensures { result ≡ unit_of word.now }
    {
        if is_text(word, b"ms") {
            Some(Unit::Millisecond)
        } else if is_text(word, b"s") {
            Some(Unit::Second)
        } else if is_text(word, b"m") {
            Some(Unit::Minute)
        } else if is_text(word, b"h") {
            Some(Unit::Hour)
        } else {
            None
        }
    }

    /// How many milliseconds it has.
    #[tactic(auto, unfolding(crate::specs::Times::milliseconds_in))]
    fn milliseconds(self) -> u64
        ensures value { result ≡ milliseconds_in self }
        ensures limit { result ≤ 3600000 }
    {
        match self {
            Unit::Millisecond => 1,
            Unit::Second => 1000,
            Unit::Minute => 60_000,
            Unit::Hour => 3_600_000,
        }
    }

    /// The greatest number of it.
    #[tactic(auto, unfolding(crate::specs::Times::most_of))]
    fn most(self) -> u64
        ensures { result ≡ most_of self }
    {
        match self {
            Unit::Millisecond => MAX_READING,
            Unit::Second | Unit::Minute | Unit::Hour => MOST_UNITS,
        }
    }
}

/// Whether the byte belongs to the number of a time.
#[tactic(auto, unfolding(crate::specs::Times::is_of_number))]
fn is_of_number(byte: u8) -> bool
    ensures { result ≡ is_of_number byte }
{
    byte.is_ascii_digit() || byte == b'.'
}

/// The place of the first byte of a unit.
fn place_of_unit(word: &[u8]) -> Option<usize>
    ensures place { result ≡ position (λ byte. not (is_of_number byte)) word.now }
    ensures inside { IfSome result (λ place. place < length word.now) }
{
    word.iter().position(|byte| !is_of_number(*byte))
}

/// A word as its number, and what stands behind that.
#[tactic(auto, unfolding(crate::specs::Times::split_unit, crate::specs::Times::split_at))]
fn split_unit(word: &[u8]) -> (&[u8], &[u8])
    ensures { (result.0.now, result.1.now) ≡ split_unit word.now }
{
    match place_of_unit(word) {
        None => (word, &[]),
        Some(place) => (&word[..place], &word[place..]),
    }
}

/// The place of the point of a number.
fn place_of_point(number: &[u8]) -> Option<usize>
    ensures place { result ≡ position (λ byte. byte == 46) number.now }
    ensures inside { IfSome result (λ place. place < length number.now) }
{
    number.iter().position(|byte| *byte == b'.')
}

/// Whether the byte is no digit.
fn is_no_digit(byte: u8) -> bool
    ensures { result ≡ is_no_digit byte }
{
    !byte.is_ascii_digit()
}

/// How much a digit says; nothing where it is none.
#[tactic(auto, unfolding(crate::specs::Times::digit_value))]
fn digit(byte: u8) -> u64
    ensures value { result ≡ digit_value byte }
    ensures limit { result ≤ 9 }
{
    if byte.is_ascii_digit() {
        u64::from(byte - b'0')
    } else {
        0
    }
}

/// The thousandths that one to three digits behind the point say.
#[tactic(auto, unfolding(crate::specs::Times::thousandths_in, crate::specs::Times::thousandths_of))]
fn thousandths(digits: &[u8]) -> Option<u64>
    ensures value { result ≡ thousandths_in digits.now }
    ensures limit { IfSome result (λ count. count ≤ 999) }
{
    if digits.iter().any(|byte| is_no_digit(*byte)) {
        return None;
    }
    match digits {
        [one] => Some(digit(*one) * 100),
        [one, two] => Some(digit(*one) * 100 + digit(*two) * 10),
        [one, two, three] => Some(digit(*one) * 100 + digit(*two) * 10 + digit(*three)),
        _ => None,
    }
}

/// So many of this unit, in milliseconds.
#[tactic(auto, unfolding(crate::specs::Times::time_of, crate::specs::Times::scaled))]
fn time_of(number: &[u8], unit: Unit) -> Result<u64, ScriptFault>
    ensures { result ≡ time_of number.now unit }
{
    match read_number(unit.most(), number) {
        Some(count) => Ok(count.saturating_mul(unit.milliseconds())),
        None => Err(fault_of_number(number)),
    }
}

/// Whether each byte is a digit.
fn are_digits(digits: &[u8]) -> bool
    ensures { result ≡ list_all is_digit digits.now }
{
    digits.iter().all(|byte| matches!(byte, b'0'..=b'9'))
}

/// Why the digits of a time can't be read: they say too much, or no number.
#[tactic(auto, unfolding(crate::specs::Times::fault_of_number))]
fn fault_of_number(digits: &[u8]) -> ScriptFault
    ensures { result ≡ fault_of_number digits.now }
{
    match digits {
        [] => ScriptFault::BadTime,
        [first, others @ ..] => {
            if matches!(*first, b'1'..=b'9') && are_digits(others) {
                ScriptFault::LargeTime
            } else {
                ScriptFault::BadTime
            }
        }
    }
}

/// So many of this unit and a fraction of it, in milliseconds. A millisecond has no fraction.
#[tactic(auto, unfolding(crate::specs::Times::time_with))]
fn time_with(whole: &[u8], fraction: &[u8], unit: Unit) -> Result<u64, ScriptFault>
    ensures { result ≡ time_with whole.now fraction.now unit }
{
    match unit {
        Unit::Millisecond => Err(ScriptFault::BadTime),
        unit => time_and(whole, fraction, unit),
    }
}

/// So many of this unit and a fraction of it, in milliseconds.
#[tactic(auto, unfolding(crate::specs::Times::time_and, crate::specs::Times::with_thousandths))]
fn time_and(whole: &[u8], fraction: &[u8], unit: Unit) -> Result<u64, ScriptFault>
    ensures { result ≡ time_and whole.now fraction.now unit }
{
    let time = time_of(whole, unit)?;
    match thousandths(fraction) {
        None => Err(ScriptFault::BadTime),
        Some(count) => Ok(time.saturating_add(count * unit.milliseconds() / 1000)),
    }
}

/// The time that a number says, which may have a point.
#[tactic(auto, unfolding(crate::specs::Times::time_counted, crate::specs::Times::time_at_point))]
fn read_count(number: &[u8], unit: Unit) -> Result<u64, ScriptFault>
    ensures { result ≡ time_counted number.now unit }
{
    match place_of_point(number) {
        None => time_of(number, unit),
        Some(place) => time_with(&number[..place], &number[place + 1..], unit),
    }
}

/// The time of so many of this unit, and what is left of the line behind it.
#[tactic(auto, unfolding(crate::specs::Times::time_before))]
fn time_before<'a>(
    number: &[u8],
    unit: Unit,
    rest: &'a [u8],
) -> Result<(u64, &'a [u8]), ScriptFault>
    ensures { read_as (λ time. (time.0, time.1.now)) result ≡ time_before number.now unit rest.now }
{
    let time = read_count(number, unit)?;
    Ok((time, rest))
}

/// A time whose number stands at the beginning of a word: its unit stands there too, or is the next word. Without a unit it
/// is of milliseconds. The second is what is left of the line after the word, and then after the time.
#[tactic(auto, unfolding(crate::specs::Times::time_in, crate::specs::Times::time_split))]
pub(crate) fn read_time<'a>(word: &[u8], rest: &'a [u8]) -> Result<(u64, &'a [u8]), ScriptFault>
    ensures { read_as (λ time. (time.0, time.1.now)) result ≡ time_in word.now rest.now }
{
    let (number, unit) = split_unit(word);
    if unit.is_empty() {
        let (unit, rest) = next_unit(rest);
        return time_before(number, unit, rest);
    }
    match Unit::of_word(unit) {
        None => Err(ScriptFault::BadTime),
        Some(unit) => time_before(number, unit, rest),
    }
}

/// The unit that is the next word, and what is left after it; milliseconds where the next word is none.
#[tactic(auto, unfolding(crate::specs::Times::next_unit, crate::specs::Times::unit_found, crate::specs::Times::unit_or))]
fn next_unit(line: &[u8]) -> (Unit, &[u8])
    ensures { (result.0, result.1.now) ≡ next_unit line.now }
{
    let Some((word, rest)) = next_word(line) else {
        return (Unit::Millisecond, line);
    };
    match Unit::of_word(word) {
        None => (Unit::Millisecond, line),
        Some(unit) => (unit, rest),
    }
}

/// A time that stands next on a line, and what is left after it.
#[tactic(auto, unfolding(crate::specs::Times::next_time, crate::specs::Times::time_found))]
pub(crate) fn next_time(line: &[u8]) -> Result<(u64, &[u8]), ScriptFault>
    ensures { read_as (λ time. (time.0, time.1.now)) result ≡ next_time line.now }
{
    match next_word(line) {
        None => Err(ScriptFault::BadTime),
        Some((word, rest)) => read_time(word, rest),
    }
}
