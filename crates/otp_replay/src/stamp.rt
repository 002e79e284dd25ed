//! Timestamps of a log.

ghost use Rattle.std.specs.Prelude.{◌≡◌, ◌<◌, ◌≤◌, ◌^◌, ◌==◌, IfOk, IfSome, length, position};
ghost use Rattle.std.specs.Option.{option_map};
ghost use Rattle.std.specs.List.{list_all};
ghost use Rattle.otp_text.specs.Words.{is_digit};
ghost use Rattle.otp_replay.specs.Stamps.{behind_two, both, digit_at, first_of, fraction, instant_in, is_alike, is_seconds, seconds_by, seconds_in, stamp_in, thousandths, time_of, without, zoned_in};

use crate::words::{before, rest_of, strip, word_of};
use jiff_fmt::temporal::parse_timestamp;
use otp_text::read_number;
use std::alloc::AllocError;

/// The most seconds of a timestamp.
pub const MOST_SECONDS: u64 = 1_000_000_000_000;

/// A timestamp, in milliseconds.
#[derive(Clone, Copy, Debug, PartialEq, Eq)]
pub enum Stamp {
    /// Since any zero, which was written as seconds.
    Seconds(u64),
    /// Since the beginning of 1970, which was written as a date and a time of day.
    Instant(u64),
}

impl Stamp {
    /// The milliseconds.
    pub fn time(self) -> u64
        ensures { result ≡ time_of self }
    {
        match self {
            Stamp::Seconds(time) | Stamp::Instant(time) => time,
        }
    }

    fn is_seconds(self) -> bool
        ensures { result ≡ is_seconds self }
    {
        match self {
            Stamp::Seconds(_) => true,
            Stamp::Instant(_) => false,
        }
    }

    /// Whether both count from one zero.
    pub(crate) fn is_alike(self, other: Stamp) -> bool
        ensures { result ≡ is_alike self other }
    {
        match self {
            Stamp::Seconds(_) => other.is_seconds(),
            Stamp::Instant(_) => !other.is_seconds(),
        }
    }
}

/// The place of the point of a number.
fn place_of_point(word: &[u8]) -> Option<usize>
    ensures place { result ≡ position (λ byte. byte == 46) word.now }
    ensures inside { IfSome result (λ place. place < length word.now) }
{
    word.iter().position(|byte| *byte == b'.')
}

/// What stands behind the point of a number.
fn fraction(point: Option<usize>, word: &[u8]) -> &[u8]
    requires { IfSome point (λ place. place < length word.now) }
    ensures { result.now ≡ fraction point word.now }
{
    match point {
        None => b"0",
        Some(place) => &word[place + 1..],
    }
}

/// What the digit at this place says.
#[tactic(auto, unfolding(crate::specs::Stamps::digit_at))]
fn digit_at(digits: &[u8], place: usize) -> u64
    ensures digit { result ≡ digit_at place digits.now }
    ensures limit { result < 256 }
{
    if place < digits.len() {
        u64::from(digits[place].saturating_sub(b'0'))
    } else {
        0
    }
}

/// Whether each byte is a digit.
fn are_digits(word: &[u8]) -> bool
    ensures { result ≡ list_all is_digit word.now }
{
    word.iter().all(|byte| matches!(byte, b'0'..=b'9'))
}

/// The thousandths that digits behind a point say.
#[tactic(auto, unfolding(crate::specs::Stamps::thousandths))]
fn thousandths(digits: &[u8]) -> Option<u64>
    ensures value { result ≡ thousandths digits.now }
    ensures limit { IfSome result (λ count. count < 2 ^ 16) }
{
    if digits.len() >= 1 && are_digits(digits) {
        Some(digit_at(digits, 0) * 100 + digit_at(digits, 1) * 10 + digit_at(digits, 2))
    } else {
        None
    }
}

/// Whole seconds and thousandths, in milliseconds.
#[tactic(auto, unfolding(crate::specs::Stamps::both))]
fn both(seconds: Option<u64>, thousandths: Option<u64>) -> Option<u64>
    requires seconds { IfSome seconds (λ count. count ≤ MOST_SECONDS) }
    requires thousandths { IfSome thousandths (λ count. count < 2 ^ 16) }
    ensures { result ≡ both seconds thousandths }
{
    let seconds = seconds?;
    let thousandths = thousandths?;
    Some(seconds * 1000 + thousandths)
}

/// The milliseconds of a number of seconds that has its point there.
#[tactic(auto, unfolding(crate::specs::Stamps::seconds_by))]
fn seconds_by(point: Option<usize>, word: &[u8]) -> Option<u64>
    requires { IfSome point (λ place. place < length word.now) }
    ensures { result ≡ seconds_by point word.now }
{
    both(
        read_number(MOST_SECONDS, before(point, word)),
        thousandths(fraction(point, word)),
    )
}

/// The milliseconds of a number of seconds.
fn read_seconds(word: &[u8]) -> Option<u64>
    ensures { result ≡ seconds_in word.now }
{
    seconds_by(place_of_point(word), word)
}

/// The milliseconds since 1970 of a date and a time of day with an offset.
#[tactic(auto, unfolding(crate::specs::Stamps::instant_of))]
fn read_instant(text: &[u8]) -> Option<u64>
    ensures { result ≡ instant_in text.now }
{
    match parse_timestamp(text) {
        Ok(instant) if instant.nanosecond >= 0 => Some(
            (instant.nanosecond as u128 / 1_000_000) as u64,
        ),
        _ => None,
    }
}

/// The milliseconds since 1970 of a date and a time of day, by UTC where there is no offset. The word is a place for a text.
fn read_zoned(text: &[u8], word: &mut Vec<u8>) -> Result<Option<u64>, AllocError>
    ensures { IfOk result (λ time. time ≡ zoned_in text.now) }
{
    if let Some(time) = read_instant(text) {
        return Ok(Some(time));
    }
    word.clear();
    word.extend_from_slice(text)?;
    word.extend_from_slice(b"Z")?;
    Ok(read_instant(word.as_slice()))
}

/// The line without what is left of it.
fn without<'a>(rest: &[u8], line: &'a [u8]) -> &'a [u8]
    requires { length rest.now ≤ length line.now }
    ensures { result.now ≡ without rest.now line.now }
{
    &line[..line.len() - rest.len()]
}

/// What is left of a line behind its first two words.
fn behind_two(line: &[u8]) -> &[u8]
    ensures rest { result.now ≡ behind_two line.now }
    ensures shorter { length result.now ≤ length line.now }
{
    rest_of(strip(rest_of(line)))
}

/// The first of these times, and what is left of the line behind it.
#[tactic(auto, unfolding(crate::specs::Stamps::first_of))]
fn first_of<'a>(
    seconds: Option<u64>,
    instant: Option<u64>,
    spaced: Option<u64>,
    rest: &'a [u8],
    left: &'a [u8],
) -> Option<(Stamp, &'a [u8])>
    ensures { option_map (λ found. (found.0, found.1.now)) result ≡ first_of seconds instant spaced rest.now left.now }
{
    if let Some(time) = seconds {
        return Some((Stamp::Seconds(time), rest));
    }
    if let Some(time) = instant {
        return Some((Stamp::Instant(time), rest));
    }
    match spaced {
        None => None,
        Some(time) => Some((Stamp::Instant(time), left)),
    }
}

/// The timestamp at the beginning of a line, and what is left of it. The word is a place for a text.
pub(crate) fn read_stamp<'a>(
    line: &'a [u8],
    word: &mut Vec<u8>,
) -> Result<Option<(Stamp, &'a [u8])>, AllocError>
    ensures { IfOk result (λ found. option_map (λ found. (found.0, found.1.now)) found ≡ stamp_in line.now) }
{
    let first = word_of(line);
    let rest = rest_of(line);
    let left = behind_two(line);
    let seconds = read_seconds(first);
    let instant = read_zoned(first, word)?;
    let spaced = read_zoned(without(left, line), word)?;
    Ok(first_of(seconds, instant, spaced, rest, left))
}
