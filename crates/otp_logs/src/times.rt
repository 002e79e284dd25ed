//! Times at the beginning of a text, by their form alone.

ghost use Rattle.std.specs.Prelude.{◌≡◌, ◌<◌, IfSome, length, not, position};
ghost use Rattle.otp_logs.specs.Times.{behind_clock, behind_digits, behind_fraction, behind_moment, behind_stamp, behind_zone, fits, fits_byte, is_clock, is_digit, is_moment, is_month, is_stamp};

use crate::words::{begins, behind_bytes, from};

/// Whether a byte is a digit.
fn is_digit(byte: u8) -> bool
    ensures { result ≡ is_digit byte }
{
    matches!(byte, b'0'..=b'9')
}

/// Whether a byte is what a form has in its place: a 0 stands for a digit.
#[tactic(auto, unfolding(crate::specs::Times::fits_byte))]
fn fits_byte(mark: u8, byte: u8) -> bool
    ensures { result ≡ fits_byte mark byte }
{
    if mark == b'0' {
        is_digit(byte)
    } else {
        byte == mark
    }
}

/// Whether a text begins as a form.
pub(crate) fn fits(text: &[u8], marks: &[u8]) -> bool
    ensures { result ≡ fits marks.now text.now }
{
    match marks {
        [] => true,
        [mark, marks @ ..] => match text {
            [] => false,
            [byte, text @ ..] => fits_byte(*mark, *byte) && fits(text, marks),
        },
    }
}

/// The place of the first byte that is no digit.
fn first_other(text: &[u8]) -> Option<usize>
    ensures place { result ≡ position (λ byte. not (is_digit byte)) text.now }
    ensures inside { IfSome result (λ place. place < length text.now) }
{
    text.iter().position(|byte| !is_digit(*byte))
}

/// What stands behind digits.
#[tactic(auto, unfolding(crate::specs::Times::behind_digits))]
fn behind_digits(text: &[u8]) -> &[u8]
    ensures { result.now ≡ behind_digits text.now }
{
    from(first_other(text), text)
}

/// What stands behind a part of a second, if one is there.
#[tactic(auto, unfolding(crate::specs::Times::behind_fraction))]
fn behind_fraction(text: &[u8]) -> &[u8]
    ensures { result.now ≡ behind_fraction text.now }
{
    if begins(text, b".") || begins(text, b",") {
        behind_digits(behind_bytes(text, 1))
    } else {
        text
    }
}

/// What stands behind how far a clock is from UTC, if that is there.
#[tactic(auto, unfolding(crate::specs::Times::behind_zone))]
fn behind_zone(text: &[u8]) -> &[u8]
    ensures { result.now ≡ behind_zone text.now }
{
    if begins(text, b"Z") {
        behind_bytes(text, 1)
    } else if fits(text, b"+00:00") || fits(text, b"-00:00") {
        behind_bytes(text, 6)
    } else if fits(text, b"+0000") || fits(text, b"-0000") {
        behind_bytes(text, 5)
    } else {
        text
    }
}

/// Whether a text begins with a time of the day, as `20:49:00.125`.
pub(crate) fn is_clock(text: &[u8]) -> bool
    ensures { result ≡ is_clock text.now }
{
    fits(text, b"00:00:00")
}

/// What stands behind a time of the day.
#[tactic(auto, unfolding(crate::specs::Times::behind_clock))]
pub(crate) fn behind_clock(text: &[u8]) -> &[u8]
    ensures { result.now ≡ behind_clock text.now }
{
    behind_fraction(behind_bytes(text, 8))
}

/// Whether a text begins with the first letters of a month.
#[tactic(auto, unfolding(crate::specs::Times::is_month))]
fn is_month(text: &[u8]) -> bool
    ensures { result ≡ is_month text.now }
{
    begins(text, b"Jan")
        || begins(text, b"Feb")
        || begins(text, b"Mar")
        || begins(text, b"Apr")
        || begins(text, b"May")
        || begins(text, b"Jun")
        || begins(text, b"Jul")
        || begins(text, b"Aug")
        || begins(text, b"Sep")
        || begins(text, b"Oct")
        || begins(text, b"Nov")
        || begins(text, b"Dec")
}

/// Whether a text begins with a day without its year and a time of the day, as `Nov 26 20:49:00`.
#[tactic(auto, unfolding(crate::specs::Times::is_stamp))]
pub(crate) fn is_stamp(text: &[u8]) -> bool
    ensures { result ≡ is_stamp text.now }
{
    let behind = behind_bytes(text, 3);
    is_month(text) && (fits(behind, b" 00 00:00:00") || fits(behind, b"  0 00:00:00"))
}

/// What stands behind a day without its year and a time of the day.
#[tactic(auto, unfolding(crate::specs::Times::behind_stamp))]
pub(crate) fn behind_stamp(text: &[u8]) -> &[u8]
    ensures { result.now ≡ behind_stamp text.now }
{
    behind_fraction(behind_bytes(text, 15))
}

/// Whether a text begins with a date and a time of the day, as `2026-11-26T20:49:00.125Z`, also with a space for the T.
#[tactic(auto, unfolding(crate::specs::Times::is_moment))]
pub(crate) fn is_moment(text: &[u8]) -> bool
    ensures { result ≡ is_moment text.now }
{
    fits(text, b"0000-00-00T00:00:00") || fits(text, b"0000-00-00 00:00:00")
}

/// What stands behind a date and a time of the day.
#[tactic(auto, unfolding(crate::specs::Times::behind_moment))]
pub(crate) fn behind_moment(text: &[u8]) -> &[u8]
    ensures { result.now ≡ behind_moment text.now }
{
    behind_zone(behind_fraction(behind_bytes(text, 19)))
}
