//! Where times stand in a picture of a run.

ghost use Rattle.std.specs.Prelude.{◌≡◌, ◌≤◌, ◌++◌, OnOk};
ghost use Rattle.otp_try_pages.specs.Scale.{is_digit, millis_from, percent, slot_of, with_digit};

use otp_text::write_number;
use std::alloc::AllocError;

/// Where a time of a run that ends at the last stands, in thousandths of the picture's width.
#[tactic(auto, unfolding(crate::specs::Scale::slot_of))]
pub(crate) fn slot_of(last: u64, time: u64) -> u64
    ensures { result ≡ slot_of last time }
{
    let share = (time.min(last) as u128) * 960 / (last.max(1) as u128);
    share.min(960) as u64
}

/// Appends so many thousandths as a percentage.
#[tactic(auto, unfolding(crate::specs::Scale::percent))]
pub(crate) fn put_percent(slot: u64, out: &mut Vec<u8>) -> Result<(), AllocError>
    ensures { OnOk result (out.new.items ≡ out.old.items ++ percent slot) }
{
    write_number(slot / 10, out)?;
    out.extend_from_slice(b".")?;
    write_number(slot % 10, out)
}

/// Whether a byte is a digit.
#[tactic(auto, unfolding(crate::specs::Scale::is_digit))]
fn is_digit(byte: u8) -> bool
    ensures { result ≡ is_digit byte }
{
    b'0' <= byte && byte <= b'9'
}

/// A number with a digit more; another byte leaves it.
#[tactic(auto, unfolding(crate::specs::Scale::with_digit, crate::specs::Scale::is_digit))]
fn with_digit(total: u64, byte: u8) -> u64
    ensures { result ≡ with_digit total byte }
{
    if is_digit(byte) {
        total
            .saturating_mul(10)
            .saturating_add((byte - b'0') as u64)
    } else {
        total
    }
}

/// A time in milliseconds, which is written in seconds with three digits behind the point.
pub(crate) fn millis_in(word: &[u8]) -> u64
    ensures { result ≡ millis_from 0 word.now }
{
    let mut total: u64 = 0;
    for byte in word {
        total = with_digit(total, *byte);
    }
    total
}
