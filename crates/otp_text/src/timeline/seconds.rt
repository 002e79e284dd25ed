//! Times in seconds.

ghost use Rattle.std.specs.Prelude.{◌≡◌, ◌<◌, ◌++◌, OnOk};
ghost use Rattle.otp_text.specs.Seconds.{seconds_text, zeros_before};

use crate::write_number;
use std::alloc::AllocError;

/// How many milliseconds a second has.
const SECOND: u64 = 1000;

/// Appends the zeros that a number below 1000 lacks to have three digits.
#[tactic(auto, unfolding(crate::specs::Seconds::zeros_before))]
fn write_zeros(number: u64, out: &mut Vec<u8>) -> Result<(), AllocError>
    ensures { OnOk result (out.new.items ≡ out.old.items ++ zeros_before number) }
{
    if number < 10 {
        out.extend_from_slice(b"00")
    } else if number < 100 {
        out.extend_from_slice(b"0")
    } else {
        Ok(())
    }
}

/// Appends a time in milliseconds, written in seconds.
#[tactic(auto, unfolding(crate::specs::Seconds::seconds_text))]
pub fn write_seconds(time: u64, out: &mut Vec<u8>) -> Result<(), AllocError>
    ensures { OnOk result (out.new.items ≡ out.old.items ++ seconds_text time) }
{
    write_number(time / SECOND, out)?;
    out.extend_from_slice(b".")?;
    write_zeros(time % SECOND, out)?;
    write_number(time % SECOND, out)
}
