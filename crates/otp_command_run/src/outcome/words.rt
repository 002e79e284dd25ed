//! Numbers in words.

ghost use Rattle.std.specs.Prelude.{◌≡◌, ◌++◌, OnOk};
ghost use Rattle.otp_command_run.specs.Lives.{count_text};

use otp_text::write_number;
use std::alloc::AllocError;

/// Appends a number, and the word for one or for several.
#[tactic(auto, unfolding(crate::specs::Lives::count_text))]
pub(crate) fn write_count(
    number: u64,
    one: &[u8],
    several: &[u8],
    out: &mut Vec<u8>,
) -> Result<(), AllocError>
    ensures { OnOk result (out.new.items ≡ out.old.items ++ count_text number one.now several.now) }
{
    write_number(number, out)?;
    if number == 1 {
        out.extend_from_slice(one)
    } else {
        out.extend_from_slice(several)
    }
}
