//! Asking for more input.

ghost use Rattle.std.specs.Prelude.{◌≤◌, length};
ghost use Rattle.std.specs.Io.{ReadsAtMost};
ghost use Rattle.otp_sim.specs.declared.device.TheConstants.{PIECE};
ghost use Rattle.otp_sim.specs.Devices.{devices};
ghost use Rattle.otp_sim.specs.Runs.{ReadsNext};

use crate::device::{Input, Output};
use crate::engine::SimEnd;
use crate::writing::write_out;

/// Writes what is ready, and only then reads: whoever waits for an answer has it before the input is waited for.
///
/// Nothing else in a run reads.
///
/// # Errors
///
/// [`SimEnd::OutputFailed`], where a beginning of what was ready was written and nothing was read, and
/// [`SimEnd::InputFailed`], where all of it was written.
pub(crate) fn read_next<R: Input, W: Output>(
    input: &mut R,
    output: &mut W,
    ready: &mut Vec<u8>,
    buffer: &mut [u8],
) -> Result<usize, SimEnd>
    requires room { PIECE ≤ length buffer.old }
    ensures bound { ReadsAtMost result buffer.new }
    ensures next { ReadsNext result (devices (R.seen input.old) (W.seen output.old))
        (devices (R.seen input.new) (W.seen output.new))
        ready.old.items ready.new.items buffer.new }
{
    let Ok(()) = write_out(output, ready) else {
        return Err(SimEnd::OutputFailed);
    };
    let Ok(count) = input.read(buffer) else {
        return Err(SimEnd::InputFailed);
    };
    Ok(count)
}
