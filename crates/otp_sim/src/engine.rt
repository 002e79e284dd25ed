//! The engine of `sim`: lines in, orders out.

ghost use Rattle.std.specs.Prelude.{◌≡◌, ◌+◌, ◌<◌, IfOk, vec_len};
ghost use Rattle.otp_sim.specs.Devices.{devices};
ghost use Rattle.otp_sim.specs.Runs.{Writes, LastWrites, with_text};
ghost use Rattle.otp_sim.specs.Sim.{opened};
ghost use Rattle.otp_sim.specs.declared.driven.TheConstants.{LINE_LIMIT};

use crate::device::{Input, Output, PIECE};
use crate::driven::Driven;
use crate::player::Player;
use crate::reading::read_next;
use crate::serving::{serve_line, serve_piece};
use crate::writing::{finish, out_of_memory, write_out};
use otp_spec::SupSpec;
use otp_text::{LONGEST_LINE, LineFault};
use std::alloc::{AllocError, Global};

/// How a run of `sim` ended.
#[derive(Clone, Copy, Debug, PartialEq, Eq)]
pub enum SimEnd {
    /// All of the input was read.
    Done,
    /// The line with this number, counted from 1, has no form that is read, for this reason.
    LineRefused(u64, LineFault),
    /// There were 2^62 events, as many as a supervisor has in its life.
    HistoryFull,
    /// The input failed.
    InputFailed,
    /// The output failed.
    OutputFailed,
    /// Memory was refused.
    Memory,
}

/// The most bytes of the input.
const MOST_BYTES: u64 = 1 << 62;

/// Reads lines, plays them on a supervisor with these flags and children, and writes its orders, each as a line.
///
/// Printed text is written before each read that might wait, and as soon as it is 64 KiB: a run holds no more of what it
/// prints than that and the text of one event.
///
/// The input and the output are said to have failed only where they did, or where 2^62 bytes were read.
/// Where a write failed, a beginning of the text was written; where a read failed, the text of the lines that were
/// read with their LF. Where memory was refused, the text of some first lines, and of some first events of the next, none
/// cut short; or nothing was read or written, since the supervisor was not opened. Where a write fails after memory was refused, the output
/// is said to have failed.
pub fn sim<R: Input, W: Output>(
    alloc: Global,
    supervisor: SupSpec,
    input: &mut R,
    output: &mut W,
) -> SimEnd
    ensures { Writes result (opened supervisor.flags supervisor.specs)
        (devices (R.seen input.old) (W.seen output.old))
        (devices (R.seen input.new) (W.seen output.new)) }
{
    let mut ready = Vec::new(alloc);
    let Ok(mut player) = Player::open(alloc, supervisor, &mut ready) else {
        return SimEnd::Memory;
    };
    serve(alloc, &mut player, &mut ready, input, output)
}

/// Serves the lines of the input, to its end or to the line that ends the run, and writes what is printed
/// before each read that might wait, and before it ends. What is ready, as of the opening, is written first.
///
/// It ends as [`sim`] does. Whoever takes the lines has taken none before.
pub fn serve<S: Driven, R: Input, W: Output>(
    alloc: Global,
    driven: &mut S,
    ready: &mut Vec<u8>,
    input: &mut R,
    output: &mut W,
) -> SimEnd
    requires { (S.sim driven.old).lines ≡ 0 }
    ensures { Writes result (with_text ready.old.items (S.sim driven.old))
        (devices (R.seen input.old) (W.seen output.old))
        (devices (R.seen input.new) (W.seen output.new)) }
{
    let Ok(mut buffer) = zeros(alloc, PIECE) else {
        return out_of_memory(output, ready);
    };
    let mut kept = Vec::new(alloc);
    let mut taken: u64 = 0;
    while taken < MOST_BYTES {
        if let Some(stop) = driven.end() {
            return finish(output, ready, Some(stop));
        }
        let count = match read_next(input, output, ready, &mut buffer) {
            Ok(count) => count,
            Err(end) => return end,
        };
        if count == 0 {
            return serve_last(driven, &kept, ready, output);
        }
        if let Err(end) = serve_piece(driven, &mut kept, ready, output, &buffer[..count]) {
            return end;
        }
        if kept.len() > LONGEST_LINE {
            return serve_last(driven, &kept, ready, output);
        }
        taken += count as u64;
    }
    let Ok(()) = write_out(output, ready) else {
        return SimEnd::OutputFailed;
    };
    SimEnd::InputFailed
}

/// So many zeros.
fn zeros(alloc: Global, size: usize) -> Result<Vec<u8>, AllocError>
    ensures { IfOk result (λ buffer. vec_len buffer ≡ size) }
{
    Vec::from_elem(alloc, 0u8, size)
}

/// Serves a last line, and writes what is printed.
fn serve_last<S: Driven, W: Output>(
    driven: &mut S,
    line: &[u8],
    ready: &mut Vec<u8>,
    output: &mut W,
) -> SimEnd
    requires { (S.sim driven.old).lines + 1 < LINE_LIMIT }
    ensures { LastWrites result line.now (with_text ready.old.items (S.sim driven.old)) (W.seen output.old) (W.seen output.new) }
{
    if let Err(end) = serve_line(driven, ready, output, line) {
        return end;
    }
    finish(output, ready, driven.end())
}
