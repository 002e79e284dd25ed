//! The program but for its words, its files and its standard streams.

ghost use Rattle.std.specs.Prelude.{◌≡◌};
ghost use Rattle.otp_sim.specs.Devices.{devices};
ghost use Rattle.otp_commands.specs.Endings.{ending_of};
ghost use Rattle.otp_commands.specs.Runs.{IsRun};

use otp_exit::ProgramEnd;
use otp_file::read_tree;
use otp_sim::{Input, Output, SimEnd, sim};
use std::alloc::Global;

/// Reads the tree of a file, plays the lines of the input on its supervisor, and writes the orders to the output.
pub fn console<'a, R: Input, W: Output>(
    alloc: Global,
    file: &[u8],
    input: &mut R,
    output: &mut W,
) -> ProgramEnd<'a>
    ensures { IsRun result file.now (devices (R.seen input.old) (W.seen output.old))
        (devices (R.seen input.new) (W.seen output.new)) }
{
    let tree = match read_tree(alloc, file) {
        Ok(tree) => tree,
        Err(fault) => return ProgramEnd::of_tree(fault),
    };
    let (supervisor, _, _) = tree.into_parts();
    end_of_sim(sim(alloc, supervisor, input, output))
}

/// The end of a run of `sim`.
fn end_of_sim<'a>(end: SimEnd) -> ProgramEnd<'a>
    ensures { result ≡ ending_of end }
{
    match end {
        SimEnd::Done => ProgramEnd::Done,
        SimEnd::LineRefused(line, why) => ProgramEnd::LineRefused(line, why),
        SimEnd::HistoryFull => ProgramEnd::HistoryFull,
        SimEnd::InputFailed => ProgramEnd::InputFailed,
        SimEnd::OutputFailed => ProgramEnd::OutputFailed,
        SimEnd::Memory => ProgramEnd::OutOfMemory,
    }
}
