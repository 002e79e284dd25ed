//! `try`: what would a tree do?

ghost use Rattle.std.specs.Prelude.{◌≡◌};
ghost use Rattle.otp_sim.specs.Devices.{devices};
ghost use Rattle.otp_questions.specs.Tried.{IsTrial, ending_of_try};

use otp_exit::ProgramEnd;
use otp_file::read_tree;
use otp_sim::{Input, Output};
use otp_try::{Playing, TryEnd, try_tree};
use std::alloc::Global;

/// Reads the tree of a file, and plays the lines of a script on its supervisor. The script is called so, if it has a name.
pub fn try_file<'a, R: Input, W: Output>(
    alloc: Global,
    name: &'a str,
    file: &[u8],
    called: Option<&'a str>,
    playing: Playing,
    script: &mut R,
    output: &mut W,
) -> ProgramEnd<'a>
    ensures { IsTrial name.now called.entry result file.now (devices (R.seen script.old) (W.seen output.old))
        (devices (R.seen script.new) (W.seen output.new)) }
{
    let tree = match read_tree(alloc, file) {
        Ok(tree) => tree,
        Err(fault) => return ProgramEnd::of_no_tree(fault, name),
    };
    end_of_try(called, try_tree(alloc, tree, playing, script, output))
}

/// The end of a trial by the script of this name, if it has one.
pub(crate) fn end_of_try<'a>(script: Option<&'a str>, end: TryEnd) -> ProgramEnd<'a>
    ensures { result ≡ ending_of_try script.entry end }
{
    match end {
        TryEnd::Done => ProgramEnd::Done,
        TryEnd::LineRefused(line, fault) => ProgramEnd::ScriptRefused(script, line, fault),
        TryEnd::LineMissed(line, taken, near) => ProgramEnd::ScriptMissed(
            script, line, taken, near,
        ),
        TryEnd::ExpectationFailed(line) => ProgramEnd::ExpectationFailed(script, line),
        TryEnd::LeftOut(line, taken, near) => {
            ProgramEnd::ScriptMissed(script, line, taken, near)
        }
        TryEnd::NothingPlayed => ProgramEnd::NothingPlayed,
        TryEnd::HistoryFull => ProgramEnd::HistoryFull,
        TryEnd::InputFailed => ProgramEnd::InputFailed,
        TryEnd::OutputFailed => ProgramEnd::OutputFailed,
        TryEnd::OutOfMemory => ProgramEnd::OutOfMemory,
    }
}
