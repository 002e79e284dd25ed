//! `limits`: what does each child's failure cost?

ghost use Rattle.std.specs.Prelude.{◌≡◌, IfOk, false};
ghost use Rattle.otp_questions.specs.Limited.{IsLimited, IsUnknown, TellsLimits, ending_of_halt};
ghost use Rattle.otp_costs.specs.Told.{is_all};

use crate::near::near_child;
use otp_costs::{Grain, Pick, Progress, write_limits};
use otp_exit::ProgramEnd;
use otp_file::{TreeSpec, read_tree};
use otp_objects::write_limits_object;
use otp_reason::Text;
use otp_sim::{Failed, Output, write_all};
use otp_trial::Halt;
use std::alloc::Global;

/// What is asked of a tree's failures: of which children, how finely, and whether the answer is an object of JSON.
#[derive(Clone, Copy)]
pub struct Asking<'a> {
    pub pick: Pick<'a>,
    pub grain: Grain,
    pub is_json: bool,
}

/// Appends the limits of those children of a tree that are asked for, as a table or as an object, and says whether there are any.
#[tactic(auto, unfolding(otp_costs::specs::Told::TellsRows, otp_objects::specs::Limits::TellsRows))]
fn tell_limits<P: Progress>(
    alloc: Global,
    is_json: bool,
    name: &str,
    tree: &TreeSpec,
    grain: Grain,
    pick: &Pick<'_>,
    progress: &P,
    out: &mut Vec<u8>,
) -> Result<bool, Halt>
    ensures told { IfOk result (λ found. TellsLimits is_json name.now found grain pick.now tree.now out.old.items out.new.items) }
    ensures none { IfOk result (λ found. found ≡ false → is_all pick.now ≡ false) }
{
    if is_json {
        write_limits_object(alloc, name.as_bytes(), tree, grain, pick, out)
    } else {
        write_limits(alloc, tree, grain, pick, progress, out)
    }
}

/// Reads the tree of a file, plays crashes of those children that are asked for, and writes what they cost. How far it is may be
/// seen, unless it is written as JSON.
pub fn limit_file<'a, P: Progress, W: Output>(
    alloc: Global,
    name: &'a str,
    file: &[u8],
    asking: Asking<'a>,
    progress: &P,
    output: &mut W,
) -> ProgramEnd<'a>
    ensures { IsLimited asking.entry.is_json asking.entry.grain asking.entry.pick name.now
        result file.now (W.seen output.old) (W.seen output.new) }
{
    let Asking {
        pick,
        grain,
        is_json,
    } = asking;
    let tree = match read_tree(alloc, file) {
        Ok(tree) => tree,
        Err(fault) => return ProgramEnd::of_no_tree(fault, name),
    };
    let near = near_pick(alloc, &tree, &pick);
    let mut table = Vec::new(alloc);
    let told = tell_limits(
        alloc, is_json, name, &tree, grain, &pick, progress, &mut table,
    );
    progress.saw(0, 0);
    drop(tree);
    match told {
        Ok(true) => {}
        Ok(false) => return not_found(pick, near),
        Err(halt) => return end_of_halt(halt),
    }
    match write_all(output, table.as_slice()) {
        Ok(()) => ProgramEnd::Done,
        Err(Failed) => ProgramEnd::OutputFailed,
    }
}

/// The path of the child that is meant where the one that is asked for isn't there, if one is near.
pub(crate) fn near_pick(alloc: Global, tree: &TreeSpec, pick: &Pick<'_>) -> Option<Text> {
    match pick {
        Pick::Child(name) => near_child(alloc, tree, name),
        Pick::Table(_) | Pick::All => None,
    }
}

/// The end where no child, or no supervisor, is found by a name; the child with this path may be meant.
#[tactic(auto, unfolding(otp_costs::specs::Told::is_all))]
pub(crate) fn not_found<'a>(pick: Pick<'a>, near: Option<Text>) -> ProgramEnd<'a>
    requires { is_all pick ≡ false }
    ensures { IsUnknown pick.entry near result }
{
    match pick {
        Pick::Child(name) => ProgramEnd::NotFound(name, near),
        Pick::Table(name) => ProgramEnd::NoSupervisor(name),
        Pick::All => ProgramEnd::Done,
    }
}

/// The end for a core that can't be played on.
pub fn end_of_halt<'a>(halt: Halt) -> ProgramEnd<'a>
    ensures { result ≡ ending_of_halt halt }
{
    match halt {
        Halt::HistoryFull => ProgramEnd::HistoryFull,
        Halt::OutOfMemory => ProgramEnd::OutOfMemory,
    }
}
