//! `suggest --root`: which change of one intensity is the least that has the root survive crashes of a child?

ghost use Rattle.std.specs.Prelude.{◌≡◌, IfOk};
ghost use Rattle.otp_questions.specs.Rooted.{IsRooted, TellsRoot};

use crate::limiting::end_of_halt;
use crate::near::near_child;
use otp_exit::ProgramEnd;
use otp_file::{TreeSpec, read_tree};
use otp_objects::write_root_object;
use otp_sim::{Failed, Output, write_all};
use otp_suggest::{SuggestionAnswer, read_burst, write_root};
use otp_trial::Halt;
use std::alloc::Global;

/// Appends which change is the least that has the root survive so many crashes of a child, as a table or as an object.
fn tell_root(
    alloc: Global,
    is_json: bool,
    name: &str,
    tree: &TreeSpec,
    child: &str,
    count: u64,
    time: u64,
    out: &mut Vec<u8>,
) -> Result<SuggestionAnswer, Halt>
    ensures { IfOk result (λ answer. TellsRoot is_json name.now tree.now child.now count time answer out.old.items out.new.items) }
{
    if is_json {
        write_root_object(
            alloc,
            name.as_bytes(),
            tree,
            child.as_bytes(),
            count,
            time,
            out,
        )
    } else {
        write_root(alloc, tree, child.as_bytes(), count, time, out)
    }
}

/// Reads the tree of a file, and writes which change of one intensity is the least that has the root survive so many crashes of a child
/// as come within a time: as a table, or as an object of JSON.
pub fn root_file<'a, W: Output>(
    alloc: Global,
    name: &'a str,
    file: &[u8],
    child: &'a str,
    times: &'a str,
    within: &'a str,
    is_json: bool,
    output: &mut W,
) -> ProgramEnd<'a>
    ensures { IsRooted is_json child.entry times.entry within.entry name.now result file.now
        (W.seen output.old) (W.seen output.new) }
{
    let (count, time) = match read_burst(times, within) {
        Ok(burst) => burst,
        Err(amiss) => return ProgramEnd::NotAGap(amiss.word, amiss.why),
    };
    let tree = match read_tree(alloc, file) {
        Ok(tree) => tree,
        Err(fault) => return ProgramEnd::of_no_tree(fault, name),
    };
    let near = near_child(alloc, &tree, child);
    let mut text = Vec::new(alloc);
    let told = tell_root(alloc, is_json, name, &tree, child, count, time, &mut text);
    drop(tree);
    match told {
        Ok(SuggestionAnswer::Told) => {}
        Ok(SuggestionAnswer::NoChild) => return ProgramEnd::NotFound(child, near),
        Ok(SuggestionAnswer::IsSupervisor) => return ProgramEnd::NamesSupervisor(child),
        Err(halt) => return end_of_halt(halt),
    }
    match write_all(output, text.as_slice()) {
        Ok(()) => ProgramEnd::Done,
        Err(Failed) => ProgramEnd::OutputFailed,
    }
}
