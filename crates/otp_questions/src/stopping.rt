//! `shutdown`: how long may the stop of a tree take?

ghost use Rattle.std.specs.Prelude.{◌≡◌, IfErr, IfOk, OnOk, Err, Some};
ghost use Rattle.otp_questions.specs.Stopped.{IsLate, IsLateBy, IsLimit, IsStopped, TellsStops, is_within};
ghost use Rattle.otp_suggest.specs.Gaps.{gap_in};

use otp_exit::ProgramEnd;
use otp_file::{TreeSpec, read_tree};
use otp_objects::write_stops_object;
use otp_shutdown::{ended_after, find_stops, write_longest_stop};
use otp_sim::{Output, write_all};
use otp_suggest::{GapFault, read_gap};
use std::alloc::{AllocError, Global};

/// Appends how long the stop of a tree may take, as a table or as an object.
fn tell_stops(
    alloc: Global,
    is_json: bool,
    name: &str,
    tree: &TreeSpec,
    out: &mut Vec<u8>,
) -> Result<(), AllocError>
    ensures { OnOk result (TellsStops is_json name.now tree.now out.old.items out.new.items) }
{
    if is_json {
        write_stops_object(alloc, name.as_bytes(), tree, out)
    } else {
        write_longest_stop(alloc, tree, out)
    }
}

/// A word for a limit that says no time, and why.
#[derive(Clone, Copy, Debug)]
struct NoLimit<'a> {
    word: &'a str,
    why: GapFault,
}

/// The limit that a word says, where there is a word.
fn limit_in<'a>(within: Option<&'a str>) -> Result<Option<u64>, NoLimit<'a>>
    ensures limit { IfOk result (λ limit. IsLimit within.entry limit) }
    ensures none { IfErr result (λ no. (within.entry ≡ Some no.word) × (gap_in no.word.now ≡ Err no.why)) }
{
    let Some(word) = within else {
        return Ok(None);
    };
    match read_gap(word) {
        Ok(limit) => Ok(Some(limit)),
        Err(why) => Err(NoLimit { word, why }),
    }
}

/// Whether a stop that takes so long, or for ever, is within the limit, if there is one.
fn is_within(limit: Option<u64>, longest: Option<u64>) -> bool
    ensures { result ≡ is_within limit longest }
{
    match (limit, longest) {
        (None, _) => true,
        (Some(_), None) => false,
        (Some(limit), Some(longest)) => longest <= limit,
    }
}

/// The word of the limit that a stop isn't within which takes so long, or for ever.
fn late_by<'a>(within: Option<&'a str>, limit: Option<u64>, longest: Option<u64>) -> Option<&'a str>
    requires { IsLimit within limit }
    ensures { IsLateBy within.entry limit longest result }
{
    match within {
        Some(word) if !is_within(limit, longest) => Some(word),
        _ => None,
    }
}

/// The word of the limit that the longest stop of a tree isn't within.
fn find_late<'a>(
    alloc: Global,
    tree: &TreeSpec,
    within: Option<&'a str>,
    limit: Option<u64>,
) -> Result<Option<&'a str>, AllocError>
    requires { IsLimit within limit }
    ensures { IfOk result (λ late. IsLate within.entry late tree.now) }
{
    let stops = find_stops(alloc, tree)?;
    let longest = ended_after(Some(0), stops.as_slice());
    match late_by(within, limit, longest) {
        None => Ok(None),
        Some(word) => Ok(Some(word)),
    }
}

/// Appends how long the stop of a tree may take, and finds which limit it isn't within, by its word.
fn tell_and_judge<'a>(
    alloc: Global,
    is_json: bool,
    name: &str,
    tree: &TreeSpec,
    within: Option<&'a str>,
    limit: Option<u64>,
    out: &mut Vec<u8>,
) -> Result<Option<&'a str>, AllocError>
    requires { IsLimit within limit }
    ensures told { OnOk result (TellsStops is_json name.now tree.now out.old.items out.new.items) }
    ensures late { IfOk result (λ late. IsLate within.entry late tree.now) }
{
    tell_stops(alloc, is_json, name, tree, out)?;
    find_late(alloc, tree, within, limit)
}

/// Reads the tree of a file, and writes how long its stop may take, and who takes how much of it: as a table, or as an object of JSON.
/// How it ends says whether that is within a time, where a word says one.
pub fn stop_file<'a, W: Output>(
    alloc: Global,
    name: &'a str,
    file: &[u8],
    within: Option<&'a str>,
    is_json: bool,
    output: &mut W,
) -> ProgramEnd<'a>
    ensures { IsStopped is_json within.entry name.now result file.now (W.seen output.old) (W.seen output.new) }
{
    let limit = match limit_in(within) {
        Ok(limit) => limit,
        Err(NoLimit { word, why }) => return ProgramEnd::NotAGap(word, why),
    };
    let tree = match read_tree(alloc, file) {
        Ok(tree) => tree,
        Err(fault) => return ProgramEnd::of_no_tree(fault, name),
    };
    let mut text = Vec::new(alloc);
    let told = tell_and_judge(alloc, is_json, name, &tree, within, limit, &mut text);
    drop(tree);
    let Ok(late) = told else {
        return ProgramEnd::OutOfMemory;
    };
    let Ok(()) = write_all(output, text.as_slice()) else {
        return ProgramEnd::OutputFailed;
    };
    match late {
        None => ProgramEnd::Done,
        Some(word) => ProgramEnd::StopTooLong(word),
    }
}
