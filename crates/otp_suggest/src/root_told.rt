//! How the root fares where a child crashes so often, and which change is the least that helps, as it is told.

ghost use Rattle.std.specs.Prelude.{◌≡◌, ◌++◌, IfOk, OnOk, option_map};
ghost use Rattle.std.specs.List.{flat_map};
ghost use Rattle.otp_suggest.specs.RootTold.{SuggestsRoot, TellsRoot, above_text, change_text, columns_text, ends_text, fares_text, gone_text, heads_text, help_text, instead_text, least_text, lever_text, levers_text, once_text, remedy_text, rooted_text, with_text};

use crate::course::verdict_of;
use crate::lever::{Lever, best_of};
use crate::refused::SuggestionAnswer;
use crate::remedy::Remedy;
use crate::rooted::{RootFinding, Rooted, find_root};
use crate::told::write_times;
use otp_costs::limits::{Fate, Path, Verdict, supervisor_path};
use otp_costs::{write_clipped, write_left};
use otp_file::TreeSpec;
use otp_text::write_number;
use otp_trial::Halt;
use std::alloc::{AllocError, Global};

/// Appends how the crashes come that are played.
#[tactic(auto, unfolding(crate::specs::RootTold::once_text))]
fn write_once(out: &mut Vec<u8>) -> Result<(), AllocError>
    ensures { OnOk result (out.new.items ≡ out.old.items ++ once_text) }
{
    out.extend_from_slice(b"at once, as nothing is closer together: ")
}

/// Appends that the root runs after so many crashes, and the next one ends it.
#[tactic(auto, unfolding(crate::specs::RootTold::ends_text))]
fn write_ends(count: u64, out: &mut Vec<u8>) -> Result<(), AllocError>
    ensures { OnOk result (out.new.items ≡ out.old.items ++ ends_text count) }
{
    out.extend_from_slice(b"root survives ")?;
    write_number(count, out)?;
    out.extend_from_slice(b" of them\n")
}

/// Appends that the root survives, as the child isn't there any more after so many crashes.
#[tactic(auto, unfolding(crate::specs::RootTold::gone_text))]
fn write_gone(name: &[u8], count: u64, out: &mut Vec<u8>) -> Result<(), AllocError>
    ensures { OnOk result (out.new.items ≡ out.old.items ++ gone_text name.now count) }
{
    out.extend_from_slice(b"root survives\n")?;
    write_clipped(30, name, out)?;
    out.extend_from_slice(b" isn't started again after crash ")?;
    write_number(count, out)?;
    out.extend_from_slice(b"\n")
}

/// Appends how the root fares.
#[tactic(auto, unfolding(crate::specs::RootTold::fares_text))]
fn write_fares(name: &[u8], root: Fate, out: &mut Vec<u8>) -> Result<(), AllocError>
    ensures { OnOk result (out.new.items ≡ out.old.items ++ fares_text name.now root) }
{
    match root {
        Fate::Survived => out.extend_from_slice(b"root survives\n"),
        Fate::Ended(count) => write_ends(count, out),
        Fate::Gone(count) => write_gone(name, count, out),
    }
}

/// Appends which intensity has the root survive.
#[tactic(auto, unfolding(crate::specs::RootTold::remedy_text))]
fn write_remedy(today: u64, remedy: Remedy, out: &mut Vec<u8>) -> Result<(), AllocError>
    ensures { OnOk result (out.new.items ≡ out.old.items ++ remedy_text today remedy) }
{
    match remedy {
        Remedy::Enough => write_number(today, out),
        Remedy::Least(intensity) => write_number(intensity, out),
        Remedy::Nowhere => out.extend_from_slice(b"none"),
    }
}

/// Appends a line of the table.
#[tactic(auto, unfolding(crate::specs::RootTold::columns_text))]
fn write_columns(
    above: &[u8],
    today: &[u8],
    least: &[u8],
    out: &mut Vec<u8>,
) -> Result<(), AllocError>
    ensures { OnOk result (out.new.items ≡ out.old.items ++ columns_text above.now today.now least.now) }
{
    write_left(42, above, out)?;
    write_left(12, today, out)?;
    out.extend_from_slice(least)?;
    out.extend_from_slice(b"\n")
}

/// Appends the titles of the table.
#[tactic(auto, unfolding(crate::specs::RootTold::heads_text))]
fn write_heads(out: &mut Vec<u8>) -> Result<(), AllocError>
    ensures { OnOk result (out.new.items ≡ out.old.items ++ heads_text) }
{
    write_columns(b"supervisor", b"intensity", b"least", out)
}

/// Appends the line of a supervisor.
#[tactic(auto, unfolding(crate::specs::RootTold::lever_text))]
fn write_lever(alloc: Global, lever: &Lever, out: &mut Vec<u8>) -> Result<(), AllocError>
    ensures { OnOk result (out.new.items ≡ out.old.items ++ lever_text lever.now) }
{
    let mut above = Vec::new(alloc);
    let mut today = Vec::new(alloc);
    let mut least = Vec::new(alloc);
    write_clipped(40, supervisor_path(lever.path.as_bytes()), &mut above)?;
    write_number(lever.today, &mut today)?;
    write_remedy(lever.today, lever.remedy, &mut least)?;
    write_columns(above.as_slice(), today.as_slice(), least.as_slice(), out)
}

/// Appends the lines of supervisors.
fn write_lines(alloc: Global, levers: &[Lever], out: &mut Vec<u8>) -> Result<(), AllocError>
    ensures { OnOk result (out.new.items ≡ out.old.items ++ flat_map lever_text levers.now) }
{
    for lever in levers {
        write_lever(alloc, lever, out)?;
    }
    Ok(())
}

/// Appends which intensity has the root survive, in place of its own.
#[tactic(auto, unfolding(crate::specs::RootTold::instead_text))]
fn write_instead(today: u64, remedy: Remedy, out: &mut Vec<u8>) -> Result<(), AllocError>
    ensures { OnOk result (out.new.items ≡ out.old.items ++ instead_text today remedy) }
{
    write_remedy(today, remedy, out)?;
    out.extend_from_slice(b" in place of ")?;
    write_number(today, out)?;
    out.extend_from_slice(b"\n")
}

/// Appends the name of a supervisor.
#[tactic(auto, unfolding(crate::specs::RootTold::above_text))]
fn write_above(path: &Path, out: &mut Vec<u8>) -> Result<(), AllocError>
    ensures { OnOk result (out.new.items ≡ out.old.items ++ above_text path.now) }
{
    write_clipped(30, supervisor_path(path.as_bytes()), out)
}

/// Appends with which intensity the root survives.
#[tactic(auto, unfolding(crate::specs::RootTold::with_text))]
fn write_with(today: u64, remedy: Remedy, out: &mut Vec<u8>) -> Result<(), AllocError>
    ensures { OnOk result (out.new.items ≡ out.old.items ++ with_text today remedy) }
{
    out.extend_from_slice(b" with intensity ")?;
    write_instead(today, remedy, out)
}

/// Appends which change is the least.
#[tactic(auto, unfolding(crate::specs::RootTold::least_text))]
fn write_least(lever: &Lever, out: &mut Vec<u8>) -> Result<(), AllocError>
    ensures { OnOk result (out.new.items ≡ out.old.items ++ least_text lever.now) }
{
    out.extend_from_slice(b"least change: ")?;
    write_above(&lever.path, out)?;
    write_with(lever.today, lever.remedy, out)
}

/// Appends which change is the least, if one helps.
#[tactic(auto, unfolding(crate::specs::RootTold::change_text))]
fn write_change(best: Option<&Lever>, out: &mut Vec<u8>) -> Result<(), AllocError>
    ensures { OnOk result (out.new.items ≡ out.old.items ++ change_text (option_map (λ l. l.now) best.entry)) }
{
    match best {
        None => out.extend_from_slice(b"no intensity of one supervisor alone is enough\n"),
        Some(lever) => write_least(lever, out),
    }
}

/// Appends which change of each supervisor helps, and which is the least.
#[tactic(auto, unfolding(crate::specs::RootTold::levers_text))]
fn write_levers(alloc: Global, levers: &[Lever], out: &mut Vec<u8>) -> Result<(), AllocError>
    ensures { OnOk result (out.new.items ≡ out.old.items ++ levers_text levers.now) }
{
    write_heads(out)?;
    write_lines(alloc, levers, out)?;
    write_change(best_of(levers), out)
}

/// Appends what has to be changed.
#[tactic(auto, unfolding(crate::specs::RootTold::help_text))]
fn write_help(
    alloc: Global,
    verdict: Verdict,
    levers: &[Lever],
    out: &mut Vec<u8>,
) -> Result<(), AllocError>
    ensures { OnOk result (out.new.items ≡ out.old.items ++ help_text verdict levers.now) }
{
    match verdict {
        Verdict::Lasts => out.extend_from_slice(b"nothing has to be changed\n"),
        Verdict::Falls => write_levers(alloc, levers, out),
    }
}

/// Appends how the root fares, and which change is the least that helps. No line has more than 80 columns.
#[tactic(auto, unfolding(crate::specs::RootTold::rooted_text))]
fn write_rooted(
    alloc: Global,
    name: &[u8],
    count: u64,
    time: u64,
    rooted: &Rooted,
    out: &mut Vec<u8>,
) -> Result<(), AllocError>
    ensures { OnOk result (out.new.items ≡ out.old.items ++ rooted_text name.now count time rooted.now) }
{
    write_times(name, count, time, out)?;
    write_once(out)?;
    write_fares(name, rooted.root, out)?;
    write_help(
        alloc,
        verdict_of(rooted.root),
        rooted.levers.as_slice(),
        out,
    )
}

/// Appends how the root fares where a child crashes so often, if it is a worker.
fn write_found(
    alloc: Global,
    name: &[u8],
    count: u64,
    time: u64,
    found: &RootFinding,
    out: &mut Vec<u8>,
) -> Result<SuggestionAnswer, AllocError>
    ensures { IfOk result (λ answer. TellsRoot name.now count time found.now answer out.old.items out.new.items) }
{
    match found {
        RootFinding::Of(rooted) => {
            write_rooted(alloc, name, count, time, rooted, out)?;
            Ok(SuggestionAnswer::Told)
        }
        RootFinding::NoChild => Ok(SuggestionAnswer::NoChild),
        RootFinding::IsSupervisor => Ok(SuggestionAnswer::IsSupervisor),
    }
}

/// Appends how the root fares where the worker with this name crashes so often within so many milliseconds, and which change of one
/// intensity is the least that has it survive ([`find_root`]). Nothing is appended where the answer is that it was refused.
///
/// # Errors
///
/// Where memory is refused, or a run can't be played to its end.
pub fn write_root(
    alloc: Global,
    tree: &TreeSpec,
    name: &[u8],
    count: u64,
    time: u64,
    out: &mut Vec<u8>,
) -> Result<SuggestionAnswer, Halt>
    ensures { IfOk result (λ answer. SuggestsRoot tree.now name.now count time answer out.old.items out.new.items) }
{
    let found = find_root(alloc, tree, name, count)?;
    let told = write_found(alloc, name, count, time, &found, out);
    drop(found);
    match told {
        Ok(answer) => Ok(answer),
        Err(AllocError) => Err(Halt::OutOfMemory),
    }
}
