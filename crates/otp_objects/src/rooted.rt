//! How the root fares where a child crashes so often, and which change is the least that helps, as an object.

ghost use Rattle.std.specs.Prelude.{◌≡◌, ◌++◌, IfOk, OnOk, option_map};
ghost use Rattle.std.specs.List.{flat_map};
ghost use Rattle.otp_objects.specs.Rooted.{SuggestsRootObject, TellsRootObject, best_value, changes_text, crashing_text, gone_after, least_text, lever_value, levers_value, next_lever, remedy_value, root_text, rooted_value, supervisors_text, survived_of, survives};

use crate::values::put_bool;
use otp_costs::limits::{Fate, supervisor_path};
use otp_file::TreeSpec;
use otp_json::{put_key, put_number, put_optional, put_text};
use otp_suggest::{Lever, Remedy, RootFinding, Rooted, SuggestionAnswer, best_of, find_root};
use otp_text::write_number;
use otp_trial::Halt;
use std::alloc::{AllocError, Global};

/// Appends which child crashes, and how often.
#[tactic(auto, unfolding(crate::specs::Rooted::crashing_text))]
fn write_crashing(
    name: &[u8],
    child: &[u8],
    count: u64,
    time: u64,
    out: &mut Vec<u8>,
) -> Result<(), AllocError>
    ensures { OnOk result (out.new.items ≡ out.old.items ++ crashing_text name.now child.now count time) }
{
    put_text(b"{", b"file", name, out)?;
    put_text(b", ", b"child", child, out)?;
    put_number(b", ", b"times", count, out)?;
    put_number(b", ", b"within", time, out)
}

/// Whether the root survives.
fn survives(root: Fate) -> bool
    ensures { result ≡ survives root }
{
    match root {
        Fate::Survived | Fate::Gone(_) => true,
        Fate::Ended(_) => false,
    }
}

/// How many crashes it survives, where the next one ends it.
fn survived_of(root: Fate) -> Option<u64>
    ensures { result ≡ survived_of root }
{
    match root {
        Fate::Survived | Fate::Gone(_) => None,
        Fate::Ended(count) => Some(count),
    }
}

/// After which crash the child isn't started again.
fn gone_after(root: Fate) -> Option<u64>
    ensures { result ≡ gone_after root }
{
    match root {
        Fate::Survived | Fate::Ended(_) => None,
        Fate::Gone(count) => Some(count),
    }
}

/// Appends how the root fares.
#[tactic(auto, unfolding(crate::specs::Rooted::root_text))]
fn write_fares(root: Fate, out: &mut Vec<u8>) -> Result<(), AllocError>
    ensures { OnOk result (out.new.items ≡ out.old.items ++ root_text root) }
{
    put_bool(b"root_survives", survives(root), out)?;
    put_optional(b", ", b"survived", survived_of(root), out)?;
    put_optional(b", ", b"gone_after", gone_after(root), out)
}

/// Appends which intensity has the root survive.
#[tactic(auto, unfolding(crate::specs::Rooted::remedy_value))]
fn write_remedy(today: u64, remedy: Remedy, out: &mut Vec<u8>) -> Result<(), AllocError>
    ensures { OnOk result (out.new.items ≡ out.old.items ++ remedy_value today remedy) }
{
    match remedy {
        Remedy::Enough => write_number(today, out),
        Remedy::Least(intensity) => write_number(intensity, out),
        Remedy::Nowhere => out.extend_from_slice(b"\"none\""),
    }
}

/// Appends the object of a supervisor.
#[tactic(auto, unfolding(crate::specs::Rooted::lever_value))]
fn write_lever(lever: &Lever, out: &mut Vec<u8>) -> Result<(), AllocError>
    ensures { OnOk result (out.new.items ≡ out.old.items ++ lever_value lever.now) }
{
    let above = supervisor_path(lever.path.as_bytes());
    put_text(b"{", b"supervisor", above, out)?;
    put_number(b", ", b"intensity", lever.today, out)?;
    put_key(b", ", b"least", out)?;
    write_remedy(lever.today, lever.remedy, out)?;
    out.extend_from_slice(b"}")
}

/// Appends the object of a supervisor behind another.
#[tactic(auto, unfolding(crate::specs::Rooted::next_lever))]
fn write_next(lever: &Lever, out: &mut Vec<u8>) -> Result<(), AllocError>
    ensures { OnOk result (out.new.items ≡ out.old.items ++ next_lever lever.now) }
{
    out.extend_from_slice(b", ")?;
    write_lever(lever, out)
}

/// Appends the objects of supervisors behind others.
fn write_others(levers: &[Lever], out: &mut Vec<u8>) -> Result<(), AllocError>
    ensures { OnOk result (out.new.items ≡ out.old.items ++ flat_map next_lever levers.now) }
{
    for lever in levers {
        write_next(lever, out)?;
    }
    Ok(())
}

/// Appends the array of supervisors.
#[tactic(auto, unfolding(crate::specs::Rooted::levers_value))]
fn write_levers(levers: &[Lever], out: &mut Vec<u8>) -> Result<(), AllocError>
    ensures { OnOk result (out.new.items ≡ out.old.items ++ levers_value levers.now) }
{
    match levers {
        [] => out.extend_from_slice(b"[]"),
        [first, others @ ..] => {
            out.extend_from_slice(b"[")?;
            write_lever(first, out)?;
            write_others(others, out)?;
            out.extend_from_slice(b"]")
        }
    }
}

/// Appends the supervisor whose change is the least, or `null`.
#[tactic(auto, unfolding(crate::specs::Rooted::best_value))]
fn write_best(best: Option<&Lever>, out: &mut Vec<u8>) -> Result<(), AllocError>
    ensures { OnOk result (out.new.items ≡ out.old.items ++ best_value (option_map (λ l. l.now) best.entry)) }
{
    match best {
        None => out.extend_from_slice(b"null"),
        Some(lever) => write_lever(lever, out),
    }
}

/// Appends which change of each supervisor helps.
#[tactic(auto, unfolding(crate::specs::Rooted::supervisors_text))]
fn write_supervisors(levers: &[Lever], out: &mut Vec<u8>) -> Result<(), AllocError>
    ensures { OnOk result (out.new.items ≡ out.old.items ++ supervisors_text levers.now) }
{
    put_key(b", ", b"supervisors", out)?;
    write_levers(levers, out)
}

/// Appends the least change, if one helps.
#[tactic(auto, unfolding(crate::specs::Rooted::least_text))]
fn write_least(best: Option<&Lever>, out: &mut Vec<u8>) -> Result<(), AllocError>
    ensures { OnOk result (out.new.items ≡ out.old.items ++ least_text (option_map (λ l. l.now) best.entry)) }
{
    put_key(b", ", b"least_change", out)?;
    write_best(best, out)
}

/// Appends which change of each supervisor helps, and which is the least.
#[tactic(auto, unfolding(crate::specs::Rooted::changes_text))]
fn write_changes(levers: &[Lever], out: &mut Vec<u8>) -> Result<(), AllocError>
    ensures { OnOk result (out.new.items ≡ out.old.items ++ changes_text levers.now) }
{
    write_supervisors(levers, out)?;
    write_least(best_of(levers), out)
}

/// Appends the object of a child, a line.
#[tactic(auto, unfolding(crate::specs::Rooted::rooted_value))]
fn write_rooted(
    name: &[u8],
    child: &[u8],
    count: u64,
    time: u64,
    rooted: &Rooted,
    out: &mut Vec<u8>,
) -> Result<(), AllocError>
    ensures { OnOk result (out.new.items ≡ out.old.items ++ rooted_value name.now child.now count time rooted.now) }
{
    write_crashing(name, child, count, time, out)?;
    write_fares(rooted.root, out)?;
    write_changes(rooted.levers.as_slice(), out)?;
    out.extend_from_slice(b"}\n")
}

/// Appends the object of what was found, if a worker was.
fn write_found(
    name: &[u8],
    child: &[u8],
    count: u64,
    time: u64,
    found: &RootFinding,
    out: &mut Vec<u8>,
) -> Result<SuggestionAnswer, AllocError>
    ensures { IfOk result (λ answer. TellsRootObject name.now child.now count time found.now answer out.old.items out.new.items) }
{
    match found {
        RootFinding::Of(rooted) => {
            write_rooted(name, child, count, time, rooted, out)?;
            Ok(SuggestionAnswer::Told)
        }
        RootFinding::NoChild => Ok(SuggestionAnswer::NoChild),
        RootFinding::IsSupervisor => Ok(SuggestionAnswer::IsSupervisor),
    }
}

/// Appends how the root fares where the worker with this name crashes so often within so many milliseconds, and which change of one
/// intensity is the least that has it survive ([`find_root`]), as an object with the name of its file. Nothing is appended where the
/// answer is that it was refused.
///
/// # Errors
///
/// Where memory is refused, or a run can't be played to its end.
pub fn write_root_object(
    alloc: Global,
    name: &[u8],
    tree: &TreeSpec,
    child: &[u8],
    count: u64,
    time: u64,
    out: &mut Vec<u8>,
) -> Result<SuggestionAnswer, Halt>
    ensures { IfOk result (λ answer. SuggestsRootObject name.now tree.now child.now count time answer out.old.items out.new.items) }
{
    let found = find_root(alloc, tree, child, count)?;
    let told = write_found(name, child, count, time, &found, out);
    drop(found);
    match told {
        Ok(answer) => Ok(answer),
        Err(AllocError) => Err(Halt::OutOfMemory),
    }
}
