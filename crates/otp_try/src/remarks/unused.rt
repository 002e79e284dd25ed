//! What a script planned, and the run never came to.

ghost use Rattle.std.specs.Prelude.{◌≡◌, ◌++◌, OnOk};
ghost use Rattle.std.specs.List.{flat_map};
ghost use Rattle.otp_try.specs.Unused.{child_text, hang_line, hang_word, init_line, path_at, plan_line, start_word, unused_line, unused_text};

use otp_script::{Child, NextStart};
use otp_text::{write_name, write_number, write_process};
use otp_trial::TriedSupervisor;
use otp_trial::processes::{Hang, Init, PlannedStart};
use std::alloc::AllocError;

/// Appends a child as a script names it, without its path.
#[tactic(auto, unfolding(crate::specs::Unused::child_text))]
fn write_child(child: &Child, out: &mut Vec<u8>) -> Result<(), AllocError>
    ensures { OnOk result (out.new.items ≡ out.old.items ++ child_text child.now) }
{
    match child {
        Child::Named(id) => write_name(id, out),
        Child::Numbered(process) => write_process(*process, out),
    }
}

/// Appends what a line of the script planned of a child.
#[tactic(auto, unfolding(crate::specs::Unused::unused_line))]
fn write_line(
    word: &[u8],
    path: &[u8],
    child: &Child,
    line: u64,
    out: &mut Vec<u8>,
) -> Result<(), AllocError>
    ensures { OnOk result (out.new.items ≡ out.old.items ++ unused_line word.now path.now child.now line) }
{
    out.extend_from_slice(b"unused: ")?;
    out.extend_from_slice(word)?;
    out.extend_from_slice(path)?;
    write_child(child, out)?;
    out.extend_from_slice(b" (line ")?;
    write_number(line, out)?;
    out.extend_from_slice(b")\n")
}

/// What a script says so that a start answers so.
#[tactic(auto, unfolding(crate::specs::Unused::start_word))]
fn word_of(start: NextStart) -> &'static str
    ensures { result.now ≡ start_word start }
{
    match start {
        NextStart::Ignore => "ignore ",
        NextStart::Fail(_) => "fail ",
    }
}

/// The path of the supervisor at this place.
#[tactic(auto, unfolding(crate::specs::Unused::path_at, crate::specs::Unused::path_in))]
fn path_at(seats: &[TriedSupervisor], place: usize) -> &[u8]
    ensures { result.now ≡ path_at seats.now place }
{
    if place < seats.len() {
        seats[place].path()
    } else {
        &[]
    }
}

/// Appends that a start was planned and never came.
#[tactic(auto, unfolding(crate::specs::Unused::plan_line))]
fn write_plan(
    seats: &[TriedSupervisor],
    plan: &PlannedStart,
    out: &mut Vec<u8>,
) -> Result<(), AllocError>
    ensures { OnOk result (out.new.items ≡ out.old.items ++ plan_line seats.now plan.now) }
{
    let word = word_of(plan.start).as_bytes();
    let child = Child::Named(plan.id);
    write_line(word, path_at(seats, plan.place), &child, plan.line, out)
}

/// Appends a line for each start that was planned and never came.
fn write_plans(
    seats: &[TriedSupervisor],
    plans: &[PlannedStart],
    out: &mut Vec<u8>,
) -> Result<(), AllocError>
    ensures { OnOk result (out.new.items ≡ out.old.items ++ flat_map (plan_line seats.now) plans.now) }
{
    for plan in plans {
        write_plan(seats, plan, out)?;
    }
    Ok(())
}

/// Appends that it was said how long the starts of a child take, where none came.
#[tactic(auto, unfolding(crate::specs::Unused::init_line))]
fn write_init(seats: &[TriedSupervisor], init: &Init, out: &mut Vec<u8>) -> Result<(), AllocError>
    ensures { OnOk result (out.new.items ≡ out.old.items ++ init_line seats.now init.now) }
{
    if init.is_used {
        return Ok(());
    }
    let child = Child::Named(init.id);
    write_line(b"init ", path_at(seats, init.place), &child, init.line, out)
}

/// Appends a line for each child of which it was said how long its starts take, and none came.
fn write_inits(
    seats: &[TriedSupervisor],
    inits: &[Init],
    out: &mut Vec<u8>,
) -> Result<(), AllocError>
    ensures { OnOk result (out.new.items ≡ out.old.items ++ flat_map (init_line seats.now) inits.now) }
{
    for init in inits {
        write_init(seats, init, out)?;
    }
    Ok(())
}

/// What a script says so that a child ends so long after it was asked to, or never.
#[tactic(auto, unfolding(crate::specs::Unused::hang_word))]
fn word_of_hang(delay: Option<u64>) -> &'static str
    ensures { result.now ≡ hang_word delay }
{
    match delay {
        None => "hang ",
        Some(_) => "slow ",
    }
}

/// Appends that a child was to hang or be slow and was never asked to shut down.
#[tactic(auto, unfolding(crate::specs::Unused::hang_line))]
fn write_hang(seats: &[TriedSupervisor], hang: &Hang, out: &mut Vec<u8>) -> Result<(), AllocError>
    ensures { OnOk result (out.new.items ≡ out.old.items ++ hang_line seats.now hang.now) }
{
    write_line(
        word_of_hang(hang.delay).as_bytes(),
        path_at(seats, hang.place),
        &hang.child,
        hang.line,
        out,
    )
}

/// Appends a line for each child that was to hang and was never asked to shut down.
fn write_hanging(
    seats: &[TriedSupervisor],
    hanging: &[Hang],
    out: &mut Vec<u8>,
) -> Result<(), AllocError>
    ensures { OnOk result (out.new.items ≡ out.old.items ++ flat_map (hang_line seats.now) hanging.now) }
{
    for hang in hanging {
        write_hang(seats, hang, out)?;
    }
    Ok(())
}

/// Appends a line for each start that was planned and never came, for each child of which it was said how long its starts take and
/// that wasn't started since, and for each that was to hang and was never asked to shut down.
#[tactic(auto, unfolding(crate::specs::Unused::unused_text))]
pub fn write_unused(
    plans: &[PlannedStart],
    inits: &[Init],
    hanging: &[Hang],
    seats: &[TriedSupervisor],
    out: &mut Vec<u8>,
) -> Result<(), AllocError>
    ensures { OnOk result (out.new.items ≡ out.old.items ++ unused_text seats.now plans.now inits.now hanging.now) }
{
    write_plans(seats, plans, out)?;
    write_inits(seats, inits, out)?;
    write_hanging(seats, hanging, out)
}

/// The first line that planned the next start of a child which wasn't there; or else the first that said how long the starts of one
/// take, of which none came.
pub fn line_of_unknown(plans: &[PlannedStart], inits: &[Init]) -> Option<u64> {
    for plan in plans {
        if !plan.is_known {
            return Some(plan.line);
        }
    }
    for init in inits {
        if !init.is_known && !init.is_used {
            return Some(init.line);
        }
    }
    None
}
