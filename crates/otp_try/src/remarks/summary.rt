//! What stands at the end of a run.

ghost use Rattle.std.specs.Prelude.{Bool, true, List, ◌∷◌, ◌≡◌, ◌++◌, IfOk, OnOk, length};
ghost use Rattle.otp_try.specs.Prompt.{standings_text};
ghost use Rattle.otp_try.specs.Summaries.{IsSummary, front_text, stand_text, summary_text};
ghost use Rattle.otp_try.specs.Verdict.{whole_verdict};
ghost use Rattle.otp_trial.specs.Played.{now_of};

use crate::remarks::fit::fit;
use crate::remarks::prompt::write_standings;
use crate::remarks::unused::write_unused;
use crate::remarks::verdict::write_verdict;
use otp_trial::processes::{Hang, Init, PlannedStart};
use otp_trial::{Clock, Trial, TriedSupervisor};
use std::alloc::{AllocError, Global};

/// How a run stands at its end: by which clock it was played, the time, the supervisors, of which each has a process or not, and what
/// was planned and never came.
#[derive(Clone, Copy)]
struct Close<'a> {
    clock: Clock,
    now: u64,
    seats: &'a [TriedSupervisor],
    running: &'a [bool],
    plans: &'a [PlannedStart],
    inits: &'a [Init],
    hanging: &'a [Hang],
}

/// Appends how the supervisors stand, and what they await.
pub fn write_all_standings(trial: &Trial, out: &mut Vec<u8>) -> Result<(), AllocError>
    ensures { OnOk result ((others : List Bool) × (out.new.items ≡ out.old.items ++ standings_text (now_of trial.now) trial.now.seats (true ∷ others))) }
{
    let now = trial.now();
    let running = trial.running()?;
    write_standings(now, trial.seats(), running.as_slice(), out)
}

/// Appends how the supervisors stand, what they await, and what the script planned and the run never came to, in lines of any
/// length.
#[tactic(auto, unfolding(crate::specs::Summaries::stand_text))]
fn write_stand(close: Close<'_>, out: &mut Vec<u8>) -> Result<(), AllocError>
    requires { length close.running.now ≡ length close.seats.now }
    ensures { OnOk result (out.new.items ≡ out.old.items ++ stand_text close.entry.now close.entry.seats.now close.entry.running.now close.entry.plans.now close.entry.inits.now close.entry.hanging.now) }
{
    write_standings(close.now, close.seats, close.running, out)?;
    write_unused(close.plans, close.inits, close.hanging, close.seats, out)
}

/// What [`write_stand`] writes, in lines of at most 80 columns; nothing where little is to be told.
#[tactic(auto, unfolding(crate::specs::Summaries::front_text))]
fn front_of(alloc: Global, is_quiet: bool, close: Close<'_>) -> Result<Vec<u8>, AllocError>
    requires { length close.running.now ≡ length close.seats.now }
    ensures { IfOk result (λ lines. lines.items ≡ front_text is_quiet close.entry.now close.entry.seats.now close.entry.running.now close.entry.plans.now close.entry.inits.now close.entry.hanging.now) }
{
    let mut stand = Vec::new(alloc);
    if is_quiet {
        return Ok(stand);
    }
    write_stand(close, &mut stand)?;
    let lines = fit(alloc, stand.as_slice())?;
    Ok(lines)
}

/// What [`front_of`] gives, and behind it the verdict, of which no line is cut.
#[tactic(auto, unfolding(crate::specs::Summaries::summary_text))]
fn whole_of(
    alloc: Global,
    is_quiet: bool,
    is_played: bool,
    close: Close<'_>,
) -> Result<Vec<u8>, AllocError>
    requires { length close.running.now ≡ length close.seats.now }
    ensures { IfOk result (λ lines. lines.items ≡ summary_text is_quiet is_played close.entry.clock close.entry.now close.entry.seats.now close.entry.running.now close.entry.plans.now close.entry.inits.now close.entry.hanging.now) }
{
    let mut lines = front_of(alloc, is_quiet, close)?;
    write_verdict(
        is_played,
        close.clock,
        close.seats,
        close.running,
        &mut lines,
    )?;
    Ok(lines)
}

/// What stands at the end of a run, in which something was played or not: how the supervisors stand, unless little is to be told, in
/// lines of at most 80 columns; and the verdict.
pub fn summary_of(
    alloc: Global,
    trial: &Trial,
    is_quiet: bool,
    is_played: bool,
) -> Result<Vec<u8>, AllocError>
    ensures { IfOk result (λ lines. IsSummary trial.now lines.items) }
{
    let running = trial.running()?;
    let close = Close {
        clock: trial.clock(),
        now: trial.now(),
        seats: trial.seats(),
        running: running.as_slice(),
        plans: trial.planned(),
        inits: trial.inits(),
        hanging: trial.hanging(),
    };
    let lines = whole_of(alloc, is_quiet, is_played, close)?;
    Ok(lines)
}

/// Appends the verdict of a trial, in which something was played or not.
pub fn write_trial_verdict(
    trial: &Trial,
    is_played: bool,
    out: &mut Vec<u8>,
) -> Result<(), AllocError>
    ensures { OnOk result ((others : List Bool) × (out.new.items ≡ out.old.items ++ whole_verdict is_played trial.now.clock trial.now.seats (true ∷ others))) }
{
    let running = trial.running()?;
    write_verdict(
        is_played,
        trial.clock(),
        trial.seats(),
        running.as_slice(),
        out,
    )
}
