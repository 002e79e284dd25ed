//! A line of a script, done on a trial: at which supervisor, when, how often, and what came of it.

ghost use Rattle.std.specs.Prelude.{◌≡◌, ◌≤◌, ◌<◌, IfOk, OnOk, IfSome, length};
ghost use Rattle.otp_spec.specs.declared.limits.TheConstants.{MAX_READING};
ghost use Rattle.otp_script.specs.Lines.{saying};
ghost use Rattle.otp_trial.specs.Played.{ActsAt, Tells, is_root_over};
ghost use Rattle.otp_trial.specs.declared.trial.ActionEnd.{ActionEnd};
ghost use Rattle.otp_trial.specs.Steps.{DoesDeed, IsMeant, is_by_number, told_end, TellsAt, TellsTimes, TellsWhen, goes_on, knows, means_nobody, number_meant, number_of, time_at, unless_ended, without_process};

use crate::processes::finding::{is_known, named_in};
use crate::seat::TriedSupervisor;
use crate::trial::{ActionEnd, Halt, Trial};
use otp_reason::Name;
use otp_script::{Action, Child, Expected, Step, When};
use otp_spec::MAX_READING;

/// What a line came to.
#[derive(Clone, Copy, Debug, PartialEq, Eq)]
pub struct Outcome {
    /// It names a child that isn't there, and was taken all the same.
    pub is_unknown: bool,
    pub taken: ActionEnd,
}

/// Whether the supervisor at this place has a child with this id.
#[tactic(auto, unfolding(crate::specs::Steps::knows, crate::specs::Steps::knows_in))]
fn knows(seats: &[TriedSupervisor], place: usize, id: &Name) -> bool
    ensures { result ≡ knows id.now place seats.now }
{
    if place >= seats.len() {
        return false;
    }
    let seat = &seats[place];
    is_known(id, seat.rows())
}

/// The line says nothing: it is empty, or a comment.
pub fn is_silent(step: Step<'_>) -> bool {
    step.when == When::Now && step.action == Action::Nothing
}

/// The process by whose number alone a line means a child, if it does: of whichever supervisor.
#[tactic(auto, unfolding(crate::specs::Steps::number_meant, crate::specs::Steps::number_of))]
fn number_meant(action: Action) -> Option<u64>
    ensures { result ≡ number_meant action }
{
    match action {
        Action::Exit(child, _) => number_of(child),
        Action::Hang(child) => number_of(child),
        Action::Slow(child, _) => number_of(child),
        Action::Expect(Expected::Up(child)) => number_of(child),
        Action::Expect(Expected::Ended(child)) => number_of(child),
        _ => None,
    }
}

/// The number by which a child is meant, if it is by one.
#[tactic(auto, unfolding(crate::specs::Steps::number_of))]
fn number_of(child: Child) -> Option<u64>
    ensures { result ≡ number_of child }
{
    match child {
        Child::Named(_) => None,
        Child::Numbered(process) => Some(process),
    }
}

/// The place of the supervisor that a line means: by its path, or by the number of a process.
#[tactic(auto, unfolding(crate::specs::Steps::IsMeant, crate::specs::Steps::is_by_number))]
fn place_of(trial: &Trial, step: Step<'_>) -> Option<usize>
    ensures inside { IfSome result (λ place. place < length trial.now.seats) }
    ensures meant { IfSome result (IsMeant (is_by_number step.entry.path.now step.entry.action) step.entry.path.now trial.now.seats) }
{
    match number_meant(step.action) {
        Some(process) if step.path.is_empty() => Some(trial.place_of_process(process)),
        _ => trial.place_of(step.path),
    }
}

/// The time that a line says now, where it has not gone by.
#[tactic(auto, unfolding(crate::specs::Steps::time_at))]
fn time_at(now: u64, when: When) -> Option<u64>
    requires { now ≤ MAX_READING }
    ensures time { result ≡ time_at now when }
    ensures limit { IfSome result (λ time. time ≤ MAX_READING) }
{
    match when {
        When::Now => Some(now),
        When::At(time) => {
            if time < now {
                None
            } else {
                Some(time.min(MAX_READING))
            }
        }
        When::After(time) => Some(now.saturating_add(time).min(MAX_READING)),
    }
}

/// Whether a line names a child which the supervisor at this place doesn't have, and is taken all the same: of a call the answer is
/// the core's, and for a start that is planned a later call may add the child. Whoever mistyped the name is told so.
#[tactic(auto, unfolding(crate::specs::Steps::means_nobody, crate::specs::Steps::is_nobody))]
fn means_nobody(trial: &Trial, named: Option<Name>, place: Option<usize>) -> bool
    ensures { result ≡ means_nobody named place trial.now.seats }
{
    match named {
        None => false,
        Some(id) => match place {
            None => false,
            Some(place) => !trial.has_ended() && !knows(trial.seats(), place, &id),
        },
    }
}

/// Why nothing was done: before all else that the root has ended.
#[tactic(auto, unfolding(crate::specs::Steps::unless_ended))]
fn unless_ended(has_ended: bool, taken: ActionEnd) -> ActionEnd
    ensures { result ≡ unless_ended has_ended taken }
{
    if has_ended { ActionEnd::Ended } else { taken }
}

/// What becomes of an action at a supervisor that has no process, as none of its children has; the root has ended or not.
#[tactic(auto, unfolding(crate::specs::Steps::without_process, crate::specs::Steps::unless_ended))]
fn without_process(has_ended: bool, action: Action) -> ActionEnd
    ensures { result ≡ without_process has_ended action }
{
    match action {
        Action::Expect(Expected::Ended(_)) => ActionEnd::Done,
        Action::Expect(Expected::Over) => ActionEnd::Done,
        Action::Expect(_) => ActionEnd::Unmet,
        _ => unless_ended(has_ended, ActionEnd::NotRunning),
    }
}

/// What is told of an action: of one that names a child which isn't there before all else that the root has ended.
#[tactic(auto, unfolding(crate::specs::Steps::told_end))]
fn told_end(has_ended: bool, taken: ActionEnd) -> ActionEnd
    ensures { result ≡ told_end has_ended taken }
{
    match taken {
        ActionEnd::NoChild => unless_ended(has_ended, taken),
        taken => taken,
    }
}

/// What a line says is done at the supervisor at this place, which it means.
fn act_at(
    trial: &mut Trial,
    place: usize,
    action: Action,
    out: &mut Vec<u8>,
) -> Result<ActionEnd, Halt>
    requires { place < length trial.old.seats }
    ensures told { OnOk result (Tells trial.old trial.new out.old.items out.new.items) }
    ensures time { OnOk result (trial.new.time ≡ trial.old.time) }
    ensures acts { IfOk result (λ end. (known : ActionEnd) × (ActsAt action place trial.old known trial.new × (end ≡ told_end (is_root_over trial.new.seats) known))) }
{
    let taken = trial.act(place, action, out)?;
    Ok(told_end(trial.has_ended(), taken))
}

/// What a line says is done at the supervisor that it means.
fn act(trial: &mut Trial, step: Step<'_>, out: &mut Vec<u8>) -> Result<ActionEnd, Halt>
    ensures told { OnOk result (Tells trial.old trial.new out.old.items out.new.items) }
    ensures time { OnOk result (trial.new.time ≡ trial.old.time) }
    ensures deed { IfOk result (λ end. DoesDeed step.entry.path.now step.entry.action trial.old end trial.new) }
{
    let Some(place) = place_of(trial, step) else {
        return Ok(unless_ended(trial.has_ended(), ActionEnd::NoSupervisor));
    };
    if !trial.has_process(place) {
        return Ok(without_process(trial.has_ended(), step.action));
    }
    act_at(trial, place, step.action, out)
}

/// The clock goes to this time, and then what a line says is done.
fn do_at(trial: &mut Trial, time: u64, step: Step<'_>, out: &mut Vec<u8>) -> Result<Outcome, Halt>
    requires { time ≤ MAX_READING }
    ensures { IfOk result (λ outcome. TellsAt (saying step.entry.when step.entry.times step.entry.path.now step.entry.action) time outcome.taken trial.old trial.new out.old.items out.new.items) }
{
    trial.go_to(time, out)?;
    let is_unknown = means_nobody(trial, named_in(step.action), place_of(trial, step));
    let taken = act(trial, step, out)?;
    Ok(Outcome { is_unknown, taken })
}

/// What a line says: the clock goes on, and then it is done, unless its time has gone by.
fn do_step(trial: &mut Trial, step: Step<'_>, out: &mut Vec<u8>) -> Result<Outcome, Halt>
    ensures { IfOk result (λ outcome. TellsWhen (saying step.entry.when step.entry.times step.entry.path.now step.entry.action) (time_at trial.old.time step.entry.when) outcome.taken trial.old trial.new out.old.items out.new.items) }
{
    match time_at(trial.time(), step.when) {
        None => Ok(Outcome {
            is_unknown: false,
            taken: ActionEnd::TooLate,
        }),
        Some(time) => do_at(trial, time, step, out),
    }
}

/// Whether a line that came to this is done again, where it says so.
#[tactic(auto, unfolding(crate::specs::Steps::goes_on))]
fn goes_on(taken: ActionEnd, has_ended: bool) -> bool
    ensures { result ≡ goes_on taken has_ended }
{
    match taken {
        ActionEnd::Done => !has_ended,
        _ => false,
    }
}

/// What a line says, as often as it says. Where the root has ended meanwhile, the rest is left out.
pub fn do_times(trial: &mut Trial, step: Step<'_>, out: &mut Vec<u8>) -> Result<Outcome, Halt>
    ensures told { OnOk result (Tells trial.old trial.new out.old.items out.new.items) }
    ensures often { IfOk result (λ outcome. TellsTimes (saying step.entry.when step.entry.times step.entry.path.now step.entry.action) outcome.taken trial.old trial.new out.old.items out.new.items) }
{
    do_each(trial, step, out)
}

/// What a line says, time for time.
fn do_each(trial: &mut Trial, step: Step<'_>, out: &mut Vec<u8>) -> Result<Outcome, Halt>
    ensures { IfOk result (λ outcome. TellsTimes (saying step.entry.when step.entry.times step.entry.path.now step.entry.action) outcome.taken trial.old trial.new out.old.items out.new.items) }
{
    let mut outcome = do_step(trial, step, out)?;
    for done in 1..step.times {
        if !goes_on(outcome.taken, trial.has_ended()) {
            return Ok(outcome);
        }
        outcome = do_step(trial, step, out)?;
    }
    Ok(outcome)
}
