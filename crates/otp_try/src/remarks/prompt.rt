//! What is shown of the supervisors of a trial: the prompt, and what stands at the end of a run.

ghost use Rattle.std.specs.Prelude.{◌≡◌, ◌++◌, OnOk, drop, length};
ghost use Rattle.otp_try.specs.Prompt.{awaited_by, awaited_by_all, next_text, prompt_text, root_text, seat_text, standing_line, standing_lines, standing_text, standings_text, waits_text};

use crate::remarks::awaited::write_awaited;
use crate::remarks::state::write_state;
use otp_trial::TriedSupervisor;
use otp_trial::story::telling::write_heading;
use otp_trial::story::time::write_time;
use std::alloc::AllocError;

/// Appends that a supervisor has ended, or how it stands.
#[tactic(auto, unfolding(crate::specs::Prompt::seat_text))]
fn write_seat(seat: &TriedSupervisor, now: u64, out: &mut Vec<u8>) -> Result<(), AllocError>
    ensures { OnOk result (out.new.items ≡ out.old.items ++ seat_text seat.now now) }
{
    if seat.has_ended() {
        return out.extend_from_slice(b"the supervisor has ended");
    }
    write_state(&seat.flags(), seat.rows(), seat.kept_restarts(), now, out)
}

/// Appends how a supervisor stands, behind the time and its path.
#[tactic(auto, unfolding(crate::specs::Prompt::standing_text))]
fn write_standing(seat: &TriedSupervisor, now: u64, out: &mut Vec<u8>) -> Result<(), AllocError>
    ensures { OnOk result (out.new.items ≡ out.old.items ++ standing_text seat.now now) }
{
    write_time(now, out)?;
    out.extend_from_slice(b"  ")?;
    write_heading(seat.path(), out)?;
    write_seat(seat, now, out)
}

/// Appends how the root stands, which is the first.
#[tactic(auto, unfolding(crate::specs::Prompt::root_text))]
fn write_root(seats: &[TriedSupervisor], now: u64, out: &mut Vec<u8>) -> Result<(), AllocError>
    ensures { OnOk result (out.new.items ≡ out.old.items ++ root_text seats.now now) }
{
    match seats {
        [] => Ok(()),
        [root, ..] => write_standing(root, now, out),
    }
}

/// Appends when next something happens by itself.
#[tactic(auto, unfolding(crate::specs::Prompt::next_text))]
fn write_next(next: Option<u64>, out: &mut Vec<u8>) -> Result<(), AllocError>
    ensures { OnOk result (out.new.items ≡ out.old.items ++ next_text next) }
{
    match next {
        None => Ok(()),
        Some(time) => {
            out.extend_from_slice(b", next at ")?;
            write_time(time, out)
        }
    }
}

/// Appends that events wait until what is awaited is done.
#[tactic(auto, unfolding(crate::specs::Prompt::waits_text))]
fn write_waits(waits: bool, out: &mut Vec<u8>) -> Result<(), AllocError>
    ensures { OnOk result (out.new.items ≡ out.old.items ++ waits_text waits) }
{
    if waits {
        out.extend_from_slice(b", what came since waits")
    } else {
        Ok(())
    }
}

/// Appends the prompt, for a person.
#[tactic(auto, unfolding(crate::specs::Prompt::prompt_text))]
pub fn write_prompt(
    seats: &[TriedSupervisor],
    now: u64,
    next: Option<u64>,
    waits: bool,
    out: &mut Vec<u8>,
) -> Result<(), AllocError>
    ensures { OnOk result (out.new.items ≡ out.old.items ++ prompt_text seats.now now next waits) }
{
    write_root(seats, now, out)?;
    write_next(next, out)?;
    write_waits(waits, out)?;
    out.extend_from_slice(b"> ")
}

/// Appends a line of how a supervisor stands, if it has a process.
#[tactic(auto, unfolding(crate::specs::Prompt::standing_line))]
fn write_line(
    now: u64,
    seat: &TriedSupervisor,
    is_running: bool,
    out: &mut Vec<u8>,
) -> Result<(), AllocError>
    ensures { OnOk result (out.new.items ≡ out.old.items ++ standing_line now seat.now is_running) }
{
    if !is_running {
        return Ok(());
    }
    write_standing(seat, now, out)?;
    out.extend_from_slice(b"\n")
}

/// Appends how the supervisors below the root stand, a line for each that has a process.
fn write_below(
    now: u64,
    seats: &[TriedSupervisor],
    running: &[bool],
    out: &mut Vec<u8>,
) -> Result<(), AllocError>
    requires { length running.now ≡ length seats.now }
    ensures { OnOk result (out.new.items ≡ out.old.items ++ standing_lines now (drop 1 seats.now) (drop 1 running.now)) }
{
    for place in 1..seats.len() {
        write_line(now, &seats[place], running[place], out)?;
    }
    Ok(())
}

/// Appends what a supervisor awaits, if it has a process.
#[tactic(auto, unfolding(crate::specs::Prompt::awaited_by))]
fn write_awaited_by(
    seat: &TriedSupervisor,
    is_running: bool,
    out: &mut Vec<u8>,
) -> Result<(), AllocError>
    ensures { OnOk result (out.new.items ≡ out.old.items ++ awaited_by seat.now is_running) }
{
    if !is_running {
        return Ok(());
    }
    write_awaited(seat.path(), seat.rows(), seat.has_waiting(), out)
}

/// Appends what the supervisors await, of which each has a process or not.
fn write_all_awaited(
    seats: &[TriedSupervisor],
    running: &[bool],
    out: &mut Vec<u8>,
) -> Result<(), AllocError>
    requires { length running.now ≡ length seats.now }
    ensures { OnOk result (out.new.items ≡ out.old.items ++ awaited_by_all seats.now running.now) }
{
    for place in 0..seats.len() {
        write_awaited_by(&seats[place], running[place], out)?;
    }
    Ok(())
}

/// Appends how the supervisors stand, of which each has a process or not, and what they await.
#[tactic(auto, unfolding(crate::specs::Prompt::standings_text))]
pub fn write_standings(
    now: u64,
    seats: &[TriedSupervisor],
    running: &[bool],
    out: &mut Vec<u8>,
) -> Result<(), AllocError>
    requires { length running.now ≡ length seats.now }
    ensures { OnOk result (out.new.items ≡ out.old.items ++ standings_text now seats.now running.now) }
{
    write_root(seats, now, out)?;
    out.extend_from_slice(b"\n")?;
    write_below(now, seats, running, out)?;
    write_all_awaited(seats, running, out)
}
