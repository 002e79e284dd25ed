//! The verdict of a run: who gave up and when, whether the root survived, and how much of each period was used.

ghost use Rattle.std.specs.Prelude.{◌≡◌, ◌++◌, OnOk, drop};
ghost use Rattle.otp_try.specs.Fate.{awaits_text};
ghost use Rattle.otp_trial.specs.Played.{state_in};
ghost use Rattle.otp_try.specs.Verdict.{apart_head, apart_line, apart_text, clock_text, fate_line, fate_text, give_ups_text, gives_up_text, is_judged, lines_of, most_text, often_text, once_text, run_verdict, since_text, time_after, undecided_text, verdict_of, verdicts_of, who_text, whole_verdict};

use crate::remarks::fate::{Fate, fate_of, is_open, write_awaits};
use crate::remarks::state::write_used;
use otp_spec::SupFlags;
use otp_table::Row;
use otp_trial::story::Strain;
use otp_trial::story::telling::write_after;
use otp_trial::story::time::write_time;
use otp_trial::{Clock, TriedSupervisor};
use std::alloc::AllocError;

/// Appends a time after a word.
#[tactic(auto, unfolding(crate::specs::Verdict::time_after))]
fn write_time_after(before: &[u8], time: u64, out: &mut Vec<u8>) -> Result<(), AllocError>
    ensures { OnOk result (out.new.items ≡ out.old.items ++ time_after before.now time) }
{
    out.extend_from_slice(before)?;
    write_time(time, out)
}

/// Appends when a supervisor gave up that did so once.
#[tactic(auto, unfolding(crate::specs::Verdict::once_text))]
fn write_once(strain: Strain, out: &mut Vec<u8>) -> Result<(), AllocError>
    ensures { OnOk result (out.new.items ≡ out.old.items ++ once_text strain) }
{
    write_time_after(b" gave up at ", strain.last, out)
}

/// Appends how often a supervisor gave up that did so more often, and when last.
#[tactic(auto, unfolding(crate::specs::Verdict::often_text))]
fn write_often(strain: Strain, out: &mut Vec<u8>) -> Result<(), AllocError>
    ensures { OnOk result (out.new.items ≡ out.old.items ++ often_text strain) }
{
    write_after(b" gave up ", strain.times, out)?;
    out.extend_from_slice(b" times, last at ")?;
    write_time(strain.last, out)
}

/// Appends when a supervisor gave up, and how often, if more than once.
#[tactic(auto, unfolding(crate::specs::Verdict::give_ups_text))]
fn write_give_ups(strain: Strain, out: &mut Vec<u8>) -> Result<(), AllocError>
    ensures { OnOk result (out.new.items ≡ out.old.items ++ give_ups_text strain) }
{
    if strain.times == 1 {
        write_once(strain, out)
    } else {
        write_often(strain, out)
    }
}

/// Appends since when a supervisor is on its way to its end, and what it awaits.
#[tactic(auto, unfolding(crate::specs::Verdict::since_text))]
fn write_since(
    what: &[u8],
    time: u64,
    path: &[u8],
    rows: &[Row],
    out: &mut Vec<u8>,
) -> Result<(), AllocError>
    ensures { OnOk result (out.new.items ≡ out.old.items ++ since_text what.now time (awaits_text path.now rows.now)) }
{
    write_time_after(what, time, out)?;
    out.extend_from_slice(b" and awaits ")?;
    write_awaits(path, rows, out)
}

/// Appends what came of a supervisor with this path and these children.
#[tactic(auto, unfolding(crate::specs::Verdict::fate_text))]
fn write_fate(
    fate: Fate,
    strain: Strain,
    path: &[u8],
    rows: &[Row],
    out: &mut Vec<u8>,
) -> Result<(), AllocError>
    ensures { OnOk result (out.new.items ≡ out.old.items ++ fate_text fate strain (awaits_text path.now rows.now)) }
{
    match fate {
        Fate::GaveUp => write_give_ups(strain, out),
        Fate::Ended => out.extend_from_slice(b" ended"),
        Fate::Survived => out.extend_from_slice(b" survived"),
        Fate::Lasted => out.extend_from_slice(b" never gave up"),
        Fate::Asked(time) => write_since(b" was asked to stop at ", time, path, rows, out),
        Fate::GivesUp(time) => write_since(b" has given up at ", time, path, rows, out),
        Fate::Undecided => {
            out.extend_from_slice(b" awaits ")?;
            write_awaits(path, rows, out)
        }
    }
}

/// Appends that it isn't decided what comes of a supervisor, where it isn't.
#[tactic(auto, unfolding(crate::specs::Verdict::undecided_text))]
fn write_undecided(fate: Fate, out: &mut Vec<u8>) -> Result<(), AllocError>
    ensures { OnOk result (out.new.items ≡ out.old.items ++ undecided_text fate) }
{
    match fate {
        Fate::Undecided => out.extend_from_slice(b"not decided: "),
        Fate::GaveUp | Fate::Ended | Fate::Survived | Fate::Lasted => Ok(()),
        Fate::Asked(_) | Fate::GivesUp(_) => Ok(()),
    }
}

/// Appends which supervisor it is.
#[tactic(auto, unfolding(crate::specs::Verdict::who_text))]
fn write_who(is_root: bool, path: &[u8], out: &mut Vec<u8>) -> Result<(), AllocError>
    ensures { OnOk result (out.new.items ≡ out.old.items ++ who_text is_root path.now) }
{
    if is_root {
        out.extend_from_slice(b"the root")
    } else {
        out.extend_from_slice(path)
    }
}

/// Appends the most restarts that lay in its period.
#[tactic(auto, unfolding(crate::specs::Verdict::most_text))]
fn write_most(flags: &SupFlags, strain: Strain, out: &mut Vec<u8>) -> Result<(), AllocError>
    ensures { OnOk result (out.new.items ≡ out.old.items ++ most_text flags.now strain) }
{
    out.extend_from_slice(b", at most ")?;
    write_used(flags, strain.most, out)
}

/// Appends by whose clock a line tells.
#[tactic(auto, unfolding(crate::specs::Verdict::apart_head))]
fn write_apart_head(out: &mut Vec<u8>) -> Result<(), AllocError>
    ensures { OnOk result (out.new.items ≡ out.old.items ++ apart_head) }
{
    out.extend_from_slice(b"verdict: by OTP's clock ")
}

/// Appends who may give up at this time.
#[tactic(auto, unfolding(crate::specs::Verdict::gives_up_text))]
fn write_gives_up(
    is_root: bool,
    path: &[u8],
    time: u64,
    out: &mut Vec<u8>,
) -> Result<(), AllocError>
    ensures { OnOk result (out.new.items ≡ out.old.items ++ gives_up_text (who_text is_root path.now) time) }
{
    write_who(is_root, path, out)?;
    write_time_after(b" may give up at ", time, out)
}

/// Appends that a supervisor may give up at this time where its clock shows whole seconds.
#[tactic(auto, unfolding(crate::specs::Verdict::apart_line))]
fn write_apart_line(
    is_root: bool,
    path: &[u8],
    time: u64,
    out: &mut Vec<u8>,
) -> Result<(), AllocError>
    ensures { OnOk result (out.new.items ≡ out.old.items ++ apart_line (who_text is_root path.now) time) }
{
    write_apart_head(out)?;
    write_gives_up(is_root, path, time, out)?;
    out.extend_from_slice(b", as the second falls\n")
}

/// Appends when a supervisor may give up where its clock shows whole seconds, if by this clock it lives on then.
#[tactic(auto, unfolding(crate::specs::Verdict::apart_text))]
fn write_apart(
    is_root: bool,
    path: &[u8],
    apart: Option<u64>,
    out: &mut Vec<u8>,
) -> Result<(), AllocError>
    ensures { OnOk result (out.new.items ≡ out.old.items ++ apart_text (who_text is_root path.now) apart) }
{
    match apart {
        None => Ok(()),
        Some(time) => write_apart_line(is_root, path, time, out),
    }
}

/// Appends what came of a supervisor, and how much of its period was used.
#[tactic(auto, unfolding(crate::specs::Verdict::fate_line))]
fn write_fate_line(
    is_root: bool,
    fate: Fate,
    seat: &TriedSupervisor,
    out: &mut Vec<u8>,
) -> Result<(), AllocError>
    ensures { OnOk result (out.new.items ≡ out.old.items ++ fate_line is_root fate (awaits_text seat.now.path (state_in seat.now).rows) seat.now) }
{
    let strain = seat.strain();
    out.extend_from_slice(b"verdict: ")?;
    write_undecided(fate, out)?;
    write_who(is_root, seat.path(), out)?;
    write_fate(fate, strain, seat.path(), seat.rows(), out)?;
    write_most(&seat.flags(), strain, out)?;
    out.extend_from_slice(b"\n")
}

/// Whether a supervisor is judged: the root always, and another if it had restarts, gave up, or stops or starts children.
#[tactic(auto, unfolding(crate::specs::Verdict::is_judged))]
fn is_judged(is_root: bool, is_running: bool, seat: &TriedSupervisor) -> bool
    ensures { result ≡ is_judged is_root is_running seat.now }
{
    let strain = seat.strain();
    is_root || strain.most > 0 || strain.times > 0 || is_open(is_running, seat)
}

/// Appends the lines of a supervisor, which has a process or not.
#[tactic(auto, unfolding(crate::specs::Verdict::lines_of))]
fn write_lines_of(
    is_root: bool,
    is_running: bool,
    seat: &TriedSupervisor,
    out: &mut Vec<u8>,
) -> Result<(), AllocError>
    ensures { OnOk result (out.new.items ≡ out.old.items ++ lines_of is_root is_running seat.now) }
{
    write_fate_line(is_root, fate_of(is_root, is_running, seat), seat, out)?;
    write_apart(is_root, seat.path(), seat.strain().apart, out)
}

/// Appends the lines of a supervisor, if it is judged.
#[tactic(auto, unfolding(crate::specs::Verdict::verdict_of))]
fn write_verdict_of(
    is_root: bool,
    is_running: bool,
    seat: &TriedSupervisor,
    out: &mut Vec<u8>,
) -> Result<(), AllocError>
    ensures { OnOk result (out.new.items ≡ out.old.items ++ verdict_of is_root is_running seat.now) }
{
    if is_judged(is_root, is_running, seat) {
        write_lines_of(is_root, is_running, seat, out)
    } else {
        Ok(())
    }
}

/// Appends the lines of the supervisors below the root, of which these have a process.
fn write_others(
    seats: &[TriedSupervisor],
    running: &[bool],
    out: &mut Vec<u8>,
) -> Result<(), AllocError>
    ensures { OnOk result (out.new.items ≡ out.old.items ++ verdicts_of seats.now running.now) }
{
    match seats {
        [] => Ok(()),
        [seat, seats @ ..] => match running {
            [] => Ok(()),
            [is_running, running @ ..] => {
                write_verdict_of(false, *is_running, seat, out)?;
                write_others(seats, running, out)
            }
        },
    }
}

/// All but the first, if there is one.
fn behind_first(running: &[bool]) -> &[bool]
    ensures { result.now ≡ drop 1 running.now }
{
    match running {
        [] => &[],
        [_, others @ ..] => others,
    }
}

/// Appends the verdict of a run of these supervisors, of which the first is the root and these have a process.
#[tactic(auto, unfolding(crate::specs::Verdict::run_verdict))]
fn write_run_verdict(
    seats: &[TriedSupervisor],
    running: &[bool],
    out: &mut Vec<u8>,
) -> Result<(), AllocError>
    ensures { OnOk result (out.new.items ≡ out.old.items ++ run_verdict seats.now running.now) }
{
    match seats {
        [] => Ok(()),
        [root, others @ ..] => {
            write_verdict_of(true, true, root, out)?;
            write_others(others, behind_first(running), out)
        }
    }
}

/// Appends that by this clock nothing is told of the phase of a second, where it isn't.
#[tactic(auto, unfolding(crate::specs::Verdict::clock_text))]
fn write_clock(clock: Clock, out: &mut Vec<u8>) -> Result<(), AllocError>
    ensures { OnOk result (out.new.items ≡ out.old.items ++ clock_text clock) }
{
    match clock {
        Clock::Milliseconds => Ok(()),
        Clock::Seconds => out.extend_from_slice(
            b"verdict: so it is if a second begins at 0.000 s; without --clock each phase is told\n",
        ),
    }
}

/// Appends the verdict of a run by this clock, if something was played.
#[tactic(auto, unfolding(crate::specs::Verdict::whole_verdict))]
pub fn write_verdict(
    is_played: bool,
    clock: Clock,
    seats: &[TriedSupervisor],
    running: &[bool],
    out: &mut Vec<u8>,
) -> Result<(), AllocError>
    ensures { OnOk result (out.new.items ≡ out.old.items ++ whole_verdict is_played clock seats.now running.now) }
{
    if !is_played {
        return out.extend_from_slice(b"verdict: none, since nothing was played\n");
    }
    write_run_verdict(seats, running, out)?;
    write_clock(clock, out)
}
