//! Processes that do late what they were asked to: end, or start.

ghost use Rattle.std.specs.Prelude.{◌≡◌, ◌<◌, ◌++◌, IfSome, OnOk, filter, length, position};
ghost use Rattle.otp_trial.specs.Late.{delayed, forgotten, is_due, is_elsewhere, is_late_of, started_late};

use crate::processes::links::has_process_at;
use crate::processes::world::Deed;
use otp_driver::driven::Link;
use std::alloc::AllocError;

/// What a process does late.
#[derive(Clone, Copy, Debug, PartialEq, Eq)]
pub enum Due {
    /// It shuts down.
    End,
    /// It has started, and this comes of it.
    Start(Deed),
}

/// The process of this number, of a child of the supervisor at this place, does this at this time, as it was asked to.
#[derive(Clone, Copy, Debug, PartialEq, Eq)]
pub struct Late {
    pub time: u64,
    pub place: usize,
    pub process: u64,
    pub due: Due,
}

/// Whether the process that is late has this number.
#[tactic(auto, unfolding(crate::specs::Late::is_late_of))]
fn is_late_of(process: u64, late: &Late) -> bool
    ensures { result ≡ is_late_of process late.now }
{
    late.process == process
}

/// The place of the process with this number among those that are late.
fn late_of(late: &[Late], process: u64) -> Option<usize>
    ensures place { result ≡ position (is_late_of process) late.now }
    ensures inside { IfSome result (λ at. at < length late.now) }
{
    late.iter().position(|late| is_late_of(process, late))
}

/// The process of this number is gone, and does nothing later.
#[tactic(auto, unfolding(crate::specs::Late::forgotten, crate::specs::Late::without_late))]
pub(crate) fn forget(late: &mut Vec<Late>, process: u64)
    ensures { late.new.items ≡ forgotten process late.old.items }
{
    let found = late_of(late.as_slice(), process);
    if let Some(at) = found {
        late.remove(at);
    }
}

/// The process of this number, of a child of the supervisor at this place, ends so many milliseconds after now, or not.
#[tactic(auto, unfolding(crate::specs::Late::delayed))]
pub(crate) fn delay(
    late: &mut Vec<Late>,
    now: u64,
    place: usize,
    process: u64,
    delay: Option<u64>,
) -> Result<(), AllocError>
    ensures { OnOk result (late.new.items ≡ late.old.items ++ delayed now place process delay) }
{
    match delay {
        None => Ok(()),
        Some(delay) => {
            let one = Late {
                time: now.saturating_add(delay),
                place,
                process,
                due: Due::End,
            };
            late.push(one).map_err(|_| AllocError)
        }
    }
}

/// What comes of a start comes so many milliseconds after now; where it takes no time, nothing comes late.
#[tactic(auto, unfolding(crate::specs::Late::started_late))]
pub(crate) fn delay_start(
    late: &mut Vec<Late>,
    now: u64,
    place: usize,
    process: u64,
    time: u64,
    deed: Deed,
) -> Result<(), AllocError>
    ensures { OnOk result (late.new.items ≡ late.old.items ++ started_late now place process time deed) }
{
    if time == 0 {
        return Ok(());
    }
    let one = Late {
        time: now.saturating_add(time),
        place,
        process,
        due: Due::Start(deed),
    };
    late.push(one).map_err(|_| AllocError)
}

/// Whether it isn't a child of the supervisor at this place that is late.
fn is_elsewhere(place: usize, late: &Late) -> bool
    ensures { result ≡ is_elsewhere place late.now }
{
    late.place != place
}

/// The supervisor at this place has lost its process: nothing comes late of what that had asked for.
pub(crate) fn leave(late: &mut Vec<Late>, place: usize)
    ensures { late.new.items ≡ filter (is_elsewhere place) late.old.items }
{
    late.retain(|one| is_elsewhere(place, one));
}

/// Whether it comes up to this time.
fn is_due(now: u64, late: &Late) -> bool
    ensures { result ≡ is_due now late.now }
{
    late.time <= now
}

/// The place of the first that is due at this time.
pub(crate) fn due_at(late: &[Late], now: u64) -> Option<usize>
    ensures place { result ≡ position (is_due now) late.now }
    ensures inside { IfSome result (λ at. at < length late.now) }
{
    late.iter().position(|late| is_due(now, late))
}

/// The earlier of two times, of which the first may be missing.
fn earlier_of(one: Option<u64>, other: u64) -> u64 {
    match one {
        None => other,
        Some(one) => one.min(other),
    }
}

/// When the next of them is due whose supervisor has a process.
pub(crate) fn next_time(late: &[Late], links: &[Link]) -> Option<u64> {
    let mut next = None;
    for late in late {
        if has_process_at(links, late.place) {
            next = Some(earlier_of(next, late.time));
        }
    }
    next
}
