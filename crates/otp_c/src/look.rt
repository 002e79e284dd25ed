//! How supervisors and children stand, as structs of C.

ghost use Rattle.std.specs.Prelude.{◌≡◌};
ghost use Rattle.otp_c.specs.Stands.{ShowsChild, ShowsRow, ShowsSupervisor, deadline_in, last_cause, nested_number, number_in, recent};
ghost use Rattle.otp_c.specs.Words.{child_state_number, phase_number};

use crate::shapes::{
    CChild, CName, CSupervisor, auto_shutdown_number, cause_number, flag, name_out, no_name,
    some_name_out, spec_out, strategy_number,
};
use otp_driver::Driver;
use otp_driver::driven::{Link, Supervisor};
use otp_rules::{Ending, Phase};
use otp_spec::ChildSpec;
use otp_table::{Row, RowState};
use std::collections::VecDeque;

fn phase_number(phase: Phase) -> u32
    ensures { result ≡ phase_number phase }
{
    match phase {
        Phase::Unopened => 1,
        Phase::Open(_) => 2,
        Phase::Ended(..) => 3,
    }
}

/// The number of what made the supervisor end last; 0 where it never ended.
fn last_cause(phase: Phase, told: Option<Ending>) -> u32
    ensures { result ≡ last_cause phase told }
{
    match (phase, told) {
        (Phase::Ended(_, ending), _) => cause_number(&ending),
        (_, Some(ending)) => cause_number(&ending),
        (_, None) => 0,
    }
}

/// The id that a supervisor has as its parent's child.
fn id_of(child: &Option<ChildSpec>) -> CName
    ensures { ShowsChild child.now result }
{
    match child {
        None => no_name(),
        Some(spec) => name_out(&spec.id),
    }
}

/// How many of a supervisor's restarts lie within the last `period` seconds.
fn count_recent(times: &VecDeque<u64>, reading: u64, period: u64) -> u64
    ensures { result ≡ recent reading period times.now.items }
{
    let earliest = reading.saturating_sub(period.saturating_mul(1000));
    times.iter().filter(|time| **time >= earliest).count() as u64
}

/// A supervisor with this link as it stands.
pub fn supervisor_out(supervisor: &Supervisor, link: &Link, reading: u64) -> CSupervisor
    ensures { ShowsSupervisor supervisor.now link.now reading result }
{
    let flags = supervisor.flags();
    let counts = supervisor.counts();
    CSupervisor {
        intensity: flags.intensity,
        period: flags.period,
        process: link.process.unwrap_or(0),
        specs: counts.specs,
        active: counts.active,
        supervisors: counts.supervisors,
        workers: counts.workers,
        restarts: supervisor.count_restarts(),
        in_period: count_recent(supervisor.kept_restarts(), reading, flags.period),
        starts: link.starts,
        rows: supervisor.rows().len() as u64,
        parent: link.parent.min(1_000_000) as u32,
        strategy: strategy_number(flags.strategy),
        auto_shutdown: auto_shutdown_number(flags.auto_shutdown),
        phase: phase_number(supervisor.phase()),
        has_process: flag(link.process.is_some()),
        is_stopping: flag(link.is_stopping),
        has_open_work: flag(supervisor.has_open_work()),
        cause: last_cause(supervisor.phase(), link.ended),
        id: id_of(&link.child),
    }
}

fn state_number(state: &RowState) -> u32
    ensures { result ≡ child_state_number state.now }
{
    match state {
        RowState::Undefined => 1,
        RowState::Starting(..) => 2,
        RowState::Up(_) => 3,
        RowState::Asked(..) => 4,
        RowState::Killed(_) => 5,
        RowState::Restarting(_) => 6,
    }
}

/// The number of a child's process, or the waiting retry's; 0 where there is none.
fn number_of(state: &RowState) -> u64
    ensures { result ≡ number_in state.now }
{
    match *state {
        RowState::Starting(number, _)
        | RowState::Up(number)
        | RowState::Asked(number, _)
        | RowState::Killed(number)
        | RowState::Restarting(number) => number,
        RowState::Undefined => 0,
    }
}

fn deadline_of(state: &RowState) -> Option<u64>
    ensures { result ≡ deadline_in state.now }
{
    match *state {
        RowState::Asked(_, deadline) => deadline,
        _ => None,
    }
}

/// The number of the child's own table, or 0.
fn nested_of(nested: Option<usize>) -> u32
    ensures { result ≡ nested_number nested }
{
    match nested {
        None => 0,
        Some(below) => below.min(1_000_000) as u32,
    }
}

/// The child of this row, of the supervisor of this number, as it stands.
pub fn row_out(driver: &Driver, place: usize, row: &Row) -> CChild
    ensures { ShowsRow driver.now.links place row.now result }
{
    let deadline = deadline_of(&row.state);
    CChild {
        number: number_of(&row.state),
        deadline: deadline.unwrap_or(0),
        state: state_number(&row.state),
        has_deadline: flag(deadline.is_some()),
        nested: nested_of(driver.nested(place, row)),
        spec: spec_out(&row.spec),
        id: some_name_out(&row.id),
    }
}
