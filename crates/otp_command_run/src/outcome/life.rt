//! Why supervisors ended, a line for each.

ghost use Rattle.std.specs.Prelude.{◌≡◌, ◌++◌, OnOk};
ghost use Rattle.otp_command_run.specs.Lives.{TellsLives, counts_text, end_text, failed_text, given_up_text, giving_up, life_line, lives_text, significant, significant_text, supervisor_text, unstarted, within};

use crate::outcome::words::write_count;
use otp_file::TreeSpec;
use otp_reason::Name;
use otp_rules::{Ending, Phase};
use otp_spec::SupFlags;
use otp_text::{write_name, write_number};
use otp_tree::TableReport;
use otp_trial::{TriedSupervisor, plant_seats};
use std::alloc::{AllocError, Global};

/// The path of a supervisor whose children have this in front of their ids.
#[tactic(auto, unfolding(crate::specs::Lives::supervisor_text))]
pub fn supervisor_name(path: &[u8]) -> &[u8]
    ensures { result.now ≡ supervisor_text path.now }
{
    match path {
        [] => b"root",
        path => &path[..path.len() - 1],
    }
}

/// Appends how the sentence of a supervisor that gave up begins. A long text stands alone, since the prover's search loses it
/// among others.
#[tactic(auto, unfolding(crate::specs::Lives::giving_up))]
fn write_giving_up(out: &mut Vec<u8>) -> Result<(), AllocError>
    ensures { OnOk result (out.new.items ≡ out.old.items ++ giving_up) }
{
    out.extend_from_slice(b"gave up: more than ")
}

/// Appends a period.
#[tactic(auto, unfolding(crate::specs::Lives::within))]
fn write_within(period: u64, out: &mut Vec<u8>) -> Result<(), AllocError>
    ensures { OnOk result (out.new.items ≡ out.old.items ++ within period) }
{
    out.extend_from_slice(b" within ")?;
    write_number(period, out)?;
    out.extend_from_slice(b" s")
}

/// Appends that a supervisor gave up.
#[tactic(auto, unfolding(crate::specs::Lives::given_up_text))]
fn write_given_up(flags: &SupFlags, out: &mut Vec<u8>) -> Result<(), AllocError>
    ensures { OnOk result (out.new.items ≡ out.old.items ++ given_up_text flags.now) }
{
    write_giving_up(out)?;
    write_count(flags.intensity, b" restart", b" restarts", out)?;
    write_within(flags.period, out)
}

/// Appends why a supervisor ended that has significant children.
#[tactic(auto, unfolding(crate::specs::Lives::significant))]
fn write_since(out: &mut Vec<u8>) -> Result<(), AllocError>
    ensures { OnOk result (out.new.items ≡ out.old.items ++ significant) }
{
    out.extend_from_slice(b"ended, since its significant child #")
}

/// Appends that a significant child ended.
#[tactic(auto, unfolding(crate::specs::Lives::significant_text))]
fn write_significant(process: u64, out: &mut Vec<u8>) -> Result<(), AllocError>
    ensures { OnOk result (out.new.items ≡ out.old.items ++ significant_text process) }
{
    write_since(out)?;
    write_number(process, out)?;
    out.extend_from_slice(b" ended")
}

/// Appends that a supervisor didn't start.
#[tactic(auto, unfolding(crate::specs::Lives::unstarted))]
fn write_unstarted(out: &mut Vec<u8>) -> Result<(), AllocError>
    ensures { OnOk result (out.new.items ≡ out.old.items ++ unstarted) }
{
    out.extend_from_slice(b"didn't start: its child ")
}

/// Appends that a child failed to start with its supervisor.
#[tactic(auto, unfolding(crate::specs::Lives::failed_text))]
fn write_failed(id: &Name, out: &mut Vec<u8>) -> Result<(), AllocError>
    ensures { OnOk result (out.new.items ≡ out.old.items ++ failed_text id.now) }
{
    write_unstarted(out)?;
    write_name(id, out)?;
    out.extend_from_slice(b" failed to")
}

/// Appends why a supervisor that has these flags ended, or that it hasn't.
///
/// # Errors
///
/// Where memory is refused.
#[tactic(auto, unfolding(crate::specs::Lives::end_text))]
pub fn write_end(flags: &SupFlags, phase: Phase, out: &mut Vec<u8>) -> Result<(), AllocError>
    ensures { OnOk result (out.new.items ≡ out.old.items ++ end_text flags.now phase) }
{
    match phase {
        Phase::Unopened => out.extend_from_slice(b"never started"),
        Phase::Open(_) => out.extend_from_slice(b"runs"),
        Phase::Ended(_, Ending::Asked) => out.extend_from_slice(b"was asked to stop"),
        Phase::Ended(_, Ending::Significant(process)) => write_significant(process, out),
        Phase::Ended(_, Ending::InitFailed(id)) => write_failed(&id, out),
        Phase::Ended(_, Ending::Intensity) => write_given_up(flags, out),
    }
}

/// Appends how many starts a supervisor ordered, and how many restarts it made.
#[tactic(auto, unfolding(crate::specs::Lives::counts_text))]
fn write_counts(report: &TableReport, out: &mut Vec<u8>) -> Result<(), AllocError>
    ensures { OnOk result (out.new.items ≡ out.old.items ++ counts_text report.now.core) }
{
    write_count(report.starts(), b" start, ", b" starts, ", out)?;
    write_count(report.restarts(), b" restart, ", b" restarts, ", out)
}

/// Appends the line of a supervisor.
#[tactic(auto, unfolding(crate::specs::Lives::life_line))]
fn write_life(
    seat: &TriedSupervisor,
    report: &TableReport,
    out: &mut Vec<u8>,
) -> Result<(), AllocError>
    ensures { OnOk result (out.new.items ≡ out.old.items ++ life_line seat.now report.now) }
{
    out.extend_from_slice(supervisor_name(seat.path()))?;
    out.extend_from_slice(b": ")?;
    write_counts(report, out)?;
    write_end(&seat.flags(), report.core.phase(), out)?;
    out.extend_from_slice(b"\n")
}

/// Appends the lines of supervisors, by their numbers.
#[tactic(auto, unfolding(crate::specs::Lives::lives_text))]
fn write_all_lives(
    seats: &[TriedSupervisor],
    tables: &[TableReport],
    out: &mut Vec<u8>,
) -> Result<(), AllocError>
    ensures { OnOk result (out.new.items ≡ out.old.items ++ lives_text seats.now tables.now) }
{
    match seats {
        [] => Ok(()),
        [seat, seats @ ..] => match tables {
            [] => Ok(()),
            [report, tables @ ..] => {
                write_life(seat, report, out)?;
                write_all_lives(seats, tables, out)
            }
        },
    }
}

/// Appends a line for each supervisor of a tree that was run, by its path: how many starts of children it ordered in all its
/// life, how many restarts it made since it was started last, and how it ended and why.
///
/// # Errors
///
/// Where memory is refused.
pub fn write_lives(
    alloc: Global,
    tree: &TreeSpec,
    tables: &[TableReport],
    out: &mut Vec<u8>,
) -> Result<(), AllocError>
    ensures { OnOk result (TellsLives tree.now tables.now out.old.items out.new.items) }
{
    let Ok(seats) = plant_seats(alloc, tree) else {
        return Err(AllocError);
    };
    let written = write_all_lives(seats.as_slice(), tables, out);
    drop(seats);
    written
}
