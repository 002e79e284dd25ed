//! What a tree awaits whose run isn't finished.

ghost use Rattle.std.specs.Prelude.{◌≡◌, ◌++◌, OnOk, option_map};
ghost use Rattle.otp_core.specs.View.{state_of};
ghost use Rattle.otp_command_run.specs.Awaited.{TellsAwaited, advice, awaited_in, awaited_text, id_text, is_awaited, last_wait, living_text, process_text, state_text, unfinished, wait_at, wait_text};

use crate::outcome::words::write_count;
use otp_file::TreeSpec;
use otp_reason::Name;
use otp_table::{Row, RowState};
use otp_text::{write_name, write_number};
use otp_tree::TableReport;
use otp_trial::{TriedSupervisor, plant_seats};
use std::alloc::{AllocError, Global};

/// What ran out before a tree had ended.
#[derive(Clone, Copy, Debug, PartialEq, Eq)]
pub enum Limit {
    /// The turns of its threads.
    Turns,
    /// The time that its stop may take.
    Grace,
}

/// A child that is awaited, and what stands in front of its id: the ids of the supervisors from the root's child on.
#[derive(Clone, Copy)]
struct Wait<'a> {
    path: &'a [u8],
    child: Row,
}

/// Whether a child in this state was ordered to start or to end, and hasn't.
#[tactic(auto, unfolding(crate::specs::Awaited::is_awaited))]
fn is_awaited(state: RowState) -> bool
    ensures { result ≡ is_awaited state }
{
    match state {
        RowState::Starting(..) | RowState::Asked(..) | RowState::Killed(_) => true,
        RowState::Undefined | RowState::Up(_) | RowState::Restarting(_) => false,
    }
}

/// The first of these children that is awaited.
#[tactic(auto, unfolding(crate::specs::Awaited::awaited_in, crate::specs::Awaited::awaited_if))]
fn awaited_in(rows: &[Row]) -> Option<Row>
    ensures { result ≡ awaited_in rows.now }
{
    match rows {
        [] => None,
        [first, others @ ..] => {
            if is_awaited(first.state) {
                Some(*first)
            } else {
                awaited_in(others)
            }
        }
    }
}

/// What a supervisor awaits first.
#[tactic(auto, unfolding(crate::specs::Awaited::wait_at))]
fn wait_in<'a>(seat: &'a TriedSupervisor, report: &'a TableReport) -> Option<Wait<'a>>
    ensures { option_map (λ wait. (wait.path.now, wait.child)) result ≡ wait_at seat.now.path (awaited_in (state_of report.now.core).rows) }
{
    match awaited_in(report.core.rows()) {
        Some(child) => Some(Wait {
            path: seat.path(),
            child,
        }),
        None => None,
    }
}

/// What the last supervisor that waits, by their numbers, awaits first: none that it waits for waits itself.
#[tactic(auto, unfolding(crate::specs::Awaited::last_wait, crate::specs::Awaited::last_of))]
fn last_wait<'a>(seats: &'a [TriedSupervisor], tables: &'a [TableReport]) -> Option<Wait<'a>>
    ensures { option_map (λ wait. (wait.path.now, wait.child)) result ≡ last_wait seats.now tables.now }
{
    match seats {
        [] => None,
        [seat, seats @ ..] => match tables {
            [] => None,
            [report, tables @ ..] => match last_wait(seats, tables) {
                Some(wait) => Some(wait),
                None => wait_in(seat, report),
            },
        },
    }
}

/// Appends the id of a child; a dynamic one has none.
#[tactic(auto, unfolding(crate::specs::Awaited::id_text))]
fn write_id(id: Option<Name>, out: &mut Vec<u8>) -> Result<(), AllocError>
    ensures { OnOk result (out.new.items ≡ out.old.items ++ id_text id) }
{
    match id {
        Some(id) => write_name(&id, out),
        None => out.extend_from_slice(b"-"),
    }
}

/// Appends what is awaited of a process.
#[tactic(auto, unfolding(crate::specs::Awaited::process_text))]
fn write_process(
    what: &[u8],
    wait: &Wait<'_>,
    process: u64,
    out: &mut Vec<u8>,
) -> Result<(), AllocError>
    ensures { OnOk result (out.new.items ≡ out.old.items ++ process_text what.now wait.now.path.now wait.now.child process) }
{
    out.extend_from_slice(what)?;
    out.extend_from_slice(wait.path)?;
    write_id(wait.child.id, out)?;
    out.extend_from_slice(b" #")?;
    write_number(process, out)
}

/// Appends what is awaited of a child.
#[tactic(auto, unfolding(crate::specs::Awaited::state_text))]
fn write_state(wait: &Wait<'_>, out: &mut Vec<u8>) -> Result<(), AllocError>
    ensures { OnOk result (out.new.items ≡ out.old.items ++ state_text wait.now.child.state wait.now.path.now wait.now.child) }
{
    match wait.child.state {
        RowState::Starting(process, _) => write_process(b"the start of ", wait, process, out),
        RowState::Asked(process, _) | RowState::Killed(process) => {
            write_process(b"the end of ", wait, process, out)
        }
        RowState::Undefined | RowState::Up(_) | RowState::Restarting(_) => {
            out.extend_from_slice(b"a turn of the root")
        }
    }
}

/// Appends for what a tree waits, if for anything.
#[tactic(auto, unfolding(crate::specs::Awaited::wait_text))]
fn write_wait(wait: Option<Wait<'_>>, out: &mut Vec<u8>) -> Result<(), AllocError>
    ensures { OnOk result (out.new.items ≡ out.old.items ++ wait_text (option_map (λ wait. (wait.path.now, wait.child)) wait.entry)) }
{
    match wait {
        None => Ok(()),
        Some(wait) => {
            out.extend_from_slice(b", and the tree awaits ")?;
            write_state(&wait, out)
        }
    }
}

/// Appends why a tree is left before it has ended.
#[tactic(auto, unfolding(crate::specs::Awaited::unfinished))]
fn write_unfinished(limit: Limit, out: &mut Vec<u8>) -> Result<(), AllocError>
    ensures { OnOk result (out.new.items ≡ out.old.items ++ unfinished limit) }
{
    match limit {
        Limit::Turns => out.extend_from_slice(b"not finished, since the turns ran out: "),
        Limit::Grace => out.extend_from_slice(b"not finished, since its stop took too long: "),
    }
}

/// Appends how many processes live in a tree that is left.
#[tactic(auto, unfolding(crate::specs::Awaited::living_text))]
fn write_living(limit: Limit, live: u64, out: &mut Vec<u8>) -> Result<(), AllocError>
    ensures { OnOk result (out.new.items ≡ out.old.items ++ living_text limit live) }
{
    write_unfinished(limit, out)?;
    write_count(live, b" process lives", b" processes live", out)
}

/// Appends what there is to do.
#[tactic(auto, unfolding(crate::specs::Awaited::advice))]
fn write_advice(limit: Limit, out: &mut Vec<u8>) -> Result<(), AllocError>
    ensures { OnOk result (out.new.items ≡ out.old.items ++ advice limit) }
{
    match limit {
        Limit::Turns => out.extend_from_slice(b"; --turns takes a greater number\n"),
        Limit::Grace => out.extend_from_slice(b"; --grace takes a longer time\n"),
    }
}

/// Appends the sentence.
#[tactic(auto, unfolding(crate::specs::Awaited::awaited_text))]
fn write_sentence(
    limit: Limit,
    live: u64,
    wait: Option<Wait<'_>>,
    out: &mut Vec<u8>,
) -> Result<(), AllocError>
    ensures { OnOk result (out.new.items ≡ out.old.items ++ awaited_text limit live (option_map (λ wait. (wait.path.now, wait.child)) wait.entry)) }
{
    write_living(limit, live, out)?;
    write_wait(wait, out)?;
    write_advice(limit, out)
}

/// Appends the sentence for supervisors of a tree, by their numbers.
fn write_awaited_of(
    limit: Limit,
    seats: &[TriedSupervisor],
    tables: &[TableReport],
    live: u64,
    out: &mut Vec<u8>,
) -> Result<(), AllocError>
    ensures { OnOk result (out.new.items ≡ out.old.items ++ awaited_text limit live (last_wait seats.now tables.now)) }
{
    write_sentence(limit, live, last_wait(seats, tables), out)
}

/// Appends one sentence, a line: how many processes live in a tree that was left for this before it had ended, and for what it
/// waits.
///
/// # Errors
///
/// Where memory is refused.
pub fn write_awaited(
    alloc: Global,
    limit: Limit,
    tree: &TreeSpec,
    tables: &[TableReport],
    live: u64,
    out: &mut Vec<u8>,
) -> Result<(), AllocError>
    ensures { OnOk result (TellsAwaited limit tree.now tables.now live out.old.items out.new.items) }
{
    let Ok(seats) = plant_seats(alloc, tree) else {
        return Err(AllocError);
    };
    let written = write_awaited_of(limit, seats.as_slice(), tables, live, out);
    drop(seats);
    written
}
