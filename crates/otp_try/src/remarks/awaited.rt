//! What a supervisor awaits of its children.

ghost use Rattle.std.specs.Prelude.{◌≡◌, ◌++◌, OnOk};
ghost use Rattle.otp_try.specs.Awaiting.{awaited_in, awaited_line, awaited_text, children_awaited, process_of_child, until_text, waiting_text};

use otp_reason::Name;
use otp_table::{Row, RowState};
use otp_text::{write_child_name, write_process};
use otp_trial::story::telling::write_heading;
use otp_trial::story::time::write_time;
use std::alloc::AllocError;

/// Appends until when, if there is a deadline.
#[tactic(auto, unfolding(crate::specs::Awaiting::until_text))]
fn write_until(until: Option<u64>, out: &mut Vec<u8>) -> Result<(), AllocError>
    ensures { OnOk result (out.new.items ≡ out.old.items ++ until_text until) }
{
    match until {
        None => Ok(()),
        Some(time) => {
            out.extend_from_slice(b" until ")?;
            write_time(time, out)
        }
    }
}

/// Appends a child of the supervisor with this path, and its process.
#[tactic(auto, unfolding(crate::specs::Awaiting::process_of_child))]
pub(crate) fn write_child(
    path: &[u8],
    id: &Option<Name>,
    process: u64,
    out: &mut Vec<u8>,
) -> Result<(), AllocError>
    ensures { OnOk result (out.new.items ≡ out.old.items ++ process_of_child path.now id.now process) }
{
    out.extend_from_slice(path)?;
    write_child_name(id, out)?;
    out.extend_from_slice(b" ")?;
    write_process(process, out)
}

/// Appends a line for what is awaited of a child.
#[tactic(auto, unfolding(crate::specs::Awaiting::awaited_line))]
fn write_line(
    what: &[u8],
    path: &[u8],
    id: &Option<Name>,
    process: u64,
    until: Option<u64>,
    out: &mut Vec<u8>,
) -> Result<(), AllocError>
    ensures { OnOk result (out.new.items ≡ out.old.items ++ awaited_line what.now path.now id.now process until) }
{
    out.extend_from_slice(what)?;
    write_child(path, id, process, out)?;
    write_until(until, out)?;
    out.extend_from_slice(b"\n")
}

/// Appends the line of a child in this state, if something is awaited of it.
#[tactic(auto, unfolding(crate::specs::Awaiting::awaited_in))]
fn write_awaited_in(
    path: &[u8],
    id: &Option<Name>,
    state: RowState,
    out: &mut Vec<u8>,
) -> Result<(), AllocError>
    ensures { OnOk result (out.new.items ≡ out.old.items ++ awaited_in path.now id.now state) }
{
    match state {
        RowState::Starting(process, _) => write_line(
            b"awaits the start of ",
            path,
            id,
            process,
            None,
            out,
        ),
        RowState::Asked(process, until) => write_line(
            b"awaits the end of ",
            path,
            id,
            process,
            until,
            out,
        ),
        RowState::Killed(process) => write_line(
            b"awaits the end of ",
            path,
            id,
            process,
            None,
            out,
        ),
        RowState::Up(_) | RowState::Undefined | RowState::Restarting(_) => Ok(()),
    }
}

/// Appends that events wait until what is awaited is done, where some do.
#[tactic(auto, unfolding(crate::specs::Awaiting::waiting_text))]
fn write_waiting(path: &[u8], waits: bool, out: &mut Vec<u8>) -> Result<(), AllocError>
    ensures { OnOk result (out.new.items ≡ out.old.items ++ waiting_text path.now waits) }
{
    if !waits {
        return Ok(());
    }
    write_heading(path, out)?;
    out.extend_from_slice(b"what came since waits until that is done\n")
}

/// Appends what the supervisor with this path awaits of its children, and whether events wait until then.
#[tactic(auto, unfolding(crate::specs::Awaiting::awaited_text))]
pub fn write_awaited(
    path: &[u8],
    rows: &[Row],
    waits: bool,
    out: &mut Vec<u8>,
) -> Result<(), AllocError>
    ensures { OnOk result (out.new.items ≡ out.old.items ++ awaited_text path.now rows.now waits) }
{
    write_children(path, rows, out)?;
    write_waiting(path, waits, out)
}

/// Appends a line for each child of which something is awaited, of the supervisor with this path.
#[tactic(auto, unfolding(crate::specs::Awaiting::children_awaited))]
fn write_children(path: &[u8], rows: &[Row], out: &mut Vec<u8>) -> Result<(), AllocError>
    ensures { OnOk result (out.new.items ≡ out.old.items ++ children_awaited path.now rows.now) }
{
    for row in rows {
        write_awaited_in(path, &row.id, row.state, out)?;
    }
    Ok(())
}
