//! How a tree stood when it was closed, as a picture for people.

use otp_file::TreeSpec;
use otp_reason::Name;
use otp_spec::{ChildSpec, SupFlags};
use otp_table::{Row, RowState};
use otp_text::picture::{Caption, draw_with};
use otp_text::{write_number, write_reason};
use otp_tree::TableReport;
use std::alloc::{AllocError, Global};

/// What each supervisor came to, in the order of their tables, and each of its children.
#[derive(Clone, Copy)]
struct Standing<'a> {
    tables: &'a [TableReport],
}

impl Caption for Standing<'_> {
    fn write_supervisor(
        &self,
        table: usize,
        _flags: &SupFlags,
        out: &mut Vec<u8>,
    ) -> Result<(), AllocError> {
        out.extend_from_slice(b"table ")?;
        write_number(table as u64, out)?;
        match self.tables.get(table) {
            Some(report) => write_life(report, out),
            None => Ok(()),
        }
    }

    fn write_child(
        &self,
        table: usize,
        spec: &ChildSpec,
        out: &mut Vec<u8>,
    ) -> Result<(), AllocError> {
        match self.tables.get(table) {
            Some(report) => write_state(state_in(report.core.rows(), &spec.id), out),
            None => Ok(()),
        }
    }
}

/// Appends a number, and the word for one or for several.
fn write_count(number: u64, one: &str, several: &str, out: &mut Vec<u8>) -> Result<(), AllocError> {
    write_number(number, out)?;
    out.extend_from_slice(if number == 1 {
        one.as_bytes()
    } else {
        several.as_bytes()
    })
}

/// Appends what a supervisor did, and how it ended.
fn write_life(report: &TableReport, out: &mut Vec<u8>) -> Result<(), AllocError> {
    out.extend_from_slice(b": ")?;
    write_count(report.starts(), " start, ", " starts, ", out)?;
    write_count(report.restarts(), " restart, ", " restarts, ", out)?;
    match report.end() {
        Some(reason) => {
            out.extend_from_slice(b"end ")?;
            write_reason(&reason, out)
        }
        None if report.core.has_ended() => out.extend_from_slice(b"never started"),
        None => out.extend_from_slice(b"runs"),
    }
}

/// How the child of this id stands, if there is one.
fn state_in(rows: &[Row], id: &Name) -> Option<RowState> {
    for row in rows {
        if row.id == Some(*id) {
            return Some(row.state);
        }
    }
    None
}

/// Appends how a child stands.
fn write_state(state: Option<RowState>, out: &mut Vec<u8>) -> Result<(), AllocError> {
    match state {
        None => out.extend_from_slice(b"-"),
        Some(RowState::Undefined) => out.extend_from_slice(b"undefined"),
        Some(RowState::Restarting(_)) => out.extend_from_slice(b"restarting"),
        Some(RowState::Starting(number, _)) => write_process(b"starting #", number, out),
        Some(RowState::Up(number)) => write_process(b"up #", number, out),
        Some(RowState::Asked(number, _)) => write_process(b"asked #", number, out),
        Some(RowState::Killed(number)) => write_process(b"killed #", number, out),
    }
}

/// Appends what the process of this number does.
fn write_process(does: &[u8], number: u64, out: &mut Vec<u8>) -> Result<(), AllocError> {
    out.extend_from_slice(does)?;
    write_number(number, out)
}

/// Appends the picture of a tree that was run, with what its supervisors came to.
///
/// # Errors
///
/// Where memory is refused.
pub(crate) fn draw_standing(
    alloc: Global,
    tree: &TreeSpec,
    tables: &[TableReport],
    out: &mut Vec<u8>,
) -> Result<(), AllocError> {
    draw_with(alloc, tree, &Standing { tables }, out)
}
