//! Lines of which_children beside the rows that they tell of (`specs/Counts` of the rules).

ghost use Rattle.std.specs.Prelude.{◌≡◌, ◌+◌, ◌≤◌, ◌++◌, ◌↔◌, IsTrue, length, map, vec_len, vec_capacity};
ghost use Rattle.otp_rules.specs.Counts.{line_of, process_of, which_of};

use otp_reason::Name;
use otp_rules::{ChildLine, ChildProcess};
use otp_spec::ChildType;
use otp_table::{Row, RowState};

/// What which_children says of a process.
pub fn process_of(state: RowState) -> ChildProcess
    ensures { result ≡ process_of state }
{
    match state {
        RowState::Undefined => ChildProcess::Undefined,
        RowState::Starting(number, _) => ChildProcess::Number(number),
        RowState::Up(number) => ChildProcess::Number(number),
        RowState::Asked(number, _) => ChildProcess::Number(number),
        RowState::Killed(number) => ChildProcess::Number(number),
        RowState::Restarting(_) => ChildProcess::Restarting,
    }
}

/// What which_children says of a row.
pub fn line_of(row: &Row) -> ChildLine
    ensures { result ≡ line_of row.now }
{
    ChildLine {
        id: row.id,
        process: process_of(row.state),
        kind: row.spec.kind,
        modules: row.spec.modules,
    }
}

/// Adds a line of which_children for each row.
pub fn list_lines(rows: &[Row], list: &mut Vec<ChildLine>)
    requires { vec_len list.old + length rows.now ≤ vec_capacity list.old }
    ensures { list.new.items ≡ list.old.items ++ map line_of rows.now }
{
    for row in rows {
        list.push_reserved(line_of(row));
    }
}

/// Whether these are the lines of these rows.
pub fn are_lines(lines: &[ChildLine], rows: &[Row]) -> bool
    ensures { IsTrue result ↔ (lines.now ≡ which_of rows.now) }
{
    if lines.len() != rows.len() {
        return false;
    }
    let mut place = 0;
    while place < rows.len() {
        if !is_line(&lines[place], &rows[place]) {
            return false;
        }
        place += 1;
    }
    true
}

fn is_line(line: &ChildLine, row: &Row) -> bool
    ensures { IsTrue result ↔ (line.now ≡ line_of row.now) }
{
    is_same_process(line.process, process_of(row.state))
        && is_same_id(&line.id, &row.id)
        && is_same_kind(line.kind, row.spec.kind)
        && line.modules.is_same(&row.spec.modules)
}

fn is_same_process(one: ChildProcess, other: ChildProcess) -> bool
    ensures { IsTrue result ↔ (one ≡ other) }
{
    match (one, other) {
        (ChildProcess::Number(one), ChildProcess::Number(other)) => one == other,
        (ChildProcess::Restarting, ChildProcess::Restarting) => true,
        (ChildProcess::Undefined, ChildProcess::Undefined) => true,
        _ => false,
    }
}

fn is_same_id(one: &Option<Name>, other: &Option<Name>) -> bool
    ensures { IsTrue result ↔ (one.now ≡ other.now) }
{
    match (one, other) {
        (Some(one), Some(other)) => one.is_same(other),
        (None, None) => true,
        _ => false,
    }
}

fn is_same_kind(one: ChildType, other: ChildType) -> bool
    ensures { IsTrue result ↔ (one ≡ other) }
{
    match (one, other) {
        (ChildType::Worker, ChildType::Worker) => true,
        (ChildType::Supervisor, ChildType::Supervisor) => true,
        _ => false,
    }
}
