//! The children that a script means.

ghost use Rattle.std.specs.Prelude.{◌≡◌, ◌<◌, IfSome, is_some, length, position};
ghost use Rattle.otp_table.specs.Rows.{has_id, has_process, row_has};
ghost use Rattle.otp_trial.specs.Finding.{child_named, found_at, found_for, found_in_state, state_at, state_for};

use otp_reason::Name;
use otp_rules::Call;
use otp_script::{Action, Child};
use otp_table::{Row, RowState};

/// What a script means by a child.
#[derive(Clone, Copy, Debug, PartialEq, Eq)]
pub enum Found {
    /// Its process has this number.
    Process(u64),
    /// It has no process.
    NoProcess,
    /// There is no such child.
    NoChild,
}

/// The process of a child in this state.
#[tactic(auto, unfolding(crate::specs::Finding::found_in_state))]
fn found_in_state(state: RowState) -> Found
    ensures { result ≡ found_in_state state }
{
    match state {
        RowState::Starting(process, _)
        | RowState::Up(process)
        | RowState::Asked(process, _)
        | RowState::Killed(process) => Found::Process(process),
        RowState::Undefined | RowState::Restarting(_) => Found::NoProcess,
    }
}

/// The place of the child with this id.
fn place_of_id(rows: &[Row], id: &Name) -> Option<usize>
    ensures place { result ≡ position (has_id id.now) rows.now }
    ensures inside { IfSome result (λ place. place < length rows.now) }
{
    rows.iter().position(|row| row.has_id(id))
}

/// The place of the child whose process has this number.
pub(crate) fn place_of_process(rows: &[Row], process: u64) -> Option<usize>
    ensures place { result ≡ position (row_has (has_process process)) rows.now }
    ensures inside { IfSome result (λ place. place < length rows.now) }
{
    rows.iter().position(|row| row.state.has_process(process))
}

/// The process of the child at this place.
#[tactic(auto, unfolding(crate::specs::Finding::found_at, crate::specs::Finding::found_in_row))]
fn found_at(rows: &[Row], place: Option<usize>) -> Found
    requires { IfSome place (λ at. at < length rows.now) }
    ensures { result ≡ found_at rows.now place }
{
    match place {
        None => Found::NoChild,
        Some(place) => {
            let row = &rows[place];
            found_in_state(row.state)
        }
    }
}

/// The process of the child that a script means.
#[tactic(auto, unfolding(crate::specs::Finding::found_for))]
pub fn found_for(child: &Child, rows: &[Row]) -> Found
    ensures { result ≡ found_for child.now rows.now }
{
    match child {
        Child::Named(id) => found_at(rows, place_of_id(rows, id)),
        Child::Numbered(process) => found_at(rows, place_of_process(rows, *process)),
    }
}

/// The state of the child at this place.
#[tactic(auto, unfolding(crate::specs::Finding::state_at))]
fn state_at(rows: &[Row], place: Option<usize>) -> Option<RowState>
    requires { IfSome place (λ at. at < length rows.now) }
    ensures { result ≡ state_at rows.now place }
{
    match place {
        None => None,
        Some(place) => {
            let row = &rows[place];
            Some(row.state)
        }
    }
}

/// The state of the child that a script means.
#[tactic(auto, unfolding(crate::specs::Finding::state_for))]
pub fn state_for(child: &Child, rows: &[Row]) -> Option<RowState>
    ensures { result ≡ state_for child.now rows.now }
{
    match child {
        Child::Named(id) => state_at(rows, place_of_id(rows, id)),
        Child::Numbered(process) => state_at(rows, place_of_process(rows, *process)),
    }
}

/// Whether a child has this id.
pub fn is_known(id: &Name, rows: &[Row]) -> bool
    ensures { result ≡ is_some (position (has_id id.now) rows.now) }
{
    place_of_id(rows, id).is_some()
}

/// The child that a line names and that has to be there for it, by its id: that of a call, or one of whose starts it is said
/// how they go.
#[tactic(auto, unfolding(crate::specs::Finding::child_named))]
pub fn named_in(action: Action) -> Option<Name>
    ensures { result ≡ child_named action }
{
    match action {
        Action::Call(Call::RestartChild(id)) => Some(id),
        Action::Call(Call::DeleteChild(id)) => Some(id),
        Action::Call(Call::GetChildspec(id)) => Some(id),
        Action::Call(Call::TerminateChild(id)) => Some(id),
        Action::Start(id, _) => Some(id),
        Action::Init(id, _) => Some(id),
        _ => None,
    }
}
