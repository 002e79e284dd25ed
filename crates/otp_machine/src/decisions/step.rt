//! Rows of an opening, and kills of children whose deadline has come (`specs/Step` of the rules).

ghost use Rattle.std.specs.Prelude.{◌≡◌, ◌+◌, ◌<◌, ◌≤◌, ◌++◌, Some, length, map, slice_get, slice_set, vec_len, vec_capacity};
ghost use Rattle.std.specs.List.{filter_map};
ghost use Rattle.std.specs.VecDeque.{deque_len, deque_capacity};
ghost use Rattle.otp_spec.specs.declared.limits.TheConstants.{MAX_CHILDREN};
ghost use Rattle.otp_table.specs.declared.row.Row.{Row};
ghost use Rattle.otp_rules.specs.Step.{due_of, kill_order, killed, late_number, rows_from};

use otp_rules::{Due, Effect};
use otp_spec::ChildSpec;
use otp_table::{Row, RowState, Rows};
use std::collections::VecDeque;

/// Adds a row and a start for each specification. Where there are no rows yet, a child's slot is the place of its
/// specification.
pub fn list_children(specs: &[ChildSpec], rows: &mut Rows, starts: &mut VecDeque<Due>)
    requires limit { length specs.now + length rows.old.rows ≤ MAX_CHILDREN }
    requires rows { length specs.now ≤ rows.old.room }
    requires starts { deque_len starts.old + length specs.now ≤ deque_capacity starts.old }
    ensures rows { rows.new.rows ≡ rows.old.rows ++ rows_from (length rows.old.rows) specs.now }
    ensures starts { starts.new.items ≡ starts.old.items ++ map due_of specs.now }
{
    for spec in specs {
        let _ = rows.insert(Row {
            slot: rows.len(),
            id: Some(spec.id),
            spec: *spec,
            state: RowState::Undefined,
        });
        starts.push_back_reserved(Due {
            id: Some(spec.id),
            kept: None,
        });
    }
}

/// The process that is to be killed now, if the deadline of a child in this state has come.
pub fn late_number(now: u64, state: RowState) -> Option<u64>
    ensures { result ≡ late_number now state }
{
    match state {
        RowState::Asked(number, Some(deadline)) => {
            if deadline <= now { Some(number) } else { None }
        }
        _ => None,
    }
}

/// Orders a kill of each child whose deadline has come.
pub fn order_kills(now: u64, rows: &[Row], orders: &mut Vec<Effect>)
    requires { vec_len orders.old + length rows.now ≤ vec_capacity orders.old }
    ensures items { orders.new.items ≡ orders.old.items ++ filter_map (λ row. kill_order row (late_number now row.state)) rows.now }
    ensures len { vec_len orders.new ≤ vec_len orders.old + length rows.now }
    ensures capacity { vec_capacity orders.new ≡ vec_capacity orders.old }
{
    for row in rows {
        if let Some(number) = late_number(now, row.state) {
            orders.push_reserved(Effect::Kill(row.id, number));
        }
    }
}

/// The child at the place is killed from now on, if its deadline has come.
fn kill_if_late(now: u64, rows: &mut Rows, place: usize)
    requires { place < length rows.old.rows }
    ensures rows { (row : Row) → slice_get rows.old.rows place ≡ Some row →
        rows.new.rows ≡ slice_set rows.old.rows place (killed row (late_number now row.state)) }
    ensures len { length rows.new.rows ≡ length rows.old.rows }
    ensures room { rows.new.room ≡ rows.old.room }
    ensures found { (row : Row) × (slice_get rows.old.rows place ≡ Some row) }
{
    let state = rows.get(place).state;
    match late_number(now, state) {
        Some(number) => rows.set_state(place, RowState::Killed(number)),
        None => rows.set_state(place, state),
    }
}

/// Each child whose deadline has come is killed from now on.
pub fn kill_late(now: u64, rows: &mut Rows)
    ensures rows { rows.new.rows ≡ map (λ row. killed row (late_number now row.state)) rows.old.rows }
    ensures room { rows.new.room ≡ rows.old.room }
{
    for place in 0..rows.len() {
        kill_if_late(now, rows, place);
    }
}
