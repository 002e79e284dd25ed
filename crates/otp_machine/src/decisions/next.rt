//! Deadlines of children that were told to shut down (`specs/Next` of the rules).

ghost use Rattle.std.specs.Prelude.{◌≡◌, ◌<◌, IfSome, Some, get_or, length};
ghost use Rattle.std.specs.List.{list_any};
ghost use Rattle.otp_table.specs.Deadlines.{AreNotBefore};
ghost use Rattle.otp_table.specs.declared.row.Row.{Row};
ghost use Rattle.otp_rules.specs.Step.{is_late};
ghost use Rattle.otp_rules.specs.Next.{deadline_of, earlier, next_deadline};

use crate::decisions::step::late_number;
use otp_table::{Row, RowState, Rows};

fn any_late(now: u64, rows: &[Row]) -> bool
    ensures { result ≡ list_any (λ row. is_late now row.state) rows.now }
{
    rows.iter().any(|row| late_number(now, row.state).is_some())
}

/// Whether a child was told to shut down and its deadline has come. Where none has come yet, mostly no row is looked at.
pub fn has_late(now: u64, rows: &Rows) -> bool
    ensures { result ≡ list_any (λ row. is_late now row.state) rows.now.rows }
{
    if now < rows.soonest() {
        false
    } else {
        any_late(now, rows.as_slice())
    }
}

fn deadline_of(state: RowState) -> Option<u64>
    ensures { result ≡ deadline_of state }
{
    match state {
        RowState::Asked(_, deadline) => deadline,
        _ => None,
    }
}

fn earlier(one: Option<u64>, other: Option<u64>) -> Option<u64>
    ensures { result ≡ earlier one other }
{
    match (one, other) {
        (Some(a), Some(b)) => Some(a.min(b)),
        (Some(a), None) => Some(a),
        (None, b) => b,
    }
}

fn least_deadline(rows: &[Row]) -> Option<u64>
    ensures { result ≡ next_deadline rows.now }
{
    let mut least = None;
    for row in rows {
        least = earlier(least, deadline_of(row.state));
    }
    least
}

fn deadline_at(rows: &[Row], place: usize) -> Option<u64>
    requires { place < length rows.now }
    ensures { (d : Row) → result ≡ deadline_of (get_or rows.now place d).state }
{
    deadline_of(rows[place].state)
}

/// The deadline of the row at this place, if it has one and none is earlier.
fn known_deadline(rows: &[Row], place: usize, soonest: u64) -> Option<u64>
    requires { AreNotBefore soonest rows.now }
    ensures { IfSome result (λ deadline. next_deadline rows.now ≡ Some deadline) }
{
    if place >= rows.len() {
        return None;
    }
    match deadline_at(rows, place) {
        None => None,
        Some(deadline) => {
            if deadline <= soonest {
                Some(deadline)
            } else {
                None
            }
        }
    }
}

/// The least deadline of these children. Where none has one, or only one has, no row is walked over.
#[tactic(auto, using(crate::proofs::Timed::none_next))]
pub fn next_deadline(rows: &Rows) -> Option<u64>
    ensures { result ≡ next_deadline rows.now.rows }
{
    if rows.has_timed() {
        timed_deadline(rows)
    } else {
        None
    }
}

/// The soonest deadline, where some child has one.
fn timed_deadline(rows: &Rows) -> Option<u64>
    ensures { result ≡ next_deadline rows.now.rows }
{
    let soonest = rows.soonest();
    match known_deadline(rows.as_slice(), rows.soonest_at(), soonest) {
        Some(deadline) => Some(deadline),
        None => least_deadline(rows.as_slice()),
    }
}
