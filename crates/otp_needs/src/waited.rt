//! Which ends wait: what the open work asks before it goes on, without using any of them.

ghost use Rattle.std.specs.Prelude.{◌∷◌, [], ◌≡◌, ◌+◌, ◌++◌, ◌==◌, ◌||◌, ◌<◌, ◌≤◌, ◌^◌, count_by, cond, drop, length, nat_le, remove, reverse, take, not};
ghost use Rattle.std.specs.List.{list_all, list_any};
ghost use Rattle.otp_table.specs.Rows.{is_awaited, row_has, up_number};
ghost use Rattle.otp_reason.specs.declared.reason.Reason.{Reason};
ghost use Rattle.otp_reason.specs.declared.note.Note.TheVariants as note;
ghost use Rattle.otp_rules.specs.declared.event.Item.TheVariants as item;
ghost use Rattle.otp_rules.specs.declared.event.Waiting.TheVariants as wait;
ghost use Rattle.otp_needs.specs.Restarted.{SaysRestart, others_have_ended};
ghost use Rattle.otp_rules.specs.Needs.{ends_wait};
ghost use Rattle.otp_rules.specs.Places.{is_temporary};
ghost use Rattle.otp_rules.specs.Restarts.{running};
ghost use Rattle.otp_rules.specs.Stops.{is_exit};
ghost use Rattle.otp_needs.specs.Begun.{left};
ghost use Rattle.otp_needs.specs.Ups.{ends_counted, has_ends, passes};
ghost use Rattle.otp_rules.specs.Fit.{runs_as};

use otp_machine::decisions::places::is_temporary;
use otp_machine::decisions::stops::is_exit;
use otp_machine::stores::waits::Waits;
use otp_table::{Row, RowState};

/// Whether an answer of one of the children is awaited.
fn has_awaited(rows: &[Row]) -> bool
    ensures { result ≡ list_any (row_has is_awaited) rows.now }
{
    rows.iter().any(|row| row.state.is_awaited())
}

/// Whether an answer of another child than the one at the place is awaited.
pub fn has_other_awaited(rows: &[Row], place: usize) -> bool
    requires { place < length rows.now }
    ensures { result ≡ list_any (row_has is_awaited) (remove rows.now place) }
{
    has_awaited(&rows[..place]) || has_awaited(&rows[place + 1..])
}

/// Whether one of the children would be started again.
pub fn has_lasting(rows: &[Row]) -> bool
    ensures { result ≡ list_any (λ row. not (is_temporary row.spec.restart)) rows.now }
{
    rows.iter().any(|row| !is_temporary(row.spec.restart))
}

/// How many ends of the process wait, where the first item is taken or not.
#[tactic(auto, using(crate::proofs::Going::first_counted))]
fn count_left(waiting: &Waits, resumed: bool, number: u64) -> usize
    ensures count { result ≡ count_by (is_exit number) (left resumed waiting.now.items) }
    ensures limit { result < 2 ^ 63 }
{
    let count = waiting.count_exits(number);
    match waiting.first() {
        Some(first) => {
            if resumed && is_exit(&first, number) {
                count - 1
            } else {
                count
            }
        }
        None => count,
    }
}

fn count_number(numbers: &[u64], number: u64) -> usize
    ensures { result ≡ count_by (λ q. q == number) numbers.now }
{
    numbers.iter().filter(|q| **q == number).count()
}

fn have_ended_in_order(numbers: &[u64], waiting: &Waits, resumed: bool) -> bool
    ensures { result ≡ ends_counted numbers.now (left resumed waiting.now.items) }
{
    numbers.iter().all(|p| count_number(numbers, *p) <= count_left(waiting, resumed, *p))
}

/// Whether of each of these processes, of which the last is stopped first, an end waits, as many as the list names it.
#[tactic(auto, using(crate::proofs::Going::ends_reversed))]
pub fn have_ended(numbers: &[u64], waiting: &Waits, resumed: bool) -> bool
    ensures { result ≡ ends_wait (reverse numbers.now) (left resumed waiting.now.items) }
{
    have_ended_in_order(numbers, waiting, resumed)
}

fn have_ended_in_order_with(numbers: &[u64], waiting: &Waits, resumed: bool, last: u64) -> bool
    ensures { result ≡ list_all (λ p. nat_le (count_by (λ q. q == p) numbers.now)
        (count_by (is_exit p) (left resumed waiting.now.items) + cond (last == p) 1 0)) numbers.now }
{
    numbers.iter().all(|p| count_number(numbers, *p)
        <= count_left(waiting, resumed, *p) + (last == *p) as usize)
}

/// Whether [`have_ended`] is true once an end of this process waits behind the others.
#[tactic(auto, using(crate::proofs::Going::ends_with_last))]
pub fn have_ended_with(numbers: &[u64], waiting: &Waits, resumed: bool, last: u64) -> bool
    ensures { (reason : Reason) → result ≡ ends_wait (reverse numbers.now)
        (left resumed waiting.now.items ++ wait.Item (item.Note (note.Exit last reason)) ∷ []) }
{
    have_ended_in_order_with(numbers, waiting, resumed, last)
}

/// Whether the child runs under this number.
fn runs_as(state: RowState, number: u64) -> bool
    ensures { result ≡ runs_as number state }
{
    match state {
        RowState::Up(p) => p == number,
        _ => false,
    }
}

/// How many of the children run under this number.
fn count_up(rows: &[Row], number: u64) -> usize
    ensures count { result ≡ count_by (λ row. runs_as number row.state) rows.now }
    ensures limit { result ≤ length rows.now }
{
    rows.iter().filter(|row| runs_as(row.state, number)).count()
}

/// Whether ends wait for a child that runs, as many as there are children of its number among these.
fn has_ended(state: RowState, front: &[Row], back: &[Row], waiting: &Waits, resumed: bool) -> bool
    ensures { result ≡ passes (has_ends front.now back.now (left resumed waiting.now.items)) (up_number state) }
{
    match state {
        RowState::Up(p) => count_up(front, p) + count_up(back, p)
            <= count_left(waiting, resumed, p),
        _ => true,
    }
}

fn each_has_ended(rows: &[Row], front: &[Row], back: &[Row], waiting: &Waits, resumed: bool) -> bool
    ensures { result ≡ list_all (λ row. passes (has_ends front.now back.now (left resumed waiting.now.items)) (up_number row.state)) rows.now }
{
    rows.iter()
        .all(|row| has_ended(row.state, front, back, waiting, resumed))
}

/// Whether of each of the children that run an end waits.
pub fn children_have_ended(front: &[Row], back: &[Row], waiting: &Waits, resumed: bool) -> bool
    ensures { result ≡ ends_wait (running front.now ++ running back.now) (left resumed waiting.now.items) }
{
    each_has_ended(front, front, back, waiting, resumed)
        && each_has_ended(back, front, back, waiting, resumed)
}

/// Children that one of them restarts: those from one place to another, and the place of that one.
#[derive(Clone, Copy)]
pub struct Span {
    pub from: usize,
    pub place: usize,
    pub to: usize,
}

/// Whether the children of the span, beside the one at its place, have ended and one of them all lasts.
fn others_have_ended(rows: &[Row], span: Span, waiting: &Waits, resumed: bool) -> bool
    requires from { span.from ≤ span.place }
    requires place { span.place < span.to }
    requires to { span.to ≤ length rows.now }
    ensures { result ≡ others_have_ended span.from span.place span.to rows.now (left resumed waiting.now.items) }
{
    let Span { from, place, to } = span;
    !has_other_awaited(rows, place)
        && children_have_ended(&rows[from..place], &rows[place + 1..to], waiting, resumed)
        && has_lasting(&rows[from..to])
}

/// Whether a restart of the children of the span goes on to a start at once.
pub fn restart_goes_on(rows: &[Row], span: Span, waiting: &Waits, resumed: bool) -> bool
    requires from { span.from ≤ span.place }
    requires place { span.place < span.to }
    requires to { span.to ≤ length rows.now }
    ensures { SaysRestart result span.from span.place span.to rows.now (left resumed waiting.now.items) }
{
    others_have_ended(rows, span, waiting, resumed)
}
