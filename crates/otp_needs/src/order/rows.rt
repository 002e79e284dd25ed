//! What is asked of the rows of a checkpoint and of the processes that are to be stopped.

ghost use Rattle.std.specs.Prelude.{◌≡◌, ◌↔◌, All, IsTrue, true};
ghost use Rattle.otp_table.specs.Rows.{has_process, is_awaited, row_has};
ghost use Rattle.otp_rules.specs.Fit.{rows_in, runs_as, times};
ghost use Rattle.otp_rules.specs.InOrder.{is_begun};
ghost use Rattle.otp_needs.specs.Order.{is_covered, is_lone, is_to_stop};

use otp_table::{Row, RowState};

/// How many answers of children are awaited.
pub(crate) fn count_awaited(rows: &[Row]) -> usize
    ensures { result ≡ rows_in is_awaited rows.now }
{
    rows.iter().filter(|row| row.state.is_awaited()).count()
}

/// How many answers to starts are awaited.
pub(crate) fn count_begun(rows: &[Row]) -> usize
    ensures { result ≡ rows_in is_begun rows.now }
{
    rows.iter().filter(|row| is_begun(&row.state)).count()
}

fn is_begun(state: &RowState) -> bool
    ensures { result ≡ is_begun state.now }
{
    matches!(state, RowState::Starting(..))
}

/// Whether the process runs under this number, and nothing is asked of it.
fn runs_as(state: &RowState, number: u64) -> bool
    ensures { result ≡ runs_as number state.now }
{
    match *state {
        RowState::Up(process) => process == number,
        _ => false,
    }
}

fn count_running(rows: &[Row], number: u64) -> usize
    ensures { result ≡ rows_in (runs_as number) rows.now }
{
    rows.iter()
        .filter(|row| runs_as(&row.state, number))
        .count()
}

fn count_processes(rows: &[Row], number: u64) -> usize
    ensures { result ≡ rows_in (has_process number) rows.now }
{
    rows.iter()
        .filter(|row| row.state.has_process(number))
        .count()
}

fn count_in(numbers: &[u64], number: u64) -> usize
    ensures { result ≡ times number numbers.now }
{
    numbers.iter().filter(|other| **other == number).count()
}

/// Whether the process is a child's that runs, as often as it is to be stopped.
#[tactic(auto, unfolding(crate::specs::Order::is_covered))]
fn is_covered(number: u64, to_stop: &[u64], rows: &[Row]) -> bool
    ensures { result ≡ is_covered to_stop.now rows.now number }
{
    count_in(to_stop, number) <= count_running(rows, number)
}

/// Whether each process that is to be stopped is a child's that runs, as often as it is to be stopped.
pub(crate) fn are_covered(to_stop: &[u64], rows: &[Row]) -> bool
    ensures { IsTrue result ↔ All (λ p. is_covered to_stop.now rows.now p ≡ true) to_stop.now }
{
    are_all_covered(to_stop, to_stop, rows)
}

/// Whether each of these processes is a child's that runs, as often as it is to be stopped.
fn are_all_covered(numbers: &[u64], to_stop: &[u64], rows: &[Row]) -> bool
    ensures { IsTrue result ↔ All (λ p. is_covered to_stop.now rows.now p ≡ true) numbers.now }
{
    numbers
        .iter()
        .all(|number| is_covered(*number, to_stop, rows))
}

/// Whether the child, if it runs, is to be stopped.
fn is_to_stop(row: &Row, to_stop: &[u64], rows: &[Row]) -> bool
    ensures { result ≡ is_to_stop to_stop.now rows.now row.now }
{
    match row.state {
        RowState::Up(number) => count_running(rows, number) <= count_in(to_stop, number),
        _ => true,
    }
}

/// Whether each child that runs is to be stopped.
pub(crate) fn are_to_stop(to_stop: &[u64], rows: &[Row]) -> bool
    ensures { IsTrue result ↔ All (λ row. is_to_stop to_stop.now rows.now row ≡ true) rows.now }
{
    rows.iter().all(|row| is_to_stop(row, to_stop, rows))
}

/// Whether the child's process, if it has one, is no other's, and its number is no greater than any given.
fn is_lone(row: &Row, greatest: u64, rows: &[Row]) -> bool
    ensures { result ≡ is_lone greatest rows.now row.now }
{
    match row.state {
        RowState::Starting(number, _)
        | RowState::Up(number)
        | RowState::Asked(number, _)
        | RowState::Killed(number) => number <= greatest && count_processes(rows, number) <= 1,
        RowState::Undefined | RowState::Restarting(_) => true,
    }
}

/// Whether each child's process, if it has one, is no other's, and its number is no greater than any given.
pub(crate) fn are_lone(greatest: u64, rows: &[Row]) -> bool
    ensures { IsTrue result ↔ All (λ row. is_lone greatest rows.now row ≡ true) rows.now }
{
    rows.iter().all(|row| is_lone(row, greatest, rows))
}
