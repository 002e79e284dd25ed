//! The soonest deadline of rows, kept, so that most looks for one walk over no row.

ghost use Rattle.std.specs.Prelude.{◌≡◌, ◌≤◌, List, count_by, false};
ghost use Rattle.otp_table.specs.Deadlines.{AreNotBefore, is_before};
ghost use Rattle.otp_table.specs.Rows.{is_timed, row_has};
ghost use Rattle.otp_table.specs.declared.row.Row.{Row};

use crate::row::RowState;

/// No deadline is earlier, once a row has this state.
pub fn soonest_with(soonest: u64, state: RowState) -> u64
    ensures least { result ≤ soonest }
    ensures own { is_before result state ≡ false }
{
    match state {
        RowState::Asked(_, Some(deadline)) => soonest.min(deadline),
        RowState::Undefined
        | RowState::Starting(..)
        | RowState::Up(_)
        | RowState::Asked(_, None)
        | RowState::Killed(_)
        | RowState::Restarting(_) => soonest,
    }
}

/// No deadline is earlier where so many rows have one: with none it is later than any.
pub fn soonest_of(soonest: u64, timed: usize) -> u64
    ensures { (rows : List Row) → count_by (row_has is_timed) rows ≡ timed → AreNotBefore soonest rows → AreNotBefore result rows }
{
    if timed == 0 { u64::MAX } else { soonest }
}

/// Where the row with the soonest deadline stands most likely, once the one at the place has this state.
pub fn soonest_place(at: usize, soonest: u64, place: usize, state: RowState) -> usize {
    match state {
        RowState::Asked(_, Some(deadline)) if deadline == soonest => place,
        _ => at,
    }
}
