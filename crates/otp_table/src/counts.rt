//! Numbers that are kept of rows, so that no decision counts them.

ghost use Rattle.std.specs.Prelude.{◌≡◌, ◌+◌, ◌-◌, ◌<◌, ◌≤◌, ◌==◌, ◌++◌, ◌∷◌, ℕ, List, [], cond, count_by, get_or, length, remove, set};
ghost use Rattle.otp_table.specs.Counted.{AreCounted, HasOneLess, HasOneMore, kind_of};
ghost use Rattle.otp_table.specs.Rows.{is_left, with_state};
ghost use Rattle.otp_table.specs.declared.row.Row.{Row};

use crate::row::{Row, RowState};
use otp_spec::MAX_CHILDREN;

/// How many kinds of states there are.
const KINDS: usize = 7;

/// How many rows there are of some kinds.
#[derive(Clone, Copy, Debug)]
pub struct ChildCounts {
    /// By the kinds of their states: a change of a state changes two of these, and what is asked is a sum of some.
    by_kind: [u32; KINDS],
    /// A significant child that is left.
    pub left: usize,
    pub supervisors: usize,
    pub workers: usize,
}

/// The kind of a state: its place in the counts.
fn kind_of(state: RowState) -> usize
    ensures kind { result ≡ kind_of state }
    ensures limit { result < KINDS }
{
    match state {
        RowState::Undefined => 0,
        RowState::Starting(..) => 1,
        RowState::Up(_) => 2,
        RowState::Asked(_, None) => 3,
        RowState::Asked(_, Some(_)) => 4,
        RowState::Killed(_) => 5,
        RowState::Restarting(_) => 6,
    }
}

impl ChildCounts {
    ghost use Rattle.otp_table.specs.Counted.{AreCounted};
    ghost use Rattle.otp_table.specs.Rows.{is_active, is_awaited, is_timed, is_undefined, row_has};

    /// Those of no rows.
    pub fn new() -> Self
        ensures { AreCounted result [] }
    {
        ChildCounts {
            by_kind: [0; KINDS],
            left: 0,
            supervisors: 0,
            workers: 0,
        }
    }

    /// How many rows have no process, and await no retry.
    pub fn undefined(&self) -> usize
        ensures { (rows : List Row) → AreCounted self.now rows → result ≡ count_by (row_has is_undefined) rows }
    {
        self.by_kind[0] as usize
    }

    /// How many were told to shut down until a deadline.
    pub fn timed(&self) -> usize
        ensures { (rows : List Row) → AreCounted self.now rows → result ≡ count_by (row_has is_timed) rows }
    {
        self.by_kind[4] as usize
    }

    /// Of how many an answer is awaited: to a start, a shutdown or a kill.
    pub fn awaited(&self) -> usize
        ensures { (rows : List Row) → AreCounted self.now rows → result ≡ count_by (row_has is_awaited) rows }
    {
        self.by_kind[1] as usize + self.told()
    }

    /// How many have a process that was started and has not ended.
    pub fn active(&self) -> usize
        ensures { (rows : List Row) → AreCounted self.now rows → result ≡ count_by (row_has is_active) rows }
    {
        self.by_kind[2] as usize + self.told()
    }

    /// How many were told to shut down or killed.
    fn told(&self) -> usize
        ensures { result ≡ get_or self.now.by_kind 3 0 + get_or self.now.by_kind 4 0 + get_or self.now.by_kind 5 0 }
    {
        self.by_kind[3] as usize + self.by_kind[4] as usize + self.by_kind[5] as usize
    }
}

/// One row less of this kind.
fn take_one(by_kind: &mut [u32; KINDS], kind: usize)
    requires { kind < KINDS }
    ensures { HasOneLess kind by_kind.old by_kind.new }
{
    by_kind[kind] = by_kind[kind].saturating_sub(1);
}

/// One row more of this kind.
fn add_one(by_kind: &mut [u32; KINDS], kind: usize)
    requires kind { kind < KINDS }
    requires limit { get_or by_kind.old kind 0 ≤ MAX_CHILDREN }
    ensures { HasOneMore kind by_kind.old by_kind.new }
{
    by_kind[kind] += 1;
}

/// The count where a row that counted or not is now one that counts or not.
fn changed(count: usize, before: bool, after: bool) -> usize
    requires { count ≤ MAX_CHILDREN }
    ensures { result ≡ count - cond before 1 0 + cond after 1 0 }
{
    count.saturating_sub(before as usize) + after as usize
}

fn row_at(rows: &[Row], place: usize) -> &Row
    requires { place < length rows.now }
    ensures { (d : Row) → result.now ≡ get_or rows.now place d }
{
    &rows[place]
}

/// Whether the row is that of a significant child that is left, once it has this state.
fn is_left_as(row: &Row, state: RowState) -> bool
    ensures { result ≡ is_left (with_state state row.now) }
{
    row.spec.significant && !state.is_undefined()
}

/// The row at the place is to have this state: the counts of the rows once it has.
pub fn count_change(rows: &[Row], counts: &mut ChildCounts, place: usize, state: RowState)
    requires counted { AreCounted counts.old rows.now }
    requires limit { length rows.now ≤ MAX_CHILDREN }
    requires place { place < length rows.now }
    ensures { (d : Row) → AreCounted counts.new (set rows.now place (with_state state (get_or rows.now place d))) }
{
    let row = row_at(rows, place);
    take_one(&mut counts.by_kind, kind_of(row.state));
    add_one(&mut counts.by_kind, kind_of(state));
    counts.left = changed(counts.left, row.is_left(), is_left_as(row, state));
}

/// The row is to stand last: the counts of the rows with it.
pub fn count_row(rows: &[Row], counts: &mut ChildCounts, row: &Row)
    requires counted { AreCounted counts.old rows.now }
    requires limit { length rows.now ≤ MAX_CHILDREN }
    ensures { AreCounted counts.new (rows.now ++ row.now ∷ []) }
{
    add_one(&mut counts.by_kind, kind_of(row.state));
    counts.left = changed(counts.left, false, row.is_left());
    counts.supervisors = changed(counts.supervisors, false, row.is_supervisor());
    counts.workers = changed(counts.workers, false, row.is_worker());
}

/// The row at the place is to be taken out: the counts of the rows without it.
pub fn uncount_row(rows: &[Row], counts: &mut ChildCounts, place: usize)
    requires counted { AreCounted counts.old rows.now }
    requires limit { length rows.now ≤ MAX_CHILDREN }
    requires place { place < length rows.now }
    ensures { AreCounted counts.new (remove rows.now place) }
{
    let row = row_at(rows, place);
    take_one(&mut counts.by_kind, kind_of(row.state));
    counts.left = changed(counts.left, row.is_left(), false);
    counts.supervisors = changed(counts.supervisors, row.is_supervisor(), false);
    counts.workers = changed(counts.workers, row.is_worker(), false);
}
