//! How supervisors stand at a moment of a run.

ghost use Rattle.std.specs.Prelude.{◌≡◌, [], true, IfOk, map};
ghost use Rattle.otp_text.specs.Moments.{mark_of, standing_of};
ghost use Rattle.otp_window.specs.Period.{in_period, is_in_period};

use otp_reason::Name;
use otp_table::{Row, RowState};
use std::alloc::{AllocError, Global};
use std::collections::VecDeque;
use std::marker::Model;

/// A child at a moment.
#[derive(Clone, Copy, Debug, PartialEq, Eq)]
pub struct Mark {
    /// Its id; a dynamic child has none.
    pub id: Option<Name>,
    /// What its process does.
    pub state: RowState,
}

/// The children of a supervisor at a moment, in start order. Contracts see them as a list.
#[derive(Debug, Drop)]
pub struct Marks {
    items: Vec<Mark>,
}

impl Model for Marks {
    ghost use Rattle.std.specs.Prelude.{List};
    ghost use Rattle.otp_text.specs.declared.timeline.moment.Mark.{Mark};

    ghost Value = { List Mark };

    ghost view = { λ a. a.items.items };
}

impl Marks {
    ghost use Rattle.std.specs.Prelude.{◌≡◌};

    /// The children in their order.
    pub fn as_slice(&self) -> &[Mark]
        ensures { result.now ≡ self.now }
    {
        &self.items
    }
}

/// How a supervisor stands at a moment.
#[derive(Debug, Drop)]
pub struct Standing {
    pub marks: Marks,
    /// How many restarts lie in the period that ends then.
    pub restarts: u64,
    /// It was never started, or has ended.
    pub is_over: bool,
}

/// How the supervisors of a tree stand at a moment. Contracts see them as a list.
#[derive(Debug, Drop)]
pub struct Standings {
    items: Vec<Standing>,
}

impl Model for Standings {
    ghost use Rattle.std.specs.Prelude.{List};
    ghost use Rattle.otp_text.specs.declared.timeline.moment.Standing.{Standing};

    ghost Value = { List Standing };

    ghost view = { λ a. a.items.items };
}

impl Standings {
    ghost use Rattle.std.specs.Prelude.{◌≡◌};

    /// How these supervisors stand.
    pub fn new(items: Vec<Standing>) -> Self
        ensures { result ≡ items.items }
    {
        Standings { items }
    }

    /// How each stands, in the place of its supervisor.
    pub fn as_slice(&self) -> &[Standing]
        ensures { result.now ≡ self.now }
    {
        &self.items
    }
}

/// A moment of a run.
#[derive(Debug, Drop)]
pub struct Moment {
    /// The line of the script that was played then, counted from 1; 0 for the start.
    pub line: u64,
    /// The clock, in milliseconds.
    pub time: u64,
    pub standings: Standings,
}

/// How a supervisor without a process stands: it has no children.
pub fn no_standing(alloc: Global) -> Standing
    ensures { result ≡ record { marks = []; restarts = 0; is_over = true } }
{
    let marks = Marks {
        items: Vec::new(alloc),
    };
    Standing {
        marks,
        restarts: 0,
        is_over: true,
    }
}

/// The child of a row.
fn mark_of(row: &Row) -> Mark
    ensures { result ≡ mark_of row.now }
{
    Mark {
        id: row.id,
        state: row.state,
    }
}

/// The children of these rows.
fn marks_of(alloc: Global, rows: &[Row]) -> Result<Vec<Mark>, AllocError>
    ensures { IfOk result (λ marks. marks.items ≡ map mark_of rows.now) }
{
    let mut marks = Vec::new(alloc);
    for row in rows {
        marks.push(mark_of(row)).map_err(|_| AllocError)?;
    }
    Ok(marks)
}

/// Whether a restart lies in the period that ends now. The period is in seconds, times are in milliseconds.
fn is_in_period(stamp: u64, period: u64, now: u64) -> bool
    ensures { result ≡ is_in_period period now stamp }
{
    stamp <= now && now - stamp <= period.saturating_mul(1000)
}

/// How many of the restarts lie in the period that ends now. The period is in seconds, times are in milliseconds.
pub fn restarts_in(stamps: &VecDeque<u64>, period: u64, now: u64) -> u64
    ensures { result ≡ in_period period stamps.now.items now }
{
    let mut count: u64 = 0;
    for place in 0..stamps.len() {
        if is_in_period(stamps[place], period, now) {
            count += 1;
        }
    }
    count
}

/// How a supervisor stands now, whose children have these rows and whose restarts were at these times.
///
/// # Errors
///
/// Where memory is refused.
pub fn standing_of(
    alloc: Global,
    rows: &[Row],
    stamps: &VecDeque<u64>,
    period: u64,
    is_over: bool,
    now: u64,
) -> Result<Standing, AllocError>
    ensures { IfOk result (λ standing. standing ≡ standing_of rows.now stamps.now.items period is_over now) }
{
    let items = marks_of(alloc, rows)?;
    Ok(Standing {
        marks: Marks { items },
        restarts: restarts_in(stamps, period, now),
        is_over,
    })
}
