//! How a supervisor stands, in one line.

ghost use Rattle.std.specs.Prelude.{◌≡◌, ◌++◌, OnOk, count_by};
ghost use Rattle.otp_try.specs.Standing.{children_text, count_text, does, doing_of, doing_text, doing_word, period_text, share_text, state_text, used_text};

use otp_spec::SupFlags;
use otp_table::{Row, RowState};
use otp_text::timeline::restarts_in;
use otp_text::write_number;
use otp_trial::story::telling::write_after;
use std::alloc::AllocError;
use std::collections::VecDeque;

/// What a child does, seen from afar.
#[derive(Clone, Copy, Debug, PartialEq, Eq)]
pub enum Doing {
    /// It runs.
    Up,
    /// Its start was ordered, and is not answered.
    Starting,
    /// It was asked to shut down or killed, and has not ended.
    Stopping,
    /// It has no process, and its next restart waits.
    Restarting,
    /// It has no process.
    Down,
}

impl Doing {
    /// What a child in this state does.
    #[tactic(auto, unfolding(crate::specs::Standing::doing_of))]
    pub fn of(state: RowState) -> Self
        ensures { result ≡ doing_of state }
    {
        match state {
            RowState::Up(_) => Doing::Up,
            RowState::Starting(..) => Doing::Starting,
            RowState::Asked(..) | RowState::Killed(_) => Doing::Stopping,
            RowState::Restarting(_) => Doing::Restarting,
            RowState::Undefined => Doing::Down,
        }
    }

    /// The word for it.
    #[tactic(auto, unfolding(crate::specs::Standing::doing_word))]
    pub fn word(self) -> &'static str
        ensures { result.now ≡ doing_word self }
    {
        match self {
            Doing::Up => "up",
            Doing::Starting => "starting",
            Doing::Stopping => "stopping",
            Doing::Restarting => "restarting",
            Doing::Down => "down",
        }
    }
}

/// Whether a child does this.
fn does(doing: Doing, row: &Row) -> bool
    ensures { result ≡ does doing row.now }
{
    Doing::of(row.state) == doing
}

/// How many children do this.
fn count_of(rows: &[Row], doing: Doing) -> u64
    ensures { result ≡ count_by (does doing) rows.now }
{
    let mut count: u64 = 0;
    for row in rows {
        if does(doing, row) {
            count += 1;
        }
    }
    count
}

/// Appends so many children and what they do, where there are some.
#[tactic(auto, unfolding(crate::specs::Standing::count_text))]
fn write_count(count: u64, word: &[u8], out: &mut Vec<u8>) -> Result<(), AllocError>
    ensures { OnOk result (out.new.items ≡ out.old.items ++ count_text count word.now) }
{
    if count == 0 {
        return Ok(());
    }
    write_number(count, out)?;
    out.extend_from_slice(b" ")?;
    out.extend_from_slice(word)?;
    out.extend_from_slice(b", ")
}

/// Appends how many children do this, where some do.
#[tactic(auto, unfolding(crate::specs::Standing::doing_text))]
fn write_doing(rows: &[Row], doing: Doing, out: &mut Vec<u8>) -> Result<(), AllocError>
    ensures { OnOk result (out.new.items ≡ out.old.items ++ doing_text rows.now doing) }
{
    write_count(count_of(rows, doing), doing.word().as_bytes(), out)
}

/// Appends how the children stand, a comma behind each count.
#[tactic(auto, unfolding(crate::specs::Standing::children_text))]
fn write_children(rows: &[Row], out: &mut Vec<u8>) -> Result<(), AllocError>
    ensures { OnOk result (out.new.items ≡ out.old.items ++ children_text rows.now) }
{
    match rows {
        [] => out.extend_from_slice(b"no children, "),
        rows => {
            write_doing(rows, Doing::Up, out)?;
            write_doing(rows, Doing::Starting, out)?;
            write_doing(rows, Doing::Stopping, out)?;
            write_doing(rows, Doing::Restarting, out)?;
            write_doing(rows, Doing::Down, out)
        }
    }
}

/// Appends so many restarts, and how many there may be.
#[tactic(auto, unfolding(crate::specs::Standing::share_text))]
fn write_share(restarts: u64, intensity: u64, out: &mut Vec<u8>) -> Result<(), AllocError>
    ensures { OnOk result (out.new.items ≡ out.old.items ++ share_text restarts intensity) }
{
    write_number(restarts, out)?;
    out.extend_from_slice(b"/")?;
    write_number(intensity, out)
}

/// Appends within which time.
#[tactic(auto, unfolding(crate::specs::Standing::period_text))]
fn write_period(period: u64, out: &mut Vec<u8>) -> Result<(), AllocError>
    ensures { OnOk result (out.new.items ≡ out.old.items ++ period_text period) }
{
    write_after(b" restarts in ", period, out)
}

/// Appends how many restarts of the period are used up.
#[tactic(auto, unfolding(crate::specs::Standing::used_text))]
pub fn write_used(flags: &SupFlags, restarts: u64, out: &mut Vec<u8>) -> Result<(), AllocError>
    ensures { OnOk result (out.new.items ≡ out.old.items ++ used_text flags.now restarts) }
{
    write_share(restarts, flags.intensity, out)?;
    write_period(flags.period, out)?;
    out.extend_from_slice(b" s")
}

/// Appends how the children stand, and how many restarts of the period are used up: `3 up, 1 stopping, 2/3 restarts in 10 s`.
#[tactic(auto, unfolding(crate::specs::Standing::state_text))]
pub fn write_state(
    flags: &SupFlags,
    rows: &[Row],
    stamps: &VecDeque<u64>,
    now: u64,
    out: &mut Vec<u8>,
) -> Result<(), AllocError>
    ensures { OnOk result (out.new.items ≡ out.old.items ++ state_text flags.now rows.now stamps.now.items now) }
{
    write_children(rows, out)?;
    write_used(flags, restarts_in(stamps, flags.period, now), out)
}
