//! What came of a supervisor in a run, and what it awaits.

ghost use Rattle.std.specs.Prelude.{◌≡◌, ◌++◌, OnOk, count_by};
ghost use Rattle.otp_try.specs.Fate.{awaited_part, awaits_text, fate_of, fate_on, first_awaited, is_awaited, is_awaited_in, is_open, other_fate, others_text, part_text, settled_fate};

use crate::remarks::awaited::write_child;
use otp_reason::Name;
use otp_table::{Row, RowState};
use otp_trial::TriedSupervisor;
use otp_trial::story::Course;
use otp_trial::story::telling::write_after;
use std::alloc::AllocError;

/// What came of a supervisor. Times are in milliseconds.
#[derive(Clone, Copy, Debug, PartialEq, Eq)]
pub enum Fate {
    /// It gave up, at least once, and stops or starts no children now.
    GaveUp,
    /// The root has ended, and not since it gave up.
    Ended,
    /// The root has not ended.
    Survived,
    /// A supervisor below the root never gave up.
    Lasted,
    /// It was asked to stop at this time, and has not ended.
    Asked(u64),
    /// It has given up at this time, and has not ended.
    GivesUp(u64),
    /// It stops or starts children, and what follows isn't known.
    Undecided,
}

/// Whether a supervisor, which has a process or not, is stopping or starting children.
#[tactic(auto, unfolding(crate::specs::Fate::is_open))]
pub(crate) fn is_open(is_running: bool, seat: &TriedSupervisor) -> bool
    ensures { result ≡ is_open is_running seat.now }
{
    is_running && !seat.has_ended() && seat.has_open_work()
}

/// What comes of one that is, by its course.
#[tactic(auto, unfolding(crate::specs::Fate::fate_on))]
fn fate_on(course: Course) -> Fate
    ensures { result ≡ fate_on course }
{
    match course {
        Course::Asked(time) => Fate::Asked(time),
        Course::GivesUp(time) => Fate::GivesUp(time),
        Course::Stays => Fate::Undecided,
    }
}

/// What came of one that never gave up.
#[tactic(auto, unfolding(crate::specs::Fate::other_fate))]
fn other_fate(is_root: bool, has_ended: bool) -> Fate
    ensures { result ≡ other_fate is_root has_ended }
{
    match (is_root, has_ended) {
        (true, true) => Fate::Ended,
        (true, false) => Fate::Survived,
        (false, _) => Fate::Lasted,
    }
}

/// What came of one that stops and starts no children.
#[tactic(auto, unfolding(crate::specs::Fate::settled_fate))]
fn settled_fate(is_root: bool, seat: &TriedSupervisor) -> Fate
    ensures { result ≡ settled_fate is_root seat.now }
{
    if seat.strain().times > 0 {
        Fate::GaveUp
    } else {
        other_fate(is_root, seat.has_ended())
    }
}

/// What came of a supervisor, which has a process or not.
#[tactic(auto, unfolding(crate::specs::Fate::fate_of))]
pub fn fate_of(is_root: bool, is_running: bool, seat: &TriedSupervisor) -> Fate
    ensures { result ≡ fate_of is_root is_running seat.now }
{
    if is_open(is_running, seat) {
        fate_on(seat.strain().course)
    } else {
        settled_fate(is_root, seat)
    }
}

/// Whether a child in this state is awaited.
#[tactic(auto, unfolding(crate::specs::Fate::is_awaited_in))]
fn is_awaited_in(state: RowState) -> bool
    ensures { result ≡ is_awaited_in state }
{
    match state {
        RowState::Starting(..) | RowState::Asked(..) | RowState::Killed(_) => true,
        RowState::Up(_) | RowState::Undefined | RowState::Restarting(_) => false,
    }
}

/// How many children are awaited.
fn count_awaited(rows: &[Row]) -> u64
    ensures { result ≡ count_by is_awaited rows.now }
{
    let mut count: u64 = 0;
    for row in rows {
        if is_awaited_in(row.state) {
            count += 1;
        }
    }
    count
}

/// Appends that this is awaited of a child of the supervisor with this path.
#[tactic(auto, unfolding(crate::specs::Fate::part_text))]
fn write_what(
    what: &[u8],
    path: &[u8],
    id: &Option<Name>,
    process: u64,
    out: &mut Vec<u8>,
) -> Result<(), AllocError>
    ensures { OnOk result (out.new.items ≡ out.old.items ++ part_text what.now path.now id.now process) }
{
    out.extend_from_slice(what)?;
    write_child(path, id, process, out)
}

/// Appends what is awaited of a child of the supervisor with this path.
#[tactic(auto, unfolding(crate::specs::Fate::awaited_part))]
fn write_part(
    path: &[u8],
    id: &Option<Name>,
    state: RowState,
    out: &mut Vec<u8>,
) -> Result<(), AllocError>
    ensures { OnOk result (out.new.items ≡ out.old.items ++ awaited_part path.now id.now state) }
{
    match state {
        RowState::Starting(process, _) => write_what(b"the start of ", path, id, process, out),
        RowState::Asked(process, _) => write_what(b"the end of ", path, id, process, out),
        RowState::Killed(process) => write_what(b"the end of ", path, id, process, out),
        RowState::Up(_) | RowState::Undefined | RowState::Restarting(_) => Ok(()),
    }
}

/// Appends what is awaited of the first child of which something is.
fn write_first(path: &[u8], rows: &[Row], out: &mut Vec<u8>) -> Result<(), AllocError>
    ensures { OnOk result (out.new.items ≡ out.old.items ++ first_awaited path.now rows.now) }
{
    match rows {
        [] => Ok(()),
        [row, rows @ ..] => {
            if is_awaited_in(row.state) {
                write_part(path, &row.id, row.state, out)
            } else {
                write_first(path, rows, out)
            }
        }
    }
}

/// Appends how many children are awaited beside the first.
#[tactic(auto, unfolding(crate::specs::Fate::others_text))]
fn write_others(count: u64, out: &mut Vec<u8>) -> Result<(), AllocError>
    ensures { OnOk result (out.new.items ≡ out.old.items ++ others_text count) }
{
    if count > 1 {
        write_after(b" and of ", count - 1, out)?;
        out.extend_from_slice(b" more")
    } else {
        Ok(())
    }
}

/// Appends what a supervisor with this path awaits of its children: `the end of pool/a #4 and of 2 more`. Nothing, if it awaits none.
#[tactic(auto, unfolding(crate::specs::Fate::awaits_text))]
pub fn write_awaits(path: &[u8], rows: &[Row], out: &mut Vec<u8>) -> Result<(), AllocError>
    ensures { OnOk result (out.new.items ≡ out.old.items ++ awaits_text path.now rows.now) }
{
    write_first(path, rows, out)?;
    write_others(count_awaited(rows), out)
}
