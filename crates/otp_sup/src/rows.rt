//! Which child a note tells of, whether its row stays, and whether a slot is a child's.
ghost use Rattle.std.specs.Prelude.{◌≡◌, if◌then◌else◌, None, Some};
ghost use Rattle.std.specs.List.{list_any};
ghost use Rattle.otp_table.specs.Rows.{has_slot};
ghost use Rattle.otp_rules.specs.Fit.{is_starting};
ghost use Rattle.otp_laws.specs.Stays.{keeps_row, stays_stopped};
ghost use Rattle.otp_core.specs.View.{state_of};
ghost use Rattle.otp_sup.specs.Moves.{is_heeded, slot_heeding};

use otp_bodies::number_of;
use otp_bodies::office::Office;
use otp_core::Core;
use otp_machine::decisions::places::is_removed;
use otp_reason::Note;
use otp_signals::WordsNaming;
use otp_table::{Row, RowState};

/// Whether a row has this slot.
pub(crate) fn has_slot(rows: &[Row], slot: usize) -> bool
    ensures { result ≡ list_any (has_slot slot) rows.now }
{
    rows.iter().any(|row| row.slot == slot)
}

fn is_heeded(note: &Note, row: &Row) -> bool
    ensures { result ≡ is_heeded note.now row.now }
{
    match note {
        Note::Up(_) => false,
        Note::Ignored(number) | Note::Failed(number, _) => is_starting(&row.state, *number),
        Note::Exit(number, _) => row.state.has_process(*number),
    }
}

fn is_starting(state: &RowState, number: u64) -> bool
    ensures { result ≡ is_starting number state.now }
{
    match state {
        RowState::Starting(started, _) => *started == number,
        _ => false,
    }
}

/// The row's slot, if the note tells the end of its process and changes the row or waits.
fn slot_if_heeded(note: &Note, row: &Row) -> Option<usize>
    ensures { result ≡ (if is_heeded note.now row.now then Some row.now.slot else None) }
{
    if is_heeded(note, row) {
        Some(row.slot)
    } else {
        None
    }
}

/// The slot of the child whose body an end note brings home, if it changes its row or waits. The core finds the row by the
/// number of the process: no other has that process.
pub(crate) fn slot_heeding<N: WordsNaming>(office: &Office<N>, note: &Note) -> Option<usize>
    ensures { result ≡ slot_heeding note.now (state_of office.now.core).rows }
{
    office.keeps_rules();
    let core = office.core();
    match core.find_process(number_of(*note)) {
        Some(place) => slot_if_heeded(note, &core.rows()[place]),
        None => None,
    }
}

/// Whether the row's child was told to stop, and the row stays when its process has ended.
fn stays_stopped(row: &Row) -> bool
    ensures { result ≡ stays_stopped row.now }
{
    match row.state {
        RowState::Asked(..) | RowState::Killed(_) => !is_removed(row),
        _ => false,
    }
}

/// Whether [`stays_stopped`] is true of the row whose process has this number, which the core finds. False where none has it.
pub(crate) fn keeps_row(core: &Core, number: u64) -> bool
    ensures { result ≡ keeps_row number (state_of core.now).rows }
{
    match core.find_process(number) {
        Some(place) => stays_stopped(&core.rows()[place]),
        None => false,
    }
}
