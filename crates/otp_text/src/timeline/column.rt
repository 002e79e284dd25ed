//! What stands in a cell: what a child does at a moment, and how many restarts its supervisor has had.

ghost use Rattle.std.specs.Prelude.{◌≡◌, ◌<◌, ◌++◌, IfSome, OnOk, length, option_map, position, slice_get};
ghost use Rattle.std.specs.List.{list_any};
ghost use Rattle.otp_text.specs.Values.{process_text};
ghost use Rattle.otp_text.specs.Picture.{added_cell, added_in, is_added, is_again, is_child, is_other, mark_at, mark_cell, mark_found, marked_text, marks_at, or_before, process_after, process_in, restarts_cell, restarts_colour, restarts_text, standing_cell, state_text};

use crate::timeline::cell::write_cell;
use crate::timeline::colour::Colour;
use crate::timeline::moment::{Mark, Moment, Standing};
use crate::{write_number, write_process};
use otp_reason::Name;
use otp_table::RowState;
use std::alloc::AllocError;

/// The least intensity that has no room in a cell beside the restarts.
const WIDE: u64 = 100;

/// What stands where there is no such child, or where the supervisor doesn't run.
const NOTHING: &[u8] = b"-";

/// Which supervisor of a moment is drawn, and whether in colours.
#[derive(Clone, Copy, Debug, PartialEq, Eq)]
pub struct Look {
    /// Its place among the standings.
    pub place: usize,
    pub is_coloured: bool,
}

/// Appends what a process does, with its number.
#[tactic(auto, unfolding(crate::specs::Picture::state_text))]
fn write_state(state: RowState, out: &mut Vec<u8>) -> Result<(), AllocError>
    ensures { OnOk result (out.new.items ≡ out.old.items ++ state_text state) }
{
    match state {
        RowState::Undefined => out.extend_from_slice(b"down"),
        RowState::Restarting(_) => out.extend_from_slice(b"retry"),
        RowState::Up(number) => write_process(number, out),
        RowState::Starting(number, _) => {
            out.extend_from_slice(b"+")?;
            write_process(number, out)
        }
        RowState::Asked(number, _) | RowState::Killed(number) => {
            out.extend_from_slice(b"-")?;
            write_process(number, out)
        }
    }
}

/// The supervisor at this place, if there is one.
fn standing_at(moment: &Moment, place: usize) -> Option<&Standing>
    ensures { option_map (λ standing. standing.now) result ≡ slice_get moment.now.standings place }
{
    let standings = moment.standings.as_slice();
    if place < standings.len() {
        Some(&standings[place])
    } else {
        None
    }
}

/// The children of the supervisor at this place.
#[tactic(auto, unfolding(crate::specs::Picture::marks_at, crate::specs::Picture::marks_in))]
pub(crate) fn marks_at(moment: &Moment, place: usize) -> &[Mark]
    ensures { result.now ≡ marks_at place moment.now }
{
    match standing_at(moment, place) {
        None => &[],
        Some(standing) => standing.marks.as_slice(),
    }
}

/// Whether this is the child with this id.
fn is_child(mark: &Mark, id: &Name) -> bool
    ensures { result ≡ is_child id.now mark.now }
{
    mark.id == Some(*id)
}

/// The place of the child with this id.
fn place_of(marks: &[Mark], id: &Name) -> Option<usize>
    ensures place { result ≡ position (is_child id.now) marks.now }
    ensures inside { IfSome result (λ place. place < length marks.now) }
{
    marks.iter().position(|mark| is_child(mark, id))
}

/// The child with this id.
#[tactic(auto, unfolding(crate::specs::Picture::mark_found))]
fn found<'a>(marks: &'a [Mark], id: &Name) -> Option<Mark>
    ensures { result ≡ mark_found marks.now (position (is_child id.now) marks.now) }
{
    match place_of(marks, id) {
        None => None,
        Some(place) => Some(marks[place]),
    }
}

/// The child with this id at a moment, if there is one.
#[tactic(auto, unfolding(crate::specs::Picture::mark_at))]
pub(crate) fn mark_at(place: usize, id: &Name, moment: &Moment) -> Option<Mark>
    ensures { result ≡ mark_at place id.now moment.now }
{
    found(marks_at(moment, place), id)
}

/// The process of a child in this state.
#[tactic(auto, unfolding(crate::specs::Picture::process_in))]
fn process_in(state: RowState) -> Option<u64>
    ensures { result ≡ process_in state }
{
    match state {
        RowState::Starting(process, _)
        | RowState::Up(process)
        | RowState::Asked(process, _)
        | RowState::Killed(process) => Some(process),
        RowState::Undefined | RowState::Restarting(_) => None,
    }
}

/// A number, or else another.
#[tactic(auto, unfolding(crate::specs::Picture::or_before))]
fn or_before(before: Option<u64>, process: Option<u64>) -> Option<u64>
    ensures { result ≡ or_before before process }
{
    match process {
        None => before,
        Some(process) => Some(process),
    }
}

/// The last process of a child that was known before, after what it does now.
#[tactic(auto, unfolding(crate::specs::Picture::process_after))]
pub(crate) fn process_after(before: Option<u64>, mark: Option<Mark>) -> Option<u64>
    ensures { result ≡ process_after before mark }
{
    match mark {
        None => before,
        Some(mark) => or_before(before, process_in(mark.state)),
    }
}

/// Whether two numbers are not the same.
#[tactic(auto, unfolding(crate::specs::Picture::is_other))]
fn is_other(before: Option<u64>, process: u64) -> bool
    ensures { result ≡ is_other before process }
{
    match before {
        None => false,
        Some(before) => before != process,
    }
}

/// Whether a child runs as another process than before: it was started again.
#[tactic(auto, unfolding(crate::specs::Picture::is_again))]
fn is_again(before: Option<u64>, state: RowState) -> bool
    ensures { result ≡ is_again before state }
{
    match state {
        RowState::Up(process) => is_other(before, process),
        RowState::Undefined | RowState::Starting(..) | RowState::Restarting(_) => false,
        RowState::Asked(..) | RowState::Killed(_) => false,
    }
}

/// Appends what a process does, with a star where it was started again.
#[tactic(auto, unfolding(crate::specs::Picture::marked_text))]
fn write_marked(is_again: bool, state: RowState, out: &mut Vec<u8>) -> Result<(), AllocError>
    ensures { OnOk result (out.new.items ≡ out.old.items ++ marked_text is_again state) }
{
    if is_again {
        out.extend_from_slice(b"*")?;
    }
    write_state(state, out)
}

/// Appends what a child does, if there is one, whose last process before was this.
#[tactic(auto, unfolding(crate::specs::Picture::mark_cell))]
pub(crate) fn write_mark(
    is_coloured: bool,
    before: Option<u64>,
    mark: Option<Mark>,
    word: &mut Vec<u8>,
    out: &mut Vec<u8>,
) -> Result<(), AllocError>
    ensures { OnOk result (out.new.items ≡ out.old.items ++ mark_cell is_coloured before mark) }
{
    match mark {
        None => write_cell(is_coloured, Colour::Plain, NOTHING, out),
        Some(mark) => {
            word.clear();
            write_marked(is_again(before, mark.state), mark.state, word)?;
            write_cell(is_coloured, Colour::of(mark.state), word.as_slice(), out)
        }
    }
}

/// Whether this is a child without an id.
fn is_added(mark: &Mark) -> bool
    ensures { result ≡ is_added mark.now }
{
    mark.id.is_none()
}

/// Whether some child has no id.
pub(crate) fn has_added(marks: &[Mark]) -> bool
    ensures { result ≡ list_any is_added marks.now }
{
    marks.iter().any(|mark| is_added(mark))
}

/// How many children without an id run.
fn added_in(marks: &[Mark]) -> u64
    ensures { result ≡ added_in marks.now }
{
    let mut count: u64 = 0;
    for mark in marks {
        if is_added(mark) && mark.state.is_up() {
            count += 1;
        }
    }
    count
}

/// Appends how many children without an id run at a moment.
#[tactic(auto, unfolding(crate::specs::Picture::added_cell))]
pub(crate) fn write_added_cell(
    look: Look,
    moment: &Moment,
    word: &mut Vec<u8>,
    out: &mut Vec<u8>,
) -> Result<(), AllocError>
    ensures { OnOk result (out.new.items ≡ out.old.items ++ added_cell look moment.now) }
{
    word.clear();
    write_number(added_in(marks_at(moment, look.place)), word)?;
    word.extend_from_slice(b" up")?;
    write_cell(look.is_coloured, Colour::Plain, word.as_slice(), out)
}

/// The colour of so many restarts: the next one may be one too many, or not.
#[tactic(auto, unfolding(crate::specs::Picture::restarts_colour))]
fn restarts_colour(restarts: u64, intensity: u64) -> Colour
    ensures { result ≡ restarts_colour restarts intensity }
{
    if restarts < intensity {
        Colour::Plain
    } else {
        Colour::Yellow
    }
}

/// Appends so many restarts of the intensity.
#[tactic(auto, unfolding(crate::specs::Picture::restarts_text))]
fn write_restarts(restarts: u64, intensity: u64, out: &mut Vec<u8>) -> Result<(), AllocError>
    ensures { OnOk result (out.new.items ≡ out.old.items ++ restarts_text restarts intensity) }
{
    if intensity >= WIDE {
        return write_number(restarts, out);
    }
    write_number(restarts, out)?;
    out.extend_from_slice(b"/")?;
    write_number(intensity, out)
}

/// Appends how many restarts of the intensity are used up at a moment.
#[tactic(auto, unfolding(crate::specs::Picture::restarts_cell, crate::specs::Picture::standing_cell))]
pub(crate) fn write_restarts_cell(
    look: Look,
    intensity: u64,
    moment: &Moment,
    word: &mut Vec<u8>,
    out: &mut Vec<u8>,
) -> Result<(), AllocError>
    ensures { OnOk result (out.new.items ≡ out.old.items ++ restarts_cell look intensity moment.now) }
{
    match standing_at(moment, look.place) {
        Some(standing) if !standing.is_over => {
            let restarts = standing.restarts;
            word.clear();
            write_restarts(restarts, intensity, word)?;
            write_cell(
                look.is_coloured,
                restarts_colour(restarts, intensity),
                word.as_slice(),
                out,
            )
        }
        _ => write_cell(look.is_coloured, Colour::Plain, NOTHING, out),
    }
}
