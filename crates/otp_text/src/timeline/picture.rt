//! The lines of a picture.

ghost use Rattle.std.specs.Prelude.{◌≡◌, ◌≤◌, ◌++◌, None, OnOk};
ghost use Rattle.std.specs.List.{flat_map, list_any};
ghost use Rattle.otp_text.specs.Picture.{added_cell, added_line, added_lines, child_cells, child_line, has_added, heads_text, line_cell, line_text, number_between, period_text, restarts_cell, restarts_line, supervisor_text, time_cell, time_text};

use crate::timeline::cell::{CELL, LABEL, write_cell, write_label};
use crate::timeline::colour::Colour;
use crate::timeline::column::{
    Look, has_added, mark_at, marks_at, process_after, write_added_cell, write_mark,
    write_restarts_cell,
};
use crate::timeline::moment::Moment;
use crate::timeline::names::ids_at;
use crate::timeline::seconds::write_seconds;
use crate::{write_name, write_number};
use otp_reason::Name;
use otp_spec::SupFlags;
use std::alloc::{AllocError, Global};

/// How many moments stand side by side in so many columns, one at the least.
pub fn moments_in(width: u32) -> usize
    ensures { 1 ≤ result }
{
    let room = (width as usize).saturating_sub(LABEL) / CELL;
    room.max(1)
}

/// What the cells mean.
pub const LEGEND: &[u8] =
    b"#N runs as process N, *#N anew; +#N starts, -#N is to end; retry: start failed\n\
a column is a line of the script, when it was played; N/M: N restarts of M\n";

/// The least time in milliseconds of which the milliseconds have no room.
const LONG: u64 = 1_000_000;

/// Appends the number of a line, or that it is the start.
#[tactic(auto, unfolding(crate::specs::Picture::line_text))]
fn write_line(line: u64, out: &mut Vec<u8>) -> Result<(), AllocError>
    ensures { OnOk result (out.new.items ≡ out.old.items ++ line_text line) }
{
    if line == 0 {
        out.extend_from_slice(b"start")
    } else {
        write_number(line, out)
    }
}

/// Appends the line of a moment.
#[tactic(auto, unfolding(crate::specs::Picture::line_cell))]
fn write_line_cell(moment: &Moment, word: &mut Vec<u8>, out: &mut Vec<u8>) -> Result<(), AllocError>
    ensures { OnOk result (out.new.items ≡ out.old.items ++ line_cell moment.now) }
{
    word.clear();
    write_line(moment.line, word)?;
    write_cell(false, Colour::Plain, word.as_slice(), out)
}

/// Appends a time in seconds; where it is long, in whole ones.
#[tactic(auto, unfolding(crate::specs::Picture::time_text))]
fn write_time(time: u64, out: &mut Vec<u8>) -> Result<(), AllocError>
    ensures { OnOk result (out.new.items ≡ out.old.items ++ time_text time) }
{
    if time < LONG {
        write_seconds(time, out)
    } else {
        write_number(time / 1000, out)
    }
}

/// Appends the time of a moment.
#[tactic(auto, unfolding(crate::specs::Picture::time_cell))]
fn write_time_cell(moment: &Moment, word: &mut Vec<u8>, out: &mut Vec<u8>) -> Result<(), AllocError>
    ensures { OnOk result (out.new.items ≡ out.old.items ++ time_cell moment.now) }
{
    word.clear();
    write_time(moment.time, word)?;
    write_cell(false, Colour::Plain, word.as_slice(), out)
}

/// Appends the lines of these moments.
fn write_line_cells(
    moments: &[Moment],
    word: &mut Vec<u8>,
    out: &mut Vec<u8>,
) -> Result<(), AllocError>
    ensures { OnOk result (out.new.items ≡ out.old.items ++ flat_map line_cell moments.now) }
{
    for moment in moments {
        write_line_cell(moment, word, out)?;
    }
    Ok(())
}

/// Appends the times of these moments.
fn write_time_cells(
    moments: &[Moment],
    word: &mut Vec<u8>,
    out: &mut Vec<u8>,
) -> Result<(), AllocError>
    ensures { OnOk result (out.new.items ≡ out.old.items ++ flat_map time_cell moments.now) }
{
    for moment in moments {
        write_time_cell(moment, word, out)?;
    }
    Ok(())
}

/// Appends which moments the columns are: the line of the script, and the time in seconds.
///
/// # Errors
///
/// Where memory is refused.
#[tactic(auto, unfolding(crate::specs::Picture::heads_text))]
pub fn write_heads(alloc: Global, moments: &[Moment], out: &mut Vec<u8>) -> Result<(), AllocError>
    ensures { OnOk result (out.new.items ≡ out.old.items ++ heads_text moments.now) }
{
    let mut word = Vec::new(alloc);
    write_label(b"line", out)?;
    write_line_cells(moments, &mut word, out)?;
    out.extend_from_slice(b"\n")?;
    write_label(b"seconds", out)?;
    write_time_cells(moments, &mut word, out)?;
    out.extend_from_slice(b"\n")
}

/// Appends what a child does at these moments.
fn write_child_cells(
    look: Look,
    id: &Name,
    moments: &[Moment],
    word: &mut Vec<u8>,
    out: &mut Vec<u8>,
) -> Result<(), AllocError>
    ensures { OnOk result (out.new.items ≡ out.old.items ++ child_cells look id.now None moments.now) }
{
    let mut before = None;
    for moment in moments {
        let mark = mark_at(look.place, id, moment);
        write_mark(look.is_coloured, before, mark, word, out)?;
        before = process_after(before, mark);
    }
    Ok(())
}

/// Appends the line of a child.
#[tactic(auto, unfolding(crate::specs::Picture::child_line))]
fn write_child(
    look: Look,
    path: &[u8],
    id: &Name,
    moments: &[Moment],
    word: &mut Vec<u8>,
    out: &mut Vec<u8>,
) -> Result<(), AllocError>
    ensures { OnOk result (out.new.items ≡ out.old.items ++ child_line look path.now moments.now id.now) }
{
    word.clear();
    word.extend_from_slice(path)?;
    write_name(id, word)?;
    write_label(word.as_slice(), out)?;
    write_child_cells(look, id, moments, word, out)?;
    out.extend_from_slice(b"\n")
}

/// Appends the lines of these children.
fn write_children(
    look: Look,
    path: &[u8],
    ids: &[Name],
    moments: &[Moment],
    word: &mut Vec<u8>,
    out: &mut Vec<u8>,
) -> Result<(), AllocError>
    ensures { OnOk result (out.new.items ≡ out.old.items ++ flat_map (child_line look path.now moments.now) ids.now) }
{
    for id in ids {
        write_child(look, path, id, moments, word, out)?;
    }
    Ok(())
}

/// Whether the supervisor has a child without an id at one of these moments.
fn has_added_at(place: usize, moments: &[Moment]) -> bool
    ensures { result ≡ list_any (has_added place) moments.now }
{
    moments
        .iter()
        .any(|moment| has_added(marks_at(moment, place)))
}

/// Appends how many children without an id run at these moments.
fn write_added_cells(
    look: Look,
    moments: &[Moment],
    word: &mut Vec<u8>,
    out: &mut Vec<u8>,
) -> Result<(), AllocError>
    ensures { OnOk result (out.new.items ≡ out.old.items ++ flat_map (added_cell look) moments.now) }
{
    for moment in moments {
        write_added_cell(look, moment, word, out)?;
    }
    Ok(())
}

/// Appends the line of the children without an id.
#[tactic(auto, unfolding(crate::specs::Picture::added_line))]
fn write_added(
    look: Look,
    path: &[u8],
    moments: &[Moment],
    word: &mut Vec<u8>,
    out: &mut Vec<u8>,
) -> Result<(), AllocError>
    ensures { OnOk result (out.new.items ≡ out.old.items ++ added_line look path.now moments.now) }
{
    word.clear();
    word.extend_from_slice(path)?;
    word.extend_from_slice(b"without an id")?;
    write_label(word.as_slice(), out)?;
    write_added_cells(look, moments, word, out)?;
    out.extend_from_slice(b"\n")
}

/// Appends the line of the children without an id, if there are such children.
#[tactic(auto, unfolding(crate::specs::Picture::added_lines))]
fn write_all_added(
    look: Look,
    path: &[u8],
    moments: &[Moment],
    word: &mut Vec<u8>,
    out: &mut Vec<u8>,
) -> Result<(), AllocError>
    ensures { OnOk result (out.new.items ≡ out.old.items ++ added_lines look path.now moments.now) }
{
    if has_added_at(look.place, moments) {
        write_added(look, path, moments, word, out)
    } else {
        Ok(())
    }
}

/// Appends how many restarts are used up at these moments.
fn write_restarts_cells(
    look: Look,
    intensity: u64,
    moments: &[Moment],
    word: &mut Vec<u8>,
    out: &mut Vec<u8>,
) -> Result<(), AllocError>
    ensures { OnOk result (out.new.items ≡ out.old.items ++ flat_map (restarts_cell look intensity) moments.now) }
{
    for moment in moments {
        write_restarts_cell(look, intensity, moment, word, out)?;
    }
    Ok(())
}

/// Appends a number between two texts.
#[tactic(auto, unfolding(crate::specs::Picture::number_between))]
fn write_between(
    before: &[u8],
    number: u64,
    after: &[u8],
    out: &mut Vec<u8>,
) -> Result<(), AllocError>
    ensures { OnOk result (out.new.items ≡ out.old.items ++ number_between before.now number after.now) }
{
    out.extend_from_slice(before)?;
    write_number(number, out)?;
    out.extend_from_slice(after)
}

/// Appends in which time restarts are counted.
#[tactic(auto, unfolding(crate::specs::Picture::period_text))]
fn write_period(period: u64, out: &mut Vec<u8>) -> Result<(), AllocError>
    ensures { OnOk result (out.new.items ≡ out.old.items ++ period_text period) }
{
    write_between(b"restarts in ", period, b" s", out)
}

/// Appends the line of a supervisor's restarts.
#[tactic(auto, unfolding(crate::specs::Picture::restarts_line))]
fn write_restarts(
    look: Look,
    path: &[u8],
    flags: &SupFlags,
    moments: &[Moment],
    word: &mut Vec<u8>,
    out: &mut Vec<u8>,
) -> Result<(), AllocError>
    ensures { OnOk result (out.new.items ≡ out.old.items ++ restarts_line look path.now flags.now moments.now) }
{
    word.clear();
    word.extend_from_slice(path)?;
    write_period(flags.period, word)?;
    write_label(word.as_slice(), out)?;
    write_restarts_cells(look, flags.intensity, moments, word, out)?;
    out.extend_from_slice(b"\n")
}

/// Appends the lines of the supervisor with this path and these flags: one for each child, and one for its restarts.
///
/// # Errors
///
/// Where memory is refused.
#[tactic(auto, unfolding(crate::specs::Picture::supervisor_text))]
pub fn write_supervisor(
    alloc: Global,
    look: Look,
    path: &[u8],
    flags: &SupFlags,
    moments: &[Moment],
    out: &mut Vec<u8>,
) -> Result<(), AllocError>
    ensures { OnOk result (out.new.items ≡ out.old.items ++ supervisor_text look path.now flags.now moments.now) }
{
    let mut word = Vec::new(alloc);
    let ids = ids_at(alloc, look.place, moments)?;
    write_children(look, path, ids.as_slice(), moments, &mut word, out)?;
    write_all_added(look, path, moments, &mut word, out)?;
    write_restarts(look, path, flags, moments, &mut word, out)
}
