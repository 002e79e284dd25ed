//! The children of a run as a picture: a bar each while its process is up, with time to scale.

ghost use Rattle.std.specs.Prelude.{◌≡◌, ◌-◌, ◌<◌, ◌++◌, IfOk, IfSome, None, OnOk, length, position, replicate, slice_index_or, slice_set};
ghost use Rattle.std.specs.List.{list_any};
ghost use Rattle.std.specs.Str.{bytes_eq};
ghost use Rattle.otp_try_pages.specs.Names.{child_in};
ghost use Rattle.otp_try_pages.specs.Tracks.{axis_html, back_html, bar_html, down_for, down_since, down_then, end_tick, event_at, events_from, first_ticks, gap_html, gap_opening, grid_html, is_alive, id_behind, is_alive_as, is_alive_at, is_alive_in, is_behind, is_id, label_html, last_ticks, late_ticks, mark_class, mark_html, picture_html, row_of, row_text, rows_html, seen_at, seen_then, sign_html, start_html, tail_html, three_quarters, tick_html, time_in, track_html, tracks_html, tracks_legend, tracks_opening, unseen};

use crate::names::{child_in, is_start};
use crate::scale::{millis_in, put_percent, slot_of};
use crate::words::{first_word, is_down, is_text, order_in, rest_of};
use otp_costs::limits::Path;
use otp_pages::html::{put_element, put_number_element};
use otp_reason::Name;
use otp_table::RowState;
use otp_text::timeline::{Mark, Standing, write_seconds};
use otp_text::write_number;
use otp_trial::TriedSupervisor;
use otp_try::account::Played;
use std::alloc::{AllocError, Global};

/// What was seen of a child so far.
#[derive(Clone, Copy, Debug, PartialEq, Eq)]
pub struct TrackState {
    /// Where its last start stands, and one; 0 where it wasn't started yet.
    pub place: u64,
    /// Whether it was stopped since.
    pub is_stopped: bool,
}

/// Nothing yet.
const UNSEEN: TrackState = TrackState {
    place: 0,
    is_stopped: false,
};

/// Appends the row of an element, behind its place.
#[tactic(auto, unfolding(crate::specs::Tracks::row_text))]
fn put_row(row: u64, out: &mut Vec<u8>) -> Result<(), AllocError>
    ensures { OnOk result (out.new.items ≡ out.old.items ++ row_text row) }
{
    put_number_element(b"%\" y=\"", row, b"em\"", out)
}

/// Appends a gap between two places, without what it says.
#[tactic(auto, unfolding(crate::specs::Tracks::gap_opening))]
fn put_gap_opening(row: u64, from: u64, to: u64, out: &mut Vec<u8>) -> Result<(), AllocError>
    ensures { OnOk result (out.new.items ≡ out.old.items ++ gap_opening row from to) }
{
    out.extend_from_slice(b"<rect class=\"off\" x=\"")?;
    put_percent(from, out)?;
    put_row(row, out)?;
    out.extend_from_slice(b" width=\"")?;
    put_percent(to.saturating_sub(from), out)?;
    out.extend_from_slice(b"%\" height=\".36em\">")
}

/// Appends a gap between two places, of which the line tells; nothing where they are one.
#[tactic(auto, unfolding(crate::specs::Tracks::gap_html))]
fn put_gap(row: u64, from: u64, to: u64, line: &[u8], out: &mut Vec<u8>) -> Result<(), AllocError>
    ensures { OnOk result (out.new.items ≡ out.old.items ++ gap_html row from to line.now) }
{
    if from < to {
        put_gap_opening(row, from, to, out)?;
        put_element(b"<title>", line, b"</title></rect>\n", out)
    } else {
        Ok(())
    }
}

/// How the mark of a start begins.
#[tactic(auto, unfolding(crate::specs::Tracks::mark_class))]
fn mark_class(is_stopped: bool) -> &'static [u8]
    ensures { result.now ≡ mark_class is_stopped }
{
    if is_stopped {
        b"<rect class=\"along\" x=\""
    } else {
        b"<rect class=\"crash\" x=\""
    }
}

/// Appends the mark of a start, of which the line tells.
#[tactic(auto, unfolding(crate::specs::Tracks::mark_html))]
fn put_mark(
    row: u64,
    slot: u64,
    is_stopped: bool,
    line: &[u8],
    out: &mut Vec<u8>,
) -> Result<(), AllocError>
    ensures { OnOk result (out.new.items ≡ out.old.items ++ mark_html row slot is_stopped line.now) }
{
    out.extend_from_slice(mark_class(is_stopped))?;
    put_percent(slot, out)?;
    put_row(row, out)?;
    put_element(
        b" width=\"3\" height=\".5em\"><title>",
        line,
        b"</title></rect>\n",
        out,
    )
}

/// Appends a start: what was before the first is a gap.
#[tactic(auto, unfolding(crate::specs::Tracks::start_html))]
fn put_start(
    row: u64,
    slot: u64,
    seen: TrackState,
    line: &[u8],
    out: &mut Vec<u8>,
) -> Result<(), AllocError>
    ensures { OnOk result (out.new.items ≡ out.old.items ++ start_html row slot seen line.now) }
{
    if seen.place == 0 {
        put_gap(row, 0, slot, line, out)
    } else if seen.place == slot.saturating_add(1) {
        Ok(())
    } else {
        put_mark(row, slot, seen.is_stopped, line, out)
    }
}

/// How long a child was down, by the line that tells that it is up again.
#[tactic(auto, unfolding(crate::specs::Tracks::down_for))]
fn down_for(line: &[u8]) -> u64
    ensures { result ≡ down_for line.now }
{
    millis_in(first_word(rest_of(rest_of(rest_of(order_in(line))))))
}

/// When it was that of which a line tells.
#[tactic(auto, unfolding(crate::specs::Tracks::time_in))]
pub(crate) fn time_in(line: &[u8]) -> u64
    ensures { result ≡ time_in line.now }
{
    millis_in(first_word(line))
}

/// Appends the gap of a child that is up again at this time.
#[tactic(auto, unfolding(crate::specs::Tracks::back_html))]
fn put_back(
    last: u64,
    row: u64,
    time: u64,
    line: &[u8],
    out: &mut Vec<u8>,
) -> Result<(), AllocError>
    ensures { OnOk result (out.new.items ≡ out.old.items ++ back_html last row time line.now) }
{
    let from = slot_of(last, time.saturating_sub(down_for(line)));
    put_gap(row, from, slot_of(last, time), line, out)
}

/// Appends what a line draws that tells of the child of a row, of which this was seen before.
#[tactic(auto, unfolding(crate::specs::Tracks::sign_html))]
fn put_sign(
    last: u64,
    row: u64,
    seen: TrackState,
    line: &[u8],
    out: &mut Vec<u8>,
) -> Result<(), AllocError>
    ensures { OnOk result (out.new.items ≡ out.old.items ++ sign_html last row seen line.now) }
{
    if is_down(order_in(line)) {
        put_back(last, row, time_in(line), line, out)
    } else if is_start(line) {
        put_start(row, slot_of(last, time_in(line)), seen, line, out)
    } else {
        Ok(())
    }
}

/// What was seen of a child once a line told of it.
#[tactic(auto, unfolding(crate::specs::Tracks::seen_then))]
fn seen_then(last: u64, seen: TrackState, line: &[u8]) -> TrackState
    ensures { result ≡ seen_then last seen line.now }
{
    if is_down(order_in(line)) {
        seen
    } else if is_start(line) {
        TrackState {
            place: slot_of(last, time_in(line)).saturating_add(1),
            is_stopped: false,
        }
    } else {
        TrackState {
            place: seen.place,
            is_stopped: true,
        }
    }
}

/// The row of the child of which a line tells.
#[tactic(auto, unfolding(crate::specs::Tracks::row_of))]
fn row_of(names: &[Path], line: &[u8]) -> Option<usize>
    ensures { result ≡ row_of names.now line.now }
{
    let child = child_in(line);
    names
        .iter()
        .position(|name| is_text(name.as_bytes(), child))
}

/// What was seen of the child of a row.
fn seen_of(seen: &[TrackState], row: usize) -> TrackState
    ensures { result ≡ slice_index_or seen.now row unseen }
{
    if row < seen.len() { seen[row] } else { UNSEEN }
}

/// This was seen of the child of a row.
fn put_seen(seen: &mut Vec<TrackState>, row: usize, then: TrackState)
    ensures { seen.new.items ≡ slice_set seen.old.items row then }
{
    if row < seen.len() {
        seen[row] = then;
    }
}

/// Appends what a line draws that tells of the child of this row, if it tells of one.
#[tactic(auto, unfolding(crate::specs::Tracks::event_at))]
fn put_event(
    last: u64,
    seen: &[TrackState],
    row: Option<usize>,
    line: &[u8],
    out: &mut Vec<u8>,
) -> Result<(), AllocError>
    ensures { OnOk result (out.new.items ≡ out.old.items ++ event_at last seen.now row line.now) }
{
    match row {
        None => Ok(()),
        Some(row) => put_sign(last, row as u64, seen_of(seen, row), line, out),
    }
}

/// What a line told of the child of this row was seen, if it told of one.
#[tactic(auto, unfolding(crate::specs::Tracks::seen_at))]
fn see(last: u64, seen: &mut Vec<TrackState>, row: Option<usize>, line: &[u8])
    ensures { seen.new.items ≡ seen_at last seen.old.items row line.now }
{
    match row {
        None => {}
        Some(row) => {
            let then = seen_then(last, seen_of(seen.as_slice(), row), line);
            put_seen(seen, row, then);
        }
    }
}

/// Appends what these lines draw, the first of which has begun so.
fn put_events(
    last: u64,
    names: &[Path],
    told: &[u8],
    seen: &mut Vec<TrackState>,
    line: &mut Vec<u8>,
    out: &mut Vec<u8>,
) -> Result<(), AllocError>
    ensures { OnOk result (out.new.items ≡ out.old.items ++ events_from last names.now seen.old.items line.old.items told.now) }
{
    for byte in told {
        if *byte == b'\n' {
            let row = row_of(names, line.as_slice());
            put_event(last, seen.as_slice(), row, line.as_slice(), out)?;
            see(last, seen, row, line.as_slice());
            line.clear();
        } else {
            line.push(*byte).map_err(|_| AllocError)?;
        }
    }
    Ok(())
}

/// Nothing was seen of so many children yet.
fn put_unseen(count: usize, seen: &mut Vec<TrackState>) -> Result<(), AllocError>
    ensures { OnOk result (seen.new.items ≡ seen.old.items ++ replicate count unseen) }
{
    for _ in 0..count {
        seen.push(UNSEEN).map_err(|_| AllocError)?;
    }
    Ok(())
}

/// Whether a child in this state has a process.
#[tactic(auto, unfolding(crate::specs::Tracks::is_alive))]
fn is_alive(state: RowState) -> bool
    ensures { result ≡ is_alive state }
{
    match state {
        RowState::Up(_) | RowState::Asked(..) | RowState::Killed(_) => true,
        RowState::Undefined | RowState::Starting(..) | RowState::Restarting(_) => false,
    }
}

/// Whether a name stands behind the path of a supervisor's children.
#[tactic(auto, unfolding(crate::specs::Tracks::is_behind))]
fn is_behind(name: &[u8], path: &[u8]) -> bool
    ensures { result ≡ is_behind name.now path.now }
{
    path.len() <= name.len() && is_text(&name[..path.len()], path)
}

/// What stands behind the path of a name.
#[tactic(auto, unfolding(crate::specs::Tracks::id_behind))]
fn id_behind<'n>(name: &'n [u8], path: &[u8]) -> &'n [u8]
    ensures { result.now ≡ id_behind name.now path.now }
{
    if path.len() <= name.len() {
        &name[path.len()..]
    } else {
        &[]
    }
}

/// Whether this is the id of a child.
#[tactic(auto, unfolding(crate::specs::Tracks::is_id))]
fn is_id(id: &[u8], name: &Option<Name>) -> bool
    ensures { result ≡ is_id id.now name.now }
{
    match name {
        None => false,
        Some(name) => is_text(name.as_bytes(), id),
    }
}

/// Whether a child with this id has a process.
#[tactic(auto, unfolding(crate::specs::Tracks::is_alive_as))]
fn is_alive_as(id: &[u8], mark: &Mark) -> bool
    ensures { result ≡ is_alive_as id.now mark.now }
{
    is_alive(mark.state) && is_id(id, &mark.id)
}

/// Whether one of these children has this id and a process.
fn is_alive_among(id: &[u8], marks: &[Mark]) -> bool
    ensures { result ≡ list_any (is_alive_as id.now) marks.now }
{
    marks.iter().any(|mark| is_alive_as(id, mark))
}

/// Whether the child of this name has a process where the supervisor of this path stands so.
#[tactic(auto, unfolding(crate::specs::Tracks::is_alive_at))]
fn is_alive_at(name: &[u8], path: &[u8], standing: &Standing) -> bool
    ensures { result ≡ is_alive_at name.now path.now standing.now }
{
    is_behind(name, path) && is_alive_among(id_behind(name, path), standing.marks.as_slice())
}

/// Whether the child of this name has a process where its supervisors stand so.
fn is_alive_in(name: &[u8], seats: &[TriedSupervisor], standings: &[Standing]) -> bool
    ensures { result ≡ is_alive_in name.now seats.now standings.now }
{
    match seats {
        [] => false,
        [seat, seats @ ..] => match standings {
            [] => false,
            [standing, standings @ ..] => {
                is_alive_at(name, seat.path(), standing) || is_alive_in(name, seats, standings)
            }
        },
    }
}

/// Since when a child has no process, after a moment at which it had one or not.
#[tactic(auto, unfolding(crate::specs::Tracks::down_then))]
fn down_then(since: Option<u64>, is_alive: bool, time: u64) -> Option<u64>
    ensures { result ≡ down_then since is_alive time }
{
    if is_alive {
        return None;
    }
    match since {
        None => Some(time),
        Some(since) => Some(since),
    }
}

/// Since when a child has no process in the end.
fn down_since(name: &[u8], seats: &[TriedSupervisor], lines: &[Played]) -> Option<u64>
    ensures { result ≡ down_since name.now seats.now None lines.now }
{
    let mut since = None;
    for one in lines {
        let is_alive = is_alive_in(name, seats, one.moment.standings.as_slice());
        since = down_then(since, is_alive, one.moment.time);
    }
    since
}

/// Appends the gap of a child that has no process in the end. The word is a place for a text.
#[tactic(auto, unfolding(crate::specs::Tracks::tail_html))]
fn put_tail(
    last: u64,
    row: u64,
    since: Option<u64>,
    word: &mut Vec<u8>,
    out: &mut Vec<u8>,
) -> Result<(), AllocError>
    ensures { OnOk result (out.new.items ≡ out.old.items ++ tail_html last row since) }
{
    match since {
        None => Ok(()),
        Some(since) => {
            word.clear();
            word.extend_from_slice(b"down since ")?;
            write_seconds(since, word)?;
            word.extend_from_slice(b" s")?;
            put_gap(row, slot_of(last, since), 960, word.as_slice(), out)
        }
    }
}

/// Appends the name of a child.
#[tactic(auto, unfolding(crate::specs::Tracks::label_html))]
fn put_label(row: u64, name: &[u8], out: &mut Vec<u8>) -> Result<(), AllocError>
    ensures { OnOk result (out.new.items ≡ out.old.items ++ label_html row name.now) }
{
    out.extend_from_slice(b"<svg y=\"")?;
    write_number(row, out)?;
    out.extend_from_slice(b"em\">")?;
    put_element(b"<text y=\"1em\">", name, b"</text></svg>\n", out)
}

/// Appends a bar as long as the run.
#[tactic(auto, unfolding(crate::specs::Tracks::bar_html))]
fn put_bar(row: u64, out: &mut Vec<u8>) -> Result<(), AllocError>
    ensures { OnOk result (out.new.items ≡ out.old.items ++ bar_html row) }
{
    out.extend_from_slice(b"<rect class=\"on\" x=\"0")?;
    put_row(row, out)?;
    out.extend_from_slice(b" width=\"96%\" height=\".36em\"/>\n")
}

/// Appends the row of a child: its name, its bar, and the gap behind it. The word is a place for a text.
#[tactic(auto, unfolding(crate::specs::Tracks::track_html))]
fn put_track(
    last: u64,
    seats: &[TriedSupervisor],
    lines: &[Played],
    row: u64,
    name: &[u8],
    word: &mut Vec<u8>,
    out: &mut Vec<u8>,
) -> Result<(), AllocError>
    ensures { OnOk result (out.new.items ≡ out.old.items ++ track_html last seats.now lines.now row name.now) }
{
    put_label(row, name, out)?;
    put_bar(row, out)?;
    put_tail(last, row, down_since(name, seats, lines), word, out)
}

/// Appends the rows of these children, of which the first has this number.
fn put_tracks(
    last: u64,
    seats: &[TriedSupervisor],
    lines: &[Played],
    first: u64,
    names: &[Path],
    word: &mut Vec<u8>,
    out: &mut Vec<u8>,
) -> Result<(), AllocError>
    ensures { OnOk result (out.new.items ≡ out.old.items ++ tracks_html last seats.now lines.now first names.now) }
{
    let mut row = first;
    for name in names {
        put_track(last, seats, lines, row, name.as_bytes(), word, out)?;
        row = row.saturating_add(1);
    }
    Ok(())
}

/// Appends a time above the picture.
#[tactic(auto, unfolding(crate::specs::Tracks::tick_html))]
fn put_tick(opening: &[u8], time: u64, out: &mut Vec<u8>) -> Result<(), AllocError>
    ensures { OnOk result (out.new.items ≡ out.old.items ++ tick_html opening.now time) }
{
    out.extend_from_slice(opening)?;
    write_seconds(time, out)?;
    out.extend_from_slice(b" s</text>\n")
}

/// Appends the first times above the picture.
#[tactic(auto, unfolding(crate::specs::Tracks::first_ticks))]
fn put_first_ticks(last: u64, out: &mut Vec<u8>) -> Result<(), AllocError>
    ensures { OnOk result (out.new.items ≡ out.old.items ++ first_ticks last) }
{
    put_tick(b"<text y=\"1em\">", 0, out)?;
    put_tick(b"<text x=\"24%\" y=\"1em\">", last / 4, out)
}

/// Three quarters of a time.
#[tactic(auto, unfolding(crate::specs::Tracks::three_quarters))]
fn three_quarters(last: u64) -> u64
    ensures { result ≡ three_quarters last }
{
    last.saturating_sub(last / 4)
}

/// Appends the time of the end above the picture.
#[tactic(auto, unfolding(crate::specs::Tracks::end_tick))]
fn put_end_tick(last: u64, out: &mut Vec<u8>) -> Result<(), AllocError>
    ensures { OnOk result (out.new.items ≡ out.old.items ++ end_tick last) }
{
    put_tick(b"<text class=\"last\" x=\"100%\" y=\"1em\">", last, out)
}

/// Appends the last two times above the picture.
#[tactic(auto, unfolding(crate::specs::Tracks::late_ticks))]
fn put_late_ticks(last: u64, out: &mut Vec<u8>) -> Result<(), AllocError>
    ensures { OnOk result (out.new.items ≡ out.old.items ++ late_ticks last) }
{
    put_tick(b"<text x=\"72%\" y=\"1em\">", three_quarters(last), out)?;
    put_end_tick(last, out)
}

/// Appends the times above the picture from its middle on.
#[tactic(auto, unfolding(crate::specs::Tracks::last_ticks))]
fn put_last_ticks(last: u64, out: &mut Vec<u8>) -> Result<(), AllocError>
    ensures { OnOk result (out.new.items ≡ out.old.items ++ last_ticks last) }
{
    put_tick(b"<text x=\"48%\" y=\"1em\">", last / 2, out)?;
    put_late_ticks(last, out)
}

/// Appends five times of a run, evenly apart.
#[tactic(auto, unfolding(crate::specs::Tracks::axis_html))]
pub(crate) fn put_axis(last: u64, out: &mut Vec<u8>) -> Result<(), AllocError>
    ensures { OnOk result (out.new.items ≡ out.old.items ++ axis_html last) }
{
    out.extend_from_slice(b"<svg class=\"axis\" role=\"img\" aria-label=\"seconds\">\n")?;
    put_first_ticks(last, out)?;
    put_last_ticks(last, out)?;
    out.extend_from_slice(b"</svg>\n")
}

/// Appends the lines of those times in a picture.
#[tactic(auto, unfolding(crate::specs::Tracks::grid_html))]
pub(crate) fn put_grid(out: &mut Vec<u8>) -> Result<(), AllocError>
    ensures { OnOk result (out.new.items ≡ out.old.items ++ grid_html) }
{
    out.extend_from_slice(
        b"<line x1=\"24%\" x2=\"24%\" y2=\"100%\"/><line x1=\"48%\" x2=\"48%\" y2=\"100%\"/><line x1=\"72%\" x2=\"72%\" y2=\"100%\"/><line x1=\"96%\" x2=\"96%\" y2=\"100%\"/>\n",
    )
}

/// Appends the beginning of the picture of so many children.
#[tactic(auto, unfolding(crate::specs::Tracks::tracks_opening))]
fn put_tracks_opening(rows: u64, out: &mut Vec<u8>) -> Result<(), AllocError>
    ensures { OnOk result (out.new.items ≡ out.old.items ++ tracks_opening rows) }
{
    put_number_element(
        b"<svg class=\"tracks\" role=\"img\" aria-label=\"when each child had a process\" height=\"",
        rows,
        b"em\">\n",
        out,
    )
}

/// Appends what the picture's marks mean.
#[tactic(auto, unfolding(crate::specs::Tracks::tracks_legend))]
fn put_tracks_legend(out: &mut Vec<u8>) -> Result<(), AllocError>
    ensures { OnOk result (out.new.items ≡ out.old.items ++ tracks_legend) }
{
    out.extend_from_slice(
        b"<p class=\"legend\">A bar while a child has a process, with time to scale. <b class=\"crash\">|</b> It ended unasked and was started again; <b class=\"along\">|</b> it was stopped and started again. A gap: it had no process. What is shorter than a thousandth of the run is one mark.</p>\n",
    )
}

/// Appends the rows of these children, and what these lines draw in them. The word is a place for a text.
#[tactic(auto, unfolding(crate::specs::Tracks::rows_html))]
fn put_rows(
    alloc: Global,
    last: u64,
    seats: &[TriedSupervisor],
    lines: &[Played],
    names: &[Path],
    told: &[u8],
    word: &mut Vec<u8>,
    out: &mut Vec<u8>,
) -> Result<(), AllocError>
    ensures { OnOk result (out.new.items ≡ out.old.items ++ rows_html last seats.now lines.now names.now told.now) }
{
    let mut seen = Vec::new(alloc);
    put_unseen(names.len(), &mut seen)?;
    put_tracks(last, seats, lines, 0, names, word, out)?;
    word.clear();
    put_events(last, names, told, &mut seen, word, out)
}

/// Appends the picture of a run that ends at the last time and told these lines. The word is a place for a text.
#[tactic(auto, unfolding(crate::specs::Tracks::picture_html))]
pub(crate) fn put_picture(
    alloc: Global,
    last: u64,
    seats: &[TriedSupervisor],
    lines: &[Played],
    names: &[Path],
    told: &[u8],
    word: &mut Vec<u8>,
    out: &mut Vec<u8>,
) -> Result<(), AllocError>
    ensures { OnOk result (out.new.items ≡ out.old.items ++ picture_html last seats.now lines.now names.now told.now) }
{
    put_tracks_legend(out)?;
    put_axis(last, out)?;
    put_tracks_opening(names.len() as u64, out)?;
    put_grid(out)?;
    put_rows(alloc, last, seats, lines, names, told, word, out)?;
    out.extend_from_slice(b"</svg>\n")
}
