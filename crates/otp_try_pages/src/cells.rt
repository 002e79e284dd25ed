//! How a supervisor and its children stood at a moment, as a cell.

ghost use Rattle.std.specs.Prelude.{◌≡◌, ◌++◌, OnOk, decimal};
ghost use Rattle.std.specs.List.{flat_map};
ghost use Rattle.otp_try_pages.specs.Cells.{cells_html, chip_class, chip_html, chip_if, greatest, greatest_in, greatest_of, id_text, is_new, is_told, larger, new_mark, process_words, standing_cell, use_html};

use otp_pages::html::put_element;
use otp_reason::Name;
use otp_table::RowState;
use otp_text::timeline::{Mark, Moment, Standing};
use otp_text::{write_name, write_number};
use otp_trial::TriedSupervisor;
use std::alloc::AllocError;

/// The greater of two numbers, of which there may be no second.
#[tactic(auto, unfolding(crate::specs::Cells::larger))]
fn larger(most: u64, number: Option<u64>) -> u64
    ensures { result ≡ larger most number }
{
    match number {
        None => most,
        Some(number) => most.max(number),
    }
}

/// The greatest number that a process of these children has, or this one.
fn greatest_of(most: u64, marks: &[Mark]) -> u64
    ensures { result ≡ greatest_of most marks.now }
{
    let mut most = most;
    for mark in marks {
        most = larger(most, mark.state.number());
    }
    most
}

/// The greatest number that a process of these supervisors' children has, or this one.
fn greatest_in(most: u64, standings: &[Standing]) -> u64
    ensures { result ≡ greatest_in most standings.now }
{
    let mut most = most;
    for standing in standings {
        most = greatest_of(most, standing.marks.as_slice());
    }
    most
}

/// The greatest number that a process has at a moment: those that are started later have greater ones.
#[tactic(auto, unfolding(crate::specs::Cells::greatest))]
pub(crate) fn greatest(moment: &Moment) -> u64
    ensures { result ≡ greatest moment.now }
{
    greatest_in(0, moment.standings.as_slice())
}

/// Whether a child runs as a process that was started since one had this number as the greatest.
#[tactic(auto, unfolding(crate::specs::Cells::is_new))]
fn is_new(last: u64, state: RowState) -> bool
    ensures { result ≡ is_new last state }
{
    match state {
        RowState::Up(process) => last < process,
        RowState::Undefined
        | RowState::Starting(..)
        | RowState::Asked(..)
        | RowState::Killed(_)
        | RowState::Restarting(_) => false,
    }
}

/// The opening of what is said of a child in this state: it runs, it is on its way, or it has no process.
#[tactic(auto, unfolding(crate::specs::Cells::chip_class))]
fn chip_class(state: RowState) -> &'static [u8]
    ensures { result.now ≡ chip_class state }
{
    match state {
        RowState::Up(_) => b"<span class=\"chip up\">",
        RowState::Starting(..) | RowState::Asked(..) | RowState::Killed(_) => {
            b"<span class=\"chip way\">"
        }
        RowState::Undefined | RowState::Restarting(_) => b"<span class=\"chip down\">",
    }
}

/// What stands before a child that was started since.
#[tactic(auto, unfolding(crate::specs::Cells::new_mark))]
fn new_mark(is_new: bool) -> &'static [u8]
    ensures { result.now ≡ new_mark is_new }
{
    if is_new {
        b"<b class=\"new\">*</b>"
    } else {
        b""
    }
}

/// Appends a number behind words.
fn put_numbered(words: &[u8], number: u64, out: &mut Vec<u8>) -> Result<(), AllocError>
    ensures { OnOk result (out.new.items ≡ out.old.items ++ (words.now ++ decimal number)) }
{
    out.extend_from_slice(words)?;
    write_number(number, out)
}

/// Appends what the process of a child does.
#[tactic(auto, unfolding(crate::specs::Cells::process_words))]
fn put_process(state: RowState, out: &mut Vec<u8>) -> Result<(), AllocError>
    ensures { OnOk result (out.new.items ≡ out.old.items ++ process_words state) }
{
    match state {
        RowState::Undefined => out.extend_from_slice(b"down"),
        RowState::Restarting(_) => out.extend_from_slice(b"start failed"),
        RowState::Up(process) => put_numbered(b"#", process, out),
        RowState::Starting(process, _) => put_numbered(b"starts as #", process, out),
        RowState::Asked(process, _) => put_numbered(b"is asked to end #", process, out),
        RowState::Killed(process) => put_numbered(b"is killed #", process, out),
    }
}

/// The id of a child; one without an id is the one of its process.
#[tactic(auto, unfolding(crate::specs::Cells::id_text))]
fn put_id(id: &Option<Name>, word: &mut Vec<u8>) -> Result<(), AllocError>
    ensures { OnOk result (word.new.items ≡ id_text id.now) }
{
    word.clear();
    match id {
        None => Ok(()),
        Some(id) => write_name(id, word),
    }
}

/// Appends what is said of a child. The word is a place for a text.
#[tactic(auto, unfolding(crate::specs::Cells::chip_html))]
fn put_chip(last: u64, mark: &Mark, word: &mut Vec<u8>, out: &mut Vec<u8>) -> Result<(), AllocError>
    ensures { OnOk result (out.new.items ≡ out.old.items ++ chip_html last mark.now) }
{
    put_id(&mark.id, word)?;
    out.extend_from_slice(chip_class(mark.state))?;
    out.extend_from_slice(new_mark(is_new(last, mark.state)))?;
    put_element(b"", word.as_slice(), b" ", out)?;
    put_process(mark.state, out)?;
    out.extend_from_slice(b"</span>")
}

/// Whether a row tells of a child: it was started since, or doesn't run.
#[tactic(auto, unfolding(crate::specs::Cells::is_told))]
fn is_told(last: u64, state: RowState) -> bool
    ensures { result ≡ is_told last state }
{
    is_new(last, state) || !state.is_up()
}

/// Appends what is said of a child, unless it runs on. The word is a place for a text.
#[tactic(auto, unfolding(crate::specs::Cells::chip_if))]
fn put_chip_if(
    last: u64,
    mark: &Mark,
    word: &mut Vec<u8>,
    out: &mut Vec<u8>,
) -> Result<(), AllocError>
    ensures { OnOk result (out.new.items ≡ out.old.items ++ chip_if last mark.now) }
{
    if is_told(last, mark.state) {
        put_chip(last, mark, word, out)
    } else {
        Ok(())
    }
}

/// Appends what is said of children.
fn put_chips(
    last: u64,
    marks: &[Mark],
    word: &mut Vec<u8>,
    out: &mut Vec<u8>,
) -> Result<(), AllocError>
    ensures { OnOk result (out.new.items ≡ out.old.items ++ flat_map (chip_if last) marks.now) }
{
    for mark in marks {
        put_chip_if(last, mark, word, out)?;
    }
    Ok(())
}

/// Appends how many restarts lie in the period, of how many.
#[tactic(auto, unfolding(crate::specs::Cells::use_html))]
fn put_use(restarts: u64, intensity: u64, out: &mut Vec<u8>) -> Result<(), AllocError>
    ensures { OnOk result (out.new.items ≡ out.old.items ++ use_html restarts intensity) }
{
    out.extend_from_slice(b"<small>")?;
    write_number(restarts, out)?;
    out.extend_from_slice(b"/")?;
    write_number(intensity, out)?;
    out.extend_from_slice(b" restarts</small>")
}

/// Appends the cell of a supervisor.
#[tactic(auto, unfolding(crate::specs::Cells::standing_cell))]
fn put_standing(
    last: u64,
    intensity: u64,
    standing: &Standing,
    word: &mut Vec<u8>,
    out: &mut Vec<u8>,
) -> Result<(), AllocError>
    ensures { OnOk result (out.new.items ≡ out.old.items ++ standing_cell last intensity standing.now) }
{
    if standing.is_over {
        return out.extend_from_slice(b"<td><small>does not run</small></td>\n");
    }
    out.extend_from_slice(b"<td>")?;
    put_chips(last, standing.marks.as_slice(), word, out)?;
    put_use(standing.restarts, intensity, out)?;
    out.extend_from_slice(b"</td>\n")
}

/// Appends the cells of supervisors that stand so.
#[tactic(auto, unfolding(crate::specs::Cells::cells_html))]
pub(crate) fn put_cells(
    last: u64,
    seats: &[TriedSupervisor],
    standings: &[Standing],
    word: &mut Vec<u8>,
    out: &mut Vec<u8>,
) -> Result<(), AllocError>
    ensures { OnOk result (out.new.items ≡ out.old.items ++ cells_html last seats.now standings.now) }
{
    match seats {
        [] => Ok(()),
        [seat, seats @ ..] => match standings {
            [] => Ok(()),
            [standing, standings @ ..] => {
                put_standing(last, seat.flags().intensity, standing, word, out)?;
                put_cells(last, seats, standings, word, out)
            }
        },
    }
}
