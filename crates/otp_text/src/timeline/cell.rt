//! The cells of a picture, and what stands in front of them.

ghost use Rattle.std.specs.Prelude.{◌≡◌, ◌≤◌, ◌++◌, OnOk, length, replicate};
ghost use Rattle.otp_text.specs.Picture.{cell, fitted, label, label_line};

use crate::timeline::colour::{Colour, write_painted};
use std::alloc::AllocError;

/// The columns of a moment, one of them a space at the least.
pub(crate) const CELL: usize = 8;

/// The columns of what stands in front of the moments, one of them a space at the least.
pub(crate) const LABEL: usize = 24;

/// The most columns of a line.
const WIDTH: usize = 80;

/// What stands in the place of a text that doesn't fit, and before one of which the beginning is left out.
const CUT: &[u8] = b"...";

/// Appends so many spaces.
fn write_spaces(count: usize, out: &mut Vec<u8>) -> Result<(), AllocError>
    ensures { OnOk result (out.new.items ≡ out.old.items ++ replicate count 32) }
{
    for _ in 0..count {
        out.push(b' ').map_err(|_| AllocError)?;
    }
    Ok(())
}

/// The text, or dots where it doesn't fit into a cell.
#[tactic(auto, unfolding(crate::specs::Picture::fitted))]
fn fitted(text: &[u8]) -> &[u8]
    ensures value { result.now ≡ fitted text.now }
    ensures fits { length result.now ≤ CELL }
{
    if text.len() < CELL { text } else { CUT }
}

/// Appends a text at the right of a cell.
#[tactic(auto, unfolding(crate::specs::Picture::cell))]
pub(crate) fn write_cell(
    is_coloured: bool,
    colour: Colour,
    text: &[u8],
    out: &mut Vec<u8>,
) -> Result<(), AllocError>
    ensures { OnOk result (out.new.items ≡ out.old.items ++ cell is_coloured colour text.now) }
{
    let shown = fitted(text);
    write_spaces(CELL - shown.len(), out)?;
    write_painted(is_coloured, colour, shown, out)
}

/// Appends a text that stands on a line of its own, without the beginning where it is longer than a line.
#[tactic(auto, unfolding(crate::specs::Picture::label_line))]
fn write_label_line(text: &[u8], out: &mut Vec<u8>) -> Result<(), AllocError>
    ensures { OnOk result (out.new.items ≡ out.old.items ++ label_line text.now) }
{
    if text.len() <= WIDTH {
        out.extend_from_slice(text)?;
    } else {
        out.extend_from_slice(CUT)?;
        out.extend_from_slice(&text[text.len() - (WIDTH - 3)..])?;
    }
    out.extend_from_slice(b"\n")
}

/// Appends what stands in front of the moments; where it is too long, the moments are on the next line.
#[tactic(auto, unfolding(crate::specs::Picture::label))]
pub(crate) fn write_label(text: &[u8], out: &mut Vec<u8>) -> Result<(), AllocError>
    ensures { OnOk result (out.new.items ≡ out.old.items ++ label text.now) }
{
    if text.len() < LABEL {
        out.extend_from_slice(text)?;
        return write_spaces(LABEL - text.len(), out);
    }
    write_label_line(text, out)?;
    write_spaces(LABEL, out)
}
