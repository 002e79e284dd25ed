//! Lines of at most 80 columns.

ghost use Rattle.std.specs.Prelude.{◌≡◌, ◌≤◌, ◌++◌, [], IfOk, OnOk, length};
ghost use Rattle.otp_try.specs.Fit.{ends_text, fit, fitted};

use std::alloc::{AllocError, Global};

/// The most columns of a line.
const WIDTH: usize = 80;

/// The columns of a longer line that are kept at its beginning.
const FRONT: usize = 38;

/// The columns of a longer line that are kept at its end.
const BACK: usize = 39;

/// What stands in the place of what is left out.
const CUT: &[u8] = b"...";

/// Appends so many bytes of the beginning of a line and so many of its end, and between them dots.
#[tactic(auto, unfolding(crate::specs::Fit::ends_text))]
fn write_ends(front: usize, back: usize, line: &[u8], out: &mut Vec<u8>) -> Result<(), AllocError>
    requires front { front ≤ length line.now }
    requires back { back ≤ length line.now }
    ensures { OnOk result (out.new.items ≡ out.old.items ++ ends_text front back line.now) }
{
    out.extend_from_slice(&line[..front])?;
    out.extend_from_slice(CUT)?;
    out.extend_from_slice(&line[line.len() - back..])
}

/// Appends a line; of a longer one the middle is left out.
#[tactic(auto, unfolding(crate::specs::Fit::fitted))]
fn write_fitted(line: &[u8], out: &mut Vec<u8>) -> Result<(), AllocError>
    ensures { OnOk result (out.new.items ≡ out.old.items ++ fitted line.now) }
{
    if line.len() <= WIDTH {
        out.extend_from_slice(line)
    } else {
        write_ends(FRONT, BACK, line, out)
    }
}

/// Appends the lines of a text, each of at most 80 columns.
fn write_lines(text: &[u8], line: &mut Vec<u8>, out: &mut Vec<u8>) -> Result<(), AllocError>
    ensures { OnOk result (out.new.items ≡ out.old.items ++ fit line.old.items text.now) }
{
    for byte in text {
        if *byte == b'\n' {
            write_fitted(line.as_slice(), out)?;
            out.push(*byte).map_err(|_| AllocError)?;
            line.clear();
        } else {
            line.push(*byte).map_err(|_| AllocError)?;
        }
    }
    write_fitted(line.as_slice(), out)
}

/// The lines of a text, each of at most 80 columns: of a longer one the middle is left out.
pub fn fit(alloc: Global, text: &[u8]) -> Result<Vec<u8>, AllocError>
    ensures { IfOk result (λ lines. lines.items ≡ fit [] text.now) }
{
    let mut line = Vec::new(alloc);
    let mut lines = Vec::new(alloc);
    write_lines(text, &mut line, &mut lines)?;
    Ok(lines)
}
