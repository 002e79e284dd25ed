//! Texts in columns.

ghost use Rattle.std.specs.Prelude.{◌≡◌, ◌++◌, OnOk, replicate};
ghost use Rattle.otp_shutdown.specs.Columns.{at_left, at_right, clip};

use std::alloc::AllocError;

/// Appends so many spaces.
fn write_spaces(count: usize, out: &mut Vec<u8>) -> Result<(), AllocError>
    ensures { OnOk result (out.new.items ≡ out.old.items ++ replicate count 32) }
{
    for _ in 0..count {
        out.push(b' ').map_err(|_| AllocError)?;
    }
    Ok(())
}

/// Appends a text at the left of a column.
#[tactic(auto, unfolding(crate::specs::Columns::at_left))]
pub(crate) fn write_left(width: usize, text: &[u8], out: &mut Vec<u8>) -> Result<(), AllocError>
    ensures { OnOk result (out.new.items ≡ out.old.items ++ at_left width text.now) }
{
    out.extend_from_slice(text)?;
    write_spaces(width.saturating_sub(text.len()), out)
}

/// Appends a text at the right of a column.
#[tactic(auto, unfolding(crate::specs::Columns::at_right))]
pub(crate) fn write_right(width: usize, text: &[u8], out: &mut Vec<u8>) -> Result<(), AllocError>
    ensures { OnOk result (out.new.items ≡ out.old.items ++ at_right width text.now) }
{
    write_spaces(width.saturating_sub(text.len()), out)?;
    out.extend_from_slice(text)
}

/// Appends a text, or of one that is longer than so many bytes, its last ones behind dots.
#[tactic(auto, unfolding(crate::specs::Columns::clip))]
pub(crate) fn write_clipped(width: usize, text: &[u8], out: &mut Vec<u8>) -> Result<(), AllocError>
    ensures { OnOk result (out.new.items ≡ out.old.items ++ clip width text.now) }
{
    if text.len() <= width {
        return out.extend_from_slice(text);
    }
    out.extend_from_slice(b"...")?;
    out.extend_from_slice(&text[text.len() - width.saturating_sub(3)..])
}
