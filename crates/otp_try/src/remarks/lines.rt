//! What stands above a line of a script, or behind it.

ghost use Rattle.std.specs.Prelude.{◌≡◌, ◌++◌, OnOk};
ghost use Rattle.otp_try.specs.Lines.{heading_line, known_text, left_out_text, line_number, unknown_text, unmet_text};

use otp_trial::story::telling::write_after;
use std::alloc::AllocError;

/// Appends the number of a line.
#[tactic(auto, unfolding(crate::specs::Lines::line_number))]
fn write_line_number(number: u64, out: &mut Vec<u8>) -> Result<(), AllocError>
    ensures { OnOk result (out.new.items ≡ out.old.items ++ line_number number) }
{
    write_after(b"line ", number, out)
}

/// Appends what stands above what a line does, if it has a heading.
#[tactic(auto, unfolding(crate::specs::Lines::heading_line))]
pub fn write_heading_line(
    has_heading: bool,
    number: u64,
    line: &[u8],
    out: &mut Vec<u8>,
) -> Result<(), AllocError>
    ensures { OnOk result (out.new.items ≡ out.old.items ++ heading_line has_heading number line.now) }
{
    if !has_heading {
        return Ok(());
    }
    write_line_number(number, out)?;
    out.extend_from_slice(b": ")?;
    out.extend_from_slice(line)?;
    out.extend_from_slice(b"\n")
}

/// Appends that the line with this number names a child which isn't there.
#[tactic(auto, unfolding(crate::specs::Lines::unknown_text))]
fn write_unknown(number: u64, out: &mut Vec<u8>) -> Result<(), AllocError>
    ensures { OnOk result (out.new.items ≡ out.old.items ++ unknown_text number) }
{
    write_line_number(number, out)?;
    out.extend_from_slice(
        b": there is no such child; which lists the root's, PATH/ which those below\n",
    )
}

/// Appends that the line with this number names a child which isn't there, if it does.
#[tactic(auto, unfolding(crate::specs::Lines::known_text))]
pub fn write_known(number: u64, is_unknown: bool, out: &mut Vec<u8>) -> Result<(), AllocError>
    ensures { OnOk result (out.new.items ≡ out.old.items ++ known_text number is_unknown) }
{
    if is_unknown {
        write_unknown(number, out)
    } else {
        Ok(())
    }
}

/// Appends why the line with this number is left out.
#[tactic(auto, unfolding(crate::specs::Lines::left_out_text))]
pub fn write_left_out(number: u64, why: &[u8], out: &mut Vec<u8>) -> Result<(), AllocError>
    ensures { OnOk result (out.new.items ≡ out.old.items ++ left_out_text number why.now) }
{
    write_line_number(number, out)?;
    out.extend_from_slice(b": ")?;
    out.extend_from_slice(why)?;
    out.extend_from_slice(b"\n")
}

/// Appends that it isn't as the line with this number expects.
#[tactic(auto, unfolding(crate::specs::Lines::unmet_text))]
pub fn write_unmet(number: u64, line: &[u8], out: &mut Vec<u8>) -> Result<(), AllocError>
    ensures { OnOk result (out.new.items ≡ out.old.items ++ unmet_text number line.now) }
{
    write_line_number(number, out)?;
    out.extend_from_slice(b": it is not so: ")?;
    out.extend_from_slice(line)?;
    out.extend_from_slice(b"\n")
}
