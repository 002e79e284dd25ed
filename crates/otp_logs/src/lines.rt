//! The lines of a text, and of what stands for it.

ghost use Rattle.std.specs.Prelude.{◌≡◌, ◌+◌, ◌<◌, ◌∷◌, ◌==◌, [], IfNone, IfSome, OnOk, drop, false, length, position, take};
ghost use Rattle.otp_logs.specs.Lines.{ends_in, lines_of};

use std::alloc::AllocError;

/// The place of the first end of a line.
fn find_end(text: &[u8]) -> Option<usize>
    ensures place { result ≡ position (λ byte. byte == 10) text.now }
    ensures inside { IfSome result (λ end. end < length text.now) }
{
    text.iter().position(|byte| *byte == b'\n')
}

/// The place at which the first line ends, if it isn't the last.
pub(crate) fn line_end(text: &[u8]) -> Option<usize>
    ensures inside { IfSome result (λ end. end < length text.now) }
    ensures first { IfSome result (λ end. lines_of text.now ≡ take end text.now ∷ lines_of (drop (end + 1) text.now)) }
    ensures last { IfNone result (lines_of text.now ≡ text.now ∷ []) }
    ensures ended { IfSome result (λ end. ends_in text.now ≡ ends_in (drop (end + 1) text.now) + 1) }
    ensures unended { IfNone result (ends_in text.now ≡ 0) }
{
    find_end(text)
}

/// What stands behind the line that ends at this place.
pub(crate) fn behind_line(text: &[u8], end: usize) -> &[u8]
    requires { end < length text.now }
    ensures rest { result.now ≡ drop (end + 1) text.now }
    ensures shorter { length result.now < length text.now }
{
    &text[end + 1..]
}

/// Ends a line.
#[tactic(auto, using(crate::proofs::Cuts::end_more))]
pub(crate) fn put_end(out: &mut Vec<u8>) -> Result<(), AllocError>
    ensures { OnOk result (ends_in out.new.items ≡ ends_in out.old.items + 1) }
{
    out.push(b'\n').map_err(|_| AllocError)
}

/// A byte of a line: a blank for the end of one.
fn inner_of(byte: u8) -> u8
    ensures { (result == 10) ≡ false }
{
    if byte == b'\n' { b' ' } else { byte }
}

/// Appends a byte of a line.
#[tactic(auto, using(crate::proofs::Cuts::byte_more))]
fn put_inner(byte: u8, out: &mut Vec<u8>) -> Result<(), AllocError>
    ensures { OnOk result (ends_in out.new.items ≡ ends_in out.old.items) }
{
    out.push(inner_of(byte)).map_err(|_| AllocError)
}

/// Appends the bytes of a line, which isn't ended.
pub(crate) fn append_line(line: &[u8], out: &mut Vec<u8>) -> Result<(), AllocError>
    ensures { OnOk result (ends_in out.new.items ≡ ends_in out.old.items) }
{
    for byte in line {
        put_inner(*byte, out)?;
    }
    Ok(())
}
