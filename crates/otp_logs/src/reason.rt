//! Why a child has ended, as lines of a replay say it.

use crate::seeking::{from_place, is_at, is_text, place_of_bytes};
use otp_foreign::{Range, trimmed, write_byte};
use std::alloc::AllocError;

/// The most bytes of the text of a reason.
const MOST_REASON: usize = 64;

/// Whether a child that ends so has ended as it should.
pub(crate) fn is_quiet(reason: &[u8]) -> bool {
    is_text(reason, b"normal") || reason.starts_with(b"shutdown")
}

/// Appends what of a text may stand in a reason: blanks are left out, for a byte that isn't plain an underscore stands.
fn write_plain(text: &[u8], out: &mut Vec<u8>) -> Result<(), AllocError> {
    let mut count: usize = 0;
    for byte in text {
        if count == MOST_REASON {
            return Ok(());
        }
        match *byte {
            b' ' | b'\t' | b'\r' => {}
            0x21..=0x7e => {
                write_byte(*byte, out)?;
                count = count.saturating_add(1);
            }
            _ => {
                write_byte(b'_', out)?;
                count = count.saturating_add(1);
            }
        }
    }
    if count == 0 {
        out.extend_from_slice(b"unknown")
    } else {
        Ok(())
    }
}

/// Appends an error of which this is told.
pub fn write_error(front: &[u8], text: &[u8], out: &mut Vec<u8>) -> Result<(), AllocError> {
    out.extend_from_slice(b"error:")?;
    out.extend_from_slice(front)?;
    write_plain(text, out)
}

/// A word of Erlang, or of Elixir, where a colon stands before it.
fn without_colon(text: &[u8]) -> &[u8] {
    text.strip_prefix(b":").unwrap_or(text)
}

/// Whether a reason has no text of its own and is this word.
fn is_word(text: &[u8]) -> bool {
    is_text(text, b"normal")
        || is_text(text, b"shutdown")
        || is_text(text, b"killed")
        || is_text(text, b"kill")
        || is_text(text, b"noproc")
}

/// Where the text of a reason `{shutdown, TEXT}` stands, or as Elixir has it `shutdown: TEXT`, if it is one.
fn text_of_shutdown(text: &[u8], range: Range) -> Option<Range> {
    if is_at(text, range.start, b"shutdown: ") {
        return Some(from_place(range, range.start.saturating_add(10)));
    }
    let is_one = is_at(text, range.start, b"{shutdown,")
        || is_at(text, range.start, b"{:shutdown,");
    if !is_one {
        return None;
    }
    let comma = place_of_bytes(text, range, b",")?;
    Some(Range {
        start: comma.saturating_add(1),
        end: range.end.saturating_sub(1),
    })
}

/// Appends the reason that a term says.
pub fn write_term(text: &[u8], range: Range, out: &mut Vec<u8>) -> Result<(), AllocError> {
    let term = trimmed(text, range);
    let word = without_colon(term.of(text));
    if is_word(word) {
        return out.extend_from_slice(word);
    }
    match text_of_shutdown(text, term) {
        Some(inner) => {
            out.extend_from_slice(b"shutdown:")?;
            write_plain(without_colon(trimmed(text, inner).of(text)), out)
        }
        None => write_error(b"", word, out),
    }
}

/// Appends the reason of a process that ended with this status.
pub fn write_status(status: &[u8], out: &mut Vec<u8>) -> Result<(), AllocError> {
    if is_text(status, b"0") {
        out.extend_from_slice(b"normal")
    } else {
        write_error(b"status_", status, out)
    }
}

/// Appends the reason of a process that this signal ended, whose name has no SIG before it.
pub fn write_signal(signal: &[u8], out: &mut Vec<u8>) -> Result<(), AllocError> {
    if is_text(signal, b"KILL") {
        out.extend_from_slice(b"killed")
    } else {
        write_error(b"SIG", signal, out)
    }
}
