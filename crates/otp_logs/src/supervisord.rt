//! The log of supervisord.

use crate::log::{Called, Event, Log};
use crate::moment::{Moment, read_moment};
use crate::reason::{write_error, write_signal, write_status};
use crate::seeking::{behind_word, first_word, from_place, is_at, place_of_bytes, up_to};
use otp_foreign::{Range, byte_of};
use std::alloc::AllocError;

/// Appends the reason that such words say: `exit status 1`, or `terminated by SIGKILL`.
fn write_reason(text: &[u8], words: Range, out: &mut Vec<u8>) -> Result<(), AllocError> {
    if is_at(text, words.start, b"exit status ") {
        let status = from_place(words, words.start.saturating_add(12));
        return write_status(status.of(text), out);
    }
    if is_at(text, words.start, b"terminated by SIG") {
        let signal = from_place(words, words.start.saturating_add(17));
        return write_signal(first_word(text, signal).of(text), out);
    }
    write_error(b"", words.of(text), out)
}

/// A process has ended: `NAME (exit status 1; not expected)`.
fn take_exit(log: &mut Log<'_>, moment: Moment, words: Range) -> Result<(), AllocError> {
    let text = log.text;
    let Some(open) = place_of_bytes(text, words, b" (") else {
        return Ok(());
    };
    let inner = from_place(words, open.saturating_add(2));
    let Some(end) = place_of_bytes(text, inner, b";") else {
        return Ok(());
    };
    let called = Called::alone(up_to(words, open));
    log.reason.clear();
    write_reason(text, up_to(inner, end), &mut log.reason)?;
    log.take(Event::End, moment, called)
}

/// What a line says behind its time and its level.
fn take_words(log: &mut Log<'_>, moment: Moment, words: Range) -> Result<(), AllocError> {
    let text = log.text;
    if is_at(text, words.start, b"exited: ") {
        return take_exit(log, moment, behind_word(text, words));
    }
    let is_end = is_at(text, words.start, b"received SIG")
        && place_of_bytes(text, words, b"indicating exit request").is_some();
    if is_end { log.stop(moment) } else { Ok(()) }
}

/// The next line.
pub(crate) fn take_line(log: &mut Log<'_>, line: Range) -> Result<(), AllocError> {
    let text = log.text;
    // Behind a time of 23 bytes stand a blank, a level of four letters, and a blank.
    let words = from_place(line, line.start.saturating_add(29));
    if words.start >= line.end || !matches!(byte_of(text, words.start), b'e' | b'r') {
        return Ok(());
    }
    match read_moment(text, line.start) {
        Some((moment, _)) => take_words(log, moment, words),
        None => Ok(()),
    }
}

/// Whether a line says that supervisord begins.
pub(crate) fn is_beginning(text: &[u8], line: Range) -> bool {
    is_at(
        text,
        line.start.saturating_add(23),
        b" INFO supervisord started with pid ",
    )
}
