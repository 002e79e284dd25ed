//! Logs of Erlang or Elixir as their formatters of JSON write them: on each line an object with a time and a message, in which `\n`
//! stands for the end of a line.

use crate::elixir::{Message, take_said};
use crate::log::Log;
use crate::moment::{Moment, read_moment};
use crate::otp::{self, Report};
use crate::seeking::{from_place, is_at, place_of_bytes, up_to};
use crate::values::text_of;
use otp_foreign::Range;
use std::alloc::AllocError;

/// The end of a line of a message.
const END: &[u8] = b"\\n";

/// The line of a message that begins at a place.
fn part_from(text: &[u8], message: Range, place: usize) -> Range {
    let rest = from_place(message, place);
    match place_of_bytes(text, rest, END) {
        Some(end) => up_to(rest, end),
        None => rest,
    }
}

/// The line of a message behind this one, if one is.
fn part_behind(text: &[u8], message: Range, part: Range) -> Option<Range> {
    if part.end < message.end {
        Some(part_from(text, message, part.end.saturating_add(END.len())))
    } else {
        None
    }
}

/// The message of an object.
pub(crate) fn message_of(text: &[u8], line: Range) -> Option<Range> {
    match text_of(text, line, b"\"message\"") {
        Some(message) => Some(message),
        None => text_of(text, line, b"\"msg\""),
    }
}

/// The time of an object.
fn moment_of(text: &[u8], line: Range) -> Option<Moment> {
    let time = match text_of(text, line, b"\"time\"") {
        Some(time) => time,
        None => match text_of(text, line, b"\"timestamp\"") {
            Some(time) => time,
            None => text_of(text, line, b"\"@timestamp\"")?,
        },
    };
    let (moment, _) = read_moment(text, time.start)?;
    Some(moment)
}

/// A report of several lines.
fn take_report(log: &mut Log<'_>, moment: Moment, message: Range) -> Result<(), AllocError> {
    let text = log.text;
    let mut report = Report::begun(moment);
    let mut part = part_from(text, message, message.start);
    for _ in message.start..message.end {
        report = otp::take_inner(log, report, part)?;
        match part_behind(text, message, part) {
            Some(next) => part = next,
            None => return Ok(()),
        }
    }
    Ok(())
}

/// What Elixir's Logger says, by the first lines of the message.
fn said_in(text: &[u8], message: Range) -> Message {
    let head = part_from(text, message, message.start);
    let reason = part_behind(text, message, head);
    let raised = match reason {
        Some(part) => part_behind(text, message, part),
        None => None,
    };
    Message {
        head,
        reason,
        raised,
    }
}

/// What a message says.
fn take_message(
    log: &mut Log<'_>,
    has_reports: bool,
    moment: Moment,
    message: Range,
) -> Result<(), AllocError> {
    let text = log.text;
    if is_at(text, message.start, b"Child ") || is_at(text, message.start, b"GenServer ") {
        return take_said(log, has_reports, moment, said_in(text, message));
    }
    if is_at(text, message.start, b" ") {
        return take_report(log, moment, message);
    }
    otp::take_single(log, moment, message)
}

/// The next line. Where supervisors report, what processes say themselves would be told twice.
pub(crate) fn take_object(
    log: &mut Log<'_>,
    has_reports: bool,
    line: Range,
) -> Result<(), AllocError> {
    let Some(message) = message_of(log.text, line) else {
        return Ok(());
    };
    match moment_of(log.text, line) {
        Some(moment) => take_message(log, has_reports, moment, message),
        None => Ok(()),
    }
}
