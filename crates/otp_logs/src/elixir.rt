//! What Elixir's Logger writes of children and their supervisors.

use crate::log::{Called, Event, Log};
use crate::moment::{Moment, Zone, read_clock, read_moment};
use crate::reason::{write_error, write_term};
use crate::seeking::{
    behind_word, first_word, from_place, is_at, is_text, line_behind, place_behind, place_of_bytes,
    stripped, up_to,
};
use otp_foreign::{Range, byte_of, trimmed};
use std::alloc::AllocError;

/// Half a day.
const HALF: u64 = 43_200_000;

/// How far such a log was read.
#[derive(Clone, Copy)]
pub(crate) struct Reading {
    /// So many midnights have gone by since its first line, where its times have no date.
    days: u64,
    last: u64,
}

impl Reading {
    /// Nothing was read.
    pub(crate) const NONE: Reading = Reading { days: 0, last: 0 };

    /// A time of the day was read: one that is much earlier than the one before is of the next day.
    fn with_clock(self, clock: u64) -> Reading {
        let is_next = clock.saturating_add(HALF) < self.last;
        Reading {
            days: if is_next {
                self.days.saturating_add(1)
            } else {
                self.days
            },
            last: clock,
        }
    }

    /// The time that was read last, counted from the beginning of 1970.
    fn moment(&self) -> Moment {
        let before = self.days.saturating_mul(86_400_000);
        Moment::at(before.saturating_add(self.last), Zone::Local)
    }
}

/// What Elixir's Logger says: the first line of a message, and those behind it.
#[derive(Clone, Copy)]
pub(crate) struct Message {
    pub head: Range,
    /// Why a process ended.
    pub reason: Option<Range>,
    /// The exception that ended it, where the line before says that there was one.
    pub raised: Option<Range>,
}

/// What stands behind the level of a line, as `[error]`, and behind what may stand before that.
fn message_in(text: &[u8], rest: Range) -> Option<Range> {
    let place = place_behind(text, rest, b"] ")?;
    Some(from_place(rest, place))
}

/// What is said from this part of a line on.
fn said_from(text: &[u8], line: Range, head: Range) -> Message {
    let reason = line_behind(text, line);
    let raised = match reason {
        Some(next) => line_behind(text, next),
        None => None,
    };
    Message {
        head,
        reason,
        raised,
    }
}

/// Where the name of an exception stands in such words, which begin with two stars.
fn exception_in(text: &[u8], words: Range) -> Option<Range> {
    let inner = behind_word(text, stripped(text, words));
    if byte_of(text, inner.start) != b'(' {
        return None;
    }
    let open = from_place(inner, inner.start.saturating_add(1));
    let end = place_of_bytes(text, open, b")")?;
    Some(up_to(open, end))
}

/// Appends the reason that a line says, or the exception behind it.
fn write_reason(
    text: &[u8],
    line: Range,
    raised: Option<Range>,
    out: &mut Vec<u8>,
) -> Result<(), AllocError> {
    let Some(kind) = exception_in(text, line) else {
        return write_error(b"", b"unknown", out);
    };
    let rest = trimmed(text, from_place(line, kind.end.saturating_add(1)));
    if !matches!(kind.of(text), b"exit" | b"stop") {
        return write_error(b"", kind.of(text), out);
    }
    if is_text(rest.of(text), b"an exception was raised:") {
        let exception = match raised {
            Some(next) => exception_in(text, next),
            None => None,
        };
        return write_error(b"", exception.unwrap_or(rest).of(text), out);
    }
    write_term(text, rest, out)
}

/// Leaves the reason that is said in its place.
fn read_reason(log: &mut Log<'_>, said: Message) -> Result<(), AllocError> {
    log.reason.clear();
    match said.reason {
        Some(line) => write_reason(log.text, line, said.raised, &mut log.reason),
        None => write_error(b"", b"unknown", &mut log.reason),
    }
}

/// A name without the colon of an atom.
fn plain_name(text: &[u8], name: Range) -> Range {
    if byte_of(text, name.start) == b':' {
        from_place(name, name.start.saturating_add(1))
    } else {
        name
    }
}

/// The name of a supervisor and what is said behind it. One that isn't registered has its module behind its process, as in
/// `#PID<0.107.0> (MyApp.Pool) terminated`.
fn supervisor_in(text: &[u8], words: Range) -> (Range, Range) {
    let behind = behind_word(text, words);
    if byte_of(text, behind.start) != b'(' {
        return (plain_name(text, first_word(text, words)), behind);
    }
    let module = first_word(text, behind);
    let name = Range {
        start: module.start.saturating_add(1),
        end: module.end.saturating_sub(1),
    };
    (name, behind_word(text, behind))
}

/// A report of a supervisor: `Child NAME of Supervisor NAME terminated`.
fn take_child(log: &mut Log<'_>, moment: Moment, said: Message) -> Result<(), AllocError> {
    let text = log.text;
    let from = from_place(said.head, said.head.start.saturating_add(6));
    let Some(end) = place_of_bytes(text, from, b" of Supervisor ") else {
        return Ok(());
    };
    let (supervisor, behind) = supervisor_in(text, from_place(from, end.saturating_add(15)));
    let called = Called {
        supervisor,
        name: plain_name(text, up_to(from, end)),
    };
    match trimmed(text, behind).of(text) {
        b"started" => log.take(Event::Up, moment, called),
        b"terminated" | b"failed to start" => {
            read_reason(log, said)?;
            log.take(Event::End, moment, called)
        }
        _ => Ok(()),
    }
}

/// What a process says of its own end: `GenServer NAME terminating`.
fn take_server(log: &mut Log<'_>, moment: Moment, said: Message) -> Result<(), AllocError> {
    let text = log.text;
    let from = behind_word(text, said.head);
    let Some(end) = place_of_bytes(text, from, b" terminating") else {
        return Ok(());
    };
    let called = Called::alone(plain_name(text, up_to(from, end)));
    read_reason(log, said)?;
    log.take(Event::End, moment, called)
}

/// What a message says. Where supervisors report, what processes say themselves would be told twice.
pub(crate) fn take_said(
    log: &mut Log<'_>,
    has_reports: bool,
    moment: Moment,
    said: Message,
) -> Result<(), AllocError> {
    if is_at(log.text, said.head.start, b"Child ") {
        return take_child(log, moment, said);
    }
    if !has_reports && is_at(log.text, said.head.start, b"GenServer ") {
        return take_server(log, moment, said);
    }
    Ok(())
}

/// What a line with this time says.
fn take_message(
    log: &mut Log<'_>,
    has_reports: bool,
    moment: Moment,
    line: Range,
    rest: Range,
) -> Result<(), AllocError> {
    match message_in(log.text, rest) {
        Some(head) => {
            let said = said_from(log.text, line, head);
            take_said(log, has_reports, moment, said)
        }
        None => Ok(()),
    }
}

/// The next line.
pub(crate) fn take_line(
    log: &mut Log<'_>,
    reading: Reading,
    has_reports: bool,
    line: Range,
) -> Result<Reading, AllocError> {
    let text = log.text;
    if !byte_of(text, line.start).is_ascii_digit() {
        return Ok(reading);
    }
    if let Some((clock, place)) = read_clock(text, line.start) {
        let next = reading.with_clock(clock);
        take_message(
            log,
            has_reports,
            next.moment(),
            line,
            from_place(line, place),
        )?;
        return Ok(next);
    }
    if let Some((moment, place)) = read_moment(text, line.start) {
        take_message(log, has_reports, moment, line, from_place(line, place))?;
    }
    Ok(reading)
}
