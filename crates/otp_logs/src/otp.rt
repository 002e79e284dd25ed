//! Reports of supervisors as OTP's logger writes them, on several lines or on one.

use crate::log::{Called, Event, Log};
use crate::moment::{Moment, read_moment, read_report_moment};
use crate::reason::{write_error, write_term};
use crate::seeking::{from_place, is_at, is_text, place_behind, place_of_bytes, stripped, up_to};
use otp_foreign::{Range, byte_of, trimmed};
use std::alloc::AllocError;

/// What a report is about.
#[derive(Clone, Copy)]
enum Context {
    /// A child has ended by itself.
    End,
    /// Its start has failed, which counts as an end does.
    Failed,
    /// A child is up.
    Up,
    /// Anything else: what the supervisor did itself.
    Other,
}

/// A report of several lines, as far as it was read.
#[derive(Clone, Copy)]
pub(crate) struct Report {
    moment: Option<Moment>,
    supervisor: Range,
    context: Context,
    reason: Range,
    /// The child's id is to come.
    wants_id: bool,
}

/// Nowhere.
const NOWHERE: Range = Range { start: 0, end: 0 };

impl Report {
    /// Nothing was read.
    pub(crate) const NONE: Report = Report {
        moment: None,
        supervisor: NOWHERE,
        context: Context::Other,
        reason: NOWHERE,
        wants_id: false,
    };

    /// A report begins.
    pub(crate) fn begun(moment: Moment) -> Report {
        Report {
            moment: Some(moment),
            ..Report::NONE
        }
    }

    /// The next line of a report, from its first letter on.
    fn with_line(self, text: &[u8], line: Range) -> Report {
        if let Some(place) = behind_key(text, line, b"supervisor: ") {
            return Report {
                supervisor: name_of(text, trimmed(text, from_place(line, place))),
                ..self
            };
        }
        if let Some(place) = behind_key(text, line, b"errorContext: ") {
            return Report {
                context: context_of(trimmed(text, from_place(line, place)).of(text)),
                ..self
            };
        }
        if let Some(place) = behind_key(text, line, b"reason: ") {
            return Report {
                reason: from_place(line, place),
                ..self
            };
        }
        if is_at(text, line.start, b"started: [") {
            return Report {
                context: Context::Up,
                wants_id: true,
                ..self
            };
        }
        if is_at(text, line.start, b"offender: [") {
            return Report {
                wants_id: matches!(self.context, Context::End | Context::Failed),
                ..self
            };
        }
        self
    }
}

/// The place behind a key, if a line begins with it.
fn behind_key(text: &[u8], line: Range, key: &[u8]) -> Option<usize> {
    if is_at(text, line.start, key) {
        Some(line.start.saturating_add(key.len()))
    } else {
        None
    }
}

/// What a report is about by this word of OTP.
fn context_of(word: &[u8]) -> Context {
    if is_text(word, b"child_terminated") {
        Context::End
    } else if is_text(word, b"start_error") {
        Context::Failed
    } else {
        Context::Other
    }
}

/// The name of a supervisor, which may be one that it is registered by, as `{local,NAME}`, or its module behind its process.
fn name_of(text: &[u8], term: Range) -> Range {
    if byte_of(text, term.start) != b'{' {
        return term;
    }
    match place_behind(text, term, b",") {
        Some(place) => Range {
            start: place,
            end: term.end.saturating_sub(1).max(place),
        },
        None => term,
    }
}

/// The place behind the term that begins there: where a bracket closes that didn't open in it, or a comma stands beside all that did.
fn end_of_term(text: &[u8], range: Range) -> usize {
    let mut depth: usize = 0;
    let mut quote: u8 = 0;
    for place in range.start..range.end {
        let byte = byte_of(text, place);
        if quote != 0 {
            if byte == quote {
                quote = 0;
            }
            continue;
        }
        match byte {
            b'"' | b'\'' => quote = byte,
            b'{' | b'[' | b'(' => depth = depth.saturating_add(1),
            b'}' | b']' | b')' if depth == 0 => return place,
            b'}' | b']' | b')' => depth = depth.saturating_sub(1),
            b',' if depth == 0 => return place,
            _ => {}
        }
    }
    range.end
}

/// The id of a child on this line, if it stands there.
fn id_in(text: &[u8], line: Range) -> Option<Range> {
    let place = place_behind(text, line, b"{id,")?;
    let rest = from_place(line, place);
    Some(up_to(rest, end_of_term(text, rest)))
}

/// What a report says of a child.
fn take_report(
    log: &mut Log<'_>,
    moment: Moment,
    context: Context,
    called: Called,
    reason: Range,
) -> Result<(), AllocError> {
    log.reason.clear();
    match context {
        Context::Other => Ok(()),
        Context::Up => log.take(Event::Up, moment, called),
        Context::End => {
            write_term(log.text, reason, &mut log.reason)?;
            log.take(Event::End, moment, called)
        }
        Context::Failed => {
            write_error(b"", reason.of(log.text), &mut log.reason)?;
            log.take(Event::End, moment, called)
        }
    }
}

/// A line of a report that goes on.
pub(crate) fn take_inner(
    log: &mut Log<'_>,
    report: Report,
    line: Range,
) -> Result<Report, AllocError> {
    let Some(moment) = report.moment else {
        return Ok(report);
    };
    let inner = stripped(log.text, line);
    let next = report.with_line(log.text, inner);
    if !next.wants_id {
        return Ok(next);
    }
    let Some(name) = id_in(log.text, inner) else {
        return Ok(next);
    };
    let called = Called {
        supervisor: next.supervisor,
        name,
    };
    take_report(log, moment, next.context, called, next.reason)?;
    Ok(Report {
        wants_id: false,
        ..next
    })
}

/// What stands behind these words of a report on one line, up to the others behind it, or to its end.
fn part_of(text: &[u8], line: Range, front: &[u8], back: &[u8]) -> Option<Range> {
    let place = place_behind(text, line, front)?;
    let rest = from_place(line, place);
    match place_of_bytes(text, rest, back) {
        Some(end) => Some(up_to(rest, end)),
        None => Some(rest),
    }
}

/// A report on one line, from its first word on.
pub(crate) fn take_single(
    log: &mut Log<'_>,
    moment: Moment,
    line: Range,
) -> Result<(), AllocError> {
    let text = log.text;
    let Some(supervisor) = part_of(text, line, b"upervisor: ", b". ") else {
        return Ok(());
    };
    let rest = from_place(line, supervisor.end);
    let started = part_of(text, rest, b". Started: id=", b",pid=");
    let ended = part_of(text, rest, b"Offender: id=", b",pid=");
    let (context, name) = match (started, ended) {
        (Some(name), None) => (Context::Up, name),
        (None, Some(name)) => (
            context_of(
                part_of(text, rest, b"Context: ", b". ")
                    .unwrap_or(NOWHERE)
                    .of(text),
            ),
            name,
        ),
        _ => return Ok(()),
    };
    let called = Called {
        supervisor: name_of(text, supervisor),
        name,
    };
    let reason = part_of(text, rest, b"Reason: ", b". Offender: ").unwrap_or(NOWHERE);
    take_report(log, moment, context, called, reason)
}

/// The next line.
pub(crate) fn take_line(
    log: &mut Log<'_>,
    report: Report,
    line: Range,
) -> Result<Report, AllocError> {
    let text = log.text;
    match byte_of(text, line.start) {
        b'=' => match place_behind(text, line, b"==== ") {
            Some(place) => match read_report_moment(text, place) {
                Some(moment) => Ok(Report::begun(moment)),
                None => Ok(Report::NONE),
            },
            None => Ok(report),
        },
        b'0'..=b'9' => match read_moment(text, line.start) {
            Some((moment, place)) => {
                take_single(log, moment, from_place(line, place))?;
                Ok(Report::begun(moment))
            }
            None => Ok(report),
        },
        b' ' => take_inner(log, report, line),
        _ => Ok(report),
    }
}
