//! What systemd writes of its services into the journal, as `journalctl` prints it, also with `-o short-iso` and `-o json`.

use crate::log::{Called, Event, Log};
use crate::moment::{Moment, Zone, read_moment, read_stamp};
use crate::reason::{write_error, write_signal, write_status};
use crate::seeking::{from_place, is_at, is_text, place_behind, place_of_bytes, up_to};
use crate::values::text_of;
use otp_foreign::{Range, number_in};
use std::alloc::AllocError;

/// A service's name ends so.
const SERVICE: &[u8] = b".service";

/// Microseconds from 1970 to the year 10000, whose dates have a digit more.
const END: u64 = 253_402_300_800_000_000;

/// Appends the reason of a process that ended by this code and status, as `exited`, `1/FAILURE`.
fn write_reason(
    code: &[u8],
    status: &[u8],
    name: &[u8],
    out: &mut Vec<u8>,
) -> Result<(), AllocError> {
    match code {
        b"exited" => write_status(status, out),
        b"killed" | b"dumped" => write_signal(name, out),
        _ => write_error(b"", code, out),
    }
}

/// The main process of a service has ended: `code=exited, status=1/FAILURE`.
fn take_exit(
    log: &mut Log<'_>,
    moment: Moment,
    called: Called,
    words: Range,
) -> Result<(), AllocError> {
    let text = log.text;
    let Some(code) = part_of(text, words, b"code=", b",") else {
        return Ok(());
    };
    let Some(status) = part_of(text, words, b"status=", b"/") else {
        return Ok(());
    };
    let name = name_in(text, from_place(words, status.end.saturating_add(1)));
    log.reason.clear();
    write_reason(
        code.of(text),
        status.of(text),
        name.of(text),
        &mut log.reason,
    )?;
    log.take(Event::End, moment, called)
}

/// What stands between two texts.
fn part_of(text: &[u8], words: Range, front: &[u8], back: &[u8]) -> Option<Range> {
    let place = place_behind(text, words, front)?;
    let rest = from_place(words, place);
    Some(up_to(rest, place_of_bytes(text, rest, back)?))
}

/// The capital letters and digits at the beginning of a part.
fn name_in(text: &[u8], words: Range) -> Range {
    for place in words.start..words.end {
        if !matches!(otp_foreign::byte_of(text, place), b'A'..=b'Z' | b'0'..=b'9' | b'+' | b'-') {
            return up_to(words, place);
        }
    }
    words
}

/// How far a journal was read.
#[derive(Drop)]
pub(crate) struct Journal {
    /// Where the names stand of services that are being stopped.
    stopping: Vec<Range>,
}

impl Journal {
    pub(crate) fn new(alloc: std::alloc::Global) -> Self {
        Journal {
            stopping: Vec::new(alloc),
        }
    }

    /// Whether a service is being stopped.
    fn is_stopping(&self, text: &[u8], name: Range) -> bool {
        for other in &self.stopping {
            if is_text(other.of(text), name.of(text)) {
                return true;
            }
        }
        false
    }

    /// Whether a service was being stopped; it is forgotten.
    fn was_stopping(&mut self, text: &[u8], name: Range) -> bool {
        for number in 0..self.stopping.len() {
            if self.stopping[number].of(text) == name.of(text) {
                self.stopping.swap_remove(number);
                return true;
            }
        }
        false
    }

    /// A service is being stopped.
    fn begin_stop(&mut self, text: &[u8], message: Range) -> Result<(), AllocError> {
        let Some(end) = place_of_bytes(text, message, SERVICE) else {
            return Ok(());
        };
        let name = up_to(from_place(message, message.start.saturating_add(9)), end);
        if self.is_stopping(text, name) {
            return Ok(());
        }
        self.stopping.push(name).map_err(|_| AllocError)
    }

    /// A service has ended well: by itself, unless it was being stopped.
    fn end_well(
        &mut self,
        log: &mut Log<'_>,
        moment: Moment,
        called: Called,
    ) -> Result<(), AllocError> {
        if self.was_stopping(log.text, called.name) {
            return Ok(());
        }
        log.reason.clear();
        log.reason.extend_from_slice(b"normal")?;
        log.take(Event::End, moment, called)
    }

    /// What systemd says at this time.
    fn take_message(
        &mut self,
        log: &mut Log<'_>,
        moment: Moment,
        message: Range,
    ) -> Result<(), AllocError> {
        let text = log.text;
        if is_at(text, message.start, b"Stopping ") {
            return self.begin_stop(text, message);
        }
        let Some(end) = place_of_bytes(text, message, b".service: ") else {
            return Ok(());
        };
        let called = Called::alone(up_to(message, end));
        let words = from_place(message, end.saturating_add(10));
        if is_at(text, words.start, b"Main process exited") {
            // Where the service is being stopped this is what was asked of it.
            return if self.is_stopping(text, called.name) {
                Ok(())
            } else {
                take_exit(log, moment, called, words)
            };
        }
        if is_at(text, words.start, b"Deactivated successfully") {
            return self.end_well(log, moment, called);
        }
        if is_at(text, words.start, b"Failed with result") {
            self.was_stopping(text, called.name);
        }
        Ok(())
    }

    /// The next line of a text.
    pub(crate) fn take_line(&mut self, log: &mut Log<'_>, line: Range) -> Result<(), AllocError> {
        let text = log.text;
        let Some(place) = place_behind(text, line, b" systemd[") else {
            return Ok(());
        };
        let Some(message) = place_behind(text, from_place(line, place), b"]: ") else {
            return Ok(());
        };
        let message = from_place(line, message);
        match read_moment(text, line.start) {
            Some((moment, _)) => self.take_message(log, moment, message),
            None => match read_stamp(text, line.start) {
                Some(moment) => self.take_message(log, moment, message),
                None => Ok(()),
            },
        }
    }

    /// The next line, which is an object of JSON.
    pub(crate) fn take_object(&mut self, log: &mut Log<'_>, line: Range) -> Result<(), AllocError> {
        let text = log.text;
        let is_own = match text_of(text, line, b"\"SYSLOG_IDENTIFIER\"") {
            Some(name) => is_text(name.of(text), b"systemd"),
            None => false,
        };
        if !is_own {
            return Ok(());
        }
        let Some(message) = text_of(text, line, b"\"MESSAGE\"") else {
            return Ok(());
        };
        let Some(time) = text_of(text, line, b"\"__REALTIME_TIMESTAMP\"") else {
            return Ok(());
        };
        match number_in(time.of(text)) {
            Some(micros) if micros < END => {
                let moment = Moment::at(micros / 1000, Zone::Utc);
                self.take_message(log, moment, message)
            }
            _ => Ok(()),
        }
    }
}
