//! The log of `otp-procs`, as text and as JSON.

use crate::log::{Called, Event, Log};
use crate::moment::{Moment, read_moment};
use crate::seeking::{behind_word, first_word, is_at, is_text, place_of_bytes, up_to};
use crate::values::{number_of, text_of};
use otp_foreign::{Range, byte_of};
use std::alloc::{AllocError, Global};

/// What a line of such a log says.
#[derive(Clone, Copy)]
struct Line {
    moment: Moment,
    /// What happened, as `exit`.
    what: Range,
    path: Range,
    /// The number of the process.
    number: Range,
    reason: Range,
}

/// How far such a log was read.
#[derive(Drop)]
pub(crate) struct Daemon {
    /// Where the numbers stand of processes that were asked to end, or killed.
    asked: Vec<Range>,
}

/// What a line says that is an object of JSON.
fn read_object(text: &[u8], line: Range) -> Option<Line> {
    let time = text_of(text, line, b"\"time\"")?;
    let (moment, _) = read_moment(text, time.start)?;
    let what = match text_of(text, line, b"\"event\"") {
        Some(what) => what,
        None => text_of(text, line, b"\"order\"")?,
    };
    let nothing = up_to(line, line.start);
    Some(Line {
        moment,
        what,
        path: text_of(text, line, b"\"path\"").unwrap_or(nothing),
        number: number_of(text, line, b"\"number\"").unwrap_or(nothing),
        reason: text_of(text, line, b"\"reason\"").unwrap_or(nothing),
    })
}

/// What a line says that is text.
fn read_words(text: &[u8], line: Range) -> Option<Line> {
    let (moment, _) = read_moment(text, line.start)?;
    let what = behind_word(text, behind_word(text, line));
    let path = behind_word(text, what);
    let number = behind_word(text, path);
    let reason = behind_word(text, number);
    Some(Line {
        moment,
        what: first_word(text, what),
        path: first_word(text, path),
        number: first_word(text, number),
        reason: first_word(text, reason),
    })
}

impl Daemon {
    pub(crate) fn new(alloc: Global) -> Self {
        Daemon {
            asked: Vec::new(alloc),
        }
    }

    /// The process of this number is asked to end, or killed. One that was asked before is noted once.
    fn note_asked(&mut self, text: &[u8], number: Range) -> Result<(), AllocError> {
        for other in &self.asked {
            if is_text(other.of(text), number.of(text)) {
                return Ok(());
            }
        }
        self.asked.push(number).map_err(|_| AllocError)
    }

    /// Whether the process of this number was asked to end; it is forgotten.
    fn was_asked(&mut self, text: &[u8], number: Range) -> bool {
        for place in 0..self.asked.len() {
            if self.asked[place].of(text) == number.of(text) {
                self.asked.swap_remove(place);
                return true;
            }
        }
        false
    }

    /// What a line says.
    fn take(&mut self, log: &mut Log<'_>, said: Line) -> Result<(), AllocError> {
        let text = log.text;
        let called = Called::alone(said.path);
        log.reason.clear();
        match said.what.of(text) {
            b"ask" | b"kill" => self.note_asked(text, said.number),
            b"up" => log.take(Event::Up, said.moment, called),
            b"stop" => log.stop(said.moment),
            b"exit" | b"fail" => {
                if self.was_asked(text, said.number) {
                    return Ok(());
                }
                log.reason.extend_from_slice(said.reason.of(text))?;
                log.take(Event::End, said.moment, called)
            }
            _ => Ok(()),
        }
    }

    /// The next line, which is text.
    pub(crate) fn take_line(&mut self, log: &mut Log<'_>, line: Range) -> Result<(), AllocError> {
        match read_words(log.text, line) {
            Some(said) => self.take(log, said),
            None => Ok(()),
        }
    }

    /// The next line, which is an object of JSON.
    pub(crate) fn take_object(&mut self, log: &mut Log<'_>, line: Range) -> Result<(), AllocError> {
        match read_object(log.text, line) {
            Some(said) => self.take(log, said),
            None => Ok(()),
        }
    }
}

/// Whether a line says that a run of the daemon begins.
pub(crate) fn is_beginning(text: &[u8], line: Range) -> bool {
    if byte_of(text, line.start) == b'{' {
        return place_of_bytes(text, line, b",\"remark\":\"began\"").is_some();
    }
    let what = behind_word(text, behind_word(text, line));
    is_at(text, what.start, b"began ")
}
