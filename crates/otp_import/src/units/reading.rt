//! Units as text: a comment with its path before each, as `systemctl cat` prints them, then sections and settings.

use crate::settings::{Parts, brackets_of};
use otp_foreign::{ImportFault, Range, Why, byte_of, is_blank, line_at, place_of, trimmed};
use std::alloc::Global;

/// What the lines so far say of the next.
#[derive(Clone, Copy, Debug)]
struct Reading {
    /// What stands in the brackets of the last section; it ends at 0 where the unit has none yet.
    section: Range,
    /// The last setting goes on on the next line.
    goes_on: bool,
}

/// The path that a line says, of a unit that begins there.
fn path_in(text: &[u8], line: Range) -> Option<Range> {
    let words = line.of(text);
    let front = if words.starts_with(b"# /") {
        2
    } else if words.starts_with(b"==> ") {
        4
    } else {
        return None;
    };
    let path = Range {
        start: line.start.saturating_add(front),
        end: line.end,
    };
    let end = place_of(text, path, b' ', b'\t').unwrap_or(path.end);
    let path = Range {
        start: path.start,
        end,
    };
    let is_unit = is_drop_in(text, path) || has_unit_end(path.of(text));
    if is_unit { Some(path) } else { None }
}

/// Whether a path ends as those of units do.
fn has_unit_end(path: &[u8]) -> bool {
    let ends = [
        ".service", ".socket", ".timer", ".target", ".path", ".mount", ".slice",
    ];
    for end in &ends {
        if path.strip_suffix(end.as_bytes()).is_some() {
            return true;
        }
    }
    false
}

/// A path without its folders.
fn name_in(text: &[u8], path: Range) -> Range {
    let mut start = path.start;
    for place in path.start..path.end {
        if byte_of(text, place) == b'/' {
            start = place.saturating_add(1);
        }
    }
    Range {
        start,
        end: path.end,
    }
}

/// Whether a path is of a part that changes another unit.
fn is_drop_in(text: &[u8], path: Range) -> bool {
    let mut was_d = false;
    for place in path.start..path.end {
        let byte = byte_of(text, place);
        if byte == b'/' && was_d {
            return true;
        }
        was_d = byte == b'd'
            && place > path.start
            && byte_of(text, place.saturating_sub(1)) == b'.';
    }
    false
}

impl Reading {
    /// A unit begins.
    fn begin(&mut self, units: &mut Parts, name: Range) -> Result<(), ImportFault> {
        self.section = Range { start: 0, end: 0 };
        units.begin(name)
    }

    /// A setting stands on this line.
    fn set(&self, units: &mut Parts, text: &[u8], line: Range) -> Result<(), ImportFault> {
        if self.section.end == 0 {
            return Err(ImportFault::At(line.start, Why::NoSection));
        }
        units.set(text, self.section, line, b'=', b'=')
    }

    /// Reads what a line says.
    fn say(&mut self, units: &mut Parts, text: &[u8], line: Range) -> Result<(), ImportFault> {
        if units.parts.is_empty() {
            self.begin(units, Range { start: 0, end: 0 })?;
        }
        if byte_of(text, line.start) == b'[' {
            self.section = brackets_of(text, line)?;
            return Ok(());
        }
        self.goes_on = byte_of(text, line.end.saturating_sub(1)) == b'\\';
        self.set(units, text, line)
    }

    /// Reads a line.
    fn take(&mut self, units: &mut Parts, text: &[u8], line: Range) -> Result<(), ImportFault> {
        if let Some(path) = path_in(text, line) {
            self.goes_on = false;
            if is_drop_in(text, path) {
                return Ok(());
            }
            return self.begin(units, name_in(text, path));
        }
        let part = trimmed(text, line);
        let first = byte_of(text, part.start);
        if part.start >= part.end || first == b';' || first == b'#' {
            return Ok(());
        }
        if self.goes_on {
            self.goes_on = byte_of(text, part.end.saturating_sub(1)) == b'\\';
            units.go_on(part);
            return Ok(());
        }
        self.say(units, text, part)
    }
}

/// Reads units: each is a part.
pub(crate) fn read_units(alloc: Global, text: &[u8]) -> Result<Parts, ImportFault> {
    let mut units = Parts::new(alloc);
    let mut reading = Reading {
        section: Range { start: 0, end: 0 },
        goes_on: false,
    };
    let mut place = 0;
    for _ in 0..text.len() {
        if place >= text.len() {
            break;
        }
        let line = line_at(text, place);
        reading.take(&mut units, text, line)?;
        place = line.end.saturating_add(1);
    }
    Ok(units)
}

/// Whether a text is of units: the first line that says something is the head of a section that units have, or a path as `systemctl
/// cat` and `tail` print it.
pub fn is_units(text: &[u8]) -> bool {
    let mut place = 0;
    for _ in 0..text.len() {
        if place >= text.len() {
            break;
        }
        let line = line_at(text, place);
        place = line.end.saturating_add(1);
        if path_in(text, line).is_some() {
            return true;
        }
        let part = trimmed(text, line);
        let first = byte_of(text, part.start);
        if part.start < part.end && first != b';' && first != b'#' {
            return is_head(part.of(text));
        }
    }
    false
}

/// Whether this is the head of a section that units have.
fn is_head(line: &[u8]) -> bool {
    matches!(line, b"[Unit]" | b"[Service]" | b"[Install]")
}

/// Whether a byte of a value stands between words: a backslash before the end of a line does so too.
pub(crate) fn is_apart(value: &[u8], place: usize) -> bool {
    let byte = byte_of(value, place);
    is_blank(byte) || (byte == b'\\' && byte_of(value, place.saturating_add(1)) == b'\n')
}
