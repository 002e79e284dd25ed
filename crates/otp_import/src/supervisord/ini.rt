//! The file of supervisord: sections, and settings in them.

use crate::settings::{Parts, brackets_of};
use otp_foreign::{ImportFault, Range, Why, byte_of, is_blank, line_at, trimmed};
use std::alloc::Global;

/// The place at which a comment begins within a line, or its end: behind a blank stands a semicolon or a sharp sign.
fn end_before_comment(text: &[u8], range: Range) -> usize {
    let mut was_blank = false;
    for place in range.start..range.end {
        let byte = byte_of(text, place);
        if was_blank && (byte == b';' || byte == b'#') {
            return place;
        }
        was_blank = is_blank(byte);
    }
    range.end
}

/// A setting stands on this line.
fn set(ini: &mut Parts, text: &[u8], line: Range) -> Result<(), ImportFault> {
    let Some(section) = ini.parts.last() else {
        return Err(ImportFault::At(line.start, Why::NoSection));
    };
    let name = section.name;
    ini.set(text, name, line, b'=', b':')
}

/// Reads a line.
fn take(ini: &mut Parts, text: &[u8], line: Range) -> Result<(), ImportFault> {
    let first = byte_of(text, line.start);
    let without = Range {
        start: line.start,
        end: end_before_comment(text, line),
    };
    let part = trimmed(text, without);
    if part.start >= part.end || first == b';' || first == b'#' {
        return Ok(());
    }
    if first == b'[' {
        return ini.begin(brackets_of(text, part)?);
    }
    if is_blank(first) && !ini.settings.is_empty() {
        ini.go_on(part);
        return Ok(());
    }
    set(ini, text, part)
}

/// Reads such a file: its parts are its sections.
pub(crate) fn read_ini(alloc: Global, text: &[u8]) -> Result<Parts, ImportFault> {
    let mut ini = Parts::new(alloc);
    let mut place = 0;
    for _ in 0..text.len() {
        if place >= text.len() {
            break;
        }
        let line = line_at(text, place);
        take(&mut ini, text, line)?;
        place = line.end.saturating_add(1);
    }
    Ok(ini)
}

/// Whether a line is empty, or a comment.
fn says_nothing(line: &[u8]) -> bool {
    match line.first() {
        None => true,
        Some(byte) => matches!(*byte, b';' | b'#' | b'%'),
    }
}

/// Whether a text is such a file: the first line that says something is a head in brackets, of a word in which no comma stands.
pub fn is_ini(text: &[u8]) -> bool {
    let mut place = 0;
    for _ in 0..text.len() {
        if place >= text.len() {
            break;
        }
        let line = line_at(text, place);
        place = line.end.saturating_add(1);
        let part = trimmed(text, line).of(text);
        if says_nothing(part) {
            continue;
        }
        return match part {
            [b'[', inner @ .., b']'] => is_head(inner),
            _ => false,
        };
    }
    false
}

/// Whether this may stand in the brackets of a head, and not in those of a list.
fn is_head(inner: &[u8]) -> bool {
    let mut is_long = false;
    for byte in inner {
        if matches!(byte, b',' | b'{' | b'[' | b'"' | b'\'') {
            return false;
        }
        is_long = true;
    }
    is_long
}
