//! Values of keys of an object of JSON that stands on a line, by their places in the text.

use crate::seeking::{from_place, place_behind, stripped, up_to};
use otp_foreign::{Range, byte_of};

/// The place behind the blanks that follow a place of a line.
fn behind_blanks(text: &[u8], line: Range, place: usize) -> usize {
    stripped(text, from_place(line, place)).start
}

/// The place at which the value of a key begins, which is named with its quotes. A value that is the same text isn't taken for the key.
fn place_of_value(text: &[u8], line: Range, key: &[u8]) -> Option<usize> {
    let mut rest = line;
    for _ in line.start..line.end {
        let behind = place_behind(text, rest, key)?;
        let colon = behind_blanks(text, line, behind);
        if byte_of(text, colon) == b':' {
            return Some(behind_blanks(text, line, colon.saturating_add(1)));
        }
        rest = from_place(line, behind);
    }
    None
}

/// The place of the quote that closes a text.
fn end_of_text(text: &[u8], rest: Range) -> Option<usize> {
    let mut is_escaped = false;
    for place in rest.start..rest.end {
        match byte_of(text, place) {
            _ if is_escaped => is_escaped = false,
            b'\\' => is_escaped = true,
            b'"' => return Some(place),
            _ => {}
        }
    }
    None
}

/// The text of a key, as it is written.
pub fn text_of(text: &[u8], line: Range, key: &[u8]) -> Option<Range> {
    let place = place_of_value(text, line, key)?;
    if byte_of(text, place) != b'"' {
        return None;
    }
    let rest = from_place(line, place.saturating_add(1));
    Some(up_to(rest, end_of_text(text, rest)?))
}

/// The digits that a key has.
pub fn number_of(text: &[u8], line: Range, key: &[u8]) -> Option<Range> {
    let place = place_of_value(text, line, key)?;
    let mut end = place;
    for at in place..line.end {
        if !byte_of(text, at).is_ascii_digit() {
            break;
        }
        end = at.saturating_add(1);
    }
    Some(up_to(from_place(line, place), end))
}
