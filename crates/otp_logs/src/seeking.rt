//! Where something stands in a text.

ghost use Rattle.std.specs.Prelude.{◌≡◌};
ghost use Rattle.std.specs.Str.{bytes_eq};

use otp_foreign::{Range, byte_of, is_blank, line_at};

/// Whether these bytes stand at a place of a text.
pub fn is_at(text: &[u8], place: usize, bytes: &[u8]) -> bool {
    match text.get(place..) {
        Some(rest) => rest.starts_with(bytes),
        None => false,
    }
}

/// The place of these bytes in a part of a text, if they begin in it.
pub fn place_of_bytes(text: &[u8], range: Range, bytes: &[u8]) -> Option<usize> {
    let first = byte_of(bytes, 0);
    for place in range.start..range.end {
        if byte_of(text, place) == first && is_at(text, place, bytes) {
            return Some(place);
        }
    }
    None
}

/// The place behind these bytes in a part of a text, if they begin in it.
pub fn place_behind(text: &[u8], range: Range, bytes: &[u8]) -> Option<usize> {
    match place_of_bytes(text, range, bytes) {
        Some(place) => Some(place.saturating_add(bytes.len())),
        None => None,
    }
}

/// A part from a place on.
pub fn from_place(range: Range, place: usize) -> Range {
    Range {
        start: place,
        end: range.end.max(place),
    }
}

/// A part up to a place.
pub fn up_to(range: Range, place: usize) -> Range {
    Range {
        start: range.start,
        end: place.max(range.start),
    }
}

/// A part without the blanks before it.
pub fn stripped(text: &[u8], range: Range) -> Range {
    for place in range.start..range.end {
        if !is_blank(byte_of(text, place)) {
            return from_place(range, place);
        }
    }
    from_place(range, range.end)
}

/// The word at the beginning of a part: what stands before the first blank.
pub fn first_word(text: &[u8], range: Range) -> Range {
    for place in range.start..range.end {
        if is_blank(byte_of(text, place)) {
            return up_to(range, place);
        }
    }
    range
}

/// What stands behind the word at the beginning of a part, without the blanks between them.
pub fn behind_word(text: &[u8], range: Range) -> Range {
    let word = first_word(text, range);
    stripped(text, from_place(range, word.end))
}

/// Whether two texts are the same.
pub fn is_text(one: &[u8], other: &[u8]) -> bool
    ensures { result ≡ bytes_eq one.now other.now }
{
    one == other
}

/// The line behind this one, if one is.
pub fn line_behind(text: &[u8], line: Range) -> Option<Range> {
    if line.end < text.len() {
        Some(line_at(text, line.end.saturating_add(1)))
    } else {
        None
    }
}
