//! Parts of a text, and lines.

/// A part of a text: the place of its first byte, and the one behind its last.
#[derive(Clone, Copy, Debug)]
pub struct Range {
    pub start: usize,
    pub end: usize,
}

impl Range {
    /// Its bytes.
    pub fn of<'a>(&self, text: &'a [u8]) -> &'a [u8] {
        text.get(self.start..self.end).unwrap_or(b"")
    }
}

/// Whether a byte stands between words.
pub fn is_blank(byte: u8) -> bool {
    matches!(byte, b' ' | b'\t' | b'\r' | b'\n')
}

/// The byte at a place, or a blank behind the end.
pub fn byte_of(text: &[u8], place: usize) -> u8 {
    match text.get(place) {
        Some(byte) => *byte,
        None => b' ',
    }
}

/// The part of a text without blanks at its front and its end.
pub fn trimmed(text: &[u8], range: Range) -> Range {
    let mut start = range.end;
    let mut end = range.start;
    for place in range.start..range.end {
        if !is_blank(byte_of(text, place)) {
            start = start.min(place);
            end = place.saturating_add(1);
        }
    }
    Range {
        start,
        end: end.max(start),
    }
}

/// The place of a byte in a part of a text.
pub fn place_of(text: &[u8], range: Range, one: u8, other: u8) -> Option<usize> {
    for place in range.start..range.end {
        let byte = byte_of(text, place);
        if byte == one || byte == other {
            return Some(place);
        }
    }
    None
}

/// The line that begins at a place, without its end.
pub fn line_at(text: &[u8], start: usize) -> Range {
    let whole = Range {
        start,
        end: text.len(),
    };
    Range {
        start,
        end: place_of(text, whole, b'\n', b'\n').unwrap_or(text.len()),
    }
}
