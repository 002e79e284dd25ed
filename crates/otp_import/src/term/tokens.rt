//! The words and signs of a term of Erlang, as `~p` writes it, or of Elixir, as `inspect` does.

use crate::term::terms::TermKind;
use otp_foreign::{ImportFault, Why};

/// What stands at a place of a term.
#[derive(Clone, Copy, Debug, PartialEq, Eq)]
pub enum Sign {
    Open(TermKind),
    Close(TermKind),
    Comma,
    Arrow,
    Stop,
    /// A key of Elixir, as `id:`.
    Key,
    Value(TermKind),
}

/// A word or a sign, and the places of its first byte and behind its last.
#[derive(Clone, Copy, Debug, PartialEq, Eq)]
pub struct Token {
    pub sign: Sign,
    pub start: usize,
    pub end: usize,
}

/// The byte at a place, or 0 behind the end.
pub fn byte_at(text: &[u8], place: usize) -> u8 {
    match text.get(place) {
        Some(byte) => *byte,
        None => 0,
    }
}

/// Whether the text has these bytes at a place.
fn is_at(text: &[u8], place: usize, bytes: &[u8]) -> bool {
    match text.get(place..) {
        Some(rest) => rest.starts_with(bytes),
        None => false,
    }
}

/// Whether a byte may stand in a word.
fn is_word_byte(byte: u8) -> bool {
    byte.is_ascii_alphanumeric() || matches!(byte, b'_' | b'@' | 0x80..=0xff)
}

/// Whether a byte stands between words.
fn is_blank(byte: u8) -> bool {
    matches!(byte, b' ' | b'\t' | b'\r' | b'\n')
}

/// The place behind the last byte of a word, in which a point may stand between two names of modules.
fn end_of_word(text: &[u8], from: usize) -> usize {
    let is_module = byte_at(text, from).is_ascii_uppercase();
    for place in from..text.len() {
        let byte = text[place];
        let is_point = byte == b'.'
            && is_module
            && is_word_byte(byte_at(text, place.saturating_add(1)));
        if !is_word_byte(byte) && !is_point {
            return place;
        }
    }
    text.len()
}

/// Whether a map, or a struct of Elixir, opens behind a percent sign at this place.
fn opens_map(text: &[u8], place: usize) -> bool {
    let next = place.saturating_add(1);
    let is_struct = byte_at(text, next).is_ascii_uppercase();
    byte_at(text, next) == b'{' || (is_struct && byte_at(text, end_of_word(text, next)) == b'{')
}

/// Whether a sharp sign at this place begins a map of Erlang, or what is opaque.
fn is_sharp_value(text: &[u8], place: usize) -> bool {
    let next = place.saturating_add(1);
    let is_name = is_word_byte(byte_at(text, next));
    byte_at(text, next) == b'{' || (is_name && byte_at(text, end_of_word(text, next)) == b'<')
}

/// Whether a comment begins at this place: with a percent sign in Erlang, with a sharp sign in Elixir.
fn starts_comment(text: &[u8], place: usize) -> bool {
    match byte_at(text, place) {
        b'%' => !opens_map(text, place),
        b'#' => !is_sharp_value(text, place),
        _ => false,
    }
}

/// The place of the first byte from here on that is neither a blank nor of a comment.
pub fn skip_blank(text: &[u8], from: usize) -> usize {
    let mut is_comment = false;
    for place in from..text.len() {
        let byte = text[place];
        if is_comment {
            is_comment = byte != b'\n';
        } else if starts_comment(text, place) {
            is_comment = true;
        } else if !is_blank(byte) {
            return place;
        }
    }
    text.len()
}

/// The place behind the quote that closes the one before this place; none if it is never closed.
fn end_of_quoted(text: &[u8], from: usize, quote: u8) -> Option<usize> {
    let mut is_escaped = false;
    for place in from..text.len() {
        let byte = text[place];
        if is_escaped {
            is_escaped = false;
        } else if byte == b'\\' {
            is_escaped = true;
        } else if byte == quote {
            return Some(place.saturating_add(1));
        }
    }
    None
}

/// The place behind the angle bracket that closes those which open from here on; none if one is never closed. A text in between
/// may have any.
fn end_of_angles(text: &[u8], from: usize) -> Option<usize> {
    let mut depth: usize = 0;
    let mut is_text = false;
    for place in from..text.len() {
        match text[place] {
            b'"' => is_text = !is_text,
            b'<' if !is_text => depth = depth.saturating_add(1),
            b'>' if !is_text => {
                depth = depth.saturating_sub(1);
                if depth == 0 {
                    return Some(place.saturating_add(1));
                }
            }
            _ => {}
        }
    }
    None
}

/// The place behind a number.
fn end_of_number(text: &[u8], from: usize) -> usize {
    for place in from..text.len() {
        let byte = text[place];
        let is_point = byte == b'.' && byte_at(text, place.saturating_add(1)).is_ascii_digit();
        let is_first = place == from && matches!(byte, b'-' | b'+');
        let is_sign = is_word_byte(byte) || byte == b'#' || is_point || is_first;
        if !is_sign {
            return place;
        }
    }
    text.len()
}

/// The place behind what isn't looked at: the next comma, blank or closing bracket.
fn end_of_opaque(text: &[u8], from: usize) -> usize {
    for place in from..text.len() {
        if matches!(
            text[place],
            b',' | b' ' | b'\n' | b'\r' | b'\t' | b'}' | b']' | b')'
        ) {
            return place;
        }
    }
    text.len()
}

/// A token from one place to another.
fn made(sign: Sign, start: usize, end: usize) -> Token {
    Token { sign, start, end }
}

/// What opens with a quote at a place of which this is known.
fn quoted(text: &[u8], start: usize, open: usize, kind: TermKind) -> Result<Token, ImportFault> {
    let quote = byte_at(text, open);
    match end_of_quoted(text, open.saturating_add(1), quote) {
        None => Err(ImportFault::At(start, Why::OpenQuote)),
        Some(end) if is_key_end(text, end) => Ok(made(Sign::Key, start, end.saturating_add(1))),
        Some(end) => Ok(made(Sign::Value(kind), start, end)),
    }
}

/// Whether a colon stands here that makes what is before it a key of Elixir.
fn is_key_end(text: &[u8], place: usize) -> bool {
    byte_at(text, place) == b':' && is_blank(byte_at(text, place.saturating_add(1)))
}

/// What begins with a letter.
fn word(text: &[u8], start: usize) -> Token {
    let end = end_of_word(text, start);
    if is_key_end(text, end) {
        return made(Sign::Key, start, end.saturating_add(1));
    }
    if text.get(start..end).unwrap_or(b"") == b"fun".as_slice() && byte_at(text, end) == b' ' {
        let end = end_of_opaque(text, end.saturating_add(1));
        return made(Sign::Value(TermKind::Opaque), start, end);
    }
    made(Sign::Value(TermKind::Atom), start, end)
}

/// What stands behind a colon: an atom of Elixir, or an arrow of Erlang.
fn colon(text: &[u8], start: usize) -> Result<Token, ImportFault> {
    let next = start.saturating_add(1);
    match byte_at(text, next) {
        b'=' => Ok(made(Sign::Arrow, start, next.saturating_add(1))),
        b'"' => quoted(text, start, next, TermKind::Atom),
        byte if is_word_byte(byte) => Ok(made(
            Sign::Value(TermKind::Atom),
            start,
            end_of_word(text, next),
        )),
        _ => Err(ImportFault::At(start, Why::Unexpected)),
    }
}

/// What stands in angle brackets: a process of Erlang, or a binary.
fn angles(text: &[u8], start: usize, from: usize) -> Result<Token, ImportFault> {
    match end_of_angles(text, from) {
        None => Err(ImportFault::At(start, Why::OpenBracket)),
        Some(end) => Ok(made(Sign::Value(TermKind::Opaque), start, end)),
    }
}

/// What a sharp sign begins: a map of Erlang, or what is opaque.
fn sharp(text: &[u8], start: usize) -> Result<Token, ImportFault> {
    let next = start.saturating_add(1);
    if byte_at(text, next) == b'{' {
        return Ok(made(Sign::Open(TermKind::Map), start, next.saturating_add(1)));
    }
    angles(text, start, end_of_word(text, next))
}

/// What a percent sign begins: a map or a struct of Elixir.
fn percent(text: &[u8], start: usize) -> Token {
    let brace = end_of_word(text, start.saturating_add(1));
    made(Sign::Open(TermKind::Map), start, brace.saturating_add(1))
}

/// What a point is.
fn point(text: &[u8], start: usize) -> Result<Token, ImportFault> {
    if is_at(text, start, b"...") {
        return Err(ImportFault::At(start, Why::CutOff));
    }
    Ok(made(Sign::Stop, start, start.saturating_add(1)))
}

/// A character, as `$a`.
fn character(text: &[u8], start: usize) -> Token {
    let next = start.saturating_add(1);
    let end = if byte_at(text, next) == b'\\' {
        next.saturating_add(2)
    } else {
        next.saturating_add(1)
    };
    made(Sign::Value(TermKind::Number), start, end)
}

/// What begins at a place that is none of a blank.
fn token_at(text: &[u8], start: usize) -> Result<Token, ImportFault> {
    let next = start.saturating_add(1);
    match byte_at(text, start) {
        b'{' => Ok(made(Sign::Open(TermKind::Tuple), start, next)),
        b'[' => Ok(made(Sign::Open(TermKind::List), start, next)),
        b'}' => Ok(made(Sign::Close(TermKind::Tuple), start, next)),
        b']' => Ok(made(Sign::Close(TermKind::List), start, next)),
        b',' | b'|' => Ok(made(Sign::Comma, start, next)),
        b'.' => point(text, start),
        b'=' if byte_at(text, next) == b'>' => Ok(made(Sign::Arrow, start, next.saturating_add(1))),
        b':' => colon(text, start),
        b'"' => quoted(text, start, start, TermKind::Text),
        b'\'' => quoted(text, start, start, TermKind::Atom),
        b'~' => quoted(text, start, start.saturating_add(2), TermKind::Text),
        _ => word_at(text, start),
    }
}

/// What begins at such a place, and is no sign.
fn word_at(text: &[u8], start: usize) -> Result<Token, ImportFault> {
    match byte_at(text, start) {
        b'<' => angles(text, start, start),
        b'#' => sharp(text, start),
        b'%' => Ok(percent(text, start)),
        b'$' => Ok(character(text, start)),
        b'&' | b'?' => Ok(made(
            Sign::Value(TermKind::Opaque),
            start,
            end_of_opaque(text, start),
        )),
        b'-' | b'+' | b'0'..=b'9' => Ok(made(
            Sign::Value(TermKind::Number),
            start,
            end_of_number(text, start),
        )),
        byte if is_word_byte(byte) => Ok(word(text, start)),
        _ => Err(ImportFault::At(start, Why::Unexpected)),
    }
}

/// The next word or sign from here on; none at the end.
pub fn next_token(text: &[u8], from: usize) -> Result<Option<Token>, ImportFault> {
    let start = skip_blank(text, from);
    if start >= text.len() {
        return Ok(None);
    }
    Ok(Some(token_at(text, start)?))
}
