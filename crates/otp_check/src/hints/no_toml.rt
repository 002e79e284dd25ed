//! What to do about a text that is no TOML document.

use crate::hints::like::what_looks_like;

/// What is said of a text that is another language, or an older one.
const KEYS_AND_VALUES: &str = "; write KEY = VALUE, a line each, and [[child]] before each child";

const LIKE_JSON: &str =
    "; this looks like JSON; a tree file is TOML: KEY = VALUE, a line each, and [[child]] before each child";

const LIKE_ERLANG: &str = "; this looks like Erlang: otp import FILE makes a tree file of a term";

const LIKE_YAML: &str =
    "; write = where YAML writes :, a KEY = VALUE a line, and [[child]] before each child";

const COMMENT: &str = "; a comment begins with #";

const UNITS: &str =
    "; a number stands without a unit: period is in seconds, shutdown in milliseconds";

/// What to do about a text that is no document, where that can be told from why, and from the text and what is left of it
/// where it is none.
pub fn what_no_toml(message: &str, file: &[u8], rest: &[u8]) -> &'static str {
    match (what_looks_like(file), what_letter(rest)) {
        ("", "") => what_else(message, file, rest),
        ("", what) => what,
        (what, _) => what,
    }
}

/// What to do about a letter that has no place in a document.
fn what_letter(rest: &[u8]) -> &'static str {
    match rest {
        [0, ..] => "; a zero byte stands here; save the file as UTF-8, without zero bytes",
        [0x1b, ..] => "; an escape character (0x1B) stands here; take it out",
        [b'\t' | b'\n' | b'\r', ..] => "",
        [byte, ..] if byte.is_ascii_control() => "; a control character stands here; take it out",
        // The four curly quotes.
        [0xe2, 0x80, 0x98 | 0x99 | 0x9c | 0x9d, ..] => "; write straight quotes, as in \"a\"",
        _ => "",
    }
}

/// What to do, by why the text is no document.
fn what_else(message: &str, file: &[u8], rest: &[u8]) -> &'static str {
    if is_comment(rest) {
        return COMMENT;
    }
    match message {
        "invalid UTF-8" => what_bytes(file),
        "invalid string" => what_string(file, rest),
        "invalid escape sequence" =>
            "; in \"..\" write \\\\ for one \\, or put the text between '..'",
        "duplicate key" => what_twice(rest),
        "number out of range" => "; no key of a tree file takes so large a number",
        "invalid date-time" => UNITS,
        "cannot recurse further; max recursion depth met" =>
            "; supervisors are nested at most 16 deep",
        _ => what_syntax(message, file, rest),
    }
}

/// What to do, by how the message begins that says why the text is no document.
fn what_syntax(message: &str, file: &[u8], rest: &[u8]) -> &'static str {
    if message.starts_with("invalid value") || message.starts_with("`_` may only") {
        what_value(rest)
    } else if message.starts_with("invalid key") {
        what_key(file, rest)
    } else if message.starts_with("key with no value") {
        what_pair(rest)
    } else if message.starts_with("unexpected key or value") {
        what_behind(rest)
    } else if message.starts_with("unclosed array table") {
        "; the header of a child is [[child]]"
    } else if message.starts_with("unclosed table") {
        "; a header stands between brackets: [child.tree], or [[child]] before each child"
    } else if message.starts_with("missing comma between array") {
        "; put a comma between two values, and ] behind the last"
    } else if message.starts_with("missing comma between key") {
        "; put a comma between two keys, and } behind the last value"
    } else {
        ""
    }
}

/// Whether a comment of another language comes next.
fn is_comment(rest: &[u8]) -> bool {
    matches!(rest, [b'%', ..] | [b'/', b'/' | b'*', ..])
}

/// What to do about bytes that are no UTF-8.
fn what_bytes(file: &[u8]) -> &'static str {
    match file {
        [0xff, 0xfe, ..] | [0xfe, 0xff, ..] => "; this looks like UTF-16; save the file as UTF-8",
        _ => "; save the file as UTF-8",
    }
}

/// The line at the end of these bytes.
fn last_line(text: &[u8]) -> &[u8] {
    match text.iter().rposition(|byte| *byte == b'\n') {
        Some(end) => text.get(end.saturating_add(1)..).unwrap_or(text),
        None => text,
    }
}

/// The quote with which a text begins on the line that ends where the rest begins, and which isn't the one that it ends with.
fn other_quote(file: &[u8], rest: &[u8]) -> Option<u8> {
    let read = file.get(..file.len().saturating_sub(rest.len()))?;
    let line = last_line(read).trim_ascii_end();
    let begun = line.iter().find(|byte| matches!(byte, b'\'' | b'"'))?;
    match (begun, line.last()?) {
        (b'\'', b'"') => Some(b'\''),
        (b'"', b'\'') => Some(b'"'),
        _ => None,
    }
}

/// What to do about a text that can't go on here.
fn what_string(file: &[u8], rest: &[u8]) -> &'static str {
    match other_quote(file, rest) {
        Some(b'"') => return "; the text begins with \" and has to end with it",
        Some(_) => return "; the text begins with ' and has to end with it",
        None => {}
    }
    match rest {
        [] => "; a text ends with the quote that it begins with",
        [b'\n', ..] | [b'\r', b'\n', ..] => "; a text stands between two quotes, on one line",
        _ => "",
    }
}

/// What to do about a key or a table that is there already.
fn what_twice(rest: &[u8]) -> &'static str {
    if rest.starts_with(b"[[") {
        "; write [[child]] before each child, before the first too"
    } else if rest.starts_with(b"[child]") {
        "; each child begins with [[child]], in two brackets"
    } else if rest.starts_with(b"[") {
        "; a table has one header; each child begins with [[child]]"
    } else {
        "; a key stands once in its table; each child begins with [[child]]"
    }
}

/// What to do about what should be a value.
fn what_value(rest: &[u8]) -> &'static str {
    match rest {
        [] | [b'\n' | b'\r' | b'#', ..] => "; a value is missing behind the =",
        [b'>', ..] => "; write = where Erlang writes =>",
        [b'<', b'<', ..] => LIKE_ERLANG,
        [b'0', b'0'..=b'9', ..] => "; a number has no zeros in front",
        [b'0'..=b'9', ..] if has_on_line(rest, b'_') => "; leave out the _",
        [b'0'..=b'9', ..] => UNITS,
        [b'=', ..] => "; write one = between key and value",
        [b'$', ..] => "; no variable is filled in here; write its value",
        [b':', ..] => "; a word stands between quotes, without the colon",
        [byte, ..] if byte.is_ascii_alphabetic() => {
            "; a word stands between quotes, but for true and false"
        }
        _ => "",
    }
}

/// What to do about what should be a key.
fn what_key(file: &[u8], rest: &[u8]) -> &'static str {
    match rest {
        [b';', ..] => COMMENT,
        [b'{' | b'}' | b'[' | b']' | b'(' | b')', ..] => what_language(file),
        [b'<', ..] => KEYS_AND_VALUES,
        [b'=', ..] => "; a key stands before the =",
        [b',', ..] => "; no comma stands between lines",
        _ => "",
    }
}

/// What to say of brackets that TOML doesn't have there.
fn what_language(file: &[u8]) -> &'static str {
    if has_pair(file, b'"', b':') {
        LIKE_JSON
    } else {
        LIKE_ERLANG
    }
}

/// Whether these two bytes stand next to each other.
fn has_pair(file: &[u8], first: u8, second: u8) -> bool {
    let mut last = 0;
    for byte in file {
        if last == first && *byte == second {
            return true;
        }
        last = *byte;
    }
    false
}

/// Whether this byte stands on the line that comes next.
fn has_on_line(rest: &[u8], wanted: u8) -> bool {
    for byte in rest {
        if *byte == b'\n' {
            return false;
        }
        if *byte == wanted {
            return true;
        }
    }
    false
}

/// What to do about a key behind which no `=` stands.
fn what_pair(rest: &[u8]) -> &'static str {
    match rest {
        [b'(', ..] => LIKE_ERLANG,
        [b':', b' ' | b'\n' | b'\r', ..] | [b':'] => LIKE_YAML,
        _ => KEYS_AND_VALUES,
    }
}

/// What to do about what stands behind a value.
fn what_behind(rest: &[u8]) -> &'static str {
    match rest {
        [b',' | b';', ..] => "; leave it out: nothing but a comment stands behind a value",
        [b'.', ..] => "; leave out the point: nothing but a comment stands behind a value",
        [byte, ..] if byte.is_ascii_alphabetic() && !has_on_line(rest, b'=') => UNITS,
        _ => "; each key stands on a line of its own",
    }
}

/// What to say of a document in which nothing stands.
pub fn what_nothing(file: &[u8]) -> &'static str {
    if has_pair(file, b'#', b'{') || has_pair(file, b'=', b'>') {
        "warning: nothing stands in it: # begins a comment, so a map of Erlang is one; otp import FILE makes a tree file of a term"
    } else {
        "warning: nothing stands in it, which is a supervisor with no children"
    }
}
