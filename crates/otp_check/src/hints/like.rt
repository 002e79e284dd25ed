//! What a file that is no tree file may be.

/// What a file is that begins or goes on so, and what to do.
pub(crate) fn what_looks_like(file: &[u8]) -> &'static str {
    if ends_lines_with_cr(file) {
        "; lines end with CR alone; save the file with LF"
    } else if first_byte(file) == Some(b'<') {
        "; this looks like XML; a tree file is TOML: KEY = VALUE, a line each, and [[child]] before each child"
    } else if has_text(file, b"[Unit]") || has_text(file, b"ExecStart=") {
        "; this looks like a unit of systemd: otp import FILE makes a tree file of it"
    } else if has_text(file, b"[program:") || has_text(file, b"[supervisord]") {
        "; this looks like a file of supervisord: otp import FILE makes a tree file of it"
    } else if is_script(file) {
        "; this looks like a script, which stands behind the tree file: otp try FILE SCRIPT"
    } else if is_log(first_line(file)) {
        "; this looks like a log, which stands behind the tree file: otp replay FILE LOG"
    } else {
        ""
    }
}

/// Whether lines end with CR alone: there are some, and no LF.
fn ends_lines_with_cr(file: &[u8]) -> bool {
    file.contains(&b'\r') && !file.contains(&b'\n')
}

/// The first byte that is no space.
fn first_byte(file: &[u8]) -> Option<u8> {
    file.trim_ascii_start().first().copied()
}

/// Whether a text stands somewhere in a file.
fn has_text(file: &[u8], text: &[u8]) -> bool {
    let mut rest = file;
    for _ in 0..file.len() {
        if rest.starts_with(text) {
            return true;
        }
        rest = match rest {
            [_, others @ ..] => others,
            [] => return false,
        };
    }
    false
}

/// What stands on the first line that says something.
fn first_line(file: &[u8]) -> &[u8] {
    let mut rest = file.trim_ascii_start();
    for _ in 0..file.len() {
        if !rest.starts_with(b"#") {
            return line_of(rest);
        }
        rest = behind_line(rest).trim_ascii_start();
    }
    b""
}

/// A text up to the end of its first line.
fn line_of(text: &[u8]) -> &[u8] {
    match text.iter().position(|byte| *byte == b'\n') {
        Some(end) => text.get(..end).unwrap_or(text),
        None => text,
    }
}

/// A text behind its first line.
fn behind_line(text: &[u8]) -> &[u8] {
    match text.iter().position(|byte| *byte == b'\n') {
        Some(end) => text.get(end.saturating_add(1)..).unwrap_or(b""),
        None => b"",
    }
}

/// Whether the first line is one of a script.
fn is_script(file: &[u8]) -> bool {
    let line = first_line(file);
    if line.contains(&b'=') {
        return false;
    }
    let words: [&[u8]; 9] = [
        b"at ", b"crash ", b"every ", b"exit ", b"expect ", b"fail ", b"hang ", b"slow ", b"+",
    ];
    words.iter().any(|word| line.starts_with(word))
}

/// Whether a line begins as one of a log: with a date, or with seconds and what happened.
fn is_log(line: &[u8]) -> bool {
    match line {
        [b'=', ..] => has_text(line, b" REPORT==== "),
        [
            b'0'..=b'9',
            b'0'..=b'9',
            b'0'..=b'9',
            b'0'..=b'9',
            b'-',
            b'0'..=b'9',
            b'0'..=b'9',
            b'-',
            ..
        ] => true,
        [b'0'..=b'9', ..] => is_told(line),
        _ => false,
    }
}

/// Whether a line tells what happened to a child.
fn is_told(line: &[u8]) -> bool {
    let words: [&[u8]; 4] = [b" crash ", b" exit ", b" up ", b" stop"];
    words.iter().any(|word| has_text(line, word))
}
