//! What a file looks like that stands where another is wanted.

use otp_script::{Action, next_word, read_step, strip_return};

/// The first line that says something.
fn first_line(text: &[u8]) -> Option<&[u8]> {
    for line in text.split(|byte| *byte == b'\n') {
        let line = strip_return(line);
        if says_something(line) {
            return Some(line);
        }
    }
    None
}

/// Whether a line has a word, and is no comment.
fn says_something(line: &[u8]) -> bool {
    match next_word(line) {
        None => false,
        Some((word, _)) => !word.starts_with(b"#"),
    }
}

/// Whether a line looks as one of TOML does: it begins a table, or gives a key its value.
fn is_of_tree(line: &[u8]) -> bool {
    let Some((word, rest)) = next_word(line) else {
        return false;
    };
    let is_given = match next_word(rest) {
        None => false,
        Some((next, _)) => next.starts_with(b"="),
    };
    is_given || word.starts_with(b"[") || word.contains(&b'=')
}

/// Whether a line is read as one of a script that says something.
fn is_of_script(line: &[u8]) -> bool {
    match read_step(line) {
        Ok(step) => !matches!(step.action, Action::Nothing),
        Err(_) => false,
    }
}

/// Whether a word begins with a date, as `2026-11-26`, up to its first `-`.
fn is_date(word: &[u8]) -> bool {
    match word {
        [first, second, third, fourth, b'-', ..] => first.is_ascii_digit()
            && second.is_ascii_digit()
            && third.is_ascii_digit()
            && fourth.is_ascii_digit(),
        _ => false,
    }
}

/// Whether words say what happened to a child, as in a log.
fn is_told(words: &[u8]) -> bool {
    match next_word(words) {
        None => false,
        Some((word, _)) => matches!(word, b"crash" | b"exit" | b"up" | b"stop"),
    }
}

/// Whether a line begins as one of a log: with a date, or with seconds and what happened.
fn is_of_log(line: &[u8]) -> bool {
    match next_word(line) {
        None => false,
        Some((word, rest)) => is_date(word) || (word[0].is_ascii_digit() && is_told(rest)),
    }
}

/// Whether a line is the header of a child, or gives a flag its value: no line of a log is so.
fn is_of_tree_alone(line: &[u8]) -> bool {
    match next_word(line) {
        None => false,
        Some((word, _)) => match word {
            b"[[child]]" => true,
            b"strategy" | b"intensity" | b"period" | b"auto_shutdown" => is_of_tree(line),
            _ => false,
        },
    }
}

/// Whether a tree file begins as a log does.
pub(crate) fn is_log(file: &[u8]) -> bool {
    match first_line(file) {
        None => false,
        Some(line) => is_of_log(line) && !is_of_tree(line),
    }
}

/// Whether a log begins as a tree file does.
pub(crate) fn is_tree_for_log(log: &[u8]) -> bool {
    match first_line(log) {
        None => false,
        Some(line) => is_of_tree_alone(line),
    }
}

/// Whether a script begins as a tree file does.
pub(crate) fn is_tree(script: &[u8]) -> bool {
    match first_line(script) {
        None => false,
        Some(line) => is_of_tree(line) && !is_of_script(line),
    }
}

/// Whether a tree file begins as a script does.
pub(crate) fn is_script(file: &[u8]) -> bool {
    match first_line(file) {
        None => false,
        Some(line) => is_of_script(line) && !is_of_tree(line),
    }
}
