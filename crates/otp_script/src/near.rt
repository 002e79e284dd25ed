//! The word that was meant.

use crate::fault::{ScriptFault, Word};
use crate::read::{behind_path, verb_of};
use crate::words::{is_text, next_word};
use otp_text::strange_letter;
use std::alloc::{AllocError, Global};
use std::str::from_utf8;
use strsim::levenshtein;

/// The longest word that is compared, in bytes: none that may be written is so long.
const LONGEST: usize = 40;

/// The most changed characters of a word that is still near.
const MOST_CHANGED: usize = 2;

/// The words that a line of a script may begin with.
const OF_SCRIPTS: [Word; 18] = [
    Word::At,
    Word::Every,
    Word::Crash,
    Word::Exit,
    Word::Fail,
    Word::Ignore,
    Word::Init,
    Word::Hang,
    Word::Slow,
    Word::Expect,
    Word::Stop,
    Word::Start,
    Word::Restart,
    Word::Delete,
    Word::Terminate,
    Word::Get,
    Word::Which,
    Word::Count,
];

/// What else a person may write at the prompt.
const OF_PERSONS: [Word; 5] = [
    Word::Help,
    Word::Quit,
    Word::Status,
    Word::Undo,
    Word::Reset,
];

/// Words of other languages and programs, and what they stand for here.
const MEANINGS: [(&[u8], Word); 16] = [
    (b"kill", Word::Crash),
    (b"die", Word::Crash),
    (b"error", Word::Crash),
    (b"raise", Word::Crash),
    (b"freeze", Word::Hang),
    (b"block", Word::Hang),
    (b"assert", Word::Expect),
    (b"check", Word::Expect),
    (b"up", Word::Expect),
    (b"down", Word::Expect),
    (b"end", Word::Expect),
    (b"loop", Word::Every),
    (b"repeat", Word::Every),
    (b"shutdown", Word::Stop),
    (b"halt", Word::Stop),
    (b"list", Word::Which),
];

/// Words of other languages for a time that goes by, or is to come.
const TIMES: [&[u8]; 6] = [b"in", b"after", b"sleep", b"wait", b"delay", b"then"];

/// A word that was found near, and how many characters are changed in it.
#[derive(Clone, Copy, Debug, PartialEq, Eq)]
struct Near {
    word: Option<Word>,
    changed: usize,
}

/// The nearer of what was found and the nearest of these words.
fn nearest(alloc: Global, written: &str, words: &[Word], found: Near) -> Result<Near, AllocError> {
    let mut near = found;
    for word in words {
        let changed = levenshtein(alloc, written, word.text())?;
        if changed < near.changed {
            near = Near {
                word: Some(*word),
                changed,
            };
        }
    }
    Ok(near)
}

/// What a word of another language stands for.
fn meaning_of(written: &[u8]) -> Option<Word> {
    for (other, word) in MEANINGS {
        if other == written {
            return Some(word);
        }
    }
    None
}

/// Whether a line of a script may begin with this word.
fn is_verb(written: &[u8]) -> bool {
    OF_SCRIPTS
        .iter()
        .any(|word| word.text().as_bytes() == written)
}

/// Whether a line begins as comments of other languages do.
fn is_comment(line: &[u8]) -> bool {
    matches!(
        line.trim_ascii_start(),
        [b'/', b'/' | b'*', ..] | [b'-', b'-', ..] | [b';' | b'%', ..]
    )
}

/// Whether a word begins with a date, as `2026-11-26` does with its year and a `-`.
fn is_date(written: &[u8]) -> bool {
    match written {
        [first, second, third, fourth, b'-', ..] => first.is_ascii_digit()
            && second.is_ascii_digit()
            && third.is_ascii_digit()
            && fourth.is_ascii_digit(),
        _ => false,
    }
}

/// Whether a word says a time, where another word was wanted.
fn is_time(written: &[u8]) -> bool {
    match written.first() {
        Some(byte) if byte.is_ascii_digit() => true,
        _ => TIMES.iter().any(|word| *word == written),
    }
}

/// Whether the word that says what happens stands behind this one, or behind its path without a space.
fn is_behind(written: &[u8], rest: &[u8]) -> bool {
    let name = behind_path(written);
    if name.len() < written.len() && is_verb(name) {
        return true;
    }
    match next_word(rest) {
        Some((word, _)) => is_verb(word),
        None => false,
    }
}

/// Why a word that isn't of ASCII is none: its first letter that isn't, where that looks like one of `a-z`.
fn strange_fault(written: &[u8]) -> ScriptFault {
    match strange_letter(written) {
        Some(letter) => ScriptFault::Alike(letter),
        None => ScriptFault::StrangeLetter,
    }
}

/// Why a line begins with no word of a script, where that shows in what it begins with and in what follows.
fn fault_seen(written: &[u8], rest: &[u8]) -> Option<ScriptFault> {
    if !written.is_ascii() {
        Some(strange_fault(written))
    } else if is_date(written) {
        Some(ScriptFault::LineOfLog)
    } else if is_time(written) {
        Some(ScriptFault::TimeAlone)
    } else if let Some(word) = meaning_of(written) {
        Some(ScriptFault::Misspelt(word))
    } else if is_behind(written, rest) {
        Some(ScriptFault::WordBehind)
    } else {
        None
    }
}

/// The word that is nearest to this one, where one is near. Less than all of its characters are changed. Large letters are no
/// change.
fn word_near(alloc: Global, written: &[u8], is_person: bool) -> Result<Option<Word>, AllocError> {
    if written.len() > LONGEST {
        return Ok(None);
    }
    let mut small = Vec::from_slice(alloc, written)?;
    small.make_ascii_lowercase();
    let Ok(written) = from_utf8(small.as_slice()) else {
        return Ok(None);
    };
    let none = Near {
        word: None,
        changed: (MOST_CHANGED + 1).min(written.len()),
    };
    let near = nearest(alloc, written, &OF_SCRIPTS, none)?;
    if !is_person {
        return Ok(near.word);
    }
    Ok(nearest(alloc, written, &OF_PERSONS, near)?.word)
}

/// Whether a line has the verb `start`.
fn is_start(line: &[u8]) -> bool {
    match verb_of(line) {
        Some((verb, _)) => is_text(verb, b"start"),
        None => false,
    }
}

/// What more can be told of a fault behind the first word of a line.
fn fault_closer(line: &[u8], fault: ScriptFault) -> ScriptFault {
    match fault {
        ScriptFault::BadChild if line.contains(&b':') || line.contains(&b',') => {
            ScriptFault::SignedChild
        }
        ScriptFault::BadCall if is_start(line) => ScriptFault::BadStart,
        fault => fault,
    }
}

/// Why a line is refused that was refused so: of one that begins with no word of a line, the word that was meant, where one
/// is near.
///
/// # Errors
///
/// Where memory is refused.
pub fn meant(
    alloc: Global,
    line: &[u8],
    fault: ScriptFault,
    is_person: bool,
) -> Result<ScriptFault, AllocError> {
    if fault != ScriptFault::TooLong && from_utf8(line).is_err() {
        return Ok(ScriptFault::NotText);
    }
    if fault != ScriptFault::UnknownWord {
        return Ok(fault_closer(line, fault));
    }
    if is_comment(line) {
        return Ok(ScriptFault::OtherComment);
    }
    let Some((written, rest)) = verb_of(line) else {
        return Ok(fault);
    };
    if let Some(seen) = fault_seen(written, rest) {
        return Ok(seen);
    }
    match word_near(alloc, written, is_person)? {
        Some(word) => Ok(ScriptFault::Misspelt(word)),
        None => Ok(fault),
    }
}
