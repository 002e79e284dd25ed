//! Lines of a log that look as if they said what happened, and aren't played.

ghost use Rattle.std.specs.Prelude.{◌≡◌, true};
ghost use Rattle.std.specs.Option.{option_map};
ghost use Rattle.std.specs.Str.{str_eq_ignore_ascii_case};
ghost use Rattle.otp_replay.specs.Nears.{is_verb, looks_so, miss_in, miss_of, miss_text, near_in};

use crate::event::{is_child, is_text};
use crate::words::{is_empty, is_space, rest_of, strip, word_of};

/// Why a line isn't played that looks as if it said what happened.
#[derive(Clone, Copy, Debug, PartialEq, Eq)]
pub enum Miss {
    /// No time stands at its beginning.
    Time,
    /// Other words stand between that and what happened.
    Between,
    /// The word for what happened has great letters.
    Letters,
    /// Behind it stands no child.
    Child,
    /// Behind that stands no reason, or more than one word.
    Reason,
}

impl Miss {
    /// Why the line isn't played, in words.
    #[tactic(auto, unfolding(crate::specs::Nears::miss_text))]
    pub fn text(self) -> &'static str
        ensures { result.now ≡ miss_text self }
    {
        match self {
            Miss::Time => "not a time; write seconds as 12.250, or 2026-11-26T20:49:00.125Z",
            Miss::Between => "other words stand between the time and what happened",
            Miss::Letters => "crash, exit, stop and up have small letters",
            Miss::Child => "not a child; write an id, or ids with a / between them",
            Miss::Reason => {
                "not a reason; write normal, shutdown, kill, killed, noproc, shutdown:T or error:T"
            }
        }
    }
}

/// Whether a word is this text, in letters of any size.
fn is_word(word: &[u8], text: &[u8]) -> bool
    ensures { result ≡ str_eq_ignore_ascii_case word.now text.now }
{
    word.eq_ignore_ascii_case(text)
}

/// Whether a word says what happened, in its own letters.
#[tactic(auto, unfolding(crate::specs::Nears::is_verb))]
fn is_verb(word: &[u8]) -> bool
    ensures { result ≡ is_verb word.now }
{
    is_text(word, b"crash")
        || is_text(word, b"exit")
        || is_text(word, b"up")
        || is_text(word, b"stop")
}

/// Whether words look so from their first one on.
#[tactic(auto, unfolding(crate::specs::Nears::looks_so))]
fn looks_so(line: &[u8]) -> bool
    ensures { result ≡ looks_so line.now }
{
    let verb = word_of(line);
    let second = strip(rest_of(line));
    let third = strip(rest_of(second));
    if is_word(verb, b"crash") {
        !is_empty(second)
    } else if is_word(verb, b"exit") {
        !is_empty(third)
    } else if is_word(verb, b"up") {
        !is_empty(second) && is_empty(third)
    } else if is_word(verb, b"stop") {
        is_empty(second)
    } else {
        false
    }
}

/// The line from the first word on from which it looks so. It begins with a word.
fn find_near(line: &[u8]) -> Option<&[u8]>
    ensures { option_map (λ near. near.now) result ≡ near_in true line.now }
{
    let mut begins = true;
    for place in 0..line.len() {
        if begins && looks_so(&line[place..]) {
            return Some(&line[place..]);
        }
        begins = is_space(line[place]);
    }
    None
}

/// Why such words are not what happened, which stand behind a time.
#[tactic(auto, unfolding(crate::specs::Nears::miss_in))]
fn miss_in(line: &[u8]) -> Miss
    ensures { result ≡ miss_in line.now }
{
    if !is_verb(word_of(line)) {
        Miss::Letters
    } else if is_child(word_of(strip(rest_of(line)))) {
        Miss::Reason
    } else {
        Miss::Child
    }
}

/// Why a line isn't played that looks so from there on, of which these words stand behind the time, if it has one.
#[tactic(auto, unfolding(crate::specs::Nears::miss_of))]
fn miss_of(words: Option<&[u8]>, near: &[u8]) -> Miss
    ensures { result ≡ miss_of (option_map (λ words. words.now) words.entry) near.now }
{
    match words {
        None => Miss::Time,
        Some(words) => {
            if words.len() == near.len() {
                miss_in(near)
            } else {
                Miss::Between
            }
        }
    }
}

/// Why a line isn't played, if it looks so somewhere. It begins with a word; these stand behind its time, if it has one.
pub(crate) fn find_miss(line: &[u8], words: Option<&[u8]>) -> Option<Miss>
    ensures { result ≡ option_map (λ near. miss_of (option_map (λ words. words.now) words.entry) near) (near_in true line.now) }
{
    match find_near(line) {
        None => None,
        Some(near) => Some(miss_of(words, near)),
    }
}
