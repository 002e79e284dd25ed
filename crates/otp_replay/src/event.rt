//! What a line of a log says happened.

ghost use Rattle.std.specs.Prelude.{◌≡◌, ◌<◌, ◌&&◌, ◌||◌, ◌==◌, IfSome, length, position};
ghost use Rattle.std.specs.Str.{bytes_eq};
ghost use Rattle.std.specs.List.{list_all};
ghost use Rattle.otp_replay.specs.Words.{is_empty};
ghost use Rattle.otp_replay.specs.Events.{ids_of, is_child, is_id, is_reason, said_by, said_if, said_in};

use crate::words::{behind, is_empty, rest_of, strip, word_of};
use otp_text::{read_name, read_reason};

/// What words say happened.
#[derive(Clone, Copy, Debug, PartialEq, Eq)]
pub enum Said {
    /// Nothing that can be played.
    Unknown,
    /// What a script says by the same words.
    AsInScripts,
    /// That a child is up, which a script expects.
    IsUp,
}

/// Whether a word is a child's id.
fn is_id(word: &[u8]) -> bool
    ensures { result ≡ is_id word.now }
{
    read_name(word).is_some()
}

/// Whether a word is a reason.
fn is_reason(word: &[u8]) -> bool
    ensures { result ≡ is_reason word.now }
{
    read_reason(word).is_some()
}

/// The place of the first `/`.
fn first_slash(word: &[u8]) -> Option<usize>
    ensures place { result ≡ position (λ byte. byte == 47) word.now }
    ensures inside { IfSome result (λ place. place < length word.now) }
{
    word.iter().position(|byte| *byte == b'/')
}

/// Whether ids stand there, with a `/` between them.
fn are_ids(word: &[u8]) -> bool
    ensures { result ≡ list_all is_id (ids_of word.now) }
{
    match first_slash(word) {
        None => is_id(word),
        Some(place) => is_id(&word[..place]) && are_ids(behind(word, place)),
    }
}

/// Whether a word is a child, as pool/worker.
#[tactic(auto, unfolding(crate::specs::Events::is_child))]
pub(crate) fn is_child(word: &[u8]) -> bool
    ensures { result ≡ is_child word.now }
{
    are_ids(word)
}

/// Whether two texts are the same.
pub(crate) fn is_text(one: &[u8], other: &[u8]) -> bool
    ensures { result ≡ bytes_eq one.now other.now }
{
    one == other
}

#[tactic(auto, unfolding(crate::specs::Events::said_if))]
fn said_if(holds: bool, said: Said) -> Said
    ensures { result ≡ said_if holds said }
{
    if holds { said } else { Said::Unknown }
}

/// Whether a reason stands there, or nothing.
fn is_reason_or_none(word: &[u8]) -> bool
    ensures { result ≡ (is_empty word.now || is_reason word.now) }
{
    is_empty(word) || is_reason(word)
}

/// What these words say.
#[tactic(auto, unfolding(crate::specs::Events::said_by))]
fn said_by(verb: &[u8], child: &[u8], reason: &[u8]) -> Said
    ensures { result ≡ said_by verb.now child.now reason.now }
{
    if is_text(verb, b"crash") {
        said_if(
            is_child(child) && is_reason_or_none(reason),
            Said::AsInScripts,
        )
    } else if is_text(verb, b"exit") {
        said_if(is_child(child) && is_reason(reason), Said::AsInScripts)
    } else if is_text(verb, b"up") {
        said_if(is_child(child) && is_empty(reason), Said::IsUp)
    } else if is_text(verb, b"stop") {
        said_if(is_empty(child), Said::AsInScripts)
    } else {
        Said::Unknown
    }
}

/// What a line says from its first word on.
#[tactic(auto, unfolding(crate::specs::Events::said_in))]
pub(crate) fn read_said(line: &[u8]) -> Said
    ensures { result ≡ said_in line.now }
{
    let second = strip(rest_of(line));
    let third = strip(rest_of(second));
    if is_empty(strip(rest_of(third))) {
        said_by(word_of(line), word_of(second), word_of(third))
    } else {
        Said::Unknown
    }
}
