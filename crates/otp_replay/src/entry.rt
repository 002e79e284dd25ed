//! A line of a log.

ghost use Rattle.std.specs.Prelude.{◌≡◌, IfOk};
ghost use Rattle.std.specs.Option.{option_map};
ghost use Rattle.otp_replay.specs.Logs.{entry_by, entry_in, entry_of, other_entry};

use crate::event::{Said, read_said};
use crate::near::{Miss, find_miss};
use crate::stamp::{Stamp, read_stamp};
use crate::words::{is_empty, strip};
use std::alloc::AllocError;

/// The most bytes of a line that is played: with a time before it and its own timestamp behind it, it is still a line of a script.
pub const LONGEST_ENTRY: usize = 470;

/// A line of a log.
#[derive(Clone, Copy, Debug, PartialEq, Eq)]
pub enum Entry {
    /// It has no word.
    Silent,
    /// It has no timestamp, or says nothing that can be played.
    Other,
    /// It has no timestamp, or says nothing that can be played, though it looks as if it did.
    Near(Miss),
    /// At this time something happened, which the words from this place on say: a script has the same words, with `expect` before
    /// them where the line says that a child is up.
    Event(Stamp, bool, usize),
}

/// A line that isn't played, for this, if it looks as if it could be.
#[tactic(auto, unfolding(crate::specs::Logs::other_entry))]
fn other_entry(miss: Option<Miss>) -> Entry
    ensures { result ≡ other_entry miss }
{
    match miss {
        None => Entry::Other,
        Some(miss) => Entry::Near(miss),
    }
}

/// A line that begins with this timestamp, behind which these words stand from this place on.
#[tactic(auto, unfolding(crate::specs::Logs::entry_by))]
fn entry_by(said: Said, stamp: Stamp, place: usize, line: &[u8], words: &[u8]) -> Entry
    ensures { result ≡ entry_by said stamp place line.now words.now }
{
    match said {
        Said::Unknown => other_entry(find_miss(line, Some(words))),
        Said::AsInScripts => Entry::Event(stamp, false, place),
        Said::IsUp => Entry::Event(stamp, true, place),
    }
}

/// A line that from its first word on is this, and begins with a timestamp, if one was found, and goes on so.
#[tactic(auto, unfolding(crate::specs::Logs::entry_of))]
fn entry_of(line: &[u8], stripped: &[u8], found: Option<(Stamp, &[u8])>) -> Entry
    ensures { result ≡ entry_of line.now stripped.now (option_map (λ found. (found.0, found.1.now)) found.entry) }
{
    match found {
        None => other_entry(find_miss(stripped, None)),
        Some((stamp, rest)) => {
            let words = strip(rest);
            entry_by(
                read_said(words),
                stamp,
                line.len().saturating_sub(words.len()),
                stripped,
                words,
            )
        }
    }
}

/// What a line of a log is. The word is a place for a text.
#[tactic(auto, unfolding(crate::specs::Logs::entry_in))]
pub(crate) fn read_entry(line: &[u8], word: &mut Vec<u8>) -> Result<Entry, AllocError>
    ensures { IfOk result (λ entry. entry ≡ entry_in line.now) }
{
    if line.len() > LONGEST_ENTRY {
        return Ok(Entry::Other);
    }
    let stripped = strip(line);
    if is_empty(stripped) {
        return Ok(Entry::Silent);
    }
    let found = read_stamp(stripped, word)?;
    Ok(entry_of(line, stripped, found))
}
