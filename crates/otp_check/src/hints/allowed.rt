//! What the keys of a tree file may have. Keys, words and limits are those of `otp_file` and `otp_spec`.

use otp_file::{ChildKey, FlagKey};
use otp_spec::{
    AutoShutdown, ChildType, MAX_INTENSITY, MAX_PERIOD, MAX_SHUTDOWN, Modules, Restart, Shutdown,
    Strategy,
};
use otp_text::write_number;
use std::alloc::{AllocError, Global};

/// The keys of a supervisor, in the order in which they are told.
const FLAG_KEYS: [FlagKey; 5] = [
    FlagKey::Strategy,
    FlagKey::Intensity,
    FlagKey::Period,
    FlagKey::AutoShutdown,
    FlagKey::Child,
];

/// The keys of a child, in the order in which they are told.
const CHILD_KEYS: [ChildKey; 8] = [
    ChildKey::Id,
    ChildKey::Start,
    ChildKey::Restart,
    ChildKey::Significant,
    ChildKey::Shutdown,
    ChildKey::Kind,
    ChildKey::Modules,
    ChildKey::Tree,
];

/// A key of a table of a tree file.
#[derive(Clone, Copy, Debug, PartialEq, Eq)]
pub enum Key {
    /// Of a supervisor's table.
    Flag(FlagKey),
    /// Of a child's table.
    Child(ChildKey),
}

impl Key {
    /// The key as the file has it.
    pub fn name(self) -> &'static str {
        match self {
            Key::Flag(key) => key.name(),
            Key::Child(key) => key.name(),
        }
    }

    /// The key of a supervisor that is written so.
    pub fn of_flag(text: &str) -> Option<Key> {
        let key = FLAG_KEYS.iter().find(|key| key.name() == text)?;
        Some(Key::Flag(*key))
    }

    /// The key of a child that is written so.
    pub fn of_child(text: &str) -> Option<Key> {
        let key = CHILD_KEYS.iter().find(|key| key.name() == text)?;
        Some(Key::Child(*key))
    }
}

/// The keys of a supervisor, as the file has them.
pub fn flag_keys() -> [&'static str; 5] {
    FLAG_KEYS.map(|key| key.name())
}

/// The keys of a child, as the file has them.
pub fn child_keys() -> [&'static str; 8] {
    CHILD_KEYS.map(|key| key.name())
}

/// Those of these values that have a word.
fn words_of(
    alloc: Global,
    values: &[Option<&'static str>],
) -> Result<Vec<&'static str>, AllocError> {
    let mut words = Vec::new(alloc);
    for value in values {
        if let Some(word) = value {
            words.push(*word).map_err(|_| AllocError)?;
        }
    }
    Ok(words)
}

/// The words that a key may have.
pub fn words_at(alloc: Global, key: Key) -> Result<Vec<&'static str>, AllocError> {
    match key {
        Key::Flag(FlagKey::Strategy) => {
            Vec::from_slice(alloc, &Strategy::all().map(|strategy| strategy.word()))
        }
        Key::Flag(FlagKey::AutoShutdown) => {
            Vec::from_slice(alloc, &AutoShutdown::all().map(|shutdown| shutdown.word()))
        }
        Key::Child(ChildKey::Restart) => {
            Vec::from_slice(alloc, &Restart::all().map(|restart| restart.word()))
        }
        Key::Child(ChildKey::Shutdown) => words_of(
            alloc,
            &[Shutdown::BrutalKill.word(), Shutdown::Infinity.word()],
        ),
        Key::Child(ChildKey::Kind) => {
            Vec::from_slice(alloc, &ChildType::all().map(|kind| kind.word()))
        }
        Key::Child(ChildKey::Modules) => words_of(alloc, &[Modules::Dynamic.word()]),
        _ => Ok(Vec::new(alloc)),
    }
}

/// Appends words as texts of a file, with commas between.
fn write_words(words: &[&'static str], out: &mut Vec<u8>) -> Result<(), AllocError> {
    let mut before: &[u8] = b"\"";
    for word in words {
        out.extend_from_slice(before)?;
        out.extend_from_slice(word.as_bytes())?;
        out.extend_from_slice(b"\"")?;
        before = b", \"";
    }
    Ok(())
}

/// Appends which numbers are allowed.
fn write_range(least: u64, most: u64, unit: &[u8], out: &mut Vec<u8>) -> Result<(), AllocError> {
    out.extend_from_slice(b"a whole number, ")?;
    write_number(least, out)?;
    out.extend_from_slice(b" to ")?;
    write_number(most, out)?;
    out.extend_from_slice(unit)
}

/// Appends what a key may have whose words are these.
pub fn write_allowed(
    key: Key,
    words: &[&'static str],
    out: &mut Vec<u8>,
) -> Result<(), AllocError> {
    match key {
        Key::Flag(FlagKey::Intensity) => write_range(0, MAX_INTENSITY, b"", out),
        Key::Flag(FlagKey::Period) => write_range(1, MAX_PERIOD, b" (seconds)", out),
        Key::Child(ChildKey::Shutdown) => {
            write_range(0, MAX_SHUTDOWN, b" (milliseconds), ", out)?;
            write_words(words, out)
        }
        Key::Child(ChildKey::Modules) => {
            out.extend_from_slice(b"an array of at most 4 names, or ")?;
            write_words(words, out)
        }
        Key::Flag(FlagKey::Child) => out.extend_from_slice(b"an array of tables, each [[child]]"),
        Key::Child(ChildKey::Id | ChildKey::Start) => out.extend_from_slice(
            b"a name: 1 to 32 bytes of a-z A-Z 0-9 _ - .",
        ),
        Key::Child(ChildKey::Significant) => out.extend_from_slice(b"true, false"),
        Key::Child(ChildKey::Tree) => out.extend_from_slice(
            b"a table, which says a supervisor of its own",
        ),
        Key::Flag(FlagKey::Strategy | FlagKey::AutoShutdown)
        | Key::Child(ChildKey::Restart | ChildKey::Kind) => write_words(words, out),
    }
}
