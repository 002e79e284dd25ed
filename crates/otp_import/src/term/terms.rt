//! A term as a list of its parts: each before those that it has itself.

use std::alloc::{AllocError, Global};

/// What a part of a term is.
#[derive(Clone, Copy, Debug, PartialEq, Eq)]
pub enum TermKind {
    Tuple,
    List,
    Map,
    Atom,
    Text,
    Number,
    /// A process, a reference, a fun or a binary: what it is isn't looked at.
    Opaque,
}

/// A part of a term.
#[derive(Clone, Copy, Debug, PartialEq, Eq)]
pub struct Part {
    pub kind: TermKind,
    /// The place of its first byte in the text.
    pub start: usize,
    /// The place behind its last byte.
    pub end: usize,
    /// The number of the part that it is of; its own where it is of none.
    pub whole: usize,
    /// The number behind that of the last part that it has.
    pub last: usize,
}

/// A key and its value, by their numbers.
#[derive(Clone, Copy, Debug, PartialEq, Eq)]
pub struct Entry {
    pub key: usize,
    pub value: usize,
}

/// The parts of terms, by their numbers from 0.
#[derive(Drop)]
pub struct Terms {
    parts: Vec<Part>,
}

impl Terms {
    /// None yet.
    pub fn new(alloc: Global) -> Self {
        Terms {
            parts: Vec::new(alloc),
        }
    }

    /// How many there are.
    pub fn len(&self) -> usize {
        self.parts.len()
    }

    /// A part by its number.
    pub fn part(&self, number: usize) -> Option<Part> {
        match self.parts.get(number) {
            Some(part) => Some(*part),
            None => None,
        }
    }

    /// Another part, of the one with this number, if of one.
    pub fn add(
        &mut self,
        kind: TermKind,
        start: usize,
        end: usize,
        whole: Option<usize>,
    ) -> Result<usize, AllocError> {
        let number = self.parts.len();
        let part = Part {
            kind,
            start,
            end,
            whole: whole.unwrap_or(number),
            last: number.saturating_add(1),
        };
        self.parts.push(part).map_err(|_| AllocError)?;
        Ok(number)
    }

    /// Notes that a part ends here, with all parts that there are.
    pub fn close(&mut self, number: usize, end: usize) {
        let last = self.parts.len();
        if let Some(part) = self.parts.get_mut(number) {
            part.end = end;
            part.last = last;
        }
    }

    /// The place of a part's first byte.
    pub fn start(&self, number: usize) -> usize {
        match self.part(number) {
            Some(part) => part.start,
            None => 0,
        }
    }

    /// The number behind that of the last part that this one has.
    pub fn last(&self, number: usize) -> usize {
        match self.part(number) {
            Some(part) => part.last,
            None => 0,
        }
    }

    /// Whether the part is of this kind.
    pub fn is_kind(&self, number: usize, kind: TermKind) -> bool {
        match self.part(number) {
            Some(part) => part.kind == kind,
            None => false,
        }
    }

    /// Whether the second part is one that the first has itself.
    pub fn has(&self, whole: usize, number: usize) -> bool {
        match self.part(number) {
            Some(part) => part.whole == whole && number != whole,
            None => false,
        }
    }

    /// The part at this place of another, from 0.
    pub fn nth(&self, whole: usize, index: usize) -> Option<usize> {
        let mut left = index;
        for number in whole.saturating_add(1)..self.last(whole) {
            if self.has(whole, number) {
                if left == 0 {
                    return Some(number);
                }
                left = left.saturating_sub(1);
            }
        }
        None
    }

    /// How many parts it has.
    pub fn count(&self, whole: usize) -> usize {
        let mut count: usize = 0;
        for number in whole.saturating_add(1)..self.last(whole) {
            if self.has(whole, number) {
                count = count.saturating_add(1);
            }
        }
        count
    }

    /// The keys and values of a map, or of a list of such pairs.
    pub fn entries(&self, alloc: Global, whole: usize) -> Result<Vec<Entry>, AllocError> {
        let mut entries = Vec::new(alloc);
        let is_map = self.is_kind(whole, TermKind::Map);
        let mut key = None;
        for number in whole.saturating_add(1)..self.last(whole) {
            if self.has(whole, number) {
                let (entry, next) = if is_map {
                    self.in_map(key, number)
                } else {
                    (self.in_list(number), None)
                };
                key = next;
                if let Some(entry) = entry {
                    entries.push(entry).map_err(|_| AllocError)?;
                }
            }
        }
        Ok(entries)
    }

    /// The entry of a map that a part ends, and the key that waits for its value then.
    fn in_map(&self, key: Option<usize>, number: usize) -> (Option<Entry>, Option<usize>) {
        match key {
            Some(key) => (Some(Entry { key, value: number }), None),
            None => (None, Some(number)),
        }
    }

    /// The entry that a part of a list is, if it is a pair.
    fn in_list(&self, number: usize) -> Option<Entry> {
        let key = self.nth(number, 0)?;
        let value = self.nth(number, 1)?;
        Some(Entry { key, value })
    }

    /// The bytes of a part, without quotes and without the colon of an atom of Elixir.
    pub fn bytes<'a>(&self, text: &'a [u8], number: usize) -> &'a [u8] {
        match self.part(number) {
            Some(part) => bare(text.get(part.start..part.end).unwrap_or(b"")),
            None => b"",
        }
    }

    /// Whether the part is this atom.
    pub fn is_atom(&self, text: &[u8], number: usize, word: &[u8]) -> bool {
        self.is_kind(number, TermKind::Atom) && self.bytes(text, number) == word
    }
}

/// An atom or a text without its quotes, and without what Elixir puts before an atom or behind a key.
fn bare(word: &[u8]) -> &[u8] {
    let word = word.strip_prefix(b":").unwrap_or(word);
    let word = word.strip_suffix(b":").unwrap_or(word);
    let word = unquoted(word, b'\'');
    let word = unquoted(word, b'"');
    word.strip_prefix(b"Elixir.").unwrap_or(word)
}

/// A word without these quotes round it.
fn unquoted(word: &[u8], quote: u8) -> &[u8] {
    match word {
        [first, middle @ .., last] if *first == quote && *last == quote => middle,
        _ => word,
    }
}
