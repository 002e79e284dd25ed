//! The file that says which children of the tree a log means by its names.
//!
//! Each line has a name of the log and behind it, as the last word, the path of a child: `NAME PATH`. The name may be that of a
//! supervisor with a `/` and a child behind it; with the `/` alone all its children are meant, and the path is that of the supervisor,
//! `/` for the root. The path `-` leaves out what is called so. A line that begins with `#` says nothing.

use crate::known::{Known, Meant};
use crate::seeking::{from_place, is_text, line_behind};
use otp_foreign::{Range, byte_of, is_blank, line_at, trimmed, write_number};
use std::alloc::{AllocError, Global};

/// A line of the file.
#[derive(Clone, Copy)]
struct Named {
    name: Range,
    path: Range,
    /// The number of the line, from 1.
    number: u64,
}

/// The file.
#[derive(Drop)]
pub struct Ids<'a> {
    text: &'a [u8],
    named: Vec<Named>,
}

/// What such a file says of a name.
#[derive(Clone, Copy)]
pub(crate) enum Said<'a> {
    /// Nothing.
    Nothing,
    /// It is of no child of the tree.
    Nobody,
    /// It is the child of this path.
    Path(&'a [u8]),
    /// It is the child that has this name below the supervisor of this path.
    Below(&'a [u8]),
}

/// The place at which the last word of a line begins.
fn last_word(text: &[u8], line: Range) -> usize {
    let mut start = line.start;
    for place in line.start..line.end {
        if is_blank(byte_of(text, place)) {
            start = place.saturating_add(1);
        }
    }
    start
}

/// What a line says, if it says something.
fn read_named(text: &[u8], line: Range, number: u64) -> Option<Named> {
    let whole = trimmed(text, line);
    if whole.start >= whole.end || byte_of(text, whole.start) == b'#' {
        return None;
    }
    let last = last_word(text, whole);
    Some(Named {
        name: trimmed(
            text,
            Range {
                start: whole.start,
                end: last,
            },
        ),
        path: from_place(whole, last),
        number,
    })
}

impl<'a> Ids<'a> {
    /// Reads such a file.
    pub fn read(alloc: Global, text: &'a [u8]) -> Result<Self, AllocError> {
        let mut ids = Ids {
            text,
            named: Vec::new(alloc),
        };
        match ids.take_lines() {
            Ok(()) => Ok(ids),
            Err(_) => {
                drop(ids);
                Err(AllocError)
            }
        }
    }

    /// Takes what each line says.
    fn take_lines(&mut self) -> Result<(), AllocError> {
        let text = self.text;
        let mut line = line_at(text, 0);
        let mut number: u64 = 0;
        for _ in 0..text.len().saturating_add(1) {
            number = number.saturating_add(1);
            if let Some(named) = read_named(text, line, number) {
                self.named.push(named).map_err(|_| AllocError)?;
            }
            match line_behind(text, line) {
                Some(next) => line = next,
                None => return Ok(()),
            }
        }
        Ok(())
    }

    /// What is wrong with a line, where it means no child of the tree.
    fn fault_of(&self, named: Named, known: &Known) -> &'static str {
        let name = named.name.of(self.text);
        let path = named.path.of(self.text);
        let is_child = !name.ends_with(b"/") && !is_text(path, b"-");
        if name.is_empty() {
            "no PATH stands behind the NAME"
        } else if is_child && matches!(known.at_path(path), Meant::Unknown) {
            "no child of the tree has this path"
        } else {
            ""
        }
    }

    /// Appends a remark on each line that means no child of the tree.
    pub(crate) fn tell(&self, known: &Known, out: &mut Vec<u8>) -> Result<(), AllocError> {
        for named in &self.named {
            let fault = self.fault_of(*named, known);
            if !fault.is_empty() {
                out.extend_from_slice(b"the file for --ids, line ")?;
                write_number(named.number, out)?;
                out.extend_from_slice(b": ")?;
                out.extend_from_slice(fault.as_bytes())?;
                out.extend_from_slice(b"\n")?;
            }
        }
        Ok(())
    }

    /// What a line says of a child that the log calls so, and its supervisor so.
    fn said_by(&self, named: Named, supervisor: &[u8], name: &[u8]) -> Said<'a> {
        let word = named.name.of(self.text);
        let path = named.path.of(self.text);
        let is_below = is_pair(word, supervisor, b"");
        if word == name || is_pair(word, supervisor, name) {
            return if is_text(path, b"-") {
                Said::Nobody
            } else {
                Said::Path(path)
            };
        }
        match path {
            b"-" if is_below => Said::Nobody,
            b"/" if is_below => Said::Below(b""),
            path if is_below => Said::Below(path),
            _ => Said::Nothing,
        }
    }

    /// What the file says of a child that the log calls so, and its supervisor so: what the first line says that means it.
    pub(crate) fn said(&self, supervisor: &[u8], name: &[u8]) -> Said<'a> {
        for named in &self.named {
            match self.said_by(*named, supervisor, name) {
                Said::Nothing => {}
                said => return said,
            }
        }
        Said::Nothing
    }
}

/// Whether a word is a supervisor and a child with a `/` between them.
fn is_pair(word: &[u8], supervisor: &[u8], name: &[u8]) -> bool {
    let slash = supervisor.len();
    let behind = slash.saturating_add(1);
    !supervisor.is_empty()
        && word.starts_with(supervisor)
        && byte_of(word, slash) == b'/'
        && is_text(word.get(behind..).unwrap_or(b"/"), name)
}
