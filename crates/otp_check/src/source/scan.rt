//! A text is read for its keys.

use crate::source::nodes::{Nodes, Part};
use std::alloc::{AllocError, Global};
use toml_parser::text::{byte_at, first, skip, skip_blank, skip_ws};
use toml_parser::{Key, ParseError, dotted_key, quoted, starts_string, unquoted};

/// Where the parts of a TOML document stand in its text.
#[derive(Drop)]
pub struct Source {
    nodes: Nodes,
}

impl Source {
    /// Reads a document, of which `toml` has said that it is one. Of any other text the parts in front may be known.
    ///
    /// # Errors
    ///
    /// Where memory is refused.
    pub fn read(alloc: Global, file: &[u8]) -> Result<Source, AllocError> {
        let mut nodes = Nodes::new(alloc);
        let Ok(text) = std::str::from_utf8(file) else {
            return Ok(Source { nodes });
        };
        nodes.add_whole()?;
        read_all(alloc, &mut nodes, text)?;
        Ok(Source { nodes })
    }

    /// The value at a key of a table.
    pub fn at_key(&self, table: Option<Part>, key: &str) -> Option<Part> {
        self.nodes.at_key(table?, key)
    }

    /// The value at a place of an array, from 0.
    pub fn at_index(&self, array: Option<Part>, index: usize) -> Option<Part> {
        self.nodes.at_index(array?, index)
    }

    /// The line on which a part begins, from 1: that of its key or its header; of a table that only its parts imply, that
    /// of the first of them.
    pub fn line(&self, part: Option<Part>) -> Option<u64> {
        self.nodes.line(part?)
    }
}

/// Why a text isn't read further.
#[derive(Clone, Copy)]
enum Stop {
    OutOfMemory,
    /// It is no document from here on.
    NoToml,
}

impl From<AllocError> for Stop {
    fn from(_error: AllocError) -> Stop {
        Stop::OutOfMemory
    }
}

impl From<ParseError> for Stop {
    fn from(error: ParseError) -> Stop {
        match error {
            ParseError::OutOfMemory => Stop::OutOfMemory,
            ParseError::At(..) => Stop::NoToml,
        }
    }
}

/// An array or an inline table of which not all was read.
#[derive(Clone, Copy)]
enum Open {
    Array(Part),
    Table(Part),
}

/// A text that is read.
#[derive(Drop)]
struct Reading<'a> {
    alloc: Global,
    /// What is still to be read.
    rest: &'a str,
    /// The line on which that begins.
    line: u64,
    /// The table of the last header.
    section: Part,
    /// The arrays and inline tables around, the innermost last.
    open: Vec<Open>,
}

/// Reads a whole text.
fn read_all(alloc: Global, nodes: &mut Nodes, text: &str) -> Result<(), AllocError> {
    let mut reading = Reading {
        alloc,
        rest: text.strip_prefix('\u{feff}').unwrap_or(text),
        line: 1,
        section: Part::WHOLE,
        open: Vec::new(alloc),
    };
    for _ in 0..text.len() {
        match reading.step(nodes) {
            Ok(true) => {}
            Ok(false) | Err(Stop::NoToml) => return Ok(()),
            Err(Stop::OutOfMemory) => return Err(AllocError),
        }
    }
    Ok(())
}

/// The line on which a text goes on of which this was read, from 1.
pub fn line_behind(read: &[u8]) -> u64 {
    count_ends(read).saturating_add(1)
}

/// So many lines end in a text.
fn count_ends(text: &[u8]) -> u64 {
    let mut ends: u64 = 0;
    for byte in text {
        if *byte == b'\n' {
            ends = ends.saturating_add(1);
        }
    }
    ends
}

impl<'a> Reading<'a> {
    /// Goes on to what is left of the text.
    fn go_to(&mut self, rest: &'a str) {
        let passed = self.rest.len().saturating_sub(rest.len());
        let read = self.rest.as_bytes().get(..passed).unwrap_or(b"");
        self.line = self.line.saturating_add(count_ends(read));
        self.rest = rest;
    }

    /// Reads a header, a key with its value, or a part of an array or an inline table; false where nothing is left.
    fn step(&mut self, nodes: &mut Nodes) -> Result<bool, Stop> {
        self.go_to(skip_blank(self.rest, true));
        match self.innermost() {
            None if self.rest.is_empty() => return Ok(false),
            None => self.line_of_document(nodes)?,
            Some(open) => self.part(nodes, open)?,
        }
        Ok(true)
    }

    /// The array or inline table around, if there is one.
    fn innermost(&self) -> Option<Open> {
        match self.open.last() {
            Some(open) => Some(*open),
            None => None,
        }
    }

    /// Reads a header, or a key with its value or the front of that.
    fn line_of_document(&mut self, nodes: &mut Nodes) -> Result<(), Stop> {
        if first(self.rest) == b'[' {
            return self.header(nodes);
        }
        let section = self.section;
        self.pair(nodes, section)
    }

    /// Reads a part of an array or an inline table, or what stands behind one.
    fn part(&mut self, nodes: &mut Nodes, open: Open) -> Result<(), Stop> {
        match first(self.rest) {
            b']' | b'}' => self.close(),
            b',' => self.go_to(skip(self.rest, 1)),
            _ => match open {
                Open::Array(array) => self.item(nodes, array)?,
                Open::Table(table) => self.pair(nodes, table)?,
            },
        }
        Ok(())
    }

    /// Reads the end of an array or an inline table.
    fn close(&mut self) {
        let _closed = self.open.pop();
        if matches!(first(self.rest), b']' | b'}') {
            self.go_to(skip(self.rest, 1));
        }
    }

    /// Reads `[key]` or `[[key]]`.
    fn header(&mut self, nodes: &mut Nodes) -> Result<(), Stop> {
        let is_item = byte_at(self.rest, 1) == b'[';
        let rest = self.rest;
        let inside = if is_item {
            skip(rest, 2)
        } else if first(rest) == b'[' {
            skip(rest, 1)
        } else {
            return Err(Stop::NoToml);
        };
        let (key, rest) = dotted_key(self.alloc, skip_ws(inside))?;
        let table = nodes.walk(Part::WHOLE, &key, self.line)?;
        let part = nodes.last_at(table, &key, self.line)?;
        self.section = if is_item {
            nodes.add(part, None, self.line)?
        } else {
            nodes.say(part, self.line);
            part
        };
        self.leave_header(rest)
    }

    /// Reads the brackets behind a header's key.
    fn leave_header(&mut self, rest: &'a str) -> Result<(), Stop> {
        let mut rest = rest;
        for _ in 0..2 {
            if first(rest) == b']' {
                rest = skip(rest, 1);
            }
        }
        self.go_to(rest);
        Ok(())
    }

    /// Reads a key of a table, and its value or the front of that.
    fn pair(&mut self, nodes: &mut Nodes, table: Part) -> Result<(), Stop> {
        let (key, rest) = dotted_key(self.alloc, self.rest)?;
        if first(rest) != b'=' {
            return Err(Stop::NoToml);
        }
        let part = self.place(nodes, table, &key)?;
        self.go_to(skip_ws(skip(rest, 1)));
        self.value(part)
    }

    /// The value at a key of a table, which is said on this line.
    fn place(&self, nodes: &mut Nodes, table: Part, key: &Key) -> Result<Part, AllocError> {
        let table = nodes.walk(table, key, self.line)?;
        nodes.last_at(table, key, self.line)
    }

    /// Reads a value of an array, or the front of it.
    fn item(&mut self, nodes: &mut Nodes, array: Part) -> Result<(), Stop> {
        let part = nodes.add(array, None, self.line)?;
        self.value(part)
    }

    /// Reads a value, or the bracket with which it begins.
    fn value(&mut self, part: Part) -> Result<(), Stop> {
        match first(self.rest) {
            b'[' => self.enter(Open::Array(part)),
            b'{' => self.enter(Open::Table(part)),
            _ => self.atom(),
        }
    }

    /// Reads the front of an array or an inline table.
    fn enter(&mut self, open: Open) -> Result<(), Stop> {
        self.open.push(open).map_err(|_| AllocError)?;
        if matches!(first(self.rest), b'[' | b'{') {
            self.go_to(skip(self.rest, 1));
        }
        Ok(())
    }

    /// Reads a value without parts.
    fn atom(&mut self) -> Result<(), Stop> {
        let rest = if starts_string(self.rest) {
            quoted(self.alloc, self.rest)?.1
        } else {
            unquoted(self.alloc, self.rest)?.1
        };
        self.go_to(rest);
        Ok(())
    }
}
