//! What an import has written so far.

use crate::line::Spot;
use crate::quoted::write_text;
use itoa::Buffer;
use std::alloc::{AllocError, Global};

/// The most bytes of what was read that a remark repeats.
const MOST_QUOTED: usize = 48;

/// A text that is imported, and what was written for it.
#[derive(Drop)]
pub struct ImportWork<'a> {
    pub alloc: Global,
    /// What the text is called, before each remark.
    name: &'a str,
    pub text: &'a [u8],
    pub tree: Vec<u8>,
    pub commands: Vec<u8>,
    remarks: Vec<u8>,
    /// Where the last remark was made.
    spot: Spot,
}

/// Appends a number in decimal digits.
pub fn write_number(number: u64, out: &mut Vec<u8>) -> Result<(), AllocError> {
    let mut buffer = Buffer::new();
    out.extend_from_slice(buffer.format(number).as_bytes())
}

/// Appends a byte.
pub fn write_byte(byte: u8, out: &mut Vec<u8>) -> Result<(), AllocError> {
    out.push(byte).map_err(|_| AllocError)
}

/// Appends the name of a text and a place in it, as each remark begins.
pub fn write_place(name: &str, spot: Spot, out: &mut Vec<u8>) -> Result<(), AllocError> {
    out.extend_from_slice(name.as_bytes())?;
    out.extend_from_slice(b":")?;
    write_number(spot.line, out)?;
    out.extend_from_slice(b":")?;
    write_number(spot.column, out)?;
    out.extend_from_slice(b": ")
}

/// Appends what was read, on one line and not too long: for a run of blanks there is one space, and for a byte that isn't plain a
/// question mark.
fn write_quoted(bytes: &[u8], out: &mut Vec<u8>) -> Result<(), AllocError> {
    let mut is_blank = false;
    for byte in bytes.get(..MOST_QUOTED).unwrap_or(bytes) {
        let was_blank = is_blank;
        is_blank = matches!(*byte, b' ' | b'\t' | b'\r' | b'\n');
        match *byte {
            _ if is_blank && was_blank => {}
            _ if is_blank => write_byte(b' ', out)?,
            0x21..=0x7e => write_byte(*byte, out)?,
            _ => write_byte(b'?', out)?,
        }
    }
    if bytes.len() > MOST_QUOTED {
        out.extend_from_slice(b"..")?;
    }
    Ok(())
}

impl<'a> ImportWork<'a> {
    /// Nothing was written yet.
    pub fn new(alloc: Global, name: &'a str, text: &'a [u8]) -> Self {
        ImportWork {
            alloc,
            name,
            text,
            tree: Vec::new(alloc),
            commands: Vec::new(alloc),
            remarks: Vec::new(alloc),
            spot: Spot::FIRST,
        }
    }

    /// The tree file, the file of commands, and the remarks.
    pub fn into_parts(self) -> (Vec<u8>, Vec<u8>, Vec<u8>) {
        let ImportWork {
            tree,
            commands,
            remarks,
            ..
        } = self;
        (tree, commands, remarks)
    }

    /// Remarks on what stands at this place: what it is, what was read, and what became of it.
    pub fn remark(
        &mut self,
        place: usize,
        what: &str,
        read: &[u8],
        became: &str,
    ) -> Result<(), AllocError> {
        self.spot = self.spot.moved_to(self.text, place);
        write_place(self.name, self.spot, &mut self.remarks)?;
        self.remarks.extend_from_slice(what.as_bytes())?;
        write_quoted(read, &mut self.remarks)?;
        self.remarks.extend_from_slice(became.as_bytes())?;
        self.remarks.extend_from_slice(b"\n")
    }

    /// Remarks that something at this place was read as a word or a number, which closes the remark.
    pub fn remark_as(
        &mut self,
        place: usize,
        what: &str,
        read: &[u8],
        became: &str,
        word: &[u8],
    ) -> Result<(), AllocError> {
        self.spot = self.spot.moved_to(self.text, place);
        write_place(self.name, self.spot, &mut self.remarks)?;
        self.remarks.extend_from_slice(what.as_bytes())?;
        write_quoted(read, &mut self.remarks)?;
        self.remarks.extend_from_slice(became.as_bytes())?;
        self.remarks.extend_from_slice(word)?;
        self.remarks.extend_from_slice(b"\n")
    }

    /// Begins a line of the tree file with a key.
    fn begin(&mut self, key: &str) -> Result<(), AllocError> {
        self.tree.extend_from_slice(key.as_bytes())?;
        self.tree.extend_from_slice(b" = ")
    }

    /// A line of the tree file: a key and a word in quotes, which is plain.
    pub fn put_word(&mut self, key: &str, word: &[u8]) -> Result<(), AllocError> {
        self.begin(key)?;
        self.tree.extend_from_slice(b"\"")?;
        self.tree.extend_from_slice(word)?;
        self.tree.extend_from_slice(b"\"\n")
    }

    /// A line of the tree file: a key and a word without quotes.
    pub fn put_bare(&mut self, key: &str, word: &[u8]) -> Result<(), AllocError> {
        self.begin(key)?;
        self.tree.extend_from_slice(word)?;
        self.tree.extend_from_slice(b"\n")
    }

    /// A line of the tree file: a key and a number.
    pub fn put_number(&mut self, key: &str, number: u64) -> Result<(), AllocError> {
        self.begin(key)?;
        write_number(number, &mut self.tree)?;
        self.tree.extend_from_slice(b"\n")
    }

    /// The head of a table of the tree file, below this path; an empty line stands before it, unless it is the first.
    pub fn put_head(&mut self, open: &str, path: &[u8], close: &str) -> Result<(), AllocError> {
        if !self.tree.is_empty() {
            self.tree.extend_from_slice(b"\n")?;
        }
        self.tree.extend_from_slice(open.as_bytes())?;
        self.tree.extend_from_slice(path)?;
        self.tree.extend_from_slice(close.as_bytes())
    }

    /// The head of a table of the file of commands.
    pub fn command_head(&mut self, word: &[u8]) -> Result<(), AllocError> {
        if !self.commands.is_empty() {
            self.commands.extend_from_slice(b"\n")?;
        }
        self.commands.extend_from_slice(b"[")?;
        write_text(word, &mut self.commands)?;
        self.commands.extend_from_slice(b"]\n")
    }

    /// Begins a line of the file of commands with a key.
    pub fn begin_command(&mut self, key: &str) -> Result<(), AllocError> {
        self.commands.extend_from_slice(key.as_bytes())?;
        self.commands.extend_from_slice(b" = ")
    }

    /// A line of the file of commands: a key, and what stands for it.
    pub fn command_word(&mut self, key: &str, word: &str) -> Result<(), AllocError> {
        self.begin_command(key)?;
        self.commands.extend_from_slice(word.as_bytes())?;
        self.commands.extend_from_slice(b"\n")
    }

    /// Writes a line of the commands' file: a key, and a number.
    pub fn command_number(&mut self, key: &str, number: u64) -> Result<(), AllocError> {
        self.begin_command(key)?;
        write_number(number, &mut self.commands)?;
        self.commands.extend_from_slice(b"\n")
    }

    /// Writes a line of the commands' file: a key, and a text in quotes.
    pub fn command_text(&mut self, key: &str, text: &[u8]) -> Result<(), AllocError> {
        self.begin_command(key)?;
        write_text(text, &mut self.commands)?;
        self.commands.extend_from_slice(b"\n")
    }
}
