//! Texts and words in quotes, as the file of commands has them.

use crate::fault::{ImportFault, Why};
use crate::range::is_blank;
use crate::work::write_byte;
use std::alloc::AllocError;

/// Appends a byte of a text in quotes.
fn write_in_quotes(byte: u8, out: &mut Vec<u8>) -> Result<(), AllocError> {
    match byte {
        b'"' => out.extend_from_slice(b"\\\""),
        b'\\' => out.extend_from_slice(b"\\\\"),
        b'\t' => out.extend_from_slice(b"\\t"),
        0..=0x1f | 0x7f => write_byte(b' ', out),
        _ => write_byte(byte, out),
    }
}

/// Appends a text in quotes.
pub fn write_text(text: &[u8], out: &mut Vec<u8>) -> Result<(), AllocError> {
    out.extend_from_slice(b"\"")?;
    for byte in text {
        write_in_quotes(*byte, out)?;
    }
    out.extend_from_slice(b"\"")
}

/// How far words are read of which a value is made, as a shell has them.
#[derive(Clone, Copy, Debug)]
struct Words {
    /// What closes the quotes that are open; 0 where none are.
    quote: u8,
    is_escaped: bool,
    /// A word is open.
    is_open: bool,
    /// A word was written.
    has_one: bool,
    /// Between two words a comma may stand too.
    by_commas: bool,
}

impl Words {
    /// Opens a word, unless one is open.
    fn open(&mut self, out: &mut Vec<u8>) -> Result<(), AllocError> {
        if self.is_open {
            return Ok(());
        }
        if self.has_one {
            out.extend_from_slice(b", ")?;
        }
        self.is_open = true;
        self.has_one = true;
        out.extend_from_slice(b"\"")
    }

    /// Closes the word that is open, if one is.
    fn close(&mut self, out: &mut Vec<u8>) -> Result<(), AllocError> {
        if !self.is_open {
            return Ok(());
        }
        self.is_open = false;
        out.extend_from_slice(b"\"")
    }

    /// A byte of a word.
    fn put(&mut self, byte: u8, out: &mut Vec<u8>) -> Result<(), AllocError> {
        self.open(out)?;
        write_in_quotes(byte, out)
    }

    /// The next byte, within quotes.
    fn take_quoted(&mut self, byte: u8, out: &mut Vec<u8>) -> Result<(), AllocError> {
        if byte == self.quote {
            self.quote = 0;
            return Ok(());
        }
        if byte == b'\\' && self.quote == b'"' {
            self.is_escaped = true;
            return Ok(());
        }
        self.put(byte, out)
    }

    /// The next byte.
    fn take(&mut self, byte: u8, out: &mut Vec<u8>) -> Result<(), AllocError> {
        if self.is_escaped {
            self.is_escaped = false;
            return self.put(byte, out);
        }
        if self.quote != 0 {
            return self.take_quoted(byte, out);
        }
        match byte {
            b'"' | b'\'' => {
                self.quote = byte;
                self.open(out)
            }
            b'\\' => {
                self.is_escaped = true;
                self.open(out)
            }
            b',' if self.by_commas => self.close(out),
            _ if is_blank(byte) => self.close(out),
            _ => self.put(byte, out),
        }
    }
}

/// Appends a value as an array of its words, between which blanks stand, and commas where those part them.
pub fn write_words(
    value: &[u8],
    place: usize,
    by_commas: bool,
    out: &mut Vec<u8>,
) -> Result<(), ImportFault> {
    let mut words = Words {
        quote: 0,
        is_escaped: false,
        is_open: false,
        has_one: false,
        by_commas,
    };
    out.extend_from_slice(b"[")?;
    for byte in value {
        words.take(*byte, out)?;
    }
    words.close(out)?;
    out.extend_from_slice(b"]\n")?;
    if words.quote != 0 || words.is_escaped {
        return Err(ImportFault::At(place, Why::OpenQuote));
    }
    Ok(())
}
