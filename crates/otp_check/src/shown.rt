//! What a file has, in one line and cut where it is long.

use std::alloc::{AllocError, Global};
use toml::{Table, Value};

/// The most bytes of a key, an id or a value that are shown, but for those of the last letter.
const MOST_SHOWN: usize = 60;

/// Appends a letter; one that can't be printed, a quote or a backslash is escaped, as in a text of Rust.
fn write_letter(letter: char, out: &mut Vec<u8>) -> Result<(), AllocError> {
    if letter == '\'' {
        return out.extend_from_slice(b"'");
    }
    for part in letter.escape_debug() {
        let mut room = [0u8; 4];
        out.extend_from_slice(part.encode_utf8(&mut room).as_bytes())?;
    }
    Ok(())
}

/// Appends the front of a text, and says whether that is all of it.
fn write_front(text: &str, out: &mut Vec<u8>) -> Result<bool, AllocError> {
    let most = out.len().saturating_add(MOST_SHOWN);
    for letter in text.chars() {
        if out.len() >= most {
            return Ok(false);
        }
        write_letter(letter, out)?;
    }
    Ok(true)
}

/// Appends a key or an id.
pub(crate) fn write_shown(text: &str, out: &mut Vec<u8>) -> Result<(), AllocError> {
    if write_front(text, out)? {
        Ok(())
    } else {
        out.extend_from_slice(b"..")
    }
}

/// Appends a text between quotes; one that is cut has none at its end.
fn write_text(text: &str, out: &mut Vec<u8>) -> Result<(), AllocError> {
    out.extend_from_slice(b"\"")?;
    let end: &[u8] = if write_front(text, out)? {
        b"\""
    } else {
        b".."
    };
    out.extend_from_slice(end)
}

/// Appends a value.
pub(crate) fn write_value(
    alloc: Global,
    value: &Value,
    out: &mut Vec<u8>,
) -> Result<(), AllocError> {
    match value {
        Value::Table(_) => out.extend_from_slice(b"a table"),
        Value::Array(_) => out.extend_from_slice(b"an array"),
        Value::Datetime(_) => out.extend_from_slice(b"a date"),
        Value::String(text) => write_text(text.as_str(), out),
        _ => {
            let line = printed(alloc, value)?;
            let value = line.as_str();
            let value = value.strip_prefix("v = ").unwrap_or(value);
            write_shown(value.trim_end(), out)
        }
    }
}

/// A document with this value at the key `v`; none where it can't be printed.
fn printed(alloc: Global, value: &Value) -> Result<String, AllocError> {
    let mut table = Table::new(alloc);
    let copy = value.clone()?;
    let key = String::from_str(alloc, "v")?;
    drop(table.insert(key, copy)?);
    match toml::table_to_string(alloc, &table) {
        Ok(text) => Ok(text),
        Err(toml::ser::Error::OutOfMemory) => Err(AllocError),
        Err(_) => String::from_str(alloc, "v = ?"),
    }
}
