//! Texts and numbers of JSON.

ghost use Rattle.std.specs.Prelude.{◌≤◌, ◌<◌, OnErr};

use itoa::Buffer;
use otp_sim::{Failed, Output, write_all};

/// Whether a byte can't stand in a text of JSON as it is.
fn is_special(byte: u8) -> bool {
    byte < 0x20 || byte == b'"' || byte == b'\\'
}

/// The digits of base 16.
const DIGITS: [u8; 16] = *b"0123456789abcdef";

/// The digit of a number below 16.
fn digit(number: u8) -> u8 {
    match DIGITS.get(usize::from(number)) {
        Some(digit) => *digit,
        None => b'0',
    }
}

/// Writes a byte that can't stand there as it is.
fn write_special<W: Output>(output: &mut W, byte: u8) -> Result<(), Failed>
    ensures failed { OnErr result ((W.seen output.old).failures < (W.seen output.new).failures) }
    ensures kept { (W.seen output.old).failures ≤ (W.seen output.new).failures }
{
    if byte == b'"' || byte == b'\\' {
        return write_all(output, &[b'\\', byte]);
    }
    let code = [b'\\', b'u', b'0', b'0', digit(byte >> 4), digit(byte & 15)];
    write_all(output, &code)
}

/// Writes the front of a text, as far as it can stand as it is, and what comes behind that; gives what is left.
fn write_front<'a, W: Output>(output: &mut W, text: &'a [u8]) -> Result<&'a [u8], Failed>
    ensures failed { OnErr result ((W.seen output.old).failures < (W.seen output.new).failures) }
    ensures kept { (W.seen output.old).failures ≤ (W.seen output.new).failures }
{
    let Some(place) = text.iter().position(|byte| is_special(*byte)) else {
        write_all(output, text)?;
        return Ok(b"");
    };
    write_all(output, text.get(..place).unwrap_or(b""))?;
    if let Some(byte) = text.get(place) {
        write_special(output, *byte)?;
    }
    Ok(text.get(place.saturating_add(1)..).unwrap_or(b""))
}

/// Writes a text of JSON, with its quotes. The bytes are those of UTF-8.
///
/// # Errors
///
/// Where the output fails.
pub fn write_json_text<W: Output>(output: &mut W, text: &[u8]) -> Result<(), Failed>
    ensures failed { OnErr result ((W.seen output.old).failures < (W.seen output.new).failures) }
    ensures kept { (W.seen output.old).failures ≤ (W.seen output.new).failures }
{
    write_all(output, b"\"")?;
    let mut rest = text;
    for _ in 0..text.len() {
        if rest.is_empty() {
            break;
        }
        rest = write_front(output, rest)?;
    }
    write_all(output, b"\"")
}

/// Writes the number of a line, or `null` where it isn't known.
///
/// # Errors
///
/// Where the output fails.
pub fn write_json_line<W: Output>(output: &mut W, line: Option<u64>) -> Result<(), Failed>
    ensures failed { OnErr result ((W.seen output.old).failures < (W.seen output.new).failures) }
    ensures kept { (W.seen output.old).failures ≤ (W.seen output.new).failures }
{
    match line {
        None => write_all(output, b"null"),
        Some(line) => {
            let mut digits = Buffer::new();
            write_all(output, digits.format(line).as_bytes())
        }
    }
}
