//! Letters that aren't plain: many look like one that is.

use std::alloc::AllocError;
use std::str::from_utf8;

/// Digits of a code point.
const DIGITS: &[u8; 16] = b"0123456789ABCDEF";

/// The first letter of a text that isn't one of ASCII.
pub fn strange_letter(text: &str) -> Option<char> {
    text.chars().find(|letter| !letter.is_ascii())
}

/// The first byte of a name that may stand in none, where it is a sign as `:`.
pub fn strange_sign(name: &str) -> Option<u8> {
    for byte in name.as_bytes() {
        if is_sign(*byte) {
            return Some(*byte);
        }
    }
    None
}

/// Whether a byte is a sign that no name has. For a space and a slash there is more to say.
fn is_sign(byte: u8) -> bool {
    byte.is_ascii_punctuation() && !matches!(byte, b'_' | b'-' | b'.' | b'/')
}

/// The letter with which a text begins, where it isn't one of ASCII.
pub fn strange_front(text: &[u8]) -> Option<char> {
    match text {
        // Curly quotes have a remark of their own.
        [0xe2, 0x80, 0x98 | 0x99 | 0x9c | 0x9d, ..] => None,
        [byte, ..] if !byte.is_ascii() => match from_utf8(text) {
            Ok(text) => text.chars().next(),
            Err(_) => None,
        },
        _ => None,
    }
}

/// The plain letter that one looks like.
fn plain_letter(letter: char) -> Option<&'static str> {
    let plain = match letter {
        '\u{430}' | '\u{3b1}' => "a",
        '\u{441}' => "c",
        '\u{501}' => "d",
        '\u{435}' => "e",
        '\u{4bb}' => "h",
        '\u{456}' | '\u{3b9}' => "i",
        '\u{458}' => "j",
        '\u{43a}' | '\u{3ba}' => "k",
        '\u{43c}' => "m",
        '\u{43e}' | '\u{3bf}' => "o",
        '\u{440}' | '\u{3c1}' => "p",
        '\u{455}' => "s",
        '\u{442}' => "t",
        '\u{3bd}' => "v",
        '\u{445}' => "x",
        '\u{443}' => "y",
        '\u{a0}' => "a space",
        '\u{2010}'..='\u{2015}' | '\u{2212}' => "-",
        _ => return None,
    };
    Some(plain)
}

/// Appends a code point: `U+0435`.
fn write_code_point(letter: char, out: &mut Vec<u8>) -> Result<(), AllocError> {
    out.extend_from_slice(b"U+")?;
    let code = letter as u32;
    let mut is_begun = false;
    for place in [20u32, 16, 12, 8, 4, 0] {
        let digit = code.checked_shr(place).unwrap_or(0) & 15;
        is_begun = is_begun || digit > 0 || place == 12;
        if is_begun {
            out.push(*DIGITS.get(digit as usize).unwrap_or(&b'?'))
                .map_err(|_| AllocError)?;
        }
    }
    Ok(())
}

/// Appends a letter that isn't plain: its code point, and the plain letter that it looks like.
pub fn write_letter(letter: char, out: &mut Vec<u8>) -> Result<(), AllocError> {
    write_code_point(letter, out)?;
    match plain_letter(letter) {
        Some(plain) => {
            out.extend_from_slice(b", which looks like ")?;
            out.extend_from_slice(plain.as_bytes())
        }
        None => Ok(()),
    }
}
