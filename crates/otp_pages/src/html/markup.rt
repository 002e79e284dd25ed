//! Texts and numbers in a page.

ghost use Rattle.std.specs.Prelude.{◌≡◌, ◌<◌, ◌++◌, OnOk};
ghost use Rattle.std.specs.List.{flat_map};
ghost use Rattle.std.specs.Str.{is_utf8};
ghost use Rattle.otp_pages.specs.Markup.{byte_text, code_text, digit_code, element, escaped, is_plain, number_element, opens, plain_text, reference};

use otp_text::write_number;
use std::alloc::AllocError;
use std::str::from_utf8;

/// The digit of base 16 of a number.
#[tactic(auto, unfolding(crate::specs::Markup::digit_code))]
fn digit_code(number: u8) -> u8
    requires { number < 16 }
    ensures { result ≡ digit_code number }
{
    if number < 10 {
        48 + number
    } else {
        87 + number
    }
}

/// Appends the code of a byte that isn't shown.
#[tactic(auto, unfolding(crate::specs::Markup::code_text))]
fn put_code(byte: u8, out: &mut Vec<u8>) -> Result<(), AllocError>
    ensures { OnOk result (out.new.items ≡ out.old.items ++ code_text byte) }
{
    out.extend_from_slice(b"\\x")?;
    out.extend_from_slice(&[digit_code(byte / 16), digit_code(byte % 16)])
}

/// Whether a byte stands in a page as it is, unless it opens something: one of a letter that can be printed.
#[tactic(auto, unfolding(crate::specs::Markup::is_plain))]
fn is_plain(is_utf8: bool, byte: u8) -> bool
    ensures { result ≡ is_plain is_utf8 byte }
{
    if byte < 32 || byte == 127 {
        false
    } else {
        byte < 128 || is_utf8
    }
}

/// Appends a byte that opens nothing.
#[tactic(auto, unfolding(crate::specs::Markup::plain_text))]
fn put_plain(is_utf8: bool, byte: u8, out: &mut Vec<u8>) -> Result<(), AllocError>
    ensures { OnOk result (out.new.items ≡ out.old.items ++ plain_text is_utf8 byte) }
{
    if is_plain(is_utf8, byte) {
        out.extend_from_slice(&[byte])
    } else {
        put_code(byte, out)
    }
}

/// Whether a byte would open a tag or a reference, or close a value.
#[tactic(auto, unfolding(crate::specs::Markup::opens))]
fn opens(byte: u8) -> bool
    ensures { result ≡ opens byte }
{
    byte == b'&' || byte == b'<' || byte == b'>' || byte == b'"' || byte == b'\''
}

/// What stands for such a byte.
#[tactic(auto, unfolding(crate::specs::Markup::reference))]
fn reference(byte: u8) -> &'static [u8]
    ensures { result.now ≡ reference byte }
{
    if byte == b'&' {
        b"&amp;"
    } else if byte == b'<' {
        b"&lt;"
    } else if byte == b'>' {
        b"&gt;"
    } else if byte == b'"' {
        b"&quot;"
    } else {
        b"&#39;"
    }
}

/// Appends a byte as it stands in a page.
#[tactic(auto, unfolding(crate::specs::Markup::byte_text))]
fn put_byte(is_utf8: bool, byte: u8, out: &mut Vec<u8>) -> Result<(), AllocError>
    ensures { OnOk result (out.new.items ≡ out.old.items ++ byte_text is_utf8 byte) }
{
    if opens(byte) {
        out.extend_from_slice(reference(byte))
    } else {
        put_plain(is_utf8, byte, out)
    }
}

/// Whether a text is UTF-8.
fn is_utf8(text: &[u8]) -> bool
    ensures { result ≡ is_utf8 text.now }
{
    match from_utf8(text) {
        Ok(_) => true,
        Err(_) => false,
    }
}

/// Appends bytes as they stand in a page.
fn put_bytes(is_utf8: bool, text: &[u8], out: &mut Vec<u8>) -> Result<(), AllocError>
    ensures { OnOk result (out.new.items ≡ out.old.items ++ flat_map (byte_text is_utf8) text.now) }
{
    for byte in text {
        put_byte(is_utf8, *byte, out)?;
    }
    Ok(())
}

/// Appends a text that comes from outside, as it stands in a page: between tags, or between the quotes of a value.
///
/// # Errors
///
/// Where memory is refused.
#[tactic(auto, unfolding(crate::specs::Markup::escaped))]
pub fn put_escaped(text: &[u8], out: &mut Vec<u8>) -> Result<(), AllocError>
    ensures { OnOk result (out.new.items ≡ out.old.items ++ escaped text.now) }
{
    put_bytes(is_utf8(text), text, out)
}

/// Appends a text that comes from outside, between what opens and what closes it.
///
/// # Errors
///
/// Where memory is refused.
#[tactic(auto, unfolding(crate::specs::Markup::element))]
pub fn put_element(
    opening: &[u8],
    text: &[u8],
    closing: &[u8],
    out: &mut Vec<u8>,
) -> Result<(), AllocError>
    ensures { OnOk result (out.new.items ≡ out.old.items ++ element opening.now text.now closing.now) }
{
    out.extend_from_slice(opening)?;
    put_escaped(text, out)?;
    out.extend_from_slice(closing)
}

/// Appends a number between what opens and what closes it.
///
/// # Errors
///
/// Where memory is refused.
#[tactic(auto, unfolding(crate::specs::Markup::number_element))]
pub fn put_number_element(
    opening: &[u8],
    number: u64,
    closing: &[u8],
    out: &mut Vec<u8>,
) -> Result<(), AllocError>
    ensures { OnOk result (out.new.items ≡ out.old.items ++ number_element opening.now number closing.now) }
{
    out.extend_from_slice(opening)?;
    write_number(number, out)?;
    out.extend_from_slice(closing)
}
