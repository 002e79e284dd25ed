//! Members of objects of JSON, appended to a text.

ghost use Rattle.std.specs.Prelude.{◌≡◌, ◌<◌, ◌++◌, OnOk};
ghost use Rattle.std.specs.List.{flat_map};
ghost use Rattle.otp_json.specs.Values.{byte_text, code_text, digit_code, json_text, key_text, number_member, optional_member, optional_text, text_member};

use otp_text::write_number;
use std::alloc::AllocError;

/// The digit of base 16 of a number.
#[tactic(auto, unfolding(crate::specs::Values::digit_code))]
fn digit_code(number: u8) -> u8
    requires { number < 16 }
    ensures { result ≡ digit_code number }
{
    if number < 10 {
        48 + number
    } else {
        87 + number
    }
}

/// Appends the code of a byte below 32.
#[tactic(auto, unfolding(crate::specs::Values::code_text))]
fn put_code(byte: u8, out: &mut Vec<u8>) -> Result<(), AllocError>
    requires { byte < 32 }
    ensures { OnOk result (out.new.items ≡ out.old.items ++ code_text byte) }
{
    if byte < 16 {
        out.extend_from_slice(b"\\u000")?;
        out.extend_from_slice(&[digit_code(byte)])
    } else {
        out.extend_from_slice(b"\\u001")?;
        out.extend_from_slice(&[digit_code(byte - 16)])
    }
}

/// Appends a byte as it stands in a text of JSON.
#[tactic(auto, unfolding(crate::specs::Values::byte_text))]
fn put_byte(byte: u8, out: &mut Vec<u8>) -> Result<(), AllocError>
    ensures { OnOk result (out.new.items ≡ out.old.items ++ byte_text byte) }
{
    if byte == b'"' || byte == b'\\' {
        out.extend_from_slice(&[b'\\', byte])
    } else if byte < 32 {
        put_code(byte, out)
    } else {
        out.extend_from_slice(&[byte])
    }
}

/// Appends bytes as they stand in a text of JSON.
fn put_bytes(text: &[u8], out: &mut Vec<u8>) -> Result<(), AllocError>
    ensures { OnOk result (out.new.items ≡ out.old.items ++ flat_map byte_text text.now) }
{
    for byte in text {
        put_byte(*byte, out)?;
    }
    Ok(())
}

/// Appends a text of JSON, with its quotes.
///
/// # Errors
///
/// Where memory is refused.
#[tactic(auto, unfolding(crate::specs::Values::json_text))]
pub fn put_json_text(text: &[u8], out: &mut Vec<u8>) -> Result<(), AllocError>
    ensures { OnOk result (out.new.items ≡ out.old.items ++ json_text text.now) }
{
    out.extend_from_slice(b"\"")?;
    put_bytes(text, out)?;
    out.extend_from_slice(b"\"")
}

/// Appends a key, behind what stands before it: what opens an object, or a comma.
///
/// # Errors
///
/// Where memory is refused.
#[tactic(auto, unfolding(crate::specs::Values::key_text))]
pub fn put_key(front: &[u8], key: &[u8], out: &mut Vec<u8>) -> Result<(), AllocError>
    ensures { OnOk result (out.new.items ≡ out.old.items ++ key_text front.now key.now) }
{
    out.extend_from_slice(front)?;
    out.extend_from_slice(b"\"")?;
    out.extend_from_slice(key)?;
    out.extend_from_slice(b"\": ")
}

/// Appends a member that is a text.
///
/// # Errors
///
/// Where memory is refused.
#[tactic(auto, unfolding(crate::specs::Values::text_member))]
pub fn put_text(front: &[u8], key: &[u8], text: &[u8], out: &mut Vec<u8>) -> Result<(), AllocError>
    ensures { OnOk result (out.new.items ≡ out.old.items ++ text_member front.now key.now text.now) }
{
    put_key(front, key, out)?;
    put_json_text(text, out)
}

/// Appends a member that is a number.
///
/// # Errors
///
/// Where memory is refused.
#[tactic(auto, unfolding(crate::specs::Values::number_member))]
pub fn put_number(
    front: &[u8],
    key: &[u8],
    number: u64,
    out: &mut Vec<u8>,
) -> Result<(), AllocError>
    ensures { OnOk result (out.new.items ≡ out.old.items ++ number_member front.now key.now number) }
{
    put_key(front, key, out)?;
    write_number(number, out)
}

/// Appends a number, or `null` where there is none.
#[tactic(auto, unfolding(crate::specs::Values::optional_text))]
fn put_number_or_null(number: Option<u64>, out: &mut Vec<u8>) -> Result<(), AllocError>
    ensures { OnOk result (out.new.items ≡ out.old.items ++ optional_text number) }
{
    match number {
        None => out.extend_from_slice(b"null"),
        Some(number) => write_number(number, out),
    }
}

/// Appends a member that is a number, or `null` where there is none.
///
/// # Errors
///
/// Where memory is refused.
#[tactic(auto, unfolding(crate::specs::Values::optional_member))]
pub fn put_optional(
    front: &[u8],
    key: &[u8],
    number: Option<u64>,
    out: &mut Vec<u8>,
) -> Result<(), AllocError>
    ensures { OnOk result (out.new.items ≡ out.old.items ++ optional_member front.now key.now number) }
{
    put_key(front, key, out)?;
    put_number_or_null(number, out)
}
