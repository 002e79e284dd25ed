//! Keys of an object of JSON that stands on a line.

ghost use Rattle.std.specs.Prelude.{◌≡◌};
ghost use Rattle.otp_logs.specs.Objects.{is_key, message_of, or_text, quoted, text_of, value_of};
ghost use Rattle.otp_logs.specs.Words.{first_tail};

use crate::words::{begins, behind_bytes, is_empty, strip};

/// Whether a text begins with a key, which has its quotes, and a colon behind it.
#[tactic(auto, unfolding(crate::specs::Objects::is_key))]
fn is_key(text: &[u8], key: &[u8]) -> bool
    ensures { result ≡ is_key key.now text.now }
{
    begins(text, key) && begins(strip(behind_bytes(text, key.len())), b":")
}

/// A line from a key on; nothing where it hasn't that key.
fn from_key<'a>(line: &'a [u8], key: &[u8]) -> &'a [u8]
    ensures { result.now ≡ first_tail (λ text. is_key key.now text) line.now }
{
    for place in 0..line.len() {
        if is_key(&line[place..], key) {
            return &line[place..];
        }
    }
    &[]
}

/// A line from the value of a key on; nothing where it hasn't that key.
#[tactic(auto, unfolding(crate::specs::Objects::value_of))]
pub(crate) fn value_of<'a>(line: &'a [u8], key: &[u8]) -> &'a [u8]
    ensures { result.now ≡ value_of key.now line.now }
{
    let behind = strip(behind_bytes(from_key(line, key), key.len()));
    strip(behind_bytes(behind, 1))
}

/// What stands behind the quote that opens a text; nothing where a value is none.
#[tactic(auto, unfolding(crate::specs::Objects::quoted))]
fn quoted(value: &[u8]) -> &[u8]
    ensures { result.now ≡ quoted value.now }
{
    if begins(value, b"\"") {
        behind_bytes(value, 1)
    } else {
        &[]
    }
}

/// A line from the text of a key on, as it is written; nothing where its value is none.
#[tactic(auto, unfolding(crate::specs::Objects::text_of))]
fn text_of<'a>(line: &'a [u8], key: &[u8]) -> &'a [u8]
    ensures { result.now ≡ text_of key.now line.now }
{
    quoted(value_of(line, key))
}

/// This text, or another where it has no bytes.
fn or_text<'a>(first: &'a [u8], second: &'a [u8]) -> &'a [u8]
    ensures { result.now ≡ or_text first.now second.now }
{
    if is_empty(first) { second } else { first }
}

/// A line from what an object says on, as the formatters of Erlang's and Elixir's loggers write it.
#[tactic(auto, unfolding(crate::specs::Objects::message_of))]
pub(crate) fn message_of(line: &[u8]) -> &[u8]
    ensures { result.now ≡ message_of line.now }
{
    or_text(text_of(line, b"\"message\""), text_of(line, b"\"msg\""))
}
