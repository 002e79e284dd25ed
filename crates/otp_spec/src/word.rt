//! Tests of words.

ghost use Rattle.std.specs.Prelude.{◌≡◌, [], option_copied, unwrap_or};
ghost use Rattle.std.specs.Str.{bytes_eq};

/// Whether the bytes are this word.
pub(crate) fn is_word(bytes: &[u8], word: &str) -> bool
    ensures { result ≡ bytes_eq bytes.now word.now }
{
    bytes == word.as_bytes()
}

/// Whether the bytes are this word; where there is none, whether there are none.
pub(crate) fn has_word(bytes: &[u8], word: Option<&str>) -> bool
    ensures { result ≡ bytes_eq bytes.now (unwrap_or (option_copied word.entry) []) }
{
    match word {
        Some(word) => is_word(bytes, word),
        None => bytes.is_empty(),
    }
}
