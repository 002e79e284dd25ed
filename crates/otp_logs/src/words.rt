//! Words of a line, and what stands behind some bytes.

ghost use Rattle.std.specs.Prelude.{◌≡◌, ◌<◌, IfSome, drop, length, not, position};
ghost use Rattle.std.specs.Str.{bytes_eq};
ghost use Rattle.otp_logs.specs.Words.{before, begins, behind, behind_word, from, from_bytes, has, is_blank, is_empty, stripped, word_of};

/// Whether a byte stands between words.
pub(crate) fn is_blank(byte: u8) -> bool
    ensures { result ≡ is_blank byte }
{
    byte == b' ' || byte == b'\t' || byte == b'\r' || byte == b'\n'
}

/// Whether two texts are the same.
pub(crate) fn is_text(one: &[u8], other: &[u8]) -> bool
    ensures { result ≡ bytes_eq one.now other.now }
{
    one == other
}

/// Whether a text has no bytes.
pub(crate) fn is_empty(text: &[u8]) -> bool
    ensures { result ≡ is_empty text.now }
{
    match text {
        [] => true,
        [_, ..] => false,
    }
}

/// The place of the first byte that stands between words.
fn first_blank(text: &[u8]) -> Option<usize>
    ensures place { result ≡ position is_blank text.now }
    ensures inside { IfSome result (λ place. place < length text.now) }
{
    text.iter().position(|byte| is_blank(*byte))
}

/// The place of the first byte of a word.
fn first_letter(text: &[u8]) -> Option<usize>
    ensures place { result ≡ position (λ byte. not (is_blank byte)) text.now }
    ensures inside { IfSome result (λ place. place < length text.now) }
{
    text.iter().position(|byte| !is_blank(*byte))
}

/// What stands before a place.
fn before(place: Option<usize>, text: &[u8]) -> &[u8]
    requires { IfSome place (λ at. at < length text.now) }
    ensures { result.now ≡ before place text.now }
{
    match place {
        None => text,
        Some(place) => &text[..place],
    }
}

/// What stands from a place on.
pub(crate) fn from(place: Option<usize>, text: &[u8]) -> &[u8]
    requires { IfSome place (λ at. at < length text.now) }
    ensures { result.now ≡ from place text.now }
{
    match place {
        None => &[],
        Some(place) => &text[place..],
    }
}

/// What stands behind so many bytes.
pub(crate) fn behind_bytes(text: &[u8], count: usize) -> &[u8]
    ensures { result.now ≡ drop count text.now }
{
    &text[count.min(text.len())..]
}

/// A text from its first word on.
#[tactic(auto, unfolding(crate::specs::Words::stripped))]
pub(crate) fn strip(text: &[u8]) -> &[u8]
    ensures { result.now ≡ stripped text.now }
{
    from(first_letter(text), text)
}

/// The word at the beginning of a text.
#[tactic(auto, unfolding(crate::specs::Words::word_of))]
pub(crate) fn word_of(text: &[u8]) -> &[u8]
    ensures { result.now ≡ word_of text.now }
{
    before(first_blank(text), text)
}

/// What stands behind the word at the beginning of a text, from the next word on.
#[tactic(auto, unfolding(crate::specs::Words::behind_word))]
pub(crate) fn behind_word(text: &[u8]) -> &[u8]
    ensures { result.now ≡ behind_word text.now }
{
    strip(from(first_blank(text), text))
}

/// Whether a text begins with these bytes.
#[tactic(auto, unfolding(crate::specs::Words::begins))]
pub(crate) fn begins(text: &[u8], bytes: &[u8]) -> bool
    ensures { result ≡ begins bytes.now text.now }
{
    text.starts_with(bytes)
}

/// A text from the first place of these bytes on; nothing where they don't stand in it.
#[tactic(auto, unfolding(crate::specs::Words::from_bytes))]
fn from_bytes<'a>(text: &'a [u8], bytes: &[u8]) -> &'a [u8]
    ensures { result.now ≡ from_bytes bytes.now text.now }
{
    for place in 0..text.len() {
        if begins(&text[place..], bytes) {
            return &text[place..];
        }
    }
    &[]
}

/// Whether these bytes stand in a text.
#[tactic(auto, unfolding(crate::specs::Words::has))]
pub(crate) fn has(text: &[u8], bytes: &[u8]) -> bool
    ensures { result ≡ has bytes.now text.now }
{
    !is_empty(from_bytes(text, bytes))
}

/// What stands behind the first of these bytes in a text; nothing where they don't stand in it.
#[tactic(auto, unfolding(crate::specs::Words::behind))]
pub(crate) fn behind<'a>(text: &'a [u8], bytes: &[u8]) -> &'a [u8]
    ensures { result.now ≡ behind bytes.now text.now }
{
    behind_bytes(from_bytes(text, bytes), bytes.len())
}
