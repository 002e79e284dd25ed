//! Words of a line of a log: what stands between spaces and tabs.

ghost use Rattle.std.specs.Prelude.{◌≡◌, ◌+◌, ◌<◌, ◌≤◌, IfSome, drop, length, not, position};
ghost use Rattle.otp_replay.specs.Words.{before, from, is_empty, is_space, rest_of, stripped, word_of};

/// Whether the byte stands between words.
pub(crate) fn is_space(byte: u8) -> bool
    ensures { result ≡ is_space byte }
{
    byte == b' ' || byte == b'\t' || byte == b'\r'
}

/// The place of the first byte that stands between words.
fn first_space(line: &[u8]) -> Option<usize>
    ensures place { result ≡ position is_space line.now }
    ensures inside { IfSome result (λ place. place < length line.now) }
{
    line.iter().position(|byte| is_space(*byte))
}

/// The place of the first byte of a word.
fn first_letter(line: &[u8]) -> Option<usize>
    ensures place { result ≡ position (λ byte. not (is_space byte)) line.now }
    ensures inside { IfSome result (λ place. place < length line.now) }
{
    line.iter().position(|byte| !is_space(*byte))
}

/// What stands before a place.
pub(crate) fn before(place: Option<usize>, text: &[u8]) -> &[u8]
    requires { IfSome place (λ at. at < length text.now) }
    ensures { result.now ≡ before place text.now }
{
    match place {
        None => text,
        Some(place) => &text[..place],
    }
}

/// What stands behind a place.
pub(crate) fn behind(text: &[u8], place: usize) -> &[u8]
    requires { place < length text.now }
    ensures rest { result.now ≡ drop (place + 1) text.now }
    ensures shorter { length result.now < length text.now }
{
    &text[place + 1..]
}

/// What stands from a place on.
fn from(place: Option<usize>, text: &[u8]) -> &[u8]
    requires { IfSome place (λ at. at < length text.now) }
    ensures rest { result.now ≡ from place text.now }
    ensures shorter { length result.now ≤ length text.now }
{
    match place {
        None => &[],
        Some(place) => &text[place..],
    }
}

/// The line from its first word on.
#[tactic(auto, unfolding(crate::specs::Words::stripped))]
pub(crate) fn strip(line: &[u8]) -> &[u8]
    ensures rest { result.now ≡ stripped line.now }
    ensures shorter { length result.now ≤ length line.now }
{
    from(first_letter(line), line)
}

/// The word at the beginning of the line.
#[tactic(auto, unfolding(crate::specs::Words::word_of))]
pub(crate) fn word_of(line: &[u8]) -> &[u8]
    ensures { result.now ≡ word_of line.now }
{
    before(first_space(line), line)
}

/// What stands behind the word at the beginning of the line.
#[tactic(auto, unfolding(crate::specs::Words::rest_of))]
pub(crate) fn rest_of(line: &[u8]) -> &[u8]
    ensures rest { result.now ≡ rest_of line.now }
    ensures shorter { length result.now ≤ length line.now }
{
    from(first_space(line), line)
}

/// Whether a text has no bytes.
pub(crate) fn is_empty(text: &[u8]) -> bool
    ensures { result ≡ is_empty text.now }
{
    match text {
        [] => true,
        [_, ..] => false,
    }
}
