//! Words of a line: what stands between spaces and tabs.

ghost use Rattle.std.specs.Prelude.{◌≡◌, ◌<◌, ◌≤◌, IfSome, drop, length, not, option_copied, option_map, position};
ghost use Rattle.std.specs.Str.{bytes_eq};
ghost use Rattle.otp_script.specs.Spaced.{begins_comment, begins_digit, behind, end_after_last, is_space, without_comment, word_in, word_to};

/// Whether the word is this text.
pub fn is_text(word: &[u8], text: &[u8]) -> bool
    ensures { result ≡ bytes_eq word.now text.now }
{
    word == text
}

/// Whether the byte stands between words.
#[tactic(auto, unfolding(crate::specs::Spaced::is_space))]
pub(crate) fn is_space(byte: u8) -> bool
    ensures { result ≡ is_space byte }
{
    matches!(byte, b' ' | b'\t' | b'\r')
}

/// The place of the first byte that stands between words.
fn first_space(line: &[u8]) -> Option<usize>
    ensures place { result ≡ position is_space line.now }
    ensures inside { IfSome result (λ place. place < length line.now) }
{
    line.iter().position(|byte| is_space(*byte))
}

/// The place of the first byte of a word.
fn first_letter(line: &[u8]) -> Option<usize>
    ensures place { result ≡ position (λ byte. not (is_space byte)) line.now }
    ensures inside { IfSome result (λ place. place < length line.now) }
{
    line.iter().position(|byte| !is_space(*byte))
}

/// The place after the last such byte, or 0 where there is none.
fn end_after_last(text: &[u8], byte: u8) -> usize
    ensures place { result ≡ end_after_last byte text.now }
    ensures inside { result ≤ length text.now }
{
    let mut end = 0;
    for place in 0..text.len() {
        if text[place] == byte {
            end = place + 1;
        }
    }
    end
}

/// The place after the last `/`, or 0 where there is none.
pub(crate) fn end_of_path(word: &[u8]) -> usize
    ensures place { result ≡ end_after_last 47 word.now }
    ensures inside { result ≤ length word.now }
{
    end_after_last(word, b'/')
}

/// What stands behind this text at the beginning of a word.
#[tactic(auto, unfolding(crate::specs::Spaced::behind))]
pub(crate) fn behind<'a>(text: &[u8], word: &'a [u8]) -> Option<&'a [u8]>
    ensures { option_copied result ≡ behind text.now word.now }
{
    word.strip_prefix(text)
}

/// Whether a digit comes next.
fn is_digit_next(rest: &[u8]) -> bool
    ensures { result ≡ begins_digit rest.now }
{
    match rest.first() {
        Some(byte) => byte.is_ascii_digit(),
        None => false,
    }
}

/// Whether a comment comes next: a `#` with no digit behind it, since `#3` is a process.
#[tactic(auto, unfolding(crate::specs::Spaced::begins_comment))]
fn is_comment_next(rest: &[u8]) -> bool
    ensures { result ≡ begins_comment rest.now }
{
    match rest {
        [b'#', rest @ ..] => !is_digit_next(rest),
        _ => false,
    }
}

/// What stands from a place on.
fn from(line: &[u8], place: usize) -> &[u8]
    requires { place ≤ length line.now }
    ensures { result.now ≡ drop place line.now }
{
    &line[place..]
}

/// The line without its comment, which has a space before it.
pub(crate) fn strip_comment(line: &[u8]) -> &[u8]
    ensures { result.now ≡ without_comment line.now }
{
    for place in 1..line.len() {
        if is_space(line[place - 1]) && is_comment_next(from(line, place)) {
            return &line[..place];
        }
    }
    line
}

/// The line without the CR that stands before its LF.
pub fn strip_return(line: &[u8]) -> &[u8] {
    line.strip_suffix(b"\r").unwrap_or(line)
}

/// The first word, which has at least one byte, and what stands after it; `None` where there is none.
#[tactic(auto, unfolding(crate::specs::Spaced::word_in, crate::specs::Spaced::word_from))]
pub fn next_word(line: &[u8]) -> Option<(&[u8], &[u8])>
    ensures word { option_map (λ found. (found.0.now, found.1.now)) result ≡ word_in line.now }
    ensures some { IfSome result (λ found. 0 < length found.0.now) }
{
    let first = first_letter(line)?;
    word_of(&line[first..])
}

/// The word that a line begins with, and what stands after it.
#[tactic(auto, unfolding(crate::specs::Spaced::word_to))]
fn word_of(line: &[u8]) -> Option<(&[u8], &[u8])>
    ensures word { option_map (λ found. (found.0.now, found.1.now)) result ≡ word_to line.now (position is_space line.now) }
    ensures some { 0 < length line.now → IfSome result (λ found. 0 < length found.0.now) }
{
    match first_space(line) {
        None => Some((line, &[])),
        Some(0) => None,
        Some(end) => Some((&line[..end], &line[end..])),
    }
}
