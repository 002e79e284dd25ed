//! Words of a line, and the values that they spell.

ghost use Rattle.std.specs.Prelude.{◌≡◌, ◌<◌, ◌≤◌, ◌==◌, ◌∷◌, length, position, drop, codes, Some, true, option_copied, IfSome};
ghost use Rattle.std.specs.List.{list_all};
ghost use Rattle.std.specs.Option.{option_map};
ghost use Rattle.std.specs.Str.{bytes_eq};
ghost use Rattle.std.specs.Str.Parse.{digits_value};
ghost use Rattle.otp_reason.specs.declared.reason.Reason.TheVariants as reason;
ghost use Rattle.otp_text.specs.Words.{words_of, words_left, no_words, take_word, only_word, is_digit, is_decimal, number_up_to, name_in, reason_in, one_reason, begins_with, bool_in, shutdown_in};

use otp_reason::{Name, Reason, Text};
use otp_spec::{MAX_SHUTDOWN, Shutdown};

/// The most digits of a number: what they spell fits in 64 bits.
const MOST_DIGITS: usize = 19;

/// The first word of a line, and what stands after the space behind it, if there is one.
pub(crate) fn cut(line: &[u8]) -> (&[u8], Option<&[u8]>)
    ensures { words_of line.now ≡ result.0.now ∷ words_left (option_copied result.1) }
{
    match first_space(line) {
        None => (line, None),
        Some(end) => (&line[..end], Some(&line[end + 1..])),
    }
}

/// The place of the first space.
fn first_space(line: &[u8]) -> Option<usize>
    ensures found { result ≡ position (λ byte. byte == 32) line.now }
    ensures inside { IfSome result (λ end. end < length line.now) }
{
    line.iter().position(|byte| *byte == b' ')
}

/// Whether no word is left.
pub(crate) fn is_end(rest: Option<&[u8]>) -> bool
    ensures { result ≡ no_words (words_left (option_copied rest.entry)) }
{
    match rest {
        None => true,
        Some(_) => false,
    }
}

/// The first of the words, and what is left.
pub(crate) fn first_word(rest: Option<&[u8]>) -> Option<(&[u8], Option<&[u8]>)>
    ensures { option_map (λ found. (found.0.now, words_left (option_copied found.1))) result ≡ take_word (words_left (option_copied rest.entry)) }
{
    let line = rest?;
    Some(cut(line))
}

/// The word, where it is the only one.
#[tactic(auto, unfolding(crate::specs::Words::only_word))]
pub(crate) fn last_word(rest: Option<&[u8]>) -> Option<&[u8]>
    ensures { option_copied result ≡ only_word (words_left (option_copied rest.entry)) }
{
    let (word, rest) = first_word(rest)?;
    if is_end(rest) { Some(word) } else { None }
}

/// Whether the word is this text.
pub(crate) fn is_text(word: &[u8], text: &[u8]) -> bool
    ensures { result ≡ bytes_eq word.now text.now }
{
    word == text
}

/// The number that a word spells, where it is at most the limit.
#[tactic(auto, unfolding(crate::specs::Words::number_up_to))]
pub fn read_number(limit: u64, word: &[u8]) -> Option<u64>
    ensures number { result ≡ number_up_to limit word.now }
    ensures within { IfSome result (λ number. number ≤ limit) }
{
    if !is_number(word) {
        return None;
    }
    let number = decimal_value(word);
    if number <= limit { Some(number) } else { None }
}

/// Whether the word is a decimal number without leading zeros, of at most [`MOST_DIGITS`].
#[tactic(auto, unfolding(crate::specs::Words::is_decimal))]
fn is_number(word: &[u8]) -> bool
    ensures { result ≡ is_decimal word.now }
{
    match word.len() {
        1 => are_digits(word),
        2..=MOST_DIGITS => are_digits(word) && word[0] != b'0',
        _ => false,
    }
}

/// Whether each byte is a digit.
pub(crate) fn are_digits(word: &[u8]) -> bool
    ensures { result ≡ list_all is_digit word.now }
{
    word.iter().all(|byte| matches!(byte, b'0'..=b'9'))
}

/// The number that the digits write.
fn decimal_value(word: &[u8]) -> u64
    requires { is_decimal word.now ≡ true }
    ensures { result ≡ digits_value 10 word.now }
{
    let mut value = 0;
    for byte in word {
        value = value * 10 + u64::from(*byte - b'0');
    }
    value
}

/// The lawful name that a word is.
#[tactic(auto, unfolding(crate::specs::Words::name_in))]
pub fn read_name(word: &[u8]) -> Option<Name>
    ensures { result ≡ name_in word.now }
{
    let name = Name::new(word)?;
    if name.is_lawful() { Some(name) } else { None }
}

/// The reason that is the only word of a line. Most lines end with an error, whose term holds no space: then no other word is
/// looked for.
#[tactic(auto, unfolding(crate::specs::Words::one_reason))]
pub(crate) fn read_last_reason(line: &[u8]) -> Option<Reason>
    ensures { result ≡ one_reason (words_of line.now) }
{
    if let Some(text) = error_term(line) {
        return Some(Reason::Error(text));
    }
    read_reason(last_word(Some(line))?)
}

/// The term of the error that a line is.
#[tactic(auto, using(crate::proofs::OnePass::error_line))]
fn error_term(line: &[u8]) -> Option<Text>
    ensures { IfSome result (λ text. one_reason (words_of line.now) ≡ Some (reason.Error text)) }
{
    let term = after_error(line)?;
    Text::new(term)
}

/// What stands after the word of an error.
fn after_error(line: &[u8]) -> Option<&[u8]>
    ensures word { IfSome result (λ term. begins_with (codes "error:") line.now ≡ true) }
    ensures term { IfSome result (λ term. term.now ≡ drop 6 line.now) }
{
    match line {
        [b'e', b'r', b'r', b'o', b'r', b':', term @ ..] => Some(term),
        _ => None,
    }
}

/// The reason that is printed so.
#[tactic(auto, unfolding(crate::specs::Words::reason_in, crate::specs::Values::reason_text))]
pub fn read_reason(word: &[u8]) -> Option<Reason>
    ensures { result ≡ reason_in word.now }
{
    // An error is the most frequent reason with a term, and is found by its bytes.
    if let [b'e', b'r', b'r', b'o', b'r', b':', term @ ..] = word
        && let Some(text) = Text::new(term)
    {
        return Some(Reason::Error(text));
    }
    read_any_reason(word)
}

/// The reason that is printed so, found by one comparison after another.
#[tactic(auto, unfolding(crate::specs::Words::reason_in, crate::specs::Values::reason_text))]
fn read_any_reason(word: &[u8]) -> Option<Reason>
    ensures { result ≡ reason_in word.now }
{
    if is_text(word, b"normal") {
        Some(Reason::Normal)
    } else if is_text(word, b"shutdown") {
        Some(Reason::Shutdown)
    } else if is_text(word, b"kill") {
        Some(Reason::Kill)
    } else if is_text(word, b"killed") {
        Some(Reason::Killed)
    } else if is_text(word, b"noproc") {
        Some(Reason::NoProc)
    } else if let Some(term) = word.strip_prefix(b"shutdown:") {
        Some(Reason::ShutdownWith(Text::new(term)?))
    } else if let Some(term) = word.strip_prefix(b"error:") {
        Some(Reason::Error(Text::new(term)?))
    } else {
        None
    }
}

/// The truth value that is printed so.
#[tactic(auto, unfolding(crate::specs::Words::bool_in, crate::specs::Values::bool_text))]
pub(crate) fn read_bool(word: &[u8]) -> Option<bool>
    ensures { result ≡ bool_in word.now }
{
    if is_text(word, b"true") {
        Some(true)
    } else if is_text(word, b"false") {
        Some(false)
    } else {
        None
    }
}

/// How a child is stopped: a word, or milliseconds below 2^32.
#[tactic(auto, unfolding(crate::specs::Words::shutdown_in))]
pub(crate) fn read_shutdown(word: &[u8]) -> Option<Shutdown>
    ensures { result ≡ shutdown_in word.now }
{
    match Shutdown::of_word(word) {
        Some(shutdown) => Some(shutdown),
        None => Some(Shutdown::Milliseconds(read_milliseconds(word)?)),
    }
}

/// Milliseconds below 2^32.
fn read_milliseconds(word: &[u8]) -> Option<u32>
    ensures { result ≡ number_up_to MAX_SHUTDOWN word.now }
{
    let number = read_number(MAX_SHUTDOWN, word)?;
    Some(number as u32)
}
