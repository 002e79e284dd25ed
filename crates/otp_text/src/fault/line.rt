//! Which fault of a line comes first.

ghost use Rattle.std.specs.Prelude.{◌≡◌, ◌==◌, nat_le, option_copied};
ghost use Rattle.std.specs.List.{list_all, list_any};
ghost use Rattle.otp_text.specs.LineFaults.{exit_fault, extra_fault, first_fault, is_of_script, line_fault, module_fault, number_fault, one_name_fault, one_number_fault, one_reason_fault, reason_fault, rest_fault, restart_fault, shutdown_fault, significant_fault, start_fault, strange_fault, terminate_fault, type_fault, verb_fault, word_fault};
ghost use Rattle.otp_text.specs.Letters.{letter_in};
ghost use Rattle.otp_text.specs.Lines.{verb_of};
ghost use Rattle.otp_text.specs.Words.{is_digit, words_left};

use super::letter::strange_letter;
use super::text::LineFault;
use crate::line::{LONGEST_LINE, read_any_number, read_child};
use crate::verb::Verb;
use crate::word::{
    are_digits, cut, first_word, is_text, read_bool, read_name, read_reason, read_shutdown,
};
use otp_spec::{ChildType, Restart};

/// Why a line has no form that is read: its first fault from the left. What it says of a line that has one means nothing.
#[tactic(auto, unfolding(crate::specs::LineFaults::line_fault))]
pub fn line_fault(line: &[u8]) -> LineFault
    ensures { result ≡ line_fault line.now }
{
    if line.len() > LONGEST_LINE {
        return LineFault::TooLong;
    }
    let (word, rest) = cut(line);
    verb_fault(word, rest)
}

/// What is wrong with a line that begins with this word.
fn verb_fault(word: &[u8], rest: Option<&[u8]>) -> LineFault
    ensures { result ≡ verb_fault (verb_of word.now) word.now (words_left (option_copied rest.entry)) }
{
    match Verb::of_word(word) {
        None => word_fault(first_fault(word), word),
        Some(verb) => rest_fault(verb, rest),
    }
}

/// What is wrong with the words behind a verb.
#[tactic(auto, unfolding(crate::specs::LineFaults::rest_fault))]
fn rest_fault(verb: Verb, rest: Option<&[u8]>) -> LineFault
    ensures { result ≡ rest_fault verb (words_left (option_copied rest.entry)) }
{
    match verb {
        Verb::At => one_number_fault(LineFault::BadReading, rest),
        Verb::Up | Verb::Ignore => one_number_fault(LineFault::BadNumber, rest),
        Verb::Fail | Verb::Exit => exit_fault(rest),
        Verb::Start => start_fault(rest),
        Verb::Restart | Verb::Delete | Verb::Get => one_name_fault(rest),
        Verb::Terminate => terminate_fault(rest),
        Verb::Stop | Verb::Which | Verb::Count => extra_fault(rest),
    }
}

/// A first word that is no verb.
#[tactic(auto, unfolding(crate::specs::LineFaults::first_fault))]
fn first_fault(word: &[u8]) -> LineFault
    ensures { result ≡ first_fault word.now }
{
    if word.starts_with(b"#") {
        LineFault::Comment
    } else if is_of_script(word) {
        LineFault::OfScript
    } else {
        LineFault::UnknownVerb
    }
}

/// Whether a line of a script may begin with it, and no line here.
#[tactic(auto, unfolding(crate::specs::LineFaults::is_of_script))]
fn is_of_script(word: &[u8]) -> bool
    ensures { result ≡ is_of_script word.now }
{
    is_text(word, b"crash")
        || is_text(word, b"hang")
        || is_text(word, b"slow")
        || is_text(word, b"expect")
        || is_text(word, b"every")
        || is_text(word, b"init")
}

/// What is wrong with a word that isn't the wanted one: what its bytes show, or else that.
#[tactic(auto, unfolding(crate::specs::LineFaults::word_fault))]
fn word_fault(wanted: LineFault, word: &[u8]) -> LineFault
    ensures { result ≡ word_fault wanted word.now }
{
    if has_strange(word) {
        strange_fault(word)
    } else if has_return(word) {
        LineFault::HasReturn
    } else if !word.is_empty() && !has_tab(word) {
        wanted
    } else {
        LineFault::OtherBlank
    }
}

/// A word that has a byte outside of ASCII.
fn strange_fault(word: &[u8]) -> LineFault
    ensures { result ≡ strange_fault (letter_in word.now) }
{
    match strange_letter(word) {
        None => LineFault::StrangeLetter,
        Some(letter) => LineFault::Alike(letter),
    }
}

/// Whether a byte is outside of ASCII.
fn has_strange(word: &[u8]) -> bool
    ensures { result ≡ list_any (nat_le 128) word.now }
{
    word.iter().any(|byte| *byte >= 128)
}

/// Whether a byte is CR.
fn has_return(word: &[u8]) -> bool
    ensures { result ≡ list_any (λ byte. byte == 13) word.now }
{
    word.iter().any(|byte| *byte == b'\r')
}

/// Whether a byte is a tab.
fn has_tab(word: &[u8]) -> bool
    ensures { result ≡ list_any (λ byte. byte == 9) word.now }
{
    word.iter().any(|byte| *byte == b'\t')
}

/// Words behind the last that a line may have.
#[tactic(auto, unfolding(crate::specs::LineFaults::extra_fault))]
fn extra_fault(rest: Option<&[u8]>) -> LineFault
    ensures { result ≡ extra_fault (words_left (option_copied rest.entry)) }
{
    match first_word(rest) {
        None => LineFault::TooManyWords,
        Some((word, _)) => word_fault(LineFault::TooManyWords, word),
    }
}

/// A word that is no number: what it has, or what was wanted.
#[tactic(auto, unfolding(crate::specs::LineFaults::number_fault))]
fn number_fault(wanted: LineFault, word: &[u8]) -> LineFault
    ensures { result ≡ number_fault wanted word.now }
{
    if word.starts_with(b"#") {
        LineFault::SignedNumber
    } else if word.starts_with(b"0") {
        wanted
    } else if !word.is_empty() && are_digits(word) {
        LineFault::LargeNumber
    } else {
        wanted
    }
}

/// A word that is no reason.
#[tactic(auto, unfolding(crate::specs::LineFaults::reason_fault))]
fn reason_fault(word: &[u8]) -> LineFault
    ensures { result ≡ reason_fault word.now }
{
    if word.starts_with(b"error:") {
        LineFault::BadTerm
    } else if word.starts_with(b"shutdown:") {
        LineFault::BadTerm
    } else {
        LineFault::BadReason
    }
}

/// Words that aren't one number.
#[tactic(auto, unfolding(crate::specs::LineFaults::one_number_fault))]
fn one_number_fault(wanted: LineFault, rest: Option<&[u8]>) -> LineFault
    ensures { result ≡ one_number_fault wanted (words_left (option_copied rest.entry)) }
{
    let Some((word, rest)) = first_word(rest) else {
        return LineFault::MissingNumber;
    };
    match read_any_number(word) {
        None => word_fault(number_fault(wanted, word), word),
        Some(_) => extra_fault(rest),
    }
}

/// Words that aren't a process number and a reason.
#[tactic(auto, unfolding(crate::specs::LineFaults::exit_fault))]
fn exit_fault(rest: Option<&[u8]>) -> LineFault
    ensures { result ≡ exit_fault (words_left (option_copied rest.entry)) }
{
    let Some((word, rest)) = first_word(rest) else {
        return LineFault::MissingNumber;
    };
    match read_any_number(word) {
        None => word_fault(number_fault(LineFault::BadNumber, word), word),
        Some(_) => one_reason_fault(rest),
    }
}

/// Words that aren't one reason.
#[tactic(auto, unfolding(crate::specs::LineFaults::one_reason_fault))]
fn one_reason_fault(rest: Option<&[u8]>) -> LineFault
    ensures { result ≡ one_reason_fault (words_left (option_copied rest.entry)) }
{
    let Some((word, rest)) = first_word(rest) else {
        return LineFault::MissingReason;
    };
    match read_reason(word) {
        None => word_fault(reason_fault(word), word),
        Some(_) => extra_fault(rest),
    }
}

/// Words that aren't one id.
#[tactic(auto, unfolding(crate::specs::LineFaults::one_name_fault))]
fn one_name_fault(rest: Option<&[u8]>) -> LineFault
    ensures { result ≡ one_name_fault (words_left (option_copied rest.entry)) }
{
    let Some((word, rest)) = first_word(rest) else {
        return LineFault::MissingName;
    };
    match read_name(word) {
        None => word_fault(LineFault::BadName, word),
        Some(_) => extra_fault(rest),
    }
}

/// Words that aren't one child to terminate.
#[tactic(auto, unfolding(crate::specs::LineFaults::terminate_fault))]
fn terminate_fault(rest: Option<&[u8]>) -> LineFault
    ensures { result ≡ terminate_fault (words_left (option_copied rest.entry)) }
{
    let Some((word, rest)) = first_word(rest) else {
        return LineFault::MissingName;
    };
    match read_child(word) {
        None => word_fault(LineFault::BadChild, word),
        Some(_) => extra_fault(rest),
    }
}

/// Words that aren't a specification.
#[tactic(auto, unfolding(crate::specs::LineFaults::start_fault))]
fn start_fault(rest: Option<&[u8]>) -> LineFault
    ensures { result ≡ start_fault (words_left (option_copied rest.entry)) }
{
    let Some((word, rest)) = first_word(rest) else {
        return LineFault::MissingName;
    };
    match read_name(word) {
        None => word_fault(LineFault::BadName, word),
        Some(_) => module_fault(rest),
    }
}

/// Words that aren't a module and the keys behind it.
#[tactic(auto, unfolding(crate::specs::LineFaults::module_fault))]
fn module_fault(rest: Option<&[u8]>) -> LineFault
    ensures { result ≡ module_fault (words_left (option_copied rest.entry)) }
{
    let Some((word, rest)) = first_word(rest) else {
        return LineFault::MissingKey;
    };
    match read_name(word) {
        None => word_fault(LineFault::BadName, word),
        Some(_) => restart_fault(rest),
    }
}

/// Words that aren't the keys from `restart` on.
#[tactic(auto, unfolding(crate::specs::LineFaults::restart_fault))]
fn restart_fault(rest: Option<&[u8]>) -> LineFault
    ensures { result ≡ restart_fault (words_left (option_copied rest.entry)) }
{
    let Some((word, rest)) = first_word(rest) else {
        return LineFault::MissingKey;
    };
    match Restart::of_word(word) {
        None => word_fault(LineFault::BadRestart, word),
        Some(_) => significant_fault(rest),
    }
}

/// Words that aren't the keys from `significant` on.
#[tactic(auto, unfolding(crate::specs::LineFaults::significant_fault))]
fn significant_fault(rest: Option<&[u8]>) -> LineFault
    ensures { result ≡ significant_fault (words_left (option_copied rest.entry)) }
{
    let Some((word, rest)) = first_word(rest) else {
        return LineFault::MissingKey;
    };
    match read_bool(word) {
        None => word_fault(LineFault::BadSignificant, word),
        Some(_) => shutdown_fault(rest),
    }
}

/// Words that aren't a shutdown and a type.
#[tactic(auto, unfolding(crate::specs::LineFaults::shutdown_fault))]
fn shutdown_fault(rest: Option<&[u8]>) -> LineFault
    ensures { result ≡ shutdown_fault (words_left (option_copied rest.entry)) }
{
    let Some((word, rest)) = first_word(rest) else {
        return LineFault::MissingKey;
    };
    match read_shutdown(word) {
        None => word_fault(LineFault::BadShutdown, word),
        Some(_) => type_fault(rest),
    }
}

/// Words that aren't one type.
#[tactic(auto, unfolding(crate::specs::LineFaults::type_fault))]
fn type_fault(rest: Option<&[u8]>) -> LineFault
    ensures { result ≡ type_fault (words_left (option_copied rest.entry)) }
{
    let Some((word, rest)) = first_word(rest) else {
        return LineFault::MissingKey;
    };
    match ChildType::of_word(word) {
        None => word_fault(LineFault::BadType, word),
        Some(_) => extra_fault(rest),
    }
}
