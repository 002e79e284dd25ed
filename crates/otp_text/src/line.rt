//! Lines as they are read.

ghost use Rattle.std.specs.Prelude.{◌≡◌, ◌≤◌, IfSome, IfNone, Some, None, option_copied};
ghost use Rattle.std.specs.Option.{option_map};
ghost use Rattle.otp_spec.specs.declared.limits.TheConstants.{MAX_READING};
ghost use Rattle.otp_text.specs.declared.line.Line.TheVariants as said;
ghost use Rattle.otp_text.specs.Words.{words_of, words_left};
ghost use Rattle.otp_text.specs.Lines.{number_in, one_number, one_name, number_and_reason, two_names, spec_named, spec_in, start_in, terminate_in, one_terminate, call_of, note_of, note_with, line_with, line_of_words, line_of, line_without_verb, IsTimely};

use crate::digits::{cut_number, whole_number};
use crate::verb::Verb;
use crate::word::{
    cut, first_word, is_end, last_word, read_bool, read_last_reason, read_name, read_number,
    read_reason, read_shutdown,
};
use otp_reason::{Name, Note, Reason};
use otp_rules::Call;
use otp_spec::{ChildSpec, ChildType, MAX_READING, Modules, Restart};

/// The most bytes of a line, without its end.
pub const LONGEST_LINE: usize = 512;

/// What a line says.
#[derive(Clone, Copy, Debug, PartialEq, Eq)]
pub enum Line {
    /// Nothing.
    Empty,
    /// The clock's reading from now on, in milliseconds.
    At(u64),
    /// What a process tells its supervisor.
    Note(Note),
    /// The parent asks the supervisor to shut down.
    Stop,
    Call(Call),
}

/// The line that these bytes are, without their end of line; `None` for any other form and for more than 512 bytes.
pub fn read_line(line: &[u8]) -> Option<Line>
    ensures line { result ≡ line_of line.now }
    ensures time { IfSome result IsTimely }
{
    match cut_verb(line) {
        Some((verb, rest)) => read_line_with(verb, rest),
        None => read_without_verb(line),
    }
}

/// A line's verb, and what stands after it. There is no verb where the line is empty, has more than 512 bytes, or begins with
/// another word.
///
/// What the line says is then read by [`read_line_with`], or by [`read_note_with`] where it may be a note. Where there is no
/// verb, [`read_without_verb`] reads it.
#[tactic(auto, unfolding(crate::specs::Lines::line_of, crate::specs::Lines::line_without_verb))]
pub fn cut_verb(line: &[u8]) -> Option<(Verb, Option<&[u8]>)>
    ensures verb { IfSome result (λ found. line_of line.now ≡ line_with found.0 (words_left (option_copied found.1))) }
    ensures none { IfNone result (line_of line.now ≡ line_without_verb line.now) }
{
    if line.is_empty() || line.len() > LONGEST_LINE {
        return None;
    }
    cut_words(line)
}

/// The verb of these words, and what stands after it. The two that most lines begin with are found by their bytes.
#[tactic(auto, unfolding(crate::specs::Lines::line_of_words, crate::specs::Lines::verb_of))]
fn cut_words(line: &[u8]) -> Option<(Verb, Option<&[u8]>)>
    ensures verb { IfSome result (λ found. line_of_words (words_of line.now) ≡ line_with found.0 (words_left (option_copied found.1))) }
    ensures none { IfNone result (line_of_words (words_of line.now) ≡ None) }
{
    match line {
        [b'u', b'p', b' ', rest @ ..] => Some((Verb::Up, Some(rest))),
        [b'e', b'x', b'i', b't', b' ', rest @ ..] => Some((Verb::Exit, Some(rest))),
        _ => cut_any_words(line),
    }
}

/// The verb of these words, whatever it is, and what stands after it.
#[tactic(auto, unfolding(crate::specs::Lines::line_of_words))]
fn cut_any_words(line: &[u8]) -> Option<(Verb, Option<&[u8]>)>
    ensures verb { IfSome result (λ found. line_of_words (words_of line.now) ≡ line_with found.0 (words_left (option_copied found.1))) }
    ensures none { IfNone result (line_of_words (words_of line.now) ≡ None) }
{
    let (word, rest) = cut(line);
    let verb = Verb::of_word(word)?;
    Some((verb, rest))
}

/// What a line says that has no verb, as [`cut_verb`] found: nothing where it is empty; `None` for any other form.
#[tactic(auto, unfolding(crate::specs::Lines::line_without_verb))]
pub fn read_without_verb(line: &[u8]) -> Option<Line>
    ensures line { result ≡ line_without_verb line.now }
    ensures time { IfSome result IsTimely }
{
    if line.is_empty() {
        Some(Line::Empty)
    } else {
        None
    }
}

/// The note of a verb and the words after it; `None` for any other line, and for one that has no form.
///
/// It is what [`read_line_with`] says, in a value a third as large: most lines are notes.
#[tactic(auto, unfolding(crate::specs::Lines::line_with, crate::specs::Lines::note_with))]
pub fn read_note_with(verb: Verb, rest: Option<&[u8]>) -> Option<Note>
    ensures with { result ≡ note_with verb (words_left (option_copied rest.entry)) }
    ensures note { result ≡ note_of (line_with verb (words_left (option_copied rest.entry))) }
    ensures line { IfSome result (λ note. line_with verb (words_left (option_copied rest.entry)) ≡ Some (said.Note note)) }
{
    match verb {
        Verb::Up => Some(Note::Up(read_one_number(rest)?)),
        Verb::Ignore => Some(Note::Ignored(read_one_number(rest)?)),
        Verb::Fail => {
            let (number, reason) = read_number_and_reason(rest)?;
            Some(Note::Failed(number, reason))
        }
        Verb::Exit => {
            let (number, reason) = read_number_and_reason(rest)?;
            Some(Note::Exit(number, reason))
        }
        _ => None,
    }
}

/// The line of a verb and the words after it.
#[tactic(auto, unfolding(crate::specs::Lines::line_with, crate::specs::Lines::note_with))]
pub fn read_line_with(verb: Verb, rest: Option<&[u8]>) -> Option<Line>
    ensures line { result ≡ line_with verb (words_left (option_copied rest.entry)) }
    ensures time { IfSome result IsTimely }
{
    match verb {
        Verb::At => Some(Line::At(read_one_number(rest)?)),
        Verb::Up | Verb::Ignore | Verb::Fail | Verb::Exit => {
            Some(Line::Note(read_note_with(verb, rest)?))
        }
        Verb::Stop if is_end(rest) => Some(Line::Stop),
        Verb::Stop => None,
        Verb::Start
        | Verb::Restart
        | Verb::Delete
        | Verb::Terminate
        | Verb::Get
        | Verb::Which
        | Verb::Count => Some(Line::Call(read_call(verb, rest)?)),
    }
}

/// The call of a verb and the words after it.
#[tactic(auto, unfolding(crate::specs::Lines::call_of))]
fn read_call(verb: Verb, rest: Option<&[u8]>) -> Option<Call>
    ensures { result ≡ call_of verb (words_left (option_copied rest.entry)) }
{
    match verb {
        Verb::Start => read_start(rest),
        Verb::Restart => Some(Call::RestartChild(read_one_name(rest)?)),
        Verb::Delete => Some(Call::DeleteChild(read_one_name(rest)?)),
        Verb::Terminate => read_terminate(rest),
        Verb::Get => Some(Call::GetChildspec(read_one_name(rest)?)),
        Verb::Which if is_end(rest) => Some(Call::WhichChildren),
        Verb::Count if is_end(rest) => Some(Call::CountChildren),
        Verb::Which | Verb::Count => None,
        Verb::At | Verb::Up | Verb::Ignore | Verb::Fail | Verb::Exit | Verb::Stop => None,
    }
}

/// start_child: with the specification of six words, or with none.
#[tactic(auto, unfolding(crate::specs::Lines::start_in))]
fn read_start(rest: Option<&[u8]>) -> Option<Call>
    ensures { result ≡ start_in (words_left (option_copied rest.entry)) }
{
    if is_end(rest) {
        return Some(Call::StartDynamic);
    }
    Some(Call::StartChild(read_spec(rest)?))
}

/// A specification of six words, with the default for its modules.
#[tactic(auto, unfolding(crate::specs::Lines::spec_in))]
fn read_spec(rest: Option<&[u8]>) -> Option<ChildSpec>
    ensures { result ≡ spec_in (words_left (option_copied rest.entry)) }
{
    let ((id, start), rest) = read_two_names(rest)?;
    read_keys(id, start, rest)
}

/// An id and a start function's module, and what is left after them.
#[tactic(auto, unfolding(crate::specs::Lines::two_names))]
fn read_two_names(rest: Option<&[u8]>) -> Option<((Name, Name), Option<&[u8]>)>
    ensures { option_map (λ found. (found.0, words_left (option_copied found.1))) result ≡ two_names (words_left (option_copied rest.entry)) }
{
    let (word, rest) = first_word(rest)?;
    let id = read_name(word)?;
    let (word, rest) = first_word(rest)?;
    let start = read_name(word)?;
    Some(((id, start), rest))
}

/// The specification with these names and the four words of its other keys.
#[tactic(auto, unfolding(crate::specs::Lines::spec_named))]
fn read_keys(id: Name, start: Name, rest: Option<&[u8]>) -> Option<ChildSpec>
    ensures { result ≡ spec_named id start (words_left (option_copied rest.entry)) }
{
    let (word, rest) = first_word(rest)?;
    let restart = Restart::of_word(word)?;
    let (word, rest) = first_word(rest)?;
    let significant = read_bool(word)?;
    let (word, rest) = first_word(rest)?;
    let shutdown = read_shutdown(word)?;
    let kind = ChildType::of_word(last_word(rest)?)?;
    Some(ChildSpec {
        id,
        start,
        restart,
        significant,
        shutdown,
        kind,
        modules: Modules::One(start),
    })
}

/// terminate_child, by id or by process number.
#[tactic(auto, unfolding(crate::specs::Lines::one_terminate))]
fn read_terminate(rest: Option<&[u8]>) -> Option<Call>
    ensures { result ≡ one_terminate (words_left (option_copied rest.entry)) }
{
    read_child(last_word(rest)?)
}

/// Who is terminated: a process number after `#`, or an id.
#[tactic(auto, unfolding(crate::specs::Lines::terminate_in))]
pub(crate) fn read_child(word: &[u8]) -> Option<Call>
    ensures { result ≡ terminate_in word.now }
{
    match word.strip_prefix(b"#") {
        Some(number) => Some(Call::TerminateProcess(read_any_number(number)?)),
        None => Some(Call::TerminateChild(read_name(word)?)),
    }
}

/// A clock's reading or a process number.
#[tactic(auto, unfolding(crate::specs::Lines::number_in))]
pub(crate) fn read_any_number(word: &[u8]) -> Option<u64>
    ensures number { result ≡ number_in word.now }
    ensures within { IfSome result (λ number. number ≤ MAX_READING) }
{
    read_number(MAX_READING, word)
}

/// One word, a number.
#[tactic(auto, unfolding(crate::specs::Lines::one_number, crate::specs::Words::only_word))]
fn read_one_number(rest: Option<&[u8]>) -> Option<u64>
    ensures number { result ≡ one_number (words_left (option_copied rest.entry)) }
    ensures within { IfSome result (λ number. number ≤ MAX_READING) }
{
    let line = rest?;
    match whole_number(line) {
        Some(number) => Some(number),
        None => read_any_number(last_word(Some(line))?),
    }
}

/// One word, a name.
#[tactic(auto, unfolding(crate::specs::Lines::one_name))]
fn read_one_name(rest: Option<&[u8]>) -> Option<Name>
    ensures { result ≡ one_name (words_left (option_copied rest.entry)) }
{
    read_name(last_word(rest)?)
}

/// Two words, a process number and a reason.
#[tactic(auto, unfolding(crate::specs::Lines::number_and_reason, crate::specs::Lines::with_number))]
fn read_number_and_reason(rest: Option<&[u8]>) -> Option<(u64, Reason)>
    ensures { result ≡ number_and_reason (words_left (option_copied rest.entry)) }
{
    let line = rest?;
    match cut_number(line) {
        Some((number, last)) => Some((number, read_last_reason(last)?)),
        None => read_words(rest),
    }
}

/// Two words, a process number and a reason, read one after the other.
#[tactic(auto, unfolding(crate::specs::Lines::number_and_reason))]
fn read_words(rest: Option<&[u8]>) -> Option<(u64, Reason)>
    ensures { result ≡ number_and_reason (words_left (option_copied rest.entry)) }
{
    let (word, rest) = first_word(rest)?;
    let number = read_any_number(word)?;
    let reason = read_reason(last_word(rest)?)?;
    Some((number, reason))
}
