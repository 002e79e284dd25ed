//! Lines of a script, as they are read.

ghost use Rattle.std.specs.Prelude.{◌≡◌, ◌≤◌, ◌<◌, Err, IfOk, IsTrue, [], length, option_copied};
ghost use Rattle.otp_reason.specs.Texts.{is_lawful_text};
ghost use Rattle.otp_script.specs.Lines.{action_by, action_in, at_end, at_in, call_in, called_by, child_in, child_of, crash_in, error_of, every_in, exit_in, expect_in, expected_by, fail_in, fault_of_reason, hang_in, has_path, id_in, ignore_in, init_in, is_call, is_call_of_child, is_path, last_reason, meant, named, plain_fault, plain_in, restarts_in, said_in, saying, saying_in, slow_in, spoken, standing_in, standing_of, standing_of_all, text_of_reason, timed, times_in, under, when_by, when_in};
ghost use Rattle.otp_script.specs.Read.{IsEnded, read_as};
ghost use Rattle.otp_script.specs.Said.{call_said};
ghost use Rattle.otp_script.specs.Spaced.{name_behind, path_in, spaced, word_in};
ghost use Rattle.otp_script.specs.declared.fault.ScriptFault.TheVariants.{TooLong};
ghost use Rattle.otp_script.specs.declared.read.TheConstants.{MOST_REPEATS};
ghost use Rattle.otp_text.specs.Lines.{line_of};
ghost use Rattle.otp_text.specs.declared.line.TheConstants.{LONGEST_LINE};

use crate::fault::ScriptFault;
use crate::spaced::Spaced;
use crate::step::{Action, Child, Expected, NextStart, Step, When};
use crate::time::{next_time, read_time};
use crate::words::{behind, end_of_path, is_text, next_word, strip_comment};
use otp_reason::{Name, Reason, TEXT_SIZE, Text};
use otp_rules::Call;
use otp_spec::MAX_READING;
use otp_text::{LONGEST_LINE, Line, read_line, read_name, read_number, read_reason};

/// The most times that one line may happen.
const MOST_REPEATS: u64 = 10_000;

/// What is said to the supervisor with this path.
#[derive(Clone, Copy, Debug, PartialEq, Eq)]
struct Said<'a> {
    path: &'a [u8],
    action: Action,
}

/// What is said to the root.
fn to_root<'a>(action: Action) -> Said<'a>
    ensures { spoken result.path.now result.action ≡ spoken [] action }
{
    Said { path: &[], action }
}

/// A child of the supervisor with this path, and what is left of the line.
#[derive(Clone, Copy, Debug, PartialEq, Eq)]
struct Meant<'a> {
    path: &'a [u8],
    child: Child,
    rest: &'a [u8],
}

/// An id, with the path before it, and what is left of the line.
#[derive(Clone, Copy, Debug, PartialEq, Eq)]
struct Named<'a> {
    path: &'a [u8],
    id: Name,
    rest: &'a [u8],
}

/// Reads a line, without its LF. Empty lines and lines that begin with `#` say nothing; spaces, tabs and a CR at the end
/// don't count, nor does a comment, which begins with a `#` that has a space before it and no digit behind it.
///
/// # Errors
///
/// The first fault from the left.
#[tactic(auto, unfolding(crate::specs::Lines::saying_in, crate::specs::Lines::timed, crate::specs::Lines::spoken))]
pub fn read_step(line: &[u8]) -> Result<Step<'_>, ScriptFault>
    ensures says { read_as (λ step. saying step.when step.times step.path.now step.action) result ≡ saying_in line.now }
    ensures long { LONGEST_LINE < length line.now → result ≡ Err TooLong }
    ensures once { IfOk result (λ step. 0 < step.times) }
    ensures often { IfOk result (λ step. step.times ≤ MOST_REPEATS) }
{
    if line.len() > LONGEST_LINE {
        return Err(ScriptFault::TooLong);
    }
    let timed = read_when(strip_comment(line))?;
    let said = read_said(timed.rest)?;
    Ok(Step {
        when: timed.when,
        times: timed.times,
        path: said.path,
        action: said.action,
    })
}

/// When a line happens and how often, and what is left of it.
#[derive(Clone, Copy, Debug, PartialEq, Eq)]
struct Timed<'a> {
    when: When,
    times: u64,
    rest: &'a [u8],
}

/// It happens once at this time, and this is left of the line.
fn once<'a>(when: When, rest: &'a [u8]) -> Timed<'a>
    ensures value { timed result.when result.times result.rest.now ≡ timed when 1 rest.now }
    ensures times { result.times ≡ 1 }
{
    Timed {
        when,
        times: 1,
        rest,
    }
}

/// When the line happens and how often, and what is left of it.
#[tactic(auto, unfolding(crate::specs::Lines::when_in, crate::specs::Lines::when_found))]
fn read_when(line: &[u8]) -> Result<Timed<'_>, ScriptFault>
    ensures says { read_as (λ at. timed at.when at.times at.rest.now) result ≡ when_in line.now }
    ensures once { IfOk result (λ timed. 0 < timed.times) }
    ensures often { IfOk result (λ timed. timed.times ≤ MOST_REPEATS) }
{
    match next_word(line) {
        None => Ok(once(When::Now, line)),
        Some((word, rest)) => read_when_by(word, rest, line),
    }
}

/// When a line happens that begins with this word, behind which this is left of it.
#[tactic(auto, unfolding(crate::specs::Lines::when_by, crate::specs::Lines::after_in))]
fn read_when_by<'a>(word: &[u8], rest: &'a [u8], line: &'a [u8]) -> Result<Timed<'a>, ScriptFault>
    ensures says { read_as (λ at. timed at.when at.times at.rest.now) result ≡ when_by word.now rest.now line.now }
    ensures once { IfOk result (λ timed. 0 < timed.times) }
    ensures often { IfOk result (λ timed. timed.times ≤ MOST_REPEATS) }
{
    if is_text(word, b"at") {
        return read_at(rest);
    }
    if is_text(word, b"every") {
        return read_every(rest);
    }
    match behind(b"+", word) {
        None => Ok(once(When::Now, line)),
        Some(number) => {
            let (time, rest) = read_time(number, rest)?;
            Ok(once(When::After(time), rest))
        }
    }
}

/// `TIME`: it happens once, so long after the beginning.
#[tactic(auto, unfolding(crate::specs::Lines::at_in))]
fn read_at(line: &[u8]) -> Result<Timed<'_>, ScriptFault>
    ensures says { read_as (λ at. timed at.when at.times at.rest.now) result ≡ at_in line.now }
    ensures once { IfOk result (λ timed. 0 < timed.times) }
    ensures often { IfOk result (λ timed. timed.times ≤ MOST_REPEATS) }
{
    let (time, rest) = next_time(line)?;
    Ok(once(When::At(time), rest))
}

/// `TIME N times`: it happens so often, each time so long after the time before.
#[tactic(auto, unfolding(crate::specs::Lines::every_in))]
fn read_every(line: &[u8]) -> Result<Timed<'_>, ScriptFault>
    ensures says { read_as (λ at. timed at.when at.times at.rest.now) result ≡ every_in line.now }
    ensures once { IfOk result (λ timed. 0 < timed.times) }
    ensures often { IfOk result (λ timed. timed.times ≤ MOST_REPEATS) }
{
    let (time, rest) = next_time(line)?;
    let (times, rest) = read_times(rest)?;
    Ok(Timed {
        when: When::After(time),
        times,
        rest,
    })
}

/// `N times`, and what is left after it.
#[tactic(auto, unfolding(crate::specs::Lines::times_in, crate::specs::Lines::times_of))]
fn read_times(line: &[u8]) -> Result<(u64, &[u8]), ScriptFault>
    ensures says { read_as (λ times. (times.0, times.1.now)) result ≡ times_in line.now }
    ensures once { IfOk result (λ times. 0 < times.0) }
    ensures often { IfOk result (λ times. times.0 ≤ MOST_REPEATS) }
{
    let Some((number, rest)) = next_word(line) else {
        return Err(ScriptFault::BadTimes);
    };
    let Some((word, rest)) = next_word(rest) else {
        return Err(ScriptFault::BadTimes);
    };
    let Some(times) = read_number(MOST_REPEATS, number) else {
        return Err(ScriptFault::BadTimes);
    };
    if times > 0 && is_text(word, b"times") {
        Ok((times, rest))
    } else {
        Err(ScriptFault::BadTimes)
    }
}

/// What happens by the words that are left, of which the first may be the path of the supervisor to which it is said.
#[tactic(auto, unfolding(crate::specs::Lines::said_in, crate::specs::Lines::said_found))]
fn read_said(line: &[u8]) -> Result<Said<'_>, ScriptFault>
    ensures { read_as (λ said. spoken said.path.now said.action) result ≡ said_in line.now }
{
    let Some((word, rest)) = next_word(line) else {
        return Ok(to_root(Action::Nothing));
    };
    if !is_path(word) {
        return read_action(line);
    }
    let said = read_action(rest)?;
    under(path_of(word), said)
}

/// Whether a word is a path and nothing more.
#[tactic(auto, unfolding(crate::specs::Lines::is_path))]
fn is_path(word: &[u8]) -> bool
    ensures { result ≡ is_path word.now }
{
    !word.starts_with(b"#") && !path_of(word).is_empty() && name_of(word).is_empty()
}

/// What is said, once it stands behind the path of a supervisor; a second path is refused.
#[tactic(auto, unfolding(crate::specs::Lines::under, crate::specs::Lines::spoken))]
fn under<'a>(path: &'a [u8], said: Said<'a>) -> Result<Said<'a>, ScriptFault>
    ensures { read_as (λ said. spoken said.path.now said.action) result ≡ under path.now (spoken said.entry.path.now said.entry.action) }
{
    if !said.path.is_empty() {
        return Err(ScriptFault::BadChild);
    }
    Ok(Said {
        path,
        action: said.action,
    })
}

/// What happens by the words that are left.
#[tactic(auto, unfolding(crate::specs::Lines::action_in, crate::specs::Lines::action_found))]
fn read_action(line: &[u8]) -> Result<Said<'_>, ScriptFault>
    ensures { read_as (λ said. spoken said.path.now said.action) result ≡ action_in line.now }
{
    let Some((word, rest)) = next_word(line) else {
        return Ok(to_root(Action::Nothing));
    };
    if word.starts_with(b"#") {
        return Ok(to_root(Action::Nothing));
    }
    read_action_by(word, rest, line)
}

/// What happens by this word and those behind it.
#[tactic(auto, unfolding(crate::specs::Lines::action_by))]
fn read_action_by<'a>(word: &[u8], rest: &'a [u8], line: &'a [u8]) -> Result<Said<'a>, ScriptFault>
    ensures { read_as (λ said. spoken said.path.now said.action) result ≡ action_by word.now rest.now line.now }
{
    if is_text(word, b"crash") {
        read_crash(rest)
    } else if is_text(word, b"exit") {
        read_exit(rest)
    } else if is_text(word, b"fail") {
        read_fail(rest)
    } else if is_text(word, b"ignore") {
        read_ignore(rest)
    } else if is_text(word, b"init") {
        read_init(rest)
    } else if is_text(word, b"hang") {
        read_hang(rest)
    } else if is_text(word, b"slow") {
        read_slow(rest)
    } else if is_text(word, b"expect") {
        read_expect(rest)
    } else {
        read_called(word, rest, line)
    }
}

/// A call, with a path before its child's id or with none.
#[tactic(auto, unfolding(crate::specs::Lines::called_by))]
fn read_called<'a>(word: &[u8], rest: &'a [u8], line: &'a [u8]) -> Result<Said<'a>, ScriptFault>
    ensures { read_as (λ said. spoken said.path.now said.action) result ≡ called_by word.now rest.now line.now }
{
    if is_call_of_child(word) && is_path_next(rest) {
        read_call(word, rest)
    } else {
        read_plain(line)
    }
}

/// Whether the word is that of a call of one child.
#[tactic(auto, unfolding(crate::specs::Lines::is_call_of_child))]
fn is_call_of_child(word: &[u8]) -> bool
    ensures { result ≡ is_call_of_child word.now }
{
    is_text(word, b"restart")
        || is_text(word, b"delete")
        || is_text(word, b"terminate")
        || is_text(word, b"get")
}

/// The path that a word begins with.
#[tactic(auto, unfolding(crate::specs::Spaced::path_in))]
fn path_of(word: &[u8]) -> &[u8]
    ensures { result.now ≡ path_in word.now }
{
    &word[..end_of_path(word)]
}

/// What stands behind the path.
#[tactic(auto, unfolding(crate::specs::Spaced::name_behind))]
fn name_of(word: &[u8]) -> &[u8]
    ensures { result.now ≡ name_behind word.now }
{
    &word[end_of_path(word)..]
}

/// Whether the next word has a path.
#[tactic(auto, unfolding(crate::specs::Lines::has_path))]
fn is_path_next(line: &[u8]) -> bool
    ensures { result ≡ has_path (word_in line.now) }
{
    match next_word(line) {
        None => false,
        Some((word, _)) => !path_of(word).is_empty(),
    }
}

/// A child by its process number behind a `#`, or by its id.
#[tactic(auto, unfolding(crate::specs::Lines::child_of, crate::specs::Lines::child_by))]
fn child_of(name: &[u8]) -> Option<Child>
    ensures { result ≡ child_of name.now }
{
    match behind(b"#", name) {
        Some(digits) => Some(Child::Numbered(read_number(MAX_READING, digits)?)),
        None => Some(Child::Named(read_name(name)?)),
    }
}

/// A child and what is left after it.
#[tactic(auto, unfolding(crate::specs::Lines::child_in))]
fn read_child(line: &[u8]) -> Result<Meant<'_>, ScriptFault>
    ensures { read_as (λ one. meant one.path.now one.child one.rest.now) result ≡ child_in line.now }
{
    let Some((word, rest)) = next_word(line) else {
        return Err(ScriptFault::MissingChild);
    };
    match child_of(name_of(word)) {
        Some(child) => Ok(Meant {
            path: path_of(word),
            child,
            rest,
        }),
        None => Err(ScriptFault::BadChild),
    }
}

/// A child's id with its path, and what is left after them.
#[tactic(auto, unfolding(crate::specs::Lines::id_in))]
fn read_id(line: &[u8]) -> Result<Named<'_>, ScriptFault>
    ensures { read_as (λ one. named one.path.now one.id one.rest.now) result ≡ id_in line.now }
{
    let Some((word, rest)) = next_word(line) else {
        return Err(ScriptFault::MissingName);
    };
    match read_name(name_of(word)) {
        Some(id) => Ok(Named {
            path: path_of(word),
            id,
            rest,
        }),
        None => Err(ScriptFault::BadName),
    }
}

/// A call that names a child with a path.
#[tactic(auto, unfolding(crate::specs::Lines::call_in, crate::specs::Lines::call_named, crate::specs::Lines::named, crate::specs::Lines::at_end))]
fn read_call<'a>(word: &[u8], line: &'a [u8]) -> Result<Said<'a>, ScriptFault>
    ensures { read_as (λ said. spoken said.path.now said.action) result ≡ call_in word.now line.now }
{
    let Ok(one) = read_id(line) else {
        return Err(ScriptFault::BadCall);
    };
    end_of(one.rest)?;
    Ok(Said {
        path: one.path,
        action: Action::Call(call_said(word, one.id)),
    })
}

/// The call of the child with this id that a word says.
#[tactic(auto, unfolding(crate::specs::Said::call_said))]
fn call_said(word: &[u8], name: Name) -> Call
    ensures { result ≡ call_said word.now name }
{
    if is_text(word, b"restart") {
        Call::RestartChild(name)
    } else if is_text(word, b"delete") {
        Call::DeleteChild(name)
    } else if is_text(word, b"terminate") {
        Call::TerminateChild(name)
    } else {
        Call::GetChildspec(name)
    }
}

/// A reason that may be left out, as the last word.
#[tactic(auto, unfolding(crate::specs::Lines::last_reason, crate::specs::Lines::reason_found, crate::specs::Lines::at_end))]
fn read_last_reason(line: &[u8]) -> Result<Option<Reason>, ScriptFault>
    ensures { result ≡ last_reason line.now }
{
    let Some((word, rest)) = next_word(line) else {
        return Ok(None);
    };
    let Some(reason) = read_reason(word) else {
        return Err(fault_of_reason(word));
    };
    end_of(rest)?;
    Ok(Some(reason))
}

/// What stands behind `shutdown:` or `error:`.
#[tactic(auto, unfolding(crate::specs::Lines::text_of_reason))]
fn text_of_reason(word: &[u8]) -> Option<&[u8]>
    ensures { option_copied result ≡ text_of_reason word.now }
{
    match behind(b"shutdown:", word) {
        Some(text) => Some(text),
        None => behind(b"error:", word),
    }
}

/// Why a word is no reason: its text is too long, or it is another word.
#[tactic(auto, unfolding(crate::specs::Lines::fault_of_reason, crate::specs::Lines::fault_of_text))]
fn fault_of_reason(word: &[u8]) -> ScriptFault
    ensures { result ≡ fault_of_reason word.now }
{
    match text_of_reason(word) {
        None => ScriptFault::BadReason,
        Some(text) => {
            if text.len() > TEXT_SIZE {
                ScriptFault::LongReason
            } else {
                ScriptFault::BadReason
            }
        }
    }
}

/// That no word is left.
fn end_of(line: &[u8]) -> Result<(), ScriptFault>
    ensures { IsEnded result line.now }
{
    match next_word(line) {
        None => Ok(()),
        Some(_) => Err(ScriptFault::TooManyWords),
    }
}

/// The reason of a line that names none: an error with this text.
#[tactic(auto, unfolding(crate::specs::Lines::error_of))]
fn error_of(text: &[u8]) -> Reason
    requires { IsTrue (is_lawful_text text.now) }
    ensures { result ≡ error_of text.now }
{
    match Text::new(text) {
        Some(text) => Reason::Error(text),
        None => Reason::Killed,
    }
}

/// `crash CHILD [REASON]`: without a reason `error:crash`.
#[tactic(auto, unfolding(crate::specs::Lines::crash_in, crate::specs::Lines::meant))]
fn read_crash(line: &[u8]) -> Result<Said<'_>, ScriptFault>
    ensures { read_as (λ said. spoken said.path.now said.action) result ≡ crash_in line.now }
{
    let meant = read_child(line)?;
    let reason = read_last_reason(meant.rest)?;
    Ok(Said {
        path: meant.path,
        action: Action::Exit(meant.child, reason.unwrap_or(error_of(b"crash"))),
    })
}

/// `exit CHILD REASON`.
#[tactic(auto, unfolding(crate::specs::Lines::exit_in, crate::specs::Lines::exit_by, crate::specs::Lines::meant))]
fn read_exit(line: &[u8]) -> Result<Said<'_>, ScriptFault>
    ensures { read_as (λ said. spoken said.path.now said.action) result ≡ exit_in line.now }
{
    let meant = read_child(line)?;
    match read_last_reason(meant.rest)? {
        Some(reason) => Ok(Said {
            path: meant.path,
            action: Action::Exit(meant.child, reason),
        }),
        None => Err(ScriptFault::MissingReason),
    }
}

/// `fail ID [REASON]`: without a reason `error:fail`.
#[tactic(auto, unfolding(crate::specs::Lines::fail_in, crate::specs::Lines::named))]
fn read_fail(line: &[u8]) -> Result<Said<'_>, ScriptFault>
    ensures { read_as (λ said. spoken said.path.now said.action) result ≡ fail_in line.now }
{
    let one = read_id(line)?;
    let reason = read_last_reason(one.rest)?;
    Ok(Said {
        path: one.path,
        action: Action::Start(one.id, NextStart::Fail(reason.unwrap_or(error_of(b"fail")))),
    })
}

/// `ignore ID`.
#[tactic(auto, unfolding(crate::specs::Lines::ignore_in, crate::specs::Lines::named, crate::specs::Lines::at_end))]
fn read_ignore(line: &[u8]) -> Result<Said<'_>, ScriptFault>
    ensures { read_as (λ said. spoken said.path.now said.action) result ≡ ignore_in line.now }
{
    let one = read_id(line)?;
    end_of(one.rest)?;
    Ok(Said {
        path: one.path,
        action: Action::Start(one.id, NextStart::Ignore),
    })
}

/// `init ID TIME`.
#[tactic(auto, unfolding(crate::specs::Lines::init_in, crate::specs::Lines::named, crate::specs::Lines::at_end))]
fn read_init(line: &[u8]) -> Result<Said<'_>, ScriptFault>
    ensures { read_as (λ said. spoken said.path.now said.action) result ≡ init_in line.now }
{
    let one = read_id(line)?;
    let (time, rest) = next_time(one.rest)?;
    end_of(rest)?;
    Ok(Said {
        path: one.path,
        action: Action::Init(one.id, time),
    })
}

/// `hang CHILD`.
#[tactic(auto, unfolding(crate::specs::Lines::hang_in, crate::specs::Lines::meant, crate::specs::Lines::at_end))]
fn read_hang(line: &[u8]) -> Result<Said<'_>, ScriptFault>
    ensures { read_as (λ said. spoken said.path.now said.action) result ≡ hang_in line.now }
{
    let meant = read_child(line)?;
    end_of(meant.rest)?;
    Ok(Said {
        path: meant.path,
        action: Action::Hang(meant.child),
    })
}

/// `slow CHILD TIME`.
#[tactic(auto, unfolding(crate::specs::Lines::slow_in, crate::specs::Lines::meant, crate::specs::Lines::at_end))]
fn read_slow(line: &[u8]) -> Result<Said<'_>, ScriptFault>
    ensures { read_as (λ said. spoken said.path.now said.action) result ≡ slow_in line.now }
{
    let meant = read_child(line)?;
    let (time, rest) = next_time(meant.rest)?;
    end_of(rest)?;
    Ok(Said {
        path: meant.path,
        action: Action::Slow(meant.child, time),
    })
}

/// `expect up`, `expect end` and `expect restarts`, and what stands behind them.
#[tactic(auto, unfolding(crate::specs::Lines::expect_in, crate::specs::Lines::expected_by))]
fn read_expect(line: &[u8]) -> Result<Said<'_>, ScriptFault>
    ensures { read_as (λ said. spoken said.path.now said.action) result ≡ expect_in line.now }
{
    let Some((word, rest)) = next_word(line) else {
        return Err(ScriptFault::BadExpected);
    };
    if is_text(word, b"up") {
        read_standing(rest, true)
    } else if is_text(word, b"end") {
        read_standing(rest, false)
    } else if is_text(word, b"restarts") {
        read_restarts(rest)
    } else {
        Err(ScriptFault::BadExpected)
    }
}

/// That a supervisor is expected to stand or not.
#[tactic(auto, unfolding(crate::specs::Lines::standing_of_all))]
fn standing_of_all(is_up: bool) -> Expected
    ensures { result ≡ standing_of_all is_up }
{
    if is_up {
        Expected::Alive
    } else {
        Expected::Over
    }
}

/// That a child is expected to be up or not.
#[tactic(auto, unfolding(crate::specs::Lines::standing_of))]
fn standing_of(is_up: bool, child: Child) -> Expected
    ensures { result ≡ standing_of is_up child }
{
    if is_up {
        Expected::Up(child)
    } else {
        Expected::Ended(child)
    }
}

/// A child that is expected to be up or not; where none is named, the supervisor itself is meant.
#[tactic(auto, unfolding(crate::specs::Lines::standing_in, crate::specs::Lines::meant, crate::specs::Lines::at_end))]
fn read_standing(line: &[u8], is_up: bool) -> Result<Said<'_>, ScriptFault>
    ensures { read_as (λ said. spoken said.path.now said.action) result ≡ standing_in is_up line.now }
{
    if next_word(line).is_none() {
        return Ok(to_root(Action::Expect(standing_of_all(is_up))));
    }
    let meant = read_child(line)?;
    end_of(meant.rest)?;
    Ok(Said {
        path: meant.path,
        action: Action::Expect(standing_of(is_up, meant.child)),
    })
}

/// A child, and how many restarts of it are expected.
#[tactic(auto, unfolding(crate::specs::Lines::restarts_in, crate::specs::Lines::named, crate::specs::Lines::at_end))]
fn read_restarts(line: &[u8]) -> Result<Said<'_>, ScriptFault>
    ensures { read_as (λ said. spoken said.path.now said.action) result ≡ restarts_in line.now }
{
    let one = read_id(line)?;
    let Some((number, rest)) = next_word(one.rest) else {
        return Err(ScriptFault::BadExpected);
    };
    let Some(count) = read_number(MAX_READING, number) else {
        return Err(ScriptFault::BadExpected);
    };
    end_of(rest)?;
    Ok(Said {
        path: one.path,
        action: Action::Expect(Expected::Restarts(one.id, count)),
    })
}

/// What has the same form as a line of `sim`, but for the spaces between its words: `stop`, and the calls.
#[tactic(auto, unfolding(crate::specs::Lines::plain_in, crate::specs::Lines::plain_of))]
fn read_plain<'a>(line: &[u8]) -> Result<Said<'a>, ScriptFault>
    ensures { read_as (λ said. spoken said.path.now said.action) result ≡ plain_in line.now }
{
    match read_spaced(line) {
        Some(Line::Stop) => Ok(to_root(Action::Stop)),
        Some(Line::Call(call)) => Ok(to_root(Action::Call(call))),
        Some(_) => Err(ScriptFault::UnknownWord),
        None => Err(fault_of_plain(line)),
    }
}

/// What a line of `sim` with these words says.
fn read_spaced(line: &[u8]) -> Option<Line>
    ensures { result ≡ line_of (spaced line.now) }
{
    read_line(Spaced::of(line).as_slice())
}

/// Why a line is no `stop` and no call: it begins with the word of one, or with another.
#[tactic(auto, unfolding(crate::specs::Lines::plain_fault, crate::specs::Lines::plain_fault_by))]
fn fault_of_plain(line: &[u8]) -> ScriptFault
    ensures { result ≡ plain_fault (word_in line.now) }
{
    let Some((word, _)) = next_word(line) else {
        return ScriptFault::UnknownWord;
    };
    if is_text(word, b"stop") {
        ScriptFault::StopAlone
    } else if is_call(word) {
        ScriptFault::BadCall
    } else {
        ScriptFault::UnknownWord
    }
}

/// Whether the word is that of a call.
#[tactic(auto, unfolding(crate::specs::Lines::is_call))]
fn is_call(word: &[u8]) -> bool
    ensures { result ≡ is_call word.now }
{
    is_text(word, b"start")
        || is_text(word, b"restart")
        || is_text(word, b"delete")
        || is_text(word, b"terminate")
        || is_text(word, b"get")
        || is_text(word, b"which")
        || is_text(word, b"count")
}

/// The word by which a line says what happens, behind its time and its path, and what is left after it.
pub(crate) fn verb_of(line: &[u8]) -> Option<(&[u8], &[u8])> {
    let rest = match read_when(strip_comment(line)) {
        Ok(timed) => timed.rest,
        Err(_) => return None,
    };
    let (word, rest) = next_word(rest)?;
    if path_of(word).is_empty() || !name_of(word).is_empty() {
        return Some((word, rest));
    }
    next_word(rest)
}

/// What stands behind the path of a word.
pub(crate) fn behind_path(word: &[u8]) -> &[u8] {
    name_of(word)
}
