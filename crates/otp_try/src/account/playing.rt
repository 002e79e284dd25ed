//! A script is played, and what comes of it is kept.

ghost use Rattle.std.specs.Prelude.{◌≡◌, IfOk, Ok, OnOk};
ghost use Rattle.otp_try.specs.Accounts.{Adds, IsAccount, IsPlayed, StandsSo};
ghost use Rattle.otp_script.specs.Lines.{saying, saying_in};

use crate::account::account::{Account, Played};
use crate::meant::near_child;
use crate::remarks::moment_at;
use crate::remarks::unused::line_of_unknown;
use crate::{TryEnd, Writer};
use otp_file::TreeSpec;
use otp_reason::Text;
use otp_script::{Step, meant, read_step, strip_return};
use otp_trial::steps::{Outcome, do_times, is_silent};
use otp_trial::{ActionEnd, Clock, Halt, Trial};
use std::alloc::{AllocError, Global};

/// A copy of a text.
fn copy_of(alloc: Global, text: &[u8]) -> Result<Vec<u8>, AllocError>
    ensures { IfOk result (λ copy. copy.items ≡ text.now) }
{
    let mut copy = Vec::new(alloc);
    copy.extend_from_slice(text)?;
    Ok(copy)
}

/// What is kept of a line of which this was told, where the trial stands so after it.
fn note(
    alloc: Global,
    trial: &Trial,
    number: u64,
    line: &[u8],
    told: Vec<u8>,
    outcome: Outcome,
) -> Result<Played, AllocError>
    ensures line { IfOk result (λ one. one.line.items ≡ line.now) }
    ensures told { IfOk result (λ one. one.told.items ≡ told.items) }
    ensures came { IfOk result (λ one. one.outcome ≡ outcome) }
    ensures stands { IfOk result (λ one. StandsSo one trial.now) }
{
    let moment = moment_at(alloc, trial, number)?;
    let line = copy_of(alloc, line)?;
    Ok(Played {
        number,
        line,
        told,
        outcome,
        moment,
    })
}

/// Plays a line that says something.
fn play_line(
    alloc: Global,
    trial: &mut Trial,
    number: u64,
    line: &[u8],
    step: Step<'_>,
) -> Result<Played, Halt>
    requires { saying_in line.now ≡ Ok (saying step.when step.times step.path.now step.action) }
    ensures { IfOk result (λ one. IsPlayed trial.old one trial.new) }
{
    let mut told = Vec::new(alloc);
    trial.begin_line(number);
    let outcome = do_times(trial, step, &mut told)?;
    let one = note(alloc, trial, number, line, told, outcome)?;
    Ok(one)
}

/// Who wrote the lines of a run, and which of them are to blame for its end.
#[derive(Clone, Copy)]
struct Blame {
    writer: Writer,
    /// The first line whose expectation was not so.
    failed: Option<u64>,
    /// The first line of a log that could do nothing, and why.
    left_out: Option<(u64, ActionEnd, Option<Text>)>,
}

/// A line could do nothing: that ends the run, but of a log, where the first such line is kept. The child is looked for that it may have
/// meant.
fn end_missed(
    alloc: Global,
    trial: &Trial,
    number: u64,
    step: Step<'_>,
    why: ActionEnd,
    blame: &mut Blame,
) -> Option<TryEnd> {
    if blame.left_out.is_some() {
        return None;
    }
    let near = near_child(alloc, trial, step, why);
    if blame.writer != Writer::Log {
        return Some(TryEnd::LineMissed(number, why, near));
    }
    blame.left_out = Some((number, why, near));
    None
}

/// How a run ends behind a line that came to this, if it does. The first line whose expectation is not so is kept.
fn end_after(
    alloc: Global,
    trial: &Trial,
    number: u64,
    step: Step<'_>,
    taken: ActionEnd,
    blame: &mut Blame,
) -> Option<TryEnd> {
    match taken {
        ActionEnd::Done => None,
        ActionEnd::Unmet => {
            if blame.failed.is_none() {
                blame.failed = Some(number);
            }
            None
        }
        why => end_missed(alloc, trial, number, step, why, blame),
    }
}

/// A line that was read is played and kept, unless it says nothing. The answer is how the run ends behind it, if it does.
fn take_step(
    alloc: Global,
    trial: &mut Trial,
    number: u64,
    line: &[u8],
    step: Step<'_>,
    blame: &mut Blame,
    lines: &mut Vec<Played>,
) -> Result<Option<TryEnd>, Halt>
    requires { saying_in line.now ≡ Ok (saying step.when step.times step.path.now step.action) }
    ensures { OnOk result (Adds trial.old lines.old.items trial.new lines.new.items) }
{
    if is_silent(step) {
        return Ok(None);
    }
    let one = play_line(alloc, trial, number, line, step)?;
    let end = end_after(alloc, trial, number, step, one.outcome.taken, blame);
    lines.push(one).map_err(|_| AllocError)?;
    Ok(end)
}

/// A line of the script is played and kept. The answer is how the run ends behind it, if it does.
fn take_line(
    alloc: Global,
    trial: &mut Trial,
    number: u64,
    line: &[u8],
    blame: &mut Blame,
    lines: &mut Vec<Played>,
) -> Result<Option<TryEnd>, Halt>
    ensures { OnOk result (Adds trial.old lines.old.items trial.new lines.new.items) }
{
    match read_step(line) {
        Ok(step) => take_step(alloc, trial, number, line, step, blame, lines),
        Err(fault) => {
            let fault = meant(alloc, line, fault, false)?;
            Ok(Some(TryEnd::LineRefused(number, fault)))
        }
    }
}

/// The line without what stands before or behind its words: the CR before its LF, and the mark at the beginning of a text.
fn words_of(number: u64, line: &[u8]) -> &[u8] {
    let line = strip_return(line);
    if number == 1 {
        line.strip_prefix(b"\xef\xbb\xbf").unwrap_or(line)
    } else {
        line
    }
}

/// How a run ends of which all lines were played: a line could do nothing that planned the start of a child that wasn't there, if none
/// came, but in a log. Where no line said anything, nothing was played.
fn end_of(trial: &Trial, is_played: bool, blame: Blame) -> TryEnd {
    match line_of_unknown(trial.planned(), trial.inits()) {
        Some(line) if blame.writer != Writer::Log => TryEnd::LineMissed(
            line,
            ActionEnd::NoChild,
            None,
        ),
        _ => end_by(is_played, blame),
    }
}

/// How a run ends that came to no line that ended it.
fn end_by(is_played: bool, blame: Blame) -> TryEnd {
    if let Some((line, why, near)) = blame.left_out {
        return TryEnd::LeftOut(line, why, near);
    }
    if !is_played {
        return TryEnd::NothingPlayed;
    }
    match blame.failed {
        None => TryEnd::Done,
        Some(line) => TryEnd::ExpectationFailed(line),
    }
}

/// Plays all lines of a script, to its end or to the line that ends the run, and keeps them.
fn play_lines(
    alloc: Global,
    trial: &mut Trial,
    writer: Writer,
    script: &[u8],
    lines: &mut Vec<Played>,
) -> Result<TryEnd, Halt>
    ensures { OnOk result (Adds trial.old lines.old.items trial.new lines.new.items) }
{
    let mut number: u64 = 0;
    let mut blame = Blame {
        writer,
        failed: None,
        left_out: None,
    };
    for line in script.split(|byte| *byte == b'\n') {
        number = number.saturating_add(1);
        let words = words_of(number, line);
        match take_line(alloc, trial, number, words, &mut blame, lines)? {
            None => {}
            Some(end) => return Ok(end),
        }
    }
    Ok(end_of(trial, !lines.is_empty(), blame))
}

/// What is kept of the opening of a tree of which this was told.
fn opening_of(alloc: Global, trial: &Trial, told: Vec<u8>) -> Result<Played, AllocError>
    ensures told { IfOk result (λ one. one.told.items ≡ told.items) }
    ensures stands { IfOk result (λ one. StandsSo one trial.now) }
{
    let outcome = Outcome {
        is_unknown: false,
        taken: ActionEnd::Done,
    };
    note(alloc, trial, 0, b"", told, outcome)
}

/// Plays the lines of a script on the supervisors of a tree, by this clock, and keeps what comes of it. In a log a line that could do
/// nothing is left out, and the run goes on.
///
/// # Errors
///
/// Where memory is refused, or a supervisor has had 2^62 events.
pub fn play_script(
    alloc: Global,
    tree: &TreeSpec,
    clock: Clock,
    writer: Writer,
    script: &[u8],
) -> Result<Account, Halt>
    ensures { IfOk result (λ account. IsAccount tree.now account) }
{
    let mut told = Vec::new(alloc);
    let mut trial = Trial::open(alloc, tree, true, clock, &mut told)?;
    let Ok(opening) = opening_of(alloc, &trial, told) else {
        drop(trial);
        return Err(Halt::OutOfMemory);
    };
    let mut lines = Vec::new(alloc);
    match play_lines(alloc, &mut trial, writer, script, &mut lines) {
        Ok(end) => Ok(Account {
            opening,
            lines,
            trial,
            end,
        }),
        Err(halt) => {
            drop(trial);
            drop(lines);
            drop(opening);
            Err(halt)
        }
    }
}
