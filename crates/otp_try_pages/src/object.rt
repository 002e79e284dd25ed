//! A run as an object.

ghost use Rattle.std.specs.Prelude.{◌≡◌, ℕ, List, ◌++◌, IfOk, OnErr, OnOk, true};
ghost use Rattle.otp_try_pages.specs.Objects.{TellsBehind, TellsRun, end_line, end_members, end_why, end_word, file_front, is_played, line_object, lines_text, result_text, run_members};

use crate::order::{put_comma, put_objects};
use crate::supervisors::{put_supervisors, put_text_if};
use otp_json::{put_key, put_number, put_optional, put_text};
use otp_trial::{ActionEnd, TriedSupervisor};
use otp_try::TryEnd;
use otp_try::account::{Account, Played};
use std::alloc::{AllocError, Global};

/// What became of a line, in words.
#[tactic(auto, unfolding(crate::specs::Objects::result_text))]
fn result_of(taken: ActionEnd) -> &'static str
    ensures { result.now ≡ result_text taken }
{
    match taken {
        ActionEnd::Done => "done",
        taken => taken.text(),
    }
}

/// Appends the object of a line. The word is a place for a text.
#[tactic(auto, unfolding(crate::specs::Objects::line_object))]
fn put_line(one: &Played, word: &mut Vec<u8>, out: &mut Vec<u8>) -> Result<(), AllocError>
    ensures { OnOk result (out.new.items ≡ out.old.items ++ line_object one.now) }
{
    put_number(b"{", b"line", one.number, out)?;
    put_text(b", ", b"text", one.line.as_slice(), out)?;
    put_text(
        b", ",
        b"result",
        result_of(one.outcome.taken).as_bytes(),
        out,
    )?;
    put_key(b", ", b"orders", out)?;
    put_objects(false, one.told.as_slice(), word, out)?;
    put_key(b", ", b"down", out)?;
    put_objects(true, one.told.as_slice(), word, out)?;
    out.extend_from_slice(b"}")
}

/// Appends the objects of lines, each behind a comma but the first.
fn put_lines(lines: &[Played], word: &mut Vec<u8>, out: &mut Vec<u8>) -> Result<(), AllocError>
    ensures { OnOk result (out.new.items ≡ out.old.items ++ lines_text true lines.now) }
{
    let mut is_first = true;
    for one in lines {
        put_comma(is_first, out)?;
        put_line(one, word, out)?;
        is_first = false;
    }
    Ok(())
}

/// Whether something was played in a run that ended so.
#[tactic(auto, unfolding(crate::specs::Objects::is_played))]
pub(crate) fn is_played(end: TryEnd) -> bool
    ensures { result ≡ is_played end }
{
    !matches!(end, TryEnd::NothingPlayed)
}

/// How a run ended, in a word.
#[tactic(auto, unfolding(crate::specs::Objects::end_word))]
fn end_word(end: TryEnd) -> &'static [u8]
    ensures { result.now ≡ end_word end }
{
    match end {
        TryEnd::Done => b"done",
        TryEnd::ExpectationFailed(_) => b"unmet",
        TryEnd::LineRefused(..) => b"refused",
        TryEnd::LineMissed(..) | TryEnd::LeftOut(..) => b"missed",
        TryEnd::NothingPlayed => b"nothing",
        TryEnd::HistoryFull | TryEnd::InputFailed | TryEnd::OutputFailed | TryEnd::OutOfMemory =>
            b"stopped",
    }
}

/// The line that a run ended so for, if for one.
#[tactic(auto, unfolding(crate::specs::Objects::end_line))]
fn end_line(end: TryEnd) -> Option<u64>
    ensures { result ≡ end_line end }
{
    match end {
        TryEnd::ExpectationFailed(line) => Some(line),
        TryEnd::LineRefused(line, _) => Some(line),
        TryEnd::LineMissed(line, ..) | TryEnd::LeftOut(line, ..) => Some(line),
        TryEnd::Done
        | TryEnd::NothingPlayed
        | TryEnd::HistoryFull
        | TryEnd::InputFailed
        | TryEnd::OutputFailed
        | TryEnd::OutOfMemory => None,
    }
}

/// Why a run ended so at a line, in words; nothing where it did not.
#[tactic(auto, unfolding(crate::specs::Objects::end_why))]
fn end_why(end: TryEnd) -> &'static str
    ensures { result.now ≡ end_why end }
{
    match end {
        TryEnd::ExpectationFailed(_) => ActionEnd::Unmet.text(),
        TryEnd::LineRefused(_, why) => why.text(),
        TryEnd::LineMissed(_, why, _) | TryEnd::LeftOut(_, why, _) => why.text(),
        TryEnd::NothingPlayed => "no line says what happens",
        TryEnd::Done
        | TryEnd::HistoryFull
        | TryEnd::InputFailed
        | TryEnd::OutputFailed
        | TryEnd::OutOfMemory => "",
    }
}

/// Appends how a run ended.
#[tactic(auto, unfolding(crate::specs::Objects::end_members))]
fn put_end(end: TryEnd, out: &mut Vec<u8>) -> Result<(), AllocError>
    ensures { OnOk result (out.new.items ≡ out.old.items ++ end_members end) }
{
    put_text(b"], ", b"end", end_word(end), out)?;
    put_optional(b", ", b"at", end_line(end), out)?;
    put_text_if(b"why", end_why(end).as_bytes(), out)?;
    out.extend_from_slice(b"}\n")
}

/// Appends a run behind the front of its object, which ends the line. The word is a place for a text.
#[tactic(auto, unfolding(crate::specs::Objects::run_members))]
fn put_run(
    account: &Account,
    seats: &[TriedSupervisor],
    running: &[bool],
    word: &mut Vec<u8>,
    out: &mut Vec<u8>,
) -> Result<(), AllocError>
    ensures { OnOk result (out.new.items ≡ out.old.items ++ run_members account.now seats.now running.now) }
{
    put_key(b", ", b"opening", out)?;
    put_objects(false, account.opening.told.as_slice(), word, out)?;
    put_key(b", ", b"lines", out)?;
    out.extend_from_slice(b"[")?;
    put_lines(account.lines.as_slice(), word, out)?;
    put_key(b"], ", b"supervisors", out)?;
    out.extend_from_slice(b"[")?;
    put_supervisors(is_played(account.end), true, b"", seats, running, word, out)?;
    put_end(account.end, out)
}

/// The object of a run, with this front.
pub(crate) fn object_behind(
    alloc: Global,
    front: Vec<u8>,
    account: &Account,
) -> Result<Vec<u8>, AllocError>
    ensures { IfOk result (λ text. TellsBehind front.items account.now text.items) }
{
    let mut word = Vec::new(alloc);
    let mut text = front;
    let running = account.trial.running()?;
    put_run(
        account,
        account.trial.seats(),
        running.as_slice(),
        &mut word,
        &mut text,
    )?;
    Ok(text)
}

/// Appends the front of the object of a run, whose tree file has this name.
#[tactic(auto, unfolding(crate::specs::Objects::file_front))]
pub(crate) fn put_front(name: &[u8], out: &mut Vec<u8>) -> Result<(), AllocError>
    ensures { OnOk result (out.new.items ≡ out.old.items ++ file_front name.now) }
{
    put_text(b"{", b"file", name, out)
}

/// The object of a run, whose tree file has this name.
fn object_of(alloc: Global, name: &[u8], account: &Account) -> Result<Vec<u8>, AllocError>
    ensures { IfOk result (λ text. TellsRun name.now account.now text.items) }
{
    let mut front = Vec::new(alloc);
    put_front(name, &mut front)?;
    object_behind(alloc, front, account)
}

/// Appends a run of a script, as an object with the name of the tree's file: the orders of the opening, then those of each line,
/// and what became of it; how each supervisor came through; and how the run ended.
///
/// # Errors
///
/// Where memory is refused. Then nothing is appended.
pub fn write_try_object(
    alloc: Global,
    name: &[u8],
    account: &Account,
    out: &mut Vec<u8>,
) -> Result<(), AllocError>
    ensures told { OnOk result ((text : List ℕ) × (TellsRun name.now account.now text × (out.new.items ≡ out.old.items ++ text))) }
    ensures same { OnErr result (out.new.items ≡ out.old.items) }
{
    let text = object_of(alloc, name, account)?;
    out.extend_from_slice(text.as_slice())
}
