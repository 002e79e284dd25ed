//! A log that is replayed on the supervisors of a tree.

ghost use Rattle.std.specs.Prelude.{ℕ, List, ◌≡◌, ◌++◌, Ok, IfOk, OnOk};
ghost use Rattle.otp_replay.specs.declared.played.ReplayEnd.TheVariants.{Tried};
ghost use Rattle.otp_replay.specs.Logs.{log_in};
ghost use Rattle.otp_replay.specs.Told.{Closes, Replays, counts_text, fault_line, fault_text, hint_text, listed_if, more_line, more_text, near_line, place_text, reason_text, tail_text, unplayed_text, zero_text};
ghost use Rattle.std.specs.List.{flat_map};
ghost use Rattle.otp_try.specs.Pages.{tells_orders};
ghost use Rattle.otp_try.specs.declared.play.Writer.TheVariants.{Log};

use crate::near::Miss;
use crate::reading::{LogFault, NearLine, Reading, read_log};
use otp_file::TreeSpec;
use otp_sim::{Counted, Output, write_all};
use otp_text::write_number;
use otp_try::{Clock, Playing, Shows, TryEnd, Writer, try_tree};
use std::alloc::{AllocError, Global};

/// How a replay ended.
#[derive(Clone, Copy, Debug, PartialEq, Eq)]
pub enum ReplayEnd {
    /// The log has a fault, and nothing was played.
    LogRefused(LogFault),
    /// The script of the log was tried, and that ended so. Its lines have the numbers of the log's.
    Tried(TryEnd),
}

impl LogFault {
    /// The number of the line, counted from 1.
    pub fn line(self) -> u64
        ensures { result ≡ fault_line self }
    {
        match self {
            LogFault::GoesBack(line) | LogFault::OtherClock(line) => line,
        }
    }

    /// Why the line is refused, behind its number.
    #[tactic(auto, unfolding(crate::specs::Told::reason_text))]
    pub fn reason(self) -> &'static str
        ensures { result.now ≡ reason_text self }
    {
        match self {
            LogFault::GoesBack(_) => {
                ": its timestamp is earlier than that of the line before that is played\n"
            }
            LogFault::OtherClock(_) => {
                ": seconds and instants as timestamps in one log count from different zeros\n"
            }
        }
    }

    /// Appends why a log is refused: a line.
    pub fn write(self, out: &mut Vec<u8>) -> Result<(), AllocError>
        ensures { OnOk result (out.new.items ≡ out.old.items ++ fault_text self) }
    {
        out.extend_from_slice(b"line ")?;
        write_number(self.line(), out)?;
        out.extend_from_slice(self.reason().as_bytes())
    }
}

/// Appends how lines are seen that aren't played.
#[tactic(auto, unfolding(crate::specs::Told::hint_text))]
fn write_hint(is_listed: bool, missed: u64, out: &mut Vec<u8>) -> Result<(), AllocError>
    ensures { OnOk result (out.new.items ≡ out.old.items ++ hint_text is_listed missed) }
{
    if !is_listed && missed != 0 {
        out.extend_from_slice(b" (--unmatched shows them)")
    } else {
        Ok(())
    }
}

/// Appends how many lines were played, and how many weren't.
#[tactic(auto, unfolding(crate::specs::Told::counts_text))]
fn write_counts(
    played: u64,
    missed: u64,
    is_listed: bool,
    out: &mut Vec<u8>,
) -> Result<(), AllocError>
    ensures { OnOk result (out.new.items ≡ out.old.items ++ counts_text played missed is_listed) }
{
    out.extend_from_slice(b"lines played: ")?;
    write_number(played, out)?;
    out.extend_from_slice(b", not matched: ")?;
    write_number(missed, out)?;
    write_hint(is_listed, missed, out)?;
    out.extend_from_slice(b"\n")
}

/// Lines that are listed, if they are.
fn listed_if(is_listed: bool, others: &[u8]) -> &[u8]
    ensures { result.now ≡ listed_if is_listed others.now }
{
    if is_listed { others } else { &[] }
}

/// Appends which line of the log of this name it is.
#[tactic(auto, unfolding(crate::specs::Told::place_text))]
fn write_place(name: &[u8], number: u64, out: &mut Vec<u8>) -> Result<(), AllocError>
    ensures { OnOk result (out.new.items ≡ out.old.items ++ place_text name.now number) }
{
    out.extend_from_slice(name)?;
    out.extend_from_slice(b":")?;
    write_number(number, out)
}

/// Appends why a line isn't played.
#[tactic(auto, unfolding(crate::specs::Told::unplayed_text))]
fn write_unplayed(miss: Miss, out: &mut Vec<u8>) -> Result<(), AllocError>
    ensures { OnOk result (out.new.items ≡ out.old.items ++ unplayed_text miss) }
{
    out.extend_from_slice(b": not played: ")?;
    out.extend_from_slice(miss.text().as_bytes())?;
    out.extend_from_slice(b"\n")
}

/// Appends a line of the log of this name that looks as if it could be played, and why it isn't.
#[tactic(auto, unfolding(crate::specs::Told::near_line))]
fn write_near(name: &[u8], one: &NearLine, out: &mut Vec<u8>) -> Result<(), AllocError>
    ensures { OnOk result (out.new.items ≡ out.old.items ++ near_line name.now one.now) }
{
    write_place(name, one.number, out)?;
    write_unplayed(one.miss, out)
}

/// Appends those lines.
fn write_nears(name: &[u8], near: &[NearLine], out: &mut Vec<u8>) -> Result<(), AllocError>
    ensures { OnOk result (out.new.items ≡ out.old.items ++ flat_map (near_line name.now) near.now) }
{
    for one in near {
        write_near(name, one, out)?;
    }
    Ok(())
}

/// Appends that there are so many more.
#[tactic(auto, unfolding(crate::specs::Told::more_line))]
fn write_more_line(name: &[u8], more: u64, out: &mut Vec<u8>) -> Result<(), AllocError>
    ensures { OnOk result (out.new.items ≡ out.old.items ++ more_line name.now more) }
{
    out.extend_from_slice(name)?;
    out.extend_from_slice(b": ")?;
    write_number(more, out)?;
    out.extend_from_slice(b" more lines look as if they could be played\n")
}

/// Appends how many more there are, if there are.
#[tactic(auto, unfolding(crate::specs::Told::more_text))]
fn write_more(name: &[u8], more: u64, out: &mut Vec<u8>) -> Result<(), AllocError>
    ensures { OnOk result (out.new.items ≡ out.old.items ++ more_text name.now more) }
{
    if more == 0 {
        Ok(())
    } else {
        write_more_line(name, more, out)
    }
}

/// Appends which time of the log is zero, if a line is played.
#[tactic(auto, unfolding(crate::specs::Told::zero_text))]
fn write_zero(zero: &[u8], out: &mut Vec<u8>) -> Result<(), AllocError>
    ensures { OnOk result (out.new.items ≡ out.old.items ++ zero_text zero.now) }
{
    match zero {
        [] => Ok(()),
        zero => {
            out.extend_from_slice(b"0.000 s is ")?;
            out.extend_from_slice(zero)?;
            out.extend_from_slice(b"\n")
        }
    }
}

/// Appends what stands behind all that `try` writes.
#[tactic(auto, unfolding(crate::specs::Told::tail_text))]
fn write_tail(
    name: &[u8],
    is_listed: bool,
    log: &Reading,
    out: &mut Vec<u8>,
) -> Result<(), AllocError>
    ensures { OnOk result (out.new.items ≡ out.old.items ++ tail_text name.now is_listed log.now) }
{
    let counts = log.counts();
    let near = log.near();
    write_zero(log.zero(), out)?;
    write_nears(name, near, out)?;
    write_more(name, counts.near.saturating_sub(near.len() as u64), out)?;
    write_counts(counts.played, counts.missed, is_listed, out)?;
    out.extend_from_slice(listed_if(is_listed, log.others()))
}

/// What stands behind all that `try` writes.
fn tail_of(
    alloc: Global,
    name: &[u8],
    is_listed: bool,
    log: &Reading,
) -> Result<Vec<u8>, AllocError>
    ensures { IfOk result (λ tail. tail.items ≡ tail_text name.now is_listed log.now) }
{
    let mut tail = Vec::new(alloc);
    write_tail(name, is_listed, log, &mut tail)?;
    Ok(tail)
}

/// Writes what stands behind a run that was played to its end.
fn close<W: Output>(tried: TryEnd, tail: &[u8], output: &mut W) -> TryEnd
    ensures { Closes tried result tail.now (W.seen output.old).bytes (W.seen output.new).bytes }
{
    match tried {
        TryEnd::Done | TryEnd::ExpectationFailed(_) | TryEnd::LeftOut(..) | TryEnd::NothingPlayed =>
            match write_all(output, tail) {
                Ok(()) => tried,
                Err(_) => TryEnd::OutputFailed,
            },
        other => other,
    }
}

/// How a log is played: what of the run is written, by which clock, and whether the lines are listed that weren't played.
#[derive(Clone, Copy, Debug, PartialEq, Eq)]
pub struct Replaying {
    pub shows: Shows,
    pub clock: Clock,
    pub is_listed: bool,
}

/// Tries the script of a log that was read.
fn play_log<W: Output>(
    alloc: Global,
    tree: TreeSpec,
    name: &[u8],
    log: &Reading,
    how: Replaying,
    output: &mut W,
) -> TryEnd
    ensures { (text : List ℕ) → log_in text ≡ Ok log.now → Replays (Tried result) tree name.now text (tells_orders Log how.shows) how.is_listed (W.seen output.old).bytes (W.seen output.new).bytes }
{
    let Ok(tail) = tail_of(alloc, name, how.is_listed, log) else {
        drop(tree);
        return TryEnd::OutOfMemory;
    };
    let mut script = Counted::new(log.script());
    let playing = Playing {
        writer: Writer::Log,
        shows: how.shows,
        clock: how.clock,
    };
    let tried = try_tree(alloc, tree, playing, &mut script, output);
    close(tried, tail.as_slice(), output)
}

/// Plays what a log tells on the supervisors of a tree, from the first line on that says what happened. The log is a script in
/// which each such line stands at the time of its timestamp, and what is written is what `try` writes of that script; but a line
/// that could do nothing is told and left out. Behind it stand the lines that look as if they could be played, and why they
/// weren't; how many lines were played and how many weren't; and those that weren't, if they are listed.
///
/// Where the run ends early, as where memory is refused, all that was told before is written, and no counts.
pub fn replay<W: Output>(
    alloc: Global,
    tree: TreeSpec,
    name: &[u8],
    text: &[u8],
    how: Replaying,
    output: &mut W,
) -> ReplayEnd
    ensures { Replays result tree name.now text.now (tells_orders Log how.shows) how.is_listed (W.seen output.old).bytes (W.seen output.new).bytes }
{
    let log = match read_log(alloc, text) {
        Ok(Ok(log)) => log,
        Ok(Err(fault)) => {
            drop(tree);
            return ReplayEnd::LogRefused(fault);
        }
        Err(_) => {
            drop(tree);
            return ReplayEnd::Tried(TryEnd::OutOfMemory);
        }
    };
    let end = play_log(alloc, tree, name, &log, how, output);
    drop(log);
    ReplayEnd::Tried(end)
}
