//! A log that is read: the script that it stands for.

ghost use Rattle.std.specs.Prelude.{◌≡◌, ◌+◌, ◌-◌, ◌<◌, ◌++◌, ◌==◌, Ok, Err, IfOk, IfSome, OnOk, drop, length, map, position, take};
ghost use Rattle.otp_sim.specs.Sim.{lines_of};
ghost use Rattle.otp_replay.specs.Logs.{entry_in, entry_taken, event_taken, kept_near, line_taken, lines_taken, log_in, no_log, other_text, outcome, second_text, shown, stamp_text, step_text, when_of, with_event, with_near, with_other, with_silent, word_if, words_text, zero_or};

use crate::entry::{Entry, read_entry};
use crate::near::Miss;
use crate::stamp::Stamp;
use crate::words::{behind, is_space, rest_of, strip, word_of};
use otp_text::write_number;
use std::alloc::{AllocError, Global};
use std::marker::Model;

/// Why a log is refused, with the number of the line, counted from 1.
#[derive(Clone, Copy, Debug, PartialEq, Eq)]
pub enum LogFault {
    /// Its timestamp is earlier than that of the line before that is played.
    GoesBack(u64),
    /// Its timestamp counts from another zero than that of the first line that is played.
    OtherClock(u64),
}

/// So many lines of a log are kept that look as if they could be played, and aren't.
pub const MOST_NEAR: usize = 20;

/// The number of a line that looks as if it could be played, counted from 1, and why it isn't.
#[derive(Clone, Copy, Debug, PartialEq, Eq)]
pub struct NearLine {
    pub number: u64,
    pub miss: Miss,
}

/// What is counted of a log.
#[derive(Clone, Copy, Debug, PartialEq, Eq)]
pub struct LogCounts {
    /// All lines.
    pub lines: u64,
    /// Those that are played.
    pub played: u64,
    /// Those with words that aren't.
    pub missed: u64,
    /// Those of them that look as if they could be.
    pub near: u64,
    /// The timestamp of the first line that is played.
    pub first: Option<Stamp>,
    /// The time of the last one.
    pub last: u64,
}

/// When a line happens.
#[derive(Clone, Copy, Debug, PartialEq, Eq)]
pub enum Timed {
    /// So many milliseconds after the first one that is played.
    After(u64),
    /// Before the last one.
    Earlier,
    /// By another clock.
    Otherwise,
}

/// When a line with this timestamp happens.
#[tactic(auto, unfolding(crate::specs::Logs::when_of))]
fn when_of(first: Option<Stamp>, last: u64, stamp: Stamp) -> Timed
    ensures { result ≡ when_of first last stamp }
{
    let Some(first) = first else {
        return Timed::After(0);
    };
    if !first.is_alike(stamp) {
        Timed::Otherwise
    } else if stamp.time() < last {
        Timed::Earlier
    } else {
        Timed::After(stamp.time().saturating_sub(first.time()))
    }
}

/// The number after this one; there are never so many lines that there is none.
fn next(number: u64) -> Result<u64, AllocError>
    ensures { IfOk result (λ next. next ≡ number + 1) }
{
    match number.checked_add(1) {
        Some(next) => Ok(next),
        None => Err(AllocError),
    }
}

/// A byte as it is shown: none that moves the cursor.
fn shown(byte: u8) -> u8
    ensures { result ≡ shown byte }
{
    if is_space(byte) {
        b' '
    } else if byte < 32 || byte == 127 {
        b'?'
    } else {
        byte
    }
}

/// Appends bytes as they are shown.
fn write_shown(line: &[u8], out: &mut Vec<u8>) -> Result<(), AllocError>
    ensures { OnOk result (out.new.items ≡ out.old.items ++ map shown line.now) }
{
    for byte in line {
        out.push(shown(*byte)).map_err(|_| AllocError)?;
    }
    Ok(())
}

/// Appends a line that isn't played, behind its number.
#[tactic(auto, unfolding(crate::specs::Logs::other_text))]
fn write_other(number: u64, line: &[u8], out: &mut Vec<u8>) -> Result<(), AllocError>
    ensures { OnOk result (out.new.items ≡ out.old.items ++ other_text number line.now) }
{
    out.extend_from_slice(b"line ")?;
    write_number(number, out)?;
    out.extend_from_slice(b": ")?;
    write_shown(line, out)?;
    out.extend_from_slice(b"\n")
}

#[tactic(auto, unfolding(crate::specs::Logs::word_if))]
fn write_word(is_up: bool, out: &mut Vec<u8>) -> Result<(), AllocError>
    ensures { OnOk result (out.new.items ≡ out.old.items ++ word_if is_up) }
{
    if is_up {
        out.extend_from_slice(b"expect ")
    } else {
        Ok(())
    }
}

/// Appends a word behind a space, if there is one.
#[tactic(auto, unfolding(crate::specs::Logs::second_text))]
fn write_second(word: &[u8], out: &mut Vec<u8>) -> Result<(), AllocError>
    ensures { OnOk result (out.new.items ≡ out.old.items ++ second_text word.now) }
{
    match word {
        [] => Ok(()),
        word => {
            out.extend_from_slice(b" ")?;
            out.extend_from_slice(word)
        }
    }
}

/// Appends the timestamp at the end of which this stands, as it was written.
#[tactic(auto, unfolding(crate::specs::Logs::stamp_text))]
fn write_stamp(front: &[u8], out: &mut Vec<u8>) -> Result<(), AllocError>
    ensures { OnOk result (out.new.items ≡ out.old.items ++ stamp_text front.now) }
{
    let stamp = strip(front);
    out.extend_from_slice(word_of(stamp))?;
    write_second(word_of(strip(rest_of(stamp))), out)
}

/// Appends what happened: three words at the most, with a space between them.
#[tactic(auto, unfolding(crate::specs::Logs::words_text))]
fn write_words(words: &[u8], out: &mut Vec<u8>) -> Result<(), AllocError>
    ensures { OnOk result (out.new.items ≡ out.old.items ++ words_text words.now) }
{
    let second = strip(rest_of(words));
    out.extend_from_slice(word_of(words))?;
    write_second(word_of(second), out)?;
    write_second(word_of(strip(rest_of(second))), out)
}

/// Appends a line of a script: the words of a line of the log, and as a comment the timestamp before them.
#[tactic(auto, unfolding(crate::specs::Logs::step_text))]
fn write_step(
    time: u64,
    is_up: bool,
    words: &[u8],
    front: &[u8],
    out: &mut Vec<u8>,
) -> Result<(), AllocError>
    ensures { OnOk result (out.new.items ≡ out.old.items ++ step_text time is_up words.now front.now) }
{
    out.extend_from_slice(b"at ")?;
    write_number(time, out)?;
    out.extend_from_slice(b" ms ")?;
    write_word(is_up, out)?;
    write_words(words, out)?;
    out.extend_from_slice(b" # ")?;
    write_stamp(front, out)?;
    out.extend_from_slice(b"\n")
}

/// The line from a place on.
fn words_from(line: &[u8], place: usize) -> &[u8]
    ensures { result.now ≡ drop place line.now }
{
    &line[place.min(line.len())..]
}

/// The line up to a place.
fn words_to(line: &[u8], place: usize) -> &[u8]
    ensures { result.now ≡ take place line.now }
{
    &line[..place.min(line.len())]
}

/// Keeps a line that looks as if it could be played, while there are few.
#[tactic(auto, unfolding(crate::specs::Logs::kept_near))]
fn keep_near(number: u64, miss: Miss, near: &mut Vec<NearLine>) -> Result<(), AllocError>
    ensures { OnOk result (near.new.items ≡ kept_near number miss near.old.items) }
{
    if near.len() < MOST_NEAR {
        near.push(NearLine { number, miss }).map_err(|_| AllocError)
    } else {
        Ok(())
    }
}

/// The timestamp of the first line that is played, of which this one was before.
#[tactic(auto, unfolding(crate::specs::Logs::zero_or))]
fn keep_zero(first: Option<Stamp>, front: &[u8], zero: &mut Vec<u8>) -> Result<(), AllocError>
    ensures { OnOk result (zero.new.items ≡ zero_or first front.now zero.old.items) }
{
    match first {
        Some(_) => Ok(()),
        None => {
            zero.clear();
            write_stamp(front, zero)
        }
    }
}

/// A log, as far as it was read.
#[derive(Drop)]
pub struct Reading {
    counts: LogCounts,
    script: Vec<u8>,
    others: Vec<u8>,
    near: Vec<NearLine>,
    zero: Vec<u8>,
    /// A place for a text.
    word: Vec<u8>,
}

impl Model for Reading {
    ghost use Rattle.otp_replay.specs.Logs.{Log};

    ghost Value = { Log };

    ghost view = { λ a. record { counts = a.counts; script = a.script.items; others = a.others.items; near = a.near.items; zero = a.zero.items } };
}

impl Reading {
    /// Nothing of a log was read yet.
    fn new(alloc: Global) -> Self
        ensures { result ≡ no_log }
    {
        Reading {
            counts: LogCounts {
                lines: 0,
                played: 0,
                missed: 0,
                near: 0,
                first: None,
                last: 0,
            },
            script: Vec::new(alloc),
            others: Vec::new(alloc),
            near: Vec::new(alloc),
            zero: Vec::new(alloc),
            word: Vec::new(alloc),
        }
    }

    /// What was counted.
    pub fn counts(&self) -> LogCounts
        ensures { result ≡ self.now.counts }
    {
        self.counts
    }

    /// The script that the log stands for, a line for each of its lines.
    pub fn script(&self) -> &[u8]
        ensures { result.now ≡ self.now.script }
    {
        self.script.as_slice()
    }

    /// The lines with words that aren't played, each behind its number.
    pub fn others(&self) -> &[u8]
        ensures { result.now ≡ self.now.others }
    {
        self.others.as_slice()
    }

    /// The first lines that look as if they could be played, and aren't.
    pub fn near(&self) -> &[NearLine]
        ensures { result.now ≡ self.now.near }
    {
        self.near.as_slice()
    }

    /// The timestamp of the first line that is played; nothing where none is.
    pub fn zero(&self) -> &[u8]
        ensures { result.now ≡ self.now.zero }
    {
        self.zero.as_slice()
    }

    /// A line with no word.
    #[tactic(auto, unfolding(crate::specs::Logs::with_silent))]
    fn take_silent(&mut self) -> Result<(), AllocError>
        ensures { OnOk result (self.new ≡ with_silent self.old) }
    {
        self.counts.lines = next(self.counts.lines)?;
        self.script.extend_from_slice(b"\n")
    }

    /// A line that isn't played.
    #[tactic(auto, unfolding(crate::specs::Logs::with_other))]
    fn take_other(&mut self, line: &[u8]) -> Result<(), AllocError>
        ensures { OnOk result (self.new ≡ with_other line.now self.old) }
    {
        self.counts.lines = next(self.counts.lines)?;
        self.counts.missed = next(self.counts.missed)?;
        self.script.extend_from_slice(b"\n")?;
        write_other(self.counts.lines, line, &mut self.others)
    }

    /// The line that was read last looks as if it could be played.
    #[tactic(auto, unfolding(crate::specs::Logs::with_near))]
    fn take_near(&mut self, miss: Miss) -> Result<(), AllocError>
        ensures { OnOk result (self.new ≡ with_near miss self.old) }
    {
        self.counts.near = next(self.counts.near)?;
        keep_near(self.counts.lines, miss, &mut self.near)
    }

    /// A line that isn't played, and looks as if it could be.
    fn take_other_near(&mut self, miss: Miss, line: &[u8]) -> Result<(), AllocError>
        ensures { OnOk result (self.new ≡ with_near miss (with_other line.now self.old)) }
    {
        self.take_other(line)?;
        self.take_near(miss)
    }

    /// A line that is played so long after the first one, and in which this stands before the words.
    #[tactic(auto, unfolding(crate::specs::Logs::with_event, crate::specs::Logs::first_or))]
    fn take_event(
        &mut self,
        stamp: Stamp,
        time: u64,
        is_up: bool,
        words: &[u8],
        front: &[u8],
    ) -> Result<(), AllocError>
        ensures { OnOk result (self.new ≡ with_event stamp time is_up words.now front.now self.old) }
    {
        keep_zero(self.counts.first, front, &mut self.zero)?;
        self.counts.lines = next(self.counts.lines)?;
        self.counts.played = next(self.counts.played)?;
        self.counts.first = Some(self.counts.first.unwrap_or(stamp));
        self.counts.last = stamp.time();
        write_step(time, is_up, words, front, &mut self.script)
    }

    /// A line that says what happened then.
    #[tactic(auto, unfolding(crate::specs::Logs::event_taken))]
    fn take_timed(
        &mut self,
        timed: Timed,
        stamp: Stamp,
        is_up: bool,
        words: &[u8],
        front: &[u8],
    ) -> Result<Option<LogFault>, AllocError>
        ensures { IfOk result (λ fault. event_taken timed stamp is_up words.now front.now self.old ≡ outcome fault self.new) }
    {
        match timed {
            Timed::After(time) => {
                self.take_event(stamp, time, is_up, words, front)?;
                Ok(None)
            }
            Timed::Earlier => Ok(Some(LogFault::GoesBack(next(self.counts.lines)?))),
            Timed::Otherwise => Ok(Some(LogFault::OtherClock(next(self.counts.lines)?))),
        }
    }

    /// A line that is this.
    #[tactic(auto, unfolding(crate::specs::Logs::entry_taken))]
    fn take_entry(&mut self, entry: Entry, line: &[u8]) -> Result<Option<LogFault>, AllocError>
        ensures { IfOk result (λ fault. entry_taken entry line.now self.old ≡ outcome fault self.new) }
    {
        match entry {
            Entry::Silent => {
                self.take_silent()?;
                Ok(None)
            }
            Entry::Other => {
                self.take_other(line)?;
                Ok(None)
            }
            Entry::Near(miss) => {
                self.take_other_near(miss, line)?;
                Ok(None)
            }
            Entry::Event(stamp, is_up, place) => {
                let timed = when_of(self.counts.first, self.counts.last, stamp);
                let front = words_to(line, place);
                self.take_timed(timed, stamp, is_up, words_from(line, place), front)
            }
        }
    }

    /// What the next line is.
    fn read_entry(&mut self, line: &[u8]) -> Result<Entry, AllocError>
        ensures entry { IfOk result (λ entry. entry ≡ entry_in line.now) }
        ensures same { self.new ≡ self.old }
    {
        read_entry(line, &mut self.word)
    }

    /// The next line; the fault that it has, if it has one.
    fn take_line(&mut self, line: &[u8]) -> Result<Option<LogFault>, AllocError>
        ensures { IfOk result (λ fault. line_taken line.now self.old ≡ outcome fault self.new) }
    {
        let entry = self.read_entry(line)?;
        self.take_entry(entry, line)
    }

    /// The lines of a text, up to the first that has a fault.
    fn take_lines(&mut self, text: &[u8]) -> Result<Option<LogFault>, AllocError>
        ensures { IfOk result (λ fault. lines_taken (lines_of text.now) self.old ≡ outcome fault self.new) }
    {
        let mut rest = text;
        while let Some(end) = line_end(rest) {
            if let Some(fault) = self.take_line(&rest[..end])? {
                return Ok(Some(fault));
            }
            rest = behind(rest, end);
        }
        self.take_line(rest)
    }
}

/// The place of the first LF.
fn line_end(text: &[u8]) -> Option<usize>
    ensures found { result ≡ position (λ byte. byte == 10) text.now }
    ensures inside { IfSome result (λ end. end < length text.now) }
{
    text.iter().position(|byte| *byte == b'\n')
}

/// Reads a log: the script that it stands for, or its fault.
///
/// # Errors
///
/// Where memory is refused.
pub fn read_log(alloc: Global, text: &[u8]) -> Result<Result<Reading, LogFault>, AllocError>
    ensures { IfOk result (λ read. read ≡ log_in text.now) }
{
    let mut reading = Reading::new(alloc);
    match reading.take_lines(text) {
        Ok(None) => Ok(Ok(reading)),
        Ok(Some(fault)) => {
            drop(reading);
            Ok(Err(fault))
        }
        Err(error) => {
            drop(reading);
            Err(error)
        }
    }
}
