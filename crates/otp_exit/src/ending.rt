//! How the program ends, and what it tells of it.

ghost use Rattle.std.specs.Prelude.{Bool, ◌≡◌, ◌⊎◌, ◌≤◌, ◌<◌, ◌++◌, decimal, OnOk, OnErr};
ghost use Rattle.std.specs.IoError.{error_kind};
ghost use Rattle.std.specs.Io.KnownBytes.{Appends};
ghost use Rattle.otp_exit.specs.Told.{IsTold, TellsFirst, goes_on, worse};
ghost use Rattle.otp_exit.specs.Statuses.{IsOfFile, ending_of_no_tree, ending_of_tree, all_failed_text, failed_text, found_near_text, line_text, log_text, meant_text, missed_text, names_supervisor_text, no_gap_text, no_supervisor_text, no_tree_text, not_found_text, not_replaced_text, not_written_text, refused_line_text, refused_text, said_text, script_name, sentence_of, status_of, sentence_since, too_long_text, unfound_text, asked_text};
ghost use Rattle.otp_exit.specs.declared.ending.ProgramEnd.TheVariants.{OutOfMemory, TreeNotRead};

use crate::files::{write_three, write_two};
use itoa::Buffer;
use otp_file::TreeFault;
use otp_reason::{Name, Text};
use otp_replay::LogFault;
use otp_script::ScriptFault;
use otp_sim::{Failed, Output, write_all};
use otp_suggest::{GapFault, instead};
use otp_text::LineFault;
use otp_trial::ActionEnd;
use std::io;
use std::io::ErrorKind;

/// How the program ends.
#[derive(Clone, Copy, Debug, PartialEq, Eq)]
pub enum ProgramEnd<'a> {
    /// All was done, or the help was shown that the words ask for.
    Done,
    /// `clap` refuses the words, and its text was told.
    WordsRefused,
    /// The words name no command.
    NoCommand,
    /// A word is no UTF-8 text.
    WordNotText,
    /// The clock is none that a trial is played by.
    UnknownClock,
    /// A word is no time, where one is wanted.
    NotATime,
    /// The words say how a tree is served, and not how long.
    NeedsFor,
    /// The words ask for what is counted after turns, where no turns are counted.
    CountsTurns,
    /// The words are a file's name, where a command is wanted.
    FileAsCommand,
    /// The words are refused for this reason.
    Refused(&'static str),
    /// The words ask to run a tree, of a program that runs none.
    RunsNoTrees,
    /// The tree file of `sim` can't be read.
    TreeNotRead,
    /// A file can't be read, and it was told which and why.
    FileNotRead,
    /// The tree file of `sim` or `run` says no tree.
    TreeRefused(TreeFault),
    /// The tree file of this name, of `try`, `tree` or `limits`, says no tree, and `check` tells why.
    NoTree(TreeFault, &'a str),
    /// The start of a child that has no tree is no word of a worked job.
    UnknownStart(Name),
    /// No child of the tree has this name; the child with this path may be meant.
    NotFound(&'a str, Option<Text>),
    /// No supervisor of the tree has this name, or it has no children.
    NoSupervisor(&'a str),
    /// The child with this name is a supervisor, where a worker's name is wanted.
    NamesSupervisor(&'a str),
    /// The stop of a tree may take longer than this word allows.
    StopTooLong(&'a str),
    /// This word says no time between crashes.
    NotAGap(&'a str, GapFault),
    /// A line of the log of this name is refused, and nothing of it was played.
    LogRefused(&'a str, LogFault),
    /// E19: a worker's job stands where a supervisor is wanted.
    WrongBody,
    /// E17: a tree that ran has a report that tells of a mismatch.
    CloseMismatch,
    /// E20: a part of a tree that ran is missing at its close.
    CloseMissing,
    /// The turns of a run, or the time for its stop, ran out before its tree had ended; its report was written, and it was told what
    /// is awaited.
    NotFinished,
    /// `check` found faults, and has written them.
    FaultsFound,
    /// The line with this number, from 1, has no form that is read, for this reason.
    LineRefused(u64, LineFault),
    /// The line with this number can't be read, of the script of this name, if it has one.
    ScriptRefused(Option<&'a str>, u64, ScriptFault),
    /// The line of a script with this number could do nothing; the child with this path may have been meant.
    ScriptMissed(Option<&'a str>, u64, ActionEnd, Option<Text>),
    /// A script was played, and what the line with this number expected was not so, the first of such lines.
    ExpectationFailed(Option<&'a str>, u64),
    /// Of several scripts so many failed, of so many.
    ScriptsFailed(u64, u64),
    /// No line of a script or a log was played.
    NothingPlayed,
    /// There were 2^62 events, as many as a supervisor has in its life.
    HistoryFull,
    InputFailed,
    OutputFailed,
    /// The page of this name can't be written, and why.
    PageNotWritten(&'a str, &'static str),
    /// The page of this name may not be written, and why.
    PageRefused(&'a str, &'static str),
    OutOfMemory,
}

impl<'a> ProgramEnd<'a> {
    /// The exit status.
    pub fn status(&self) -> u8
        ensures { result ≡ status_of self.now }
    {
        match self {
            ProgramEnd::Done => 0,
            ProgramEnd::TreeNotRead | ProgramEnd::TreeRefused(_) => 1,
            ProgramEnd::NoTree(..) => 1,
            ProgramEnd::UnknownStart(_) | ProgramEnd::WrongBody => 1,
            ProgramEnd::FileNotRead | ProgramEnd::FaultsFound => 1,
            ProgramEnd::WordsRefused | ProgramEnd::NoCommand | ProgramEnd::WordNotText => 2,
            ProgramEnd::FileAsCommand | ProgramEnd::NotFound(..) | ProgramEnd::UnknownClock => 2,
            ProgramEnd::RunsNoTrees | ProgramEnd::Refused(_) | ProgramEnd::PageRefused(..) => 2,
            ProgramEnd::NotATime | ProgramEnd::NeedsFor | ProgramEnd::CountsTurns => 2,
            ProgramEnd::NamesSupervisor(_) | ProgramEnd::NoSupervisor(_) => 2,
            ProgramEnd::NotAGap(..) => 2,
            ProgramEnd::LogRefused(..) => 2,
            ProgramEnd::LineRefused(..) | ProgramEnd::HistoryFull | ProgramEnd::InputFailed => 3,
            ProgramEnd::OutputFailed | ProgramEnd::OutOfMemory => 4,
            ProgramEnd::CloseMismatch | ProgramEnd::CloseMissing => 4,
            ProgramEnd::PageNotWritten(..) => 4,
            ProgramEnd::ScriptRefused(..) | ProgramEnd::ScriptMissed(..) => 5,
            ProgramEnd::ExpectationFailed(..) | ProgramEnd::ScriptsFailed(..) => 6,
            ProgramEnd::StopTooLong(_) => 6,
            ProgramEnd::NotFinished => 7,
            ProgramEnd::NothingPlayed => 8,
        }
    }

    /// Whether the next file is checked after a check that ended so.
    pub fn goes_on(&self) -> bool
        ensures { result ≡ goes_on self.now }
    {
        matches!(
            self,
            ProgramEnd::Done | ProgramEnd::FaultsFound | ProgramEnd::FileNotRead
        )
    }

    /// How two checks end, one after the other.
    pub fn worse(self, next: Self) -> Self
        ensures { result ≡ worse self.entry next.entry }
    {
        match next {
            ProgramEnd::Done => self,
            _ => next,
        }
    }

    /// The end for a tree that is not had.
    pub fn of_tree(fault: TreeFault) -> Self
        ensures { result ≡ ending_of_tree fault }
    {
        match fault {
            TreeFault::OutOfMemory => ProgramEnd::OutOfMemory,
            _ => ProgramEnd::TreeRefused(fault),
        }
    }

    /// The end for a tree that is not had, of a command whose user is told who explains the fault.
    pub fn of_no_tree(fault: TreeFault, name: &'a str) -> Self
        ensures { result ≡ ending_of_no_tree fault name.entry }
    {
        match fault {
            TreeFault::OutOfMemory => ProgramEnd::OutOfMemory,
            _ => ProgramEnd::NoTree(fault, name),
        }
    }

    /// The end for a file that can't be read, by the kind of the error.
    pub fn of_file(error: &io::Error) -> Self
        ensures kind { IsOfFile (error_kind error.now) result }
        ensures either { (result ≡ TreeNotRead) ⊎ (result ≡ OutOfMemory) }
    {
        match error.kind() {
            ErrorKind::OutOfMemory => ProgramEnd::OutOfMemory,
            _ => ProgramEnd::TreeNotRead,
        }
    }
}

/// Why the output last failed, where the system tells.
#[derive(Clone, Copy, Debug, PartialEq, Eq)]
pub enum Unwritten {
    /// Nobody reads it any more.
    Closed,
    /// This, in words.
    Since(&'static str),
    Unknown,
}

/// Tells on standard error how the program ends, if not well, and gives the exit status.
pub fn tell<E: Output>(errors: &mut E, ending: ProgramEnd<'_>, why: Unwritten) -> u8
    ensures status { result ≡ status_of ending.entry }
    ensures told { IsTold (sentence_since why ending.entry) (E.seen errors.old) (E.seen errors.new) }
    ensures kept { (E.seen errors.old).failures ≤ (E.seen errors.new).failures }
{
    // Where nothing can be told, the status alone says it.
    let _told = write_ending(errors, ending, why);
    ending.status()
}

/// Tells which command explains an ending, where one does: a tree that is refused is explained by `check`.
pub fn explain<E: Output>(errors: &mut E, name: &str, ending: ProgramEnd<'_>)
    ensures first { (drawn : Bool) → TellsFirst drawn ending.entry (E.seen errors.old) (E.seen errors.new) }
    ensures kept { (E.seen errors.old).failures ≤ (E.seen errors.new).failures }
{
    // Where nothing can be told, the ending alone says it.
    match ending {
        ProgramEnd::TreeRefused(_) => {
            let _told = write_three(errors, b"tip: otp check ", name.as_bytes(), b" tells why\n");
        }
        ProgramEnd::LineRefused(..) => {
            let _told = write_all(errors, b"tip: otp help lines says which lines there are\n");
        }
        _ => {}
    }
}

/// Writes the line that tells of the ending, if there is one: where the output failed, with the reason, and none where nobody
/// reads it any more.
fn write_ending<E: Output>(
    errors: &mut E,
    ending: ProgramEnd<'_>,
    why: Unwritten,
) -> Result<(), Failed>
    ensures ok { OnOk result (Appends (E.seen errors.old).bytes (E.seen errors.new).bytes (sentence_since why ending.entry)) }
    ensures kept { (E.seen errors.old).failures ≤ (E.seen errors.new).failures }
    ensures failed { OnErr result ((E.seen errors.old).failures < (E.seen errors.new).failures) }
{
    match (ending, why) {
        (ProgramEnd::OutputFailed, Unwritten::Closed) => Ok(()),
        (ProgramEnd::OutputFailed, Unwritten::Since(why)) => {
            write_three(errors, b"output not written: ", why.as_bytes(), b"\n")
        }
        _ => write_sentence(errors, ending),
    }
}

/// Writes the line that tells of the ending, if there is one.
fn write_sentence<E: Output>(errors: &mut E, ending: ProgramEnd<'_>) -> Result<(), Failed>
    ensures ok { OnOk result (Appends (E.seen errors.old).bytes (E.seen errors.new).bytes (sentence_of ending.entry)) }
    ensures kept { (E.seen errors.old).failures ≤ (E.seen errors.new).failures }
    ensures failed { OnErr result ((E.seen errors.old).failures < (E.seen errors.new).failures) }
{
    match ending {
        ProgramEnd::Done | ProgramEnd::WordsRefused => Ok(()),
        ProgramEnd::FileNotRead | ProgramEnd::FaultsFound | ProgramEnd::NotFinished => Ok(()),
        ProgramEnd::NoCommand => write_all(
            errors,
            b"usage: otp COMMAND FILE; otp --help says which commands there are\n",
        ),
        ProgramEnd::WordNotText => write_all(errors, b"error: a word is not UTF-8\n"),
        ProgramEnd::UnknownClock => write_all(
            errors,
            b"error: --clock is milliseconds or seconds\n",
        ),
        ProgramEnd::NotATime => write_all(
            errors,
            b"error: --for and --grace want a time, as 500ms, 2s or 5m\n",
        ),
        ProgramEnd::NeedsFor => write_all(errors, b"error: --grace and --log need --for TIME\n"),
        ProgramEnd::CountsTurns => write_all(
            errors,
            b"error: --counts is of a run by turns, and --for is none\n",
        ),
        ProgramEnd::FileAsCommand => write_all(
            errors,
            b"error: a file in the place of a command: say otp try FILE, or otp --help\n",
        ),
        ProgramEnd::Refused(why) => write_refused(errors, why),
        ProgramEnd::RunsNoTrees => write_all(
            errors,
            b"error: this program runs no trees; ./otp run FILE compiles the one that does\n",
        ),
        ProgramEnd::TreeNotRead => write_all(errors, b"tree not read\n"),
        ProgramEnd::TreeRefused(fault) => {
            write_numbered(errors, b"tree refused: E", u64::from(fault.code()), b"\n")
        }
        ProgramEnd::NoTree(fault, name) => write_no_tree(errors, u64::from(fault.code()), name),
        ProgramEnd::UnknownStart(name) => {
            write_three(errors, b"unknown start ", name.as_bytes(), b"\n")
        }
        ProgramEnd::NotFound(name, near) => write_unfound(errors, name, near),
        ProgramEnd::NoSupervisor(name) => write_no_supervisor(errors, name),
        ProgramEnd::NamesSupervisor(name) => write_names_supervisor(errors, name),
        ProgramEnd::StopTooLong(word) => write_too_long(errors, word),
        ProgramEnd::NotAGap(word, fault) => write_no_gap(errors, word, fault.text()),
        ProgramEnd::LogRefused(name, fault) => write_log_fault(errors, name, fault),
        ProgramEnd::PageNotWritten(name, why) => write_not_written(errors, name, why),
        ProgramEnd::PageRefused(name, why) => write_not_replaced(errors, name, why),
        ProgramEnd::CloseMismatch => write_all(errors, b"close refused: E17\n"),
        ProgramEnd::CloseMissing => write_all(errors, b"close refused: E20\n"),
        ProgramEnd::WrongBody => write_all(errors, b"tree refused: E19\n"),
        ProgramEnd::LineRefused(line, why) => write_refused_line(errors, line, why.text()),
        ProgramEnd::ScriptRefused(script, line, fault) => {
            write_line_fault(errors, script, line, fault.text())
        }
        ProgramEnd::ScriptMissed(script, line, taken, near) => {
            write_missed(errors, script, line, taken, near)
        }
        ProgramEnd::ExpectationFailed(script, line) => {
            write_line_fault(errors, script, line, "it is not so as the script expects")
        }
        ProgramEnd::ScriptsFailed(failed, all) => write_failed(errors, failed, all),
        ProgramEnd::NothingPlayed => write_all(
            errors,
            b"error: nothing was played: no line says what happens\n",
        ),
        ProgramEnd::HistoryFull => write_all(errors, b"history full\n"),
        ProgramEnd::InputFailed => write_all(errors, b"input not read\n"),
        ProgramEnd::OutputFailed => write_all(errors, b"output not written\n"),
        ProgramEnd::OutOfMemory => write_all(errors, b"out of memory\n"),
    }
}

/// Writes what a tree is refused for, and which command tells why.
fn write_no_tree<E: Output>(errors: &mut E, code: u64, name: &str) -> Result<(), Failed>
    ensures ok { OnOk result (Appends (E.seen errors.old).bytes (E.seen errors.new).bytes (no_tree_text code name.now)) }
    ensures kept { (E.seen errors.old).failures ≤ (E.seen errors.new).failures }
    ensures failed { OnErr result ((E.seen errors.old).failures < (E.seen errors.new).failures) }
{
    write_named(
        errors,
        b"tree refused: E",
        code,
        b"; otp check ",
        name.as_bytes(),
        b" tells why\n",
    )
}

/// Writes that no child or supervisor has this name.
fn write_not_found<E: Output>(errors: &mut E, name: &str) -> Result<(), Failed>
    ensures ok { OnOk result (Appends (E.seen errors.old).bytes (E.seen errors.new).bytes (not_found_text name.now)) }
    ensures kept { (E.seen errors.old).failures ≤ (E.seen errors.new).failures }
    ensures failed { OnErr result ((E.seen errors.old).failures < (E.seen errors.new).failures) }
{
    write_said_of(
        errors,
        name.as_bytes(),
        b" is no child of the tree",
        b"; otp tree FILE shows which there are, below the root each by its path, as pool/worker",
    )
}

/// Writes that no supervisor with children has this name.
fn write_no_supervisor<E: Output>(errors: &mut E, name: &str) -> Result<(), Failed>
    ensures ok { OnOk result (Appends (E.seen errors.old).bytes (E.seen errors.new).bytes (no_supervisor_text name.now)) }
    ensures kept { (E.seen errors.old).failures ≤ (E.seen errors.new).failures }
    ensures failed { OnErr result ((E.seen errors.old).failures < (E.seen errors.new).failures) }
{
    write_said_of(
        errors,
        name.as_bytes(),
        b" is no supervisor with children",
        b"; otp tree FILE shows which there are",
    )
}

/// Writes that the child with this name is a supervisor, and whose name is wanted.
#[tactic(auto, unfolding(otp_suggest::specs::Refused::is_supervisor_text))]
fn write_names_supervisor<E: Output>(errors: &mut E, name: &str) -> Result<(), Failed>
    ensures ok { OnOk result (Appends (E.seen errors.old).bytes (E.seen errors.new).bytes (names_supervisor_text name.now)) }
    ensures kept { (E.seen errors.old).failures ≤ (E.seen errors.new).failures }
    ensures failed { OnErr result ((E.seen errors.old).failures < (E.seen errors.new).failures) }
{
    write_three(errors, b"error: ", name.as_bytes(), instead().as_bytes())?;
    write_two(errors, name.as_bytes(), b"/worker\n")
}

/// Writes that the stop of a tree may take longer than a word allows.
fn write_too_long<E: Output>(errors: &mut E, word: &str) -> Result<(), Failed>
    ensures ok { OnOk result (Appends (E.seen errors.old).bytes (E.seen errors.new).bytes (too_long_text word.now)) }
    ensures kept { (E.seen errors.old).failures ≤ (E.seen errors.new).failures }
    ensures failed { OnErr result ((E.seen errors.old).failures < (E.seen errors.new).failures) }
{
    write_three(
        errors,
        b"error: the stop may take longer than ",
        word.as_bytes(),
        b"\n",
    )
}

/// Writes that a word says no time between crashes, and why.
fn write_no_gap<E: Output>(errors: &mut E, word: &str, why: &str) -> Result<(), Failed>
    ensures ok { OnOk result (Appends (E.seen errors.old).bytes (E.seen errors.new).bytes (no_gap_text word.now why.now)) }
    ensures kept { (E.seen errors.old).failures ≤ (E.seen errors.new).failures }
    ensures failed { OnErr result ((E.seen errors.old).failures < (E.seen errors.new).failures) }
{
    write_three(errors, b"error: ", word.as_bytes(), b" ")?;
    write_two(errors, why.as_bytes(), b"\n")
}

/// Writes which line of a log is refused, and why.
fn write_log_fault<E: Output>(errors: &mut E, name: &str, fault: LogFault) -> Result<(), Failed>
    ensures ok { OnOk result (Appends (E.seen errors.old).bytes (E.seen errors.new).bytes (log_text name.now fault)) }
    ensures kept { (E.seen errors.old).failures ≤ (E.seen errors.new).failures }
    ensures failed { OnErr result ((E.seen errors.old).failures < (E.seen errors.new).failures) }
{
    write_all(errors, name.as_bytes())?;
    write_numbered(errors, b":", fault.line(), fault.reason().as_bytes())
}

/// Writes what is said of a file, and why.
fn write_said_of<E: Output>(
    errors: &mut E,
    name: &[u8],
    said: &[u8],
    why: &[u8],
) -> Result<(), Failed>
    ensures ok { OnOk result (Appends (E.seen errors.old).bytes (E.seen errors.new).bytes (said_text name.now said.now why.now)) }
    ensures kept { (E.seen errors.old).failures ≤ (E.seen errors.new).failures }
    ensures failed { OnErr result ((E.seen errors.old).failures < (E.seen errors.new).failures) }
{
    write_three(errors, b"error: ", name, said)?;
    write_two(errors, why, b"\n")
}

/// Writes which page can't be written, and why.
fn write_not_written<E: Output>(errors: &mut E, name: &str, why: &str) -> Result<(), Failed>
    ensures ok { OnOk result (Appends (E.seen errors.old).bytes (E.seen errors.new).bytes (not_written_text name.now why.now)) }
    ensures kept { (E.seen errors.old).failures ≤ (E.seen errors.new).failures }
    ensures failed { OnErr result ((E.seen errors.old).failures < (E.seen errors.new).failures) }
{
    write_said_of(
        errors,
        name.as_bytes(),
        b" can't be written: ",
        why.as_bytes(),
    )
}

/// Writes which page may not be written, and why.
fn write_not_replaced<E: Output>(errors: &mut E, name: &str, why: &str) -> Result<(), Failed>
    ensures ok { OnOk result (Appends (E.seen errors.old).bytes (E.seen errors.new).bytes (not_replaced_text name.now why.now)) }
    ensures kept { (E.seen errors.old).failures ≤ (E.seen errors.new).failures }
    ensures failed { OnErr result ((E.seen errors.old).failures < (E.seen errors.new).failures) }
{
    write_said_of(
        errors,
        name.as_bytes(),
        b" isn't replaced: ",
        why.as_bytes(),
    )
}

/// Writes why words are refused.
fn write_refused<E: Output>(errors: &mut E, why: &str) -> Result<(), Failed>
    ensures ok { OnOk result (Appends (E.seen errors.old).bytes (E.seen errors.new).bytes (refused_text why.now)) }
    ensures kept { (E.seen errors.old).failures ≤ (E.seen errors.new).failures }
    ensures failed { OnErr result ((E.seen errors.old).failures < (E.seen errors.new).failures) }
{
    write_three(errors, b"error: ", why.as_bytes(), b"\n")
}

/// Writes how many of how many scripts failed.
fn write_failed<E: Output>(errors: &mut E, some: u64, all: u64) -> Result<(), Failed>
    ensures ok { OnOk result (Appends (E.seen errors.old).bytes (E.seen errors.new).bytes (failed_text some all)) }
    ensures kept { (E.seen errors.old).failures ≤ (E.seen errors.new).failures }
    ensures failed { OnErr result ((E.seen errors.old).failures < (E.seen errors.new).failures) }
{
    write_numbered(errors, b"", some, b" of ")?;
    write_all_failed(errors, all)
}

/// Writes of how many scripts that is.
fn write_all_failed<E: Output>(errors: &mut E, all: u64) -> Result<(), Failed>
    ensures ok { OnOk result (Appends (E.seen errors.old).bytes (E.seen errors.new).bytes (all_failed_text all)) }
    ensures kept { (E.seen errors.old).failures ≤ (E.seen errors.new).failures }
    ensures failed { OnErr result ((E.seen errors.old).failures < (E.seen errors.new).failures) }
{
    write_numbered(errors, b"", all, b" scripts failed\n")
}

/// The name of a script; that of standard input is `-`.
fn name_of(script: Option<&str>) -> &str
    ensures { result.now ≡ script_name script.entry }
{
    match script {
        None => "-",
        Some(name) => name,
    }
}

/// Writes what is wrong with a line of a script.
fn write_line_fault<E: Output>(
    errors: &mut E,
    script: Option<&str>,
    line: u64,
    why: &str,
) -> Result<(), Failed>
    ensures ok { OnOk result (Appends (E.seen errors.old).bytes (E.seen errors.new).bytes (line_text script.entry line why.now)) }
    ensures kept { (E.seen errors.old).failures ≤ (E.seen errors.new).failures }
    ensures failed { OnErr result ((E.seen errors.old).failures < (E.seen errors.new).failures) }
{
    write_all(errors, name_of(script).as_bytes())?;
    write_numbered(errors, b":", line, b": ")?;
    write_two(errors, why.as_bytes(), b"\n")
}

/// Writes that no child has this name, and which one may be meant.
fn write_unfound<E: Output>(errors: &mut E, name: &str, near: Option<Text>) -> Result<(), Failed>
    ensures ok { OnOk result (Appends (E.seen errors.old).bytes (E.seen errors.new).bytes (unfound_text name.now near)) }
    ensures kept { (E.seen errors.old).failures ≤ (E.seen errors.new).failures }
    ensures failed { OnErr result ((E.seen errors.old).failures < (E.seen errors.new).failures) }
{
    match near {
        None => write_not_found(errors, name),
        Some(path) => write_found_near(errors, name, path.as_bytes()),
    }
}

/// Writes that no child has this name, and that the one with this path may be meant.
fn write_found_near<E: Output>(errors: &mut E, name: &str, path: &[u8]) -> Result<(), Failed>
    ensures ok { OnOk result (Appends (E.seen errors.old).bytes (E.seen errors.new).bytes (found_near_text name.now path.now)) }
    ensures kept { (E.seen errors.old).failures ≤ (E.seen errors.new).failures }
    ensures failed { OnErr result ((E.seen errors.old).failures < (E.seen errors.new).failures) }
{
    write_asked_of(
        errors,
        name.as_bytes(),
        b" is no child of the tree; did you mean ",
        path,
    )
}

/// Writes what is said of a name, and asks whether this one was meant.
fn write_asked_of<E: Output>(
    errors: &mut E,
    name: &[u8],
    said: &[u8],
    meant: &[u8],
) -> Result<(), Failed>
    ensures ok { OnOk result (Appends (E.seen errors.old).bytes (E.seen errors.new).bytes (asked_text name.now said.now meant.now)) }
    ensures kept { (E.seen errors.old).failures ≤ (E.seen errors.new).failures }
    ensures failed { OnErr result ((E.seen errors.old).failures < (E.seen errors.new).failures) }
{
    write_three(errors, b"error: ", name, said)?;
    write_two(errors, meant, b"?\n")
}

/// Writes why a line of a script could do nothing, or which child was meant.
fn write_missed<E: Output>(
    errors: &mut E,
    script: Option<&str>,
    line: u64,
    taken: ActionEnd,
    near: Option<Text>,
) -> Result<(), Failed>
    ensures ok { OnOk result (Appends (E.seen errors.old).bytes (E.seen errors.new).bytes (missed_text script.entry line taken near)) }
    ensures kept { (E.seen errors.old).failures ≤ (E.seen errors.new).failures }
    ensures failed { OnErr result ((E.seen errors.old).failures < (E.seen errors.new).failures) }
{
    match near {
        None => write_line_fault(errors, script, line, taken.text()),
        Some(path) => write_meant(errors, script, line, path.as_bytes()),
    }
}

/// Writes of a line of a script that names no child which one was meant.
fn write_meant<E: Output>(
    errors: &mut E,
    script: Option<&str>,
    line: u64,
    path: &[u8],
) -> Result<(), Failed>
    ensures ok { OnOk result (Appends (E.seen errors.old).bytes (E.seen errors.new).bytes (meant_text script.entry line path.now)) }
    ensures kept { (E.seen errors.old).failures ≤ (E.seen errors.new).failures }
    ensures failed { OnErr result ((E.seen errors.old).failures < (E.seen errors.new).failures) }
{
    write_all(errors, name_of(script).as_bytes())?;
    write_numbered(
        errors,
        b":",
        line,
        b": ignored: there is no such child; did you mean ",
    )?;
    write_two(errors, path, b"?\n")
}

/// Writes which line of the events is refused, and why.
fn write_refused_line<E: Output>(errors: &mut E, line: u64, why: &str) -> Result<(), Failed>
    ensures ok { OnOk result (Appends (E.seen errors.old).bytes (E.seen errors.new).bytes (refused_line_text line why.now)) }
    ensures kept { (E.seen errors.old).failures ≤ (E.seen errors.new).failures }
    ensures failed { OnErr result ((E.seen errors.old).failures < (E.seen errors.new).failures) }
{
    write_numbered(errors, b"line ", line, b" refused: ")?;
    write_two(errors, why.as_bytes(), b"\n")
}

/// Writes a number and a name between texts.
fn write_named<E: Output>(
    errors: &mut E,
    front: &[u8],
    number: u64,
    middle: &[u8],
    name: &[u8],
    back: &[u8],
) -> Result<(), Failed>
    ensures ok { OnOk result (Appends (E.seen errors.old).bytes (E.seen errors.new).bytes (front.now ++ decimal number ++ middle.now ++ name.now ++ back.now)) }
    ensures kept { (E.seen errors.old).failures ≤ (E.seen errors.new).failures }
    ensures failed { OnErr result ((E.seen errors.old).failures < (E.seen errors.new).failures) }
{
    write_numbered(errors, front, number, middle)?;
    write_all(errors, name)?;
    write_all(errors, back)
}

/// Writes a number between two texts. It takes no memory, which may be what is wanting.
pub fn write_numbered<E: Output>(
    errors: &mut E,
    front: &[u8],
    number: u64,
    back: &[u8],
) -> Result<(), Failed>
    ensures ok { OnOk result (Appends (E.seen errors.old).bytes (E.seen errors.new).bytes (front.now ++ decimal number ++ back.now)) }
    ensures kept { (E.seen errors.old).failures ≤ (E.seen errors.new).failures }
    ensures failed { OnErr result ((E.seen errors.old).failures < (E.seen errors.new).failures) }
{
    let mut digits = Buffer::new();
    write_all(errors, front)?;
    write_all(errors, digits.format(number).as_bytes())?;
    write_all(errors, back)
}
