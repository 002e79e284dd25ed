//! The words of the program.

ghost use Rattle.std.specs.Prelude.{◌≡◌, codes, map, IfErr, IfOk};
ghost use Rattle.clap.specs.Words.{found_of, rows_of, subcommand_of};
ghost use Rattle.otp_cli.specs.Asked.{Asks, AsksFor};
ghost use Rattle.otp_cli.specs.Commands.{otp_app};
ghost use Rattle.otp_cli.specs.Words.{IsOfClap, IsOfSystem, IsHandedOn};
ghost use Rattle.otp_cli.specs.declared.words.WordsFault.TheVariants.{OutOfMemory};

use crate::commands::otp_command;
use crate::getters::{is_set, value_of, values_of};
use crate::questions::{read_diff, read_limits, read_suggest, read_tree};
use crate::runs::read_run;
use crate::slips::{Slip, find_slip, is_input, reads_twice, wants_input};
use crate::topics::topic;
use crate::trials::{read_judge, read_replay, read_try};
use clap::error::ErrorKind;
use clap::{ArgMatches, Error};
use otp_costs::{Grain, Pick};
use otp_file::roles::Settings;
use otp_suggest::Asked;
use otp_trial::Clock;
use otp_try::Writer;
use std::alloc::{AllocError, Global};
use std::convert::AsStr;
use std::rt::Env;
use std::{env, io};

/// Where a page goes.
#[derive(Clone, Copy, Debug, PartialEq, Eq)]
pub enum Page<'a> {
    Output,
    /// To the file of this name.
    File(&'a str),
}

/// In which form an answer is written.
#[derive(Clone, Copy, Debug, PartialEq, Eq)]
pub enum Form<'a> {
    /// As text, to the output.
    Text,
    /// As an object of JSON, to the output.
    Object,
    /// As a page of HTML, which goes there.
    Page(Page<'a>),
}

/// What a tree file is used for.
#[derive(Clone, Copy, Debug, PartialEq, Eq)]
pub enum Usage<'a> {
    /// Its tree is tried by the script of another file, or of the input where none is named.
    Try {
        script: Option<&'a str>,
        writer: Writer,
        shows: TrialShows,
        form: Form<'a>,
    },
    /// Its tree is drawn.
    Draw {
        form: Form<'a>,
    },
    /// How long its stop may take.
    Stop {
        /// How long it may take, where that is asked.
        within: Option<&'a str>,
        /// The answer is an object of JSON.
        is_json: bool,
    },
    /// What the failure of its children costs, or of some of them.
    Limit {
        pick: Pick<'a>,
        grain: Grain,
        form: Form<'a>,
    },
    /// Which flags would survive crashes of a child.
    Suggest {
        child: &'a str,
        /// How often it crashes, as it is given.
        asked: Asked<'a>,
        /// The answer is an object of JSON.
        is_json: bool,
    },
    /// Which change of one intensity is the least that has the root survive crashes of a child.
    Root {
        child: &'a str,
        /// How many there are, and the time within which they come, as they are given.
        times: &'a str,
        within: &'a str,
        /// The answer is an object of JSON.
        is_json: bool,
    },
    /// Its tree is compared with that of another file.
    Compare {
        other: &'a str,
        /// The answer is an object of JSON.
        is_json: bool,
    },
    /// What a log tells is played on its tree.
    Replay {
        log: &'a str,
        reading: LogReading<'a>,
        /// The lines that aren't played are listed.
        is_listed: bool,
        shows: TrialShows,
        /// The answer is an object of JSON.
        is_json: bool,
    },
    /// What another program says in it of a tree is written as a tree file.
    Import {
        /// What each start runs is written instead.
        of_commands: bool,
    },
}

/// How a log of another program is read.
#[derive(Clone, Copy, Debug, PartialEq, Eq)]
pub struct LogReading<'a> {
    /// The file that says which children its names mean.
    pub ids: Option<&'a str>,
    /// A child that the tree doesn't have is a fault, and not left out.
    pub is_strict: bool,
}

/// What of a trial is shown, and by which clock it is played.
#[derive(Clone, Copy, Debug, PartialEq, Eq)]
pub struct TrialShows {
    /// A picture is drawn, in place of a line for each order.
    pub is_drawn: bool,
    /// Ends and the verdict alone are told.
    pub is_quiet: bool,
    pub clock: Clock,
    /// The columns of a picture.
    pub width: u32,
}

/// What is looked at in files, and how much of it is written.
#[derive(Clone, Copy, Debug, PartialEq, Eq)]
pub struct Checking {
    /// The starts of children are looked at too: whether `run` knows them.
    pub has_starts: bool,
    /// All findings are written, and not the first twenty of a file alone.
    pub has_all: bool,
    /// All findings are written as JSON, an object a line for each file.
    pub is_json: bool,
    /// Of lawful files remarks are looked for too.
    pub has_remarks: bool,
}

/// What of a run is told on standard error, beside its report, and whether that is written as JSON.
#[derive(Clone, Copy, Debug, PartialEq, Eq)]
pub struct RunShows {
    /// The tree, as it stood at the end, as a picture.
    pub is_drawn: bool,
    /// How each supervisor ended, and why.
    pub is_why: bool,
    /// The report is an object of JSON.
    pub is_json: bool,
}

/// How long a tree is served on threads that sleep, and what is told of it meanwhile.
#[derive(Clone, Copy, Debug, PartialEq, Eq)]
pub struct Serving {
    /// So many milliseconds, unless its root ends before.
    pub time: u64,
    /// How many milliseconds its stop may take; as long as it takes, where none are said.
    pub grace: Option<u64>,
    /// What happens to each process is told.
    pub is_logged: bool,
}

/// What the words ask for.
#[derive(Drop)]
pub enum Command<'a> {
    /// A run of `sim`, on the tree file of this name.
    Sim {
        file: &'a str,
    },
    /// All that is wrong in the tree files of these names.
    Check {
        files: Vec<&'a str>,
        checking: Checking,
    },
    /// The tree of the file of this name is run on threads.
    Run {
        file: &'a str,
        settings: Settings,
        shows: RunShows,
    },
    /// The tree of the file of this name is served on threads for a time.
    Serve {
        file: &'a str,
        settings: Settings,
        serving: Serving,
        shows: RunShows,
    },
    /// Each of these scripts is played on the tree of the file of this name, and told: whether all is as it expects.
    Judge {
        file: &'a str,
        scripts: Vec<&'a str>,
        clock: Clock,
    },
    /// Something else, of the tree file of this name.
    Use {
        file: &'a str,
        usage: Usage<'a>,
    },
}

/// Why the words are refused.
#[derive(Drop)]
pub enum WordsFault {
    /// `clap` refuses them, or they ask for its help, which is its text too.
    Clap(Error),
    /// They name no command.
    NoCommand,
    /// They are a file's name alone.
    FileAsCommand,
    /// The clock is none that a trial is played by.
    UnknownClock,
    /// A word is no time, where one is wanted.
    NotATime,
    /// They say how a tree is served, and not how long.
    NeedsFor,
    /// They ask for what is counted after turns, where no turns are counted.
    CountsTurns,
    /// They have this slip.
    Slip(Slip),
    /// They ask for this text.
    Topic(&'static str),
    /// One of them is no UTF-8 text.
    NotText,
    /// There is no memory to read them.
    OutOfMemory,
}

impl From<Error> for WordsFault {
    ghost from_gives = { λ error fault. IsHandedOn fault × IsOfClap error fault };

    fn from(error: Error) -> Self {
        match error.kind() {
            ErrorKind::OutOfMemory => WordsFault::OutOfMemory,
            _ => WordsFault::Clap(error),
        }
    }
}

/// What may go wrong where the words are taken from the system.
impl From<io::Error> for WordsFault {
    ghost from_gives = { IsOfSystem };

    fn from(error: io::Error) -> Self {
        match error.kind() {
            io::ErrorKind::OutOfMemory => WordsFault::OutOfMemory,
            _ => WordsFault::NotText,
        }
    }
}

impl From<AllocError> for WordsFault {
    ghost from_gives = { λ _ fault. fault ≡ OutOfMemory };

    fn from(_error: AllocError) -> Self {
        WordsFault::OutOfMemory
    }
}

/// The words of the command line, the program's own name first.
///
/// # Errors
///
/// [`WordsFault::NotText`] and [`WordsFault::OutOfMemory`].
pub fn words_of<R: Env + AllocGlobal>(rt: &R) -> Result<Vec<String>, WordsFault>
    ensures { IfErr result IsHandedOn }
{
    let mut words = Vec::new(rt.alloc());
    for word in env::args(rt)? {
        words.push(word).map_err(|_| WordsFault::OutOfMemory)?;
    }
    Ok(words)
}

/// Whether the word looks like a file's name, and no command's.
fn is_file_name(word: &str) -> bool {
    word.ends_with(".toml") || word.contains('/')
}

/// Whether a file's name stands in the place of a command, after the program's own.
fn is_file_first<S: AsStr>(words: &[S]) -> bool {
    match words {
        [_, word, ..] => is_file_name(word.as_str()),
        _ => false,
    }
}

/// The text that `help TOPIC` asks for, after the program's own name.
fn topic_in<S: AsStr>(words: &[S]) -> Option<&'static str> {
    match words {
        [_, help, word] if help.as_str() == "help" => topic(word.as_str()),
        _ => None,
    }
}

/// The files that the words after `check` name.
fn read_check<'a>(alloc: Global, found: &ArgMatches<'a>) -> Result<Command<'a>, WordsFault>
    ensures asked { IfOk result (Asks (codes "check") (rows_of (found_of found.now))) }
    ensures handed_on { IfErr result IsHandedOn }
{
    match values_of(found, "FILE") {
        Some(names) => {
            if reads_twice(names) {
                return Err(WordsFault::Slip(Slip::InputTwice));
            }
            let files = Vec::from_slice(alloc, names)?;
            let checking = Checking {
                has_starts: is_set(found, "run"),
                has_all: is_set(found, "all"),
                is_json: is_set(found, "json"),
                has_remarks: is_set(found, "lint"),
            };
            Ok(Command::Check { files, checking })
        }
        None => Err(WordsFault::NoCommand),
    }
}

/// What the words after a command ask for.
fn read_command<'a>(
    alloc: Global,
    name: &str,
    found: &ArgMatches<'a>,
) -> Result<Command<'a>, WordsFault>
    ensures asked { IfOk result (Asks name.now (rows_of (found_of found.now))) }
    ensures handed_on { IfErr result IsHandedOn }
{
    if name == "check" {
        return read_check(alloc, found);
    }
    let Some(file) = value_of(found, "FILE") else {
        return Err(WordsFault::NoCommand);
    };
    let usage = match name {
        "sim" => return Ok(Command::Sim { file }),
        "run" => return read_run(file, found),
        "try" if is_set(found, "tap") => return read_judge(alloc, file, found),
        "try" => read_try(found)?,
        "replay" => read_replay(found)?,
        "tree" => read_tree(found)?,
        "shutdown" => Usage::Stop {
            within: value_of(found, "within"),
            is_json: is_set(found, "json"),
        },
        "import" => Usage::Import {
            of_commands: is_set(found, "commands"),
        },
        "limits" => read_limits(found)?,
        "suggest" => read_suggest(found)?,
        "diff" => read_diff(found)?,
        _ => return Err(WordsFault::NoCommand),
    };
    if is_input(file) && wants_input(&usage) {
        return Err(WordsFault::Slip(Slip::InputTwice));
    }
    Ok(Command::Use { file, usage })
}

/// Reads the words of the command line, the program's own name first.
///
/// # Errors
///
/// [`WordsFault::Clap`] where `clap` refuses the words or is asked for help, [`WordsFault::NoCommand`] where they are no
/// more than the program's name, [`WordsFault::FileAsCommand`], [`WordsFault::Slip`], [`WordsFault::Topic`] where they ask for a text
/// of help that is no command's, and [`WordsFault::OutOfMemory`].
pub fn read_words<'a, S: AsStr>(alloc: Global, words: &'a [S]) -> Result<Command<'a>, WordsFault>
    ensures asked { IfOk result (AsksFor (subcommand_of otp_app (map S.text words.entry.now))) }
    ensures handed_on { IfErr result IsHandedOn }
{
    if is_file_first(words) {
        return Err(WordsFault::FileAsCommand);
    }
    if let Some(text) = topic_in(words) {
        return Err(WordsFault::Topic(text));
    }
    if let Some(slip) = find_slip(alloc, words)? {
        return Err(WordsFault::Slip(slip));
    }
    let command = otp_command(alloc)?;
    let matches = command.try_get_matches_from(words)?;
    match matches.subcommand() {
        Some((name, found)) => read_command(alloc, name, found),
        None => Err(WordsFault::NoCommand),
    }
}
