//! Slips in the words that `clap` takes, or of which it tells less than it could: what was meant, and what to do instead.

ghost use Rattle.std.specs.Prelude.{◌≡◌, false};
ghost use Rattle.otp_cli.specs.Asked.{IsReadOnce, has_input, is_input, is_input_named, wants_input};
ghost use Rattle.otp_cli.specs.Words.{meant_text, slip_text};

use crate::words::Usage;
use std::alloc::{AllocError, Global};
use std::convert::AsStr;
use strsim::levenshtein;

/// A slip in the words.
#[derive(Clone, Copy, Debug, PartialEq, Eq)]
pub enum Slip {
    /// Two files are standard input.
    InputTwice,
    /// An answer is wanted in two forms.
    TwoForms,
    /// Several scripts are named, and a verdict on each isn't asked for.
    ManyScripts,
    /// A verdict on each script is asked for, and none is named.
    NoScript,
    /// The command writes no object.
    NoObject,
    /// `suggest` isn't told how often a child crashes, or in two ways.
    HowOften,
    /// `suggest --root` is told of an interval.
    RootHow,
    /// A number is negative.
    Negative,
    /// There is no such command, or topic of help, and this was meant.
    Meant(Meant),
}

/// What was meant by a word in the place of a command or a topic.
#[derive(Clone, Copy, Debug, PartialEq, Eq)]
pub enum Meant {
    Try,
    Run,
    Check,
    Tree,
    Limits,
    Shutdown,
    Suggest,
    Diff,
    Replay,
    Import,
    Sim,
    Help,
    Version,
    /// The topic with the lines of a script.
    Script,
    /// The topic with the lines of `sim`.
    Lines,
    /// The topic with the keys of a tree file.
    File,
    /// The topic with the logs of `replay`.
    Logs,
    /// The topic with what OTP does beyond this.
    Otp,
}

impl Slip {
    /// What is wrong, and what to do.
    #[tactic(auto, unfolding(crate::specs::Words::slip_text))]
    pub fn text(self) -> &'static str
        ensures { result.now ≡ slip_text self }
    {
        match self {
            Slip::InputTwice =>
                "standard input would be read twice; name a file for one of the two, as in otp try - SCRIPT",
            Slip::TwoForms =>
                "--json, --html and --tap are forms of one answer; choose one of them",
            Slip::ManyScripts => "several scripts are told of by --tap alone, with a line for each",
            Slip::NoScript => "--tap wants a script, or several; - is standard input",
            Slip::NoObject =>
                "this command has no --json; check, diff, limits, replay, run, shutdown, suggest, tree and try have it",
            Slip::HowOften => "suggest wants --every TIME, or --times N and --within TIME",
            Slip::RootHow => "suggest --root wants --times N and --within TIME",
            Slip::Negative => "--schedulers, --turns and --width want a whole number from 1 on",
            Slip::Meant(meant) => meant.text(),
        }
    }
}

impl Meant {
    /// What is told of it.
    #[tactic(auto, unfolding(crate::specs::Words::meant_text))]
    fn text(self) -> &'static str
        ensures { result.now ≡ meant_text self }
    {
        match self {
            Meant::Try => "there is no such command; did you mean otp try?",
            Meant::Run => "there is no such command; did you mean otp run?",
            Meant::Check => "there is no such command; did you mean otp check?",
            Meant::Tree => "there is no such command; did you mean otp tree?",
            Meant::Limits => "there is no such command; did you mean otp limits?",
            Meant::Shutdown => "there is no such command; did you mean otp shutdown?",
            Meant::Suggest => "there is no such command; did you mean otp suggest?",
            Meant::Diff => "there is no such command; did you mean otp diff?",
            Meant::Replay => "there is no such command; did you mean otp replay?",
            Meant::Import => "there is no such command; did you mean otp import?",
            Meant::Sim => "there is no such command; did you mean otp sim?",
            Meant::Help => "there is no such command; did you mean otp help?",
            Meant::Version => "there is no such command; did you mean otp --version?",
            Meant::Script => "there is no such topic; did you mean otp help script?",
            Meant::Lines => "there is no such topic; did you mean otp help lines?",
            Meant::File => "there is no such topic; did you mean otp help file?",
            Meant::Logs => "there is no such topic; did you mean otp help logs?",
            Meant::Otp => "there is no such topic; did you mean otp help otp?",
        }
    }
}

/// Whether the name is that of standard input.
pub(crate) fn is_input(name: &str) -> bool
    ensures { result ≡ is_input name.now }
{
    name == "-"
}

/// Whether a file is named, and is standard input.
pub(crate) fn is_input_named(name: Option<&str>) -> bool
    ensures { result ≡ is_input_named name.entry }
{
    match name {
        None => false,
        Some(name) => is_input(name),
    }
}

/// Whether standard input is read beside the tree file.
#[tactic(auto, unfolding(crate::specs::Asked::wants_input))]
pub(crate) fn wants_input(usage: &Usage<'_>) -> bool
    ensures { result ≡ wants_input usage.now }
{
    match usage {
        Usage::Try { script: None, .. } => true,
        Usage::Try {
            script: Some(script),
            ..
        } => is_input(script),
        Usage::Compare { other, .. } => is_input(other),
        Usage::Replay { log, reading, .. } => is_input(log) || is_input_named(reading.ids),
        Usage::Draw { .. } | Usage::Stop { .. } | Usage::Limit { .. } => false,
        Usage::Suggest { .. } | Usage::Root { .. } | Usage::Import { .. } => false,
    }
}

/// Whether standard input is more than one of these files.
pub(crate) fn reads_twice(names: &[&str]) -> bool
    ensures { result ≡ false → IsReadOnce names.now }
{
    names.iter().filter(|name| is_input(name)).count() > 1
}

/// Whether standard input is one of these files.
pub(crate) fn has_input(names: &[&str]) -> bool
    ensures { result ≡ has_input names.now }
{
    names.iter().any(|name| is_input(name))
}

/// Whether there are several.
pub(crate) fn are_several(names: Option<&[&str]>) -> bool {
    match names {
        None => false,
        Some(names) => names.len() > 1,
    }
}

/// A word, and what is meant where it or one that is near stands in the place of a command or a topic.
type Known = (&'static str, Meant);

/// The commands, and words that others use for them.
const COMMANDS: [Known; 26] = [
    ("try", Meant::Try),
    ("run", Meant::Run),
    ("check", Meant::Check),
    ("validate", Meant::Check),
    ("verify", Meant::Check),
    ("lint", Meant::Check),
    ("tree", Meant::Tree),
    ("limits", Meant::Limits),
    ("shutdown", Meant::Shutdown),
    ("suggest", Meant::Suggest),
    ("diff", Meant::Diff),
    ("compare", Meant::Diff),
    ("replay", Meant::Replay),
    ("import", Meant::Import),
    ("convert", Meant::Import),
    ("sim", Meant::Sim),
    ("help", Meant::Help),
    ("version", Meant::Version),
    ("script", Meant::Script),
    ("start", Meant::Run),
    ("stop", Meant::Shutdown),
    ("log", Meant::Replay),
    ("logs", Meant::Replay),
    ("crash", Meant::Try),
    ("draw", Meant::Tree),
    ("show", Meant::Tree),
];

/// What `help` explains besides commands.
const TOPICS: [Known; 14] = [
    ("script", Meant::Script),
    ("scripts", Meant::Script),
    ("lines", Meant::Lines),
    ("events", Meant::Lines),
    ("file", Meant::File),
    ("files", Meant::File),
    ("tree-file", Meant::File),
    ("toml", Meant::File),
    ("keys", Meant::File),
    ("flags", Meant::File),
    ("logs", Meant::Logs),
    ("log", Meant::Logs),
    ("otp", Meant::Otp),
    ("erlang", Meant::Otp),
];

/// The commands that `clap` knows, of which each has a help.
const HELPED: [&str; 12] = [
    "try", "run", "check", "tree", "limits", "shutdown", "suggest", "diff", "replay", "import",
    "sim", "help",
];

/// Those of them that write no object.
const OF_TEXT: [&str; 2] = ["import", "sim"];

/// The options that want a number.
const OF_NUMBERS: [&str; 3] = ["--schedulers", "--turns", "--width"];

/// The longest word that is compared, in bytes.
const LONGEST: usize = 40;

/// Whether a word is one of these.
fn is_one_of(word: &str, words: &[&str]) -> bool {
    words.iter().any(|other| *other == word)
}

/// How many characters of a word may be changed where it still stands for another.
fn most_changed(word: &str) -> usize {
    (word.len() / 3).min(2)
}

/// What is meant by the word that is nearest to this one, if one is near.
fn meant_by(alloc: Global, word: &str, words: &[Known]) -> Result<Option<Meant>, AllocError> {
    if word.len() > LONGEST {
        return Ok(None);
    }
    let mut nearest = None;
    let mut least = most_changed(word).saturating_add(1);
    for (known, meant) in words {
        let changed = levenshtein(alloc, word, known)?;
        if changed < least {
            least = changed;
            nearest = Some(*meant);
        }
    }
    Ok(nearest)
}

/// What was meant by a word in the place of a command, if it is none.
fn command_meant(alloc: Global, word: &str) -> Result<Option<Slip>, AllocError> {
    if word.starts_with('-') || is_one_of(word, &HELPED) {
        return Ok(None);
    }
    match meant_by(alloc, word, &COMMANDS)? {
        Some(meant) => Ok(Some(Slip::Meant(meant))),
        None => Ok(None),
    }
}

/// What was meant by a word behind `help`, if it is no command.
fn topic_meant(alloc: Global, word: &str) -> Result<Option<Slip>, AllocError> {
    if word.starts_with('-') || is_one_of(word, &HELPED) {
        return Ok(None);
    }
    match meant_by(alloc, word, &TOPICS)? {
        Some(meant) => Ok(Some(Slip::Meant(meant))),
        None => command_meant(alloc, word),
    }
}

/// Whether a word is a number below zero.
fn is_negative(word: &str) -> bool {
    match word.as_bytes() {
        [b'-', digit, ..] => digit.is_ascii_digit(),
        _ => false,
    }
}

/// The slip in the options of a command, if there is one.
fn find_in_options<S: AsStr>(command: &str, words: &[S]) -> Option<Slip> {
    let has_no_object = is_one_of(command, &OF_TEXT);
    let mut wants_number = false;
    for word in words {
        let word = word.as_str();
        if word == "--" {
            return None;
        }
        if has_no_object && word == "--json" {
            return Some(Slip::NoObject);
        }
        if wants_number && is_negative(word) {
            return Some(Slip::Negative);
        }
        wants_number = is_one_of(word, &OF_NUMBERS);
    }
    None
}

/// The slip in words that `clap` refuses, and of which more can be told; the program's own name comes first.
pub(crate) fn find_slip<S: AsStr>(alloc: Global, words: &[S]) -> Result<Option<Slip>, AllocError> {
    match words {
        [_, help, word] if help.as_str() == "help" => topic_meant(alloc, word.as_str()),
        [_, command, others @ ..] => match command_meant(alloc, command.as_str())? {
            Some(slip) => Ok(Some(slip)),
            None => Ok(find_in_options(command.as_str(), others)),
        },
        _ => Ok(None),
    }
}
