//! The program but for the system under it, and but for trees that run: what it does for which words, and what it tells on which
//! stream.

ghost use Rattle.std.specs.Prelude.{◌≡◌, ◌≤◌, ◌⊎◌, false};
ghost use Rattle.otp_sim.specs.Devices.{Devices, Readable, devices};
ghost use Rattle.otp_commands.specs.Runs.{Answers, Checks, ChecksAll, Does, IsObeyed, IsProgramRun, Simulates, draws};
ghost use Rattle.otp_commands.specs.Trees.{no_trees};
ghost use Rattle.otp_exit.specs.Told.{TellsFirst};
ghost use Rattle.otp_exit.specs.declared.ending.ProgramEnd.TheVariants as end;
ghost use Rattle.otp_commands.specs.Words.{EndsFor};
ghost use Rattle.otp_cli.specs.declared.words.WordsFault.TheVariants.{Clap};

use crate::checking::{check_file, write_unread};
use crate::console::console;
use crate::judging::judge_scripts;
use crate::using::use_named;
use clap::Error;
use otp_cli::{Checking, Command, WordsFault, read_words};
use otp_exit::{ProgramEnd, TreeFiles, Unread, explain, read_large, read_small, tell};
use otp_sim::{Failed, Input, Output, write_all};
use std::alloc::Global;

/// Does what the words of the command line ask for, and gives the exit status.
///
/// Orders and help are written to `output`. Why the program ends, if not well, is told on `errors`, and nothing else is. No tree is
/// run: the program ends, and says so.
pub fn run<F, R, W, E>(
    alloc: Global,
    words: Result<Vec<String>, WordsFault>,
    files: &F,
    input: &mut R,
    output: &mut W,
    errors: &mut E,
) -> u8
where
    F: TreeFiles,
    R: Input,
    W: Output,
    E: Output,
    ensures { IsProgramRun (F.known files.now) no_trees result
        (devices (R.seen input.old) (W.seen output.old))
        (devices (R.seen input.new) (W.seen output.new)) (E.seen errors.old) (E.seen errors.new) }
{
    let ending = obey(alloc, &words, files, input, output, errors);
    tell(errors, ending, files.unwritten())
}

/// Does what the words ask for, the program's own name first, or answers them.
fn obey<'a, F, R, W, E>(
    alloc: Global,
    words: &'a Result<Vec<String>, WordsFault>,
    files: &F,
    input: &mut R,
    output: &mut W,
    errors: &mut E,
) -> ProgramEnd<'a>
where
    F: TreeFiles,
    R: Input,
    W: Output,
    E: Output,
    ensures obeyed { IsObeyed (F.known files.now) no_trees result
        (devices (R.seen input.old) (W.seen output.old))
        (devices (R.seen input.new) (W.seen output.new)) (E.seen errors.old) (E.seen errors.new) }
    ensures kept { (E.seen errors.old).failures ≤ (E.seen errors.new).failures }
{
    let words = match words {
        Ok(words) => words,
        Err(fault) => return answer(alloc, fault, output, errors),
    };
    match read_words(alloc, words) {
        Ok(command) => do_command(alloc, command, files, input, output, errors),
        Err(fault) => answer(alloc, &fault, output, errors),
    }
}

/// Does what a command asks for, where it asks for no tree that runs.
pub fn do_command<'a, F, R, W, E>(
    alloc: Global,
    command: Command<'a>,
    files: &F,
    input: &mut R,
    output: &mut W,
    errors: &mut E,
) -> ProgramEnd<'a>
where
    F: TreeFiles,
    R: Input,
    W: Output,
    E: Output,
    ensures done { Does (F.known files.now) no_trees command.entry result
        (devices (R.seen input.old) (W.seen output.old))
        (devices (R.seen input.new) (W.seen output.new)) }
    ensures first { TellsFirst (draws command.entry) result (E.seen errors.old) (E.seen errors.new) }
    ensures kept { (E.seen errors.old).failures ≤ (E.seen errors.new).failures }
{
    match command {
        Command::Sim { file } => simulate(alloc, files, file, input, output, errors),
        Command::Check {
            files: names,
            checking,
        } => check_all(alloc, files, names.as_slice(), checking, output),
        Command::Run { .. } | Command::Serve { .. } => ProgramEnd::RunsNoTrees,
        Command::Judge {
            file,
            scripts,
            clock,
        } => judge_scripts(
            alloc,
            files,
            file,
            scripts.as_slice(),
            clock,
            output,
            errors,
        ),
        Command::Use { file, usage } => use_named(alloc, files, file, usage, input, output, errors),
    }
}

/// Plays the lines of the input on the supervisor of a file.
fn simulate<'a, F: TreeFiles, R: Input, W: Output, E: Output>(
    alloc: Global,
    files: &F,
    name: &'a str,
    input: &mut R,
    output: &mut W,
    errors: &mut E,
) -> ProgramEnd<'a>
    ensures done { Simulates ((F.known files.now).holds name.now) result
        (devices (R.seen input.old) (W.seen output.old))
        (devices (R.seen input.new) (W.seen output.new)) }
    ensures first { TellsFirst false result (E.seen errors.old) (E.seen errors.new) }
    ensures kept { (E.seen errors.old).failures ≤ (E.seen errors.new).failures }
{
    match read_large(files, name) {
        Ok(file) => {
            let ending = console(alloc, &file, input, output);
            explain(errors, name, ending);
            ending
        }
        Err(ending) => ending,
    }
}

/// Checks files, one after the other, as long as it can be written what is wrong in them.
fn check_all<'a, F: TreeFiles, W: Output>(
    alloc: Global,
    files: &F,
    names: &[&'a str],
    checking: Checking,
    output: &mut W,
) -> ProgramEnd<'a>
    ensures { ChecksAll checking (λ name. (F.known files.now).holds name.now)
        (λ name. name.now) names.now result (W.seen output.old) (W.seen output.new) }
{
    let mut ending = ProgramEnd::Done;
    for name in names {
        let next = check_named(alloc, files, name, checking, output);
        if !next.goes_on() {
            return next;
        }
        ending = ending.worse(next);
    }
    ending
}

/// Checks a file.
fn check_named<'a, F: TreeFiles, W: Output>(
    alloc: Global,
    files: &F,
    name: &'a str,
    checking: Checking,
    output: &mut W,
) -> ProgramEnd<'a>
    ensures { Checks checking ((F.known files.now).holds name.now) name.now result
        (W.seen output.old) (W.seen output.new) }
{
    match read_small(files, name) {
        Ok(file) => check_file(alloc, name, &file, checking, output),
        Err(Unread::OutOfMemory) => ProgramEnd::OutOfMemory,
        Err(Unread::Since(why)) => write_unread(alloc, name, why, checking, output),
    }
}

/// Answers words that ask for nothing that is done: they are refused, or ask for help.
pub fn answer<'a, W: Output, E: Output>(
    alloc: Global,
    fault: &WordsFault,
    output: &mut W,
    errors: &mut E,
) -> ProgramEnd<'a>
    ensures ending { EndsFor fault.now result }
    ensures done { (unread : Readable) → Answers result
        (devices unread (W.seen output.old)) (devices unread (W.seen output.new)) }
    ensures first { TellsFirst false result (E.seen errors.old) (E.seen errors.new) }
    ensures kept { (E.seen errors.old).failures ≤ (E.seen errors.new).failures }
{
    match fault {
        WordsFault::Clap(error) => show(alloc, error, output, errors),
        WordsFault::Topic(text) => show_text(text, output),
        _ => end_of_fault(fault),
    }
}

/// The end of words of which nothing is written but its sentence. Of a text of `clap` or of a topic, which is written elsewhere, it is
/// one that holds of it in any case.
fn end_of_fault<'a>(fault: &WordsFault) -> ProgramEnd<'a>
    ensures ending { EndsFor fault.now result }
    ensures done { (seen : Devices) → Answers result seen seen }
{
    match fault {
        WordsFault::NoCommand => ProgramEnd::NoCommand,
        WordsFault::FileAsCommand => ProgramEnd::FileAsCommand,
        WordsFault::UnknownClock => ProgramEnd::UnknownClock,
        WordsFault::NotATime => ProgramEnd::NotATime,
        WordsFault::NeedsFor => ProgramEnd::NeedsFor,
        WordsFault::CountsTurns => ProgramEnd::CountsTurns,
        WordsFault::Slip(slip) => ProgramEnd::Refused(slip.text()),
        WordsFault::NotText => ProgramEnd::WordNotText,
        WordsFault::Topic(_) => ProgramEnd::Done,
        WordsFault::Clap(_) => ProgramEnd::OutOfMemory,
        WordsFault::OutOfMemory => ProgramEnd::OutOfMemory,
    }
}

/// Writes a text that the words ask for.
fn show_text<'a, W: Output>(text: &str, output: &mut W) -> ProgramEnd<'a>
    ensures ending { (result ≡ end.Done) ⊎ (result ≡ end.OutputFailed) }
    ensures done { (unread : Readable) → Answers result
        (devices unread (W.seen output.old)) (devices unread (W.seen output.new)) }
{
    match write_all(output, text.as_bytes()) {
        Ok(()) => ProgramEnd::Done,
        Err(Failed) => ProgramEnd::OutputFailed,
    }
}

/// Writes a text of `clap`: help to the output, and why the words are refused to standard error.
fn show<'a, W: Output, E: Output>(
    alloc: Global,
    error: &Error,
    output: &mut W,
    errors: &mut E,
) -> ProgramEnd<'a>
    ensures ending { EndsFor (Clap error.now) result }
    ensures done { (unread : Readable) → Answers result
        (devices unread (W.seen output.old)) (devices unread (W.seen output.new)) }
    ensures first { TellsFirst false result (E.seen errors.old) (E.seen errors.new) }
    ensures kept { (E.seen errors.old).failures ≤ (E.seen errors.new).failures }
{
    let Ok(text) = error.to_string(alloc) else {
        return ProgramEnd::OutOfMemory;
    };
    if error.use_stderr() {
        let _told = write_all(errors, text.as_bytes());
        return ProgramEnd::WordsRefused;
    }
    match write_all(output, text.as_bytes()) {
        Ok(()) => ProgramEnd::Done,
        Err(Failed) => ProgramEnd::OutputFailed,
    }
}
