//! The program but for the system under it: what it does for which words, and what it tells on which stream.
//!
//! It is that of `otp_commands`, with `run` besides. What a tree is run with can't be handed to that one as a value of a trait: a method
//! of an `impl` starts no thread by bounds on types.

ghost use Rattle.std.specs.Prelude.{◌≤◌, ◌||◌};
ghost use Rattle.otp_sim.specs.Devices.{devices};
ghost use Rattle.otp_commands.specs.Runs.{Does, IsObeyed, IsProgramRun, draws};
ghost use Rattle.otp_exit.specs.Told.{TellsFirst};
ghost use Rattle.otp_command_run.specs.Running.{RunsTree, ServesTree, on_threads};

use crate::running::{Pool, RunAs, run_file};
use crate::serving::{ServeAs, serve_file};
use otp_cli::{Command, WordsFault, read_words};
use otp_commands::program::{answer, do_command};
use otp_exit::{ProgramEnd, TreeFiles, read_run_file, tell};
use otp_live::Watch;
use otp_sim::{Input, Output};
use otp_tree::Gate;
use std::sync::Wait;
use std::thread::Threads;
use std::time::Clock;

/// Does what the words of the command line ask for, and gives the exit status.
///
/// Orders and help are written to `output`. Why the program ends, if not well, is told on `errors`, and nothing else is. What
/// happens to each process of a tree that is served is told the pool's watch alone, and that where `--log` asks for it.
pub fn run_with<H, G, L, F, R, W, E>(
    pool: &Pool<'_, H, G, L>,
    words: Result<Vec<String>, WordsFault>,
    files: &F,
    input: &mut R,
    output: &mut W,
    errors: &mut E,
) -> u8
where
    H: Threads + Wait + Clock + Sync,
    G: Gate + Sync,
    L: Watch + Sync,
    F: TreeFiles,
    R: Input,
    W: Output,
    E: Output,
    ensures { IsProgramRun (F.known files.now) on_threads result
        (devices (R.seen input.old) (W.seen output.old))
        (devices (R.seen input.new) (W.seen output.new)) (E.seen errors.old) (E.seen errors.new) }
{
    let ending = obey_with(pool, &words, files, input, output, errors);
    tell(errors, ending, files.unwritten())
}

/// Does what the words ask for, the program's own name first, or answers them.
fn obey_with<'a, H, G, L, F, R, W, E>(
    pool: &Pool<'_, H, G, L>,
    words: &'a Result<Vec<String>, WordsFault>,
    files: &F,
    input: &mut R,
    output: &mut W,
    errors: &mut E,
) -> ProgramEnd<'a>
where
    H: Threads + Wait + Clock + Sync,
    G: Gate + Sync,
    L: Watch + Sync,
    F: TreeFiles,
    R: Input,
    W: Output,
    E: Output,
    ensures obeyed { IsObeyed (F.known files.now) on_threads result
        (devices (R.seen input.old) (W.seen output.old))
        (devices (R.seen input.new) (W.seen output.new)) (E.seen errors.old) (E.seen errors.new) }
    ensures kept { (E.seen errors.old).failures ≤ (E.seen errors.new).failures }
{
    let words = match words {
        Ok(words) => words,
        Err(fault) => return answer(pool.alloc, fault, output, errors),
    };
    let command = match read_words(pool.alloc, words) {
        Ok(command) => command,
        Err(fault) => return answer(pool.alloc, &fault, output, errors),
    };
    do_command_with(pool, command, files, input, output, errors)
}

/// Does what a command asks for.
pub fn do_command_with<'a, H, G, L, F, R, W, E>(
    pool: &Pool<'_, H, G, L>,
    command: Command<'a>,
    files: &F,
    input: &mut R,
    output: &mut W,
    errors: &mut E,
) -> ProgramEnd<'a>
where
    H: Threads + Wait + Clock + Sync,
    G: Gate + Sync,
    L: Watch + Sync,
    F: TreeFiles,
    R: Input,
    W: Output,
    E: Output,
    ensures done { Does (F.known files.now) on_threads command.entry result
        (devices (R.seen input.old) (W.seen output.old))
        (devices (R.seen input.new) (W.seen output.new)) }
    ensures first { TellsFirst (draws command.entry) result (E.seen errors.old) (E.seen errors.new) }
    ensures kept { (E.seen errors.old).failures ≤ (E.seen errors.new).failures }
{
    match command {
        Command::Run {
            file,
            settings,
            shows,
        } => {
            let how = RunAs { settings, shows };
            run_named(pool, files, file, how, output, errors)
        },
        Command::Serve {
            file,
            settings,
            serving,
            shows,
        } => {
            let how = ServeAs {
                settings,
                serving,
                shows,
            };
            serve_named(pool, files, file, how, output, errors)
        }
        other => do_command(pool.alloc, other, files, input, output, errors),
    }
}

/// Runs the tree of a file by turns.
fn run_named<'a, H, G, L, F, W, E>(
    pool: &Pool<'_, H, G, L>,
    files: &F,
    name: &'a str,
    how: RunAs,
    output: &mut W,
    errors: &mut E,
) -> ProgramEnd<'a>
where
    H: Threads + Wait + Sync,
    G: Gate + Sync,
    F: TreeFiles,
    W: Output,
    E: Output,
    ensures done { RunsTree ((F.known files.now).holds name.now) how.shows.is_json name.now
        how.settings.counted result (W.seen output.old) (W.seen output.new) }
    ensures first { TellsFirst (how.shows.is_drawn || how.shows.is_why) result (E.seen errors.old) (E.seen errors.new) }
    ensures kept { (E.seen errors.old).failures ≤ (E.seen errors.new).failures }
{
    let file = match read_run_file(files, name, errors) {
        Ok(file) => file,
        Err(ending) => return ending,
    };
    run_file(pool, name, &file, how, output, errors)
}

/// Serves the tree of a file for a time.
fn serve_named<'a, H, G, L, F, W, E>(
    pool: &Pool<'_, H, G, L>,
    files: &F,
    name: &'a str,
    how: ServeAs,
    output: &mut W,
    errors: &mut E,
) -> ProgramEnd<'a>
where
    H: Threads + Wait + Clock + Sync,
    L: Watch + Sync,
    F: TreeFiles,
    W: Output,
    E: Output,
    ensures done { ServesTree ((F.known files.now).holds name.now) how.shows.is_json name.now result
        (W.seen output.old) (W.seen output.new) }
    ensures first { TellsFirst (how.shows.is_drawn || how.shows.is_why) result (E.seen errors.old) (E.seen errors.new) }
    ensures kept { (E.seen errors.old).failures ≤ (E.seen errors.new).failures }
{
    let file = match read_run_file(files, name, errors) {
        Ok(file) => file,
        Err(ending) => return ending,
    };
    serve_file(pool, name, &file, how, output, errors)
}
