//! `replay`: the log of a file is read, also one of another program, and what it tells is played on a tree.

ghost use Rattle.std.specs.Prelude.{◌≤◌, false, IfErr};
ghost use Rattle.otp_commands.specs.Used.{IsReplayAlone, IsReplayBehind, IsReplayBy, IsReplayOf, IsReplayOfLog, IsReplayOfText, IsReplayWith, IsWithoutTree};
ghost use Rattle.otp_exit.specs.Told.{TellsFirst};

use otp_cli::LogReading;
use otp_exit::{ProgramEnd, TreeFiles, read_any_file, read_log};
use otp_file::{TreeSpec, read_tree};
use otp_logs::{LogWords, Translation, translate_log};
use otp_questions::{Log, replay_file, tell_replay};
use otp_replay::Replaying;
use otp_sim::{Failed, Output, write_all};
use std::alloc::Global;

/// Plays what the log of this name tells on the tree of a file.
pub(crate) fn replay_log<'a, F: TreeFiles, W: Output, E: Output>(
    alloc: Global,
    files: &F,
    name: &'a str,
    file: &[u8],
    log: &'a str,
    reading: LogReading<'a>,
    replaying: Replaying,
    is_json: bool,
    output: &mut W,
    errors: &mut E,
) -> ProgramEnd<'a>
    ensures done { IsReplayOf ((F.known files.now).holds log.now) is_json log.entry replaying.is_listed name.now
        result file.now (W.seen output.old) (W.seen output.new) }
    ensures first { TellsFirst false result (E.seen errors.old) (E.seen errors.new) }
    ensures kept { (E.seen errors.old).failures ≤ (E.seen errors.new).failures }
{
    match read_log(files, log, errors) {
        Ok(text) => replay_read(
            alloc, files, name, file, log, &text, reading, replaying, is_json, output, errors,
        ),
        Err(ending) => ending,
    }
}

/// Plays a log that was read, with the file of ids, if one is named.
fn replay_read<'a, F: TreeFiles, W: Output, E: Output>(
    alloc: Global,
    files: &F,
    name: &'a str,
    file: &[u8],
    log: &'a str,
    text: &[u8],
    reading: LogReading<'a>,
    replaying: Replaying,
    is_json: bool,
    output: &mut W,
    errors: &mut E,
) -> ProgramEnd<'a>
    ensures done { IsReplayOfText is_json log.entry text.now replaying.is_listed name.now
        result file.now (W.seen output.old) (W.seen output.new) }
    ensures first { TellsFirst false result (E.seen errors.old) (E.seen errors.new) }
    ensures kept { (E.seen errors.old).failures ≤ (E.seen errors.new).failures }
{
    let strict = reading.is_strict;
    match reading.ids {
        None => replay_text(
            alloc, name, file, log, text, b"", strict, replaying, is_json, output,
        ),
        Some(ids) => match read_any_file(files, ids, errors) {
            Ok(ids) => replay_text(
                alloc, name, file, log, text, &ids, strict, replaying, is_json, output,
            ),
            Err(ending) => ending,
        },
    }
}

/// Plays a log that was read, where this file says which children its names mean.
fn replay_text<'a, W: Output>(
    alloc: Global,
    name: &'a str,
    file: &[u8],
    log: &'a str,
    text: &[u8],
    ids: &[u8],
    is_strict: bool,
    replaying: Replaying,
    is_json: bool,
    output: &mut W,
) -> ProgramEnd<'a>
    ensures { IsReplayOfText is_json log.entry text.now replaying.is_listed name.now
        result file.now (W.seen output.old) (W.seen output.new) }
{
    match tree_of(alloc, file, name) {
        Ok(tree) => replay_on(
            alloc, tree, name, file, log, text, ids, is_strict, replaying, is_json, output,
        ),
        Err(ending) => ending,
    }
}

/// Plays a log that was read on a tree, as what it is.
fn replay_on<'a, W: Output>(
    alloc: Global,
    tree: TreeSpec,
    name: &'a str,
    file: &[u8],
    log: &'a str,
    text: &[u8],
    ids: &[u8],
    is_strict: bool,
    replaying: Replaying,
    is_json: bool,
    output: &mut W,
) -> ProgramEnd<'a>
    ensures { IsReplayOfLog is_json log.entry text.now replaying.is_listed name.now
        result file.now (W.seen output.old) (W.seen output.new) }
{
    let words = LogWords {
        name: log,
        ids,
        is_strict,
        keeps_others: replaying.is_listed,
    };
    let translated = translate_log(alloc, &tree, text, words);
    drop(tree);
    match translated {
        Ok(found) => replay_as(
            alloc, name, file, log, text, found, replaying, is_json, output,
        ),
        Err(_) => ProgramEnd::OutOfMemory,
    }
}

/// The tree that a file says; or how the program ends that has none.
fn tree_of<'a>(alloc: Global, file: &[u8], name: &'a str) -> Result<TreeSpec, ProgramEnd<'a>>
    ensures { IfErr result (λ ending. IsWithoutTree name.now ending file.now) }
{
    match read_tree(alloc, file) {
        Ok(tree) => Ok(tree),
        Err(fault) => Err(ProgramEnd::of_no_tree(fault, name)),
    }
}

/// Plays a log by what stands for it; as it stands, where that is nothing.
fn replay_as<'a, W: Output>(
    alloc: Global,
    name: &'a str,
    file: &[u8],
    log: &'a str,
    text: &[u8],
    found: Option<Translation>,
    replaying: Replaying,
    is_json: bool,
    output: &mut W,
) -> ProgramEnd<'a>
    ensures { IsReplayBy found is_json log.entry text.now replaying.is_listed name.now
        result file.now (W.seen output.old) (W.seen output.new) }
{
    match found {
        None => replay_alone(alloc, name, file, log, text, replaying, is_json, output),
        Some(translation) => {
            let ending = replay_with(
                alloc,
                name,
                file,
                log,
                translation.lines.as_slice(),
                translation.notes.as_slice(),
                replaying,
                is_json,
                output,
            );
            drop(translation);
            ending
        }
    }
}

/// Plays a log as it stands.
fn replay_alone<'a, W: Output>(
    alloc: Global,
    name: &'a str,
    file: &[u8],
    log: &'a str,
    text: &[u8],
    replaying: Replaying,
    is_json: bool,
    output: &mut W,
) -> ProgramEnd<'a>
    ensures { IsReplayAlone is_json log.entry text.now replaying.is_listed name.now
        result file.now (W.seen output.old) (W.seen output.new) }
{
    let read = Log { name: log, text };
    if is_json {
        tell_replay(
            alloc,
            name,
            file,
            read,
            b"",
            replaying.is_listed,
            replaying.clock,
            output,
        )
    } else {
        replay_file(alloc, name, file, read, replaying, output)
    }
}

/// Replays the lines that stand for a log, with what is told of it.
fn replay_with<'a, W: Output>(
    alloc: Global,
    name: &'a str,
    file: &[u8],
    log: &'a str,
    lines: &[u8],
    notes: &[u8],
    replaying: Replaying,
    is_json: bool,
    output: &mut W,
) -> ProgramEnd<'a>
    ensures { IsReplayWith is_json notes.now log.entry lines.now replaying.is_listed name.now
        result file.now (W.seen output.old) (W.seen output.new) }
{
    let read = Log {
        name: log,
        text: lines,
    };
    if is_json {
        tell_replay(
            alloc,
            name,
            file,
            read,
            notes,
            replaying.is_listed,
            replaying.clock,
            output,
        )
    } else {
        replay_behind(alloc, name, file, read, notes, replaying, output)
    }
}

/// Replays a log behind what is told of it.
fn replay_behind<'a, W: Output>(
    alloc: Global,
    name: &'a str,
    file: &[u8],
    log: Log<'a, '_>,
    notes: &[u8],
    replaying: Replaying,
    output: &mut W,
) -> ProgramEnd<'a>
    ensures { IsReplayBehind notes.now log.entry.name log.entry.text.now replaying.is_listed name.now
        result file.now (W.seen output.old) (W.seen output.new) }
{
    match write_all(output, notes) {
        Ok(()) => replay_file(alloc, name, file, log, replaying, output),
        Err(Failed) => ProgramEnd::OutputFailed,
    }
}
