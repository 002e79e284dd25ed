//! `replay`: what would a tree have done, had happened to it what a log tells?

ghost use Rattle.std.specs.Prelude.{◌⊎◌, IfErr, IfOk};
ghost use Rattle.otp_questions.specs.Paged.{IsNotMade};
ghost use Rattle.otp_questions.specs.Replayed.{IsPlayedLog, IsRefused, IsReplay, IsReplayObject, IsReplayTold};

use crate::limiting::end_of_halt;
use crate::trying::end_of_try;
use otp_exit::ProgramEnd;
use otp_file::{TreeSpec, read_tree};
use otp_replay::{Reading, ReplayEnd, Replaying, read_log, replay};
use otp_sim::{Failed, Output, write_all};
use otp_try::account::{Account, play_script};
use otp_try::{Clock, Writer};
use otp_try_pages::write_replay_object;
use std::alloc::Global;

/// The log of this name, and what it says.
#[derive(Clone, Copy)]
pub struct Log<'a, 'f> {
    pub name: &'a str,
    pub text: &'f [u8],
}

/// Reads the tree of a file, and plays what a log tells on its supervisors.
pub fn replay_file<'a, W: Output>(
    alloc: Global,
    name: &'a str,
    file: &[u8],
    log: Log<'a, '_>,
    replaying: Replaying,
    output: &mut W,
) -> ProgramEnd<'a>
    ensures { IsReplay log.entry.name log.entry.text.now replaying.is_listed name.now
        result file.now (W.seen output.old) (W.seen output.new) }
{
    let tree = match read_tree(alloc, file) {
        Ok(tree) => tree,
        Err(fault) => return ProgramEnd::of_no_tree(fault, name),
    };
    match replay(
        alloc,
        tree,
        log.name.as_bytes(),
        log.text,
        replaying,
        output,
    ) {
        ReplayEnd::Tried(end) => end_of_try(Some(log.name), end),
        ReplayEnd::LogRefused(fault) => ProgramEnd::LogRefused(log.name, fault),
    }
}

/// What a log says, and a run of its script on the tree of a file, which is kept.
fn played_log<'a>(
    alloc: Global,
    name: &'a str,
    file: &[u8],
    log: Log<'a, '_>,
    clock: Clock,
) -> Result<(Reading, Account), ProgramEnd<'a>>
    ensures played { IfOk result (λ both. IsPlayedLog log.entry.text.now file.now both.0 both.1) }
    ensures none { IfErr result (λ ending. IsRefused log.entry.name log.entry.text.now ending file.now ⊎ IsNotMade name.now ending file.now) }
{
    let tree = match read_tree(alloc, file) {
        Ok(tree) => tree,
        Err(fault) => return Err(ProgramEnd::of_no_tree(fault, name)),
    };
    let read = match read_log(alloc, log.text) {
        Ok(Ok(read)) => read,
        Ok(Err(fault)) => {
            drop(tree);
            return Err(ProgramEnd::LogRefused(log.name, fault));
        }
        Err(_) => {
            drop(tree);
            return Err(ProgramEnd::OutOfMemory);
        }
    };
    let played = play_script(alloc, &tree, clock, Writer::Log, read.script());
    drop(tree);
    match played {
        Ok(account) => Ok((read, account)),
        Err(halt) => {
            drop(read);
            Err(end_of_halt(halt))
        }
    }
}

/// A replay as an object, and how the program ends once that is written.
fn object_of<'a>(
    alloc: Global,
    name: &'a str,
    file: &[u8],
    log: Log<'a, '_>,
    notes: &[u8],
    is_listed: bool,
    clock: Clock,
) -> Result<(Vec<u8>, ProgramEnd<'a>), ProgramEnd<'a>>
    ensures object { IfOk result (λ run. IsReplayObject notes.now log.entry.name log.entry.text.now is_listed name.now file.now run.1 run.0.items) }
    ensures none { IfErr result (λ ending. IsRefused log.entry.name log.entry.text.now ending file.now ⊎ IsNotMade name.now ending file.now) }
{
    let (read, account) = match played_log(alloc, name, file, log, clock) {
        Ok(played) => played,
        Err(ending) => return Err(ending),
    };
    let mut text = Vec::new(alloc);
    let told = write_replay_object(
        alloc,
        name.as_bytes(),
        log.name.as_bytes(),
        notes,
        is_listed,
        &read,
        &account,
        &mut text,
    );
    let ending = end_of_try(Some(log.name), account.end);
    drop(account);
    drop(read);
    match told {
        Ok(()) => Ok((text, ending)),
        Err(_) => {
            drop(text);
            Err(ProgramEnd::OutOfMemory)
        }
    }
}

/// Reads the tree of a file, plays what a log tells on its supervisors, and writes the run as an object of JSON, with what was noted
/// on the log. It ends as a replay does.
pub fn tell_replay<'a, W: Output>(
    alloc: Global,
    name: &'a str,
    file: &[u8],
    log: Log<'a, '_>,
    notes: &[u8],
    is_listed: bool,
    clock: Clock,
    output: &mut W,
) -> ProgramEnd<'a>
    ensures { IsReplayTold notes.now log.entry.name log.entry.text.now is_listed name.now
        result file.now (W.seen output.old) (W.seen output.new) }
{
    let (text, ending) = match object_of(alloc, name, file, log, notes, is_listed, clock) {
        Ok(run) => run,
        Err(ending) => return ending,
    };
    match write_all(output, text.as_slice()) {
        Ok(()) => ending,
        Err(Failed) => ProgramEnd::OutputFailed,
    }
}
