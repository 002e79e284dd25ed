//! `try` as an object of JSON, or as a page of HTML.

ghost use Rattle.std.specs.Prelude.{IfErr, IfOk};
ghost use Rattle.otp_questions.specs.Paged.{IsNotMade, IsRunOf, IsRunPage, IsRunTold};

use crate::limiting::end_of_halt;
use crate::trying::end_of_try;
use otp_exit::ProgramEnd;
use otp_file::read_tree;
use otp_sim::{Failed, Output, write_all};
use otp_try::account::{Account, play_script};
use otp_try::{Clock, Writer};
use otp_try_pages::{write_timeline_page, write_try_object};
use std::alloc::Global;

/// A script, played on the tree of a file and kept.
fn run_of<'a>(
    alloc: Global,
    name: &'a str,
    file: &[u8],
    script: &[u8],
    clock: Clock,
) -> Result<Account, ProgramEnd<'a>>
    ensures run { IfOk result (IsRunOf file.now) }
    ensures none { IfErr result (λ ending. IsNotMade name.now ending file.now) }
{
    let tree = match read_tree(alloc, file) {
        Ok(tree) => tree,
        Err(fault) => return Err(ProgramEnd::of_no_tree(fault, name)),
    };
    let played = play_script(alloc, &tree, clock, Writer::Script, script);
    drop(tree);
    match played {
        Ok(account) => Ok(account),
        Err(halt) => Err(end_of_halt(halt)),
    }
}

/// Plays the script of this name, if it has one, on the tree of a file, and writes the run as an object of JSON. It ends as that of a
/// script does.
pub fn tell_run<'a, W: Output>(
    alloc: Global,
    name: &'a str,
    file: &[u8],
    called: Option<&'a str>,
    script: &[u8],
    clock: Clock,
    output: &mut W,
) -> ProgramEnd<'a>
    ensures { IsRunTold name.now called.entry result file.now (W.seen output.old) (W.seen output.new) }
{
    let account = match run_of(alloc, name, file, script, clock) {
        Ok(account) => account,
        Err(ending) => return ending,
    };
    let mut text = Vec::new(alloc);
    let told = write_try_object(alloc, name.as_bytes(), &account, &mut text);
    let ending = end_of_try(called, account.end);
    drop(account);
    let Ok(()) = told else {
        return ProgramEnd::OutOfMemory;
    };
    match write_all(output, text.as_slice()) {
        Ok(()) => ending,
        Err(Failed) => ProgramEnd::OutputFailed,
    }
}

/// Plays the script of this name, if it has one, on the tree of a file. The run as a page of HTML, and how the program ends once that is
/// written.
///
/// # Errors
///
/// How the program ends where the file says no tree, a history is full, or memory is refused.
pub fn page_of_run<'a>(
    alloc: Global,
    name: &'a str,
    file: &[u8],
    called: Option<&'a str>,
    script: &[u8],
    clock: Clock,
) -> Result<(Vec<u8>, ProgramEnd<'a>), ProgramEnd<'a>>
    ensures page { IfOk result (λ run. IsRunPage name.now called.entry file.now run.1 run.0.items) }
    ensures none { IfErr result (λ ending. IsNotMade name.now ending file.now) }
{
    let account = run_of(alloc, name, file, script, clock)?;
    let mut page = Vec::new(alloc);
    let told = write_timeline_page(alloc, name.as_bytes(), &account, &mut page);
    let ending = end_of_try(called, account.end);
    drop(account);
    match told {
        Ok(()) => Ok((page, ending)),
        Err(_) => {
            drop(page);
            Err(ProgramEnd::OutOfMemory)
        }
    }
}
