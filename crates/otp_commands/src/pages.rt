//! Pages of HTML, which are made of a file and written to another, or to the output.

ghost use Rattle.std.specs.Prelude.{None, IfErr, OnOk};
ghost use Rattle.otp_commands.specs.Pages.{IsAllowed, IsPaged, IsPut, IsRefused};
ghost use Rattle.otp_questions.specs.Paged.{HasNoLimits, IsLimitsPage, IsNotMade, IsRunPage, IsTreePage};

use otp_cli::Page;
use otp_costs::{Grain, Pick};
use otp_exit::{ProgramEnd, TreeFiles, ask_page, write_page};
use otp_questions::{page_of_limits, page_of_run, page_of_tree};
use otp_sim::{Failed, Output, write_all};
use otp_try::Clock;
use std::alloc::Global;

/// Asks whether a page may go there, where this tree file and this script are read.
///
/// # Errors
///
/// How the program ends where it may not.
pub(crate) fn ask<'a, F: TreeFiles>(
    files: &F,
    page: Page<'a>,
    file: &str,
    script: Option<&str>,
) -> Result<(), ProgramEnd<'a>>
    ensures may { OnOk result (IsAllowed (F.known files.now) page.entry file.now script.entry) }
    ensures ending { IfErr result (IsRefused page.entry) }
{
    match page {
        Page::Output => Ok(()),
        Page::File(name) => ask_page(files, name, file, script),
    }
}

/// Writes a page there, where it may go. Then the program ends so.
fn put<'a, F: TreeFiles, W: Output>(
    files: &F,
    page: Page<'a>,
    file: &str,
    script: Option<&str>,
    html: &[u8],
    made: ProgramEnd<'a>,
    output: &mut W,
) -> ProgramEnd<'a>
    requires may { IsAllowed (F.known files.now) page file.now script }
    ensures { IsPut (F.known files.now) page.entry html.now made.entry result (W.seen output.old) (W.seen output.new) }
{
    match page {
        Page::Output => match write_all(output, html) {
            Ok(()) => made,
            Err(Failed) => ProgramEnd::OutputFailed,
        },
        Page::File(name) => match write_page(files, name, html) {
            Ok(()) => made,
            Err(ending) => ending,
        },
    }
}

/// Writes the tree of a file to a page that goes there.
pub(crate) fn put_tree<'a, F: TreeFiles, W: Output>(
    alloc: Global,
    files: &F,
    name: &'a str,
    file: &[u8],
    page: Page<'a>,
    output: &mut W,
) -> ProgramEnd<'a>
    ensures { IsPaged (F.known files.now) page.entry name.now None (IsTreePage name.now file.now) (λ ending. IsNotMade name.now ending file.now)
        result (W.seen output.old) (W.seen output.new) }
{
    if let Err(ending) = ask(files, page, name, None) {
        return ending;
    }
    let html = match page_of_tree(alloc, name, file) {
        Ok(html) => html,
        Err(ending) => return ending,
    };
    put(
        files,
        page,
        name,
        None,
        html.as_slice(),
        ProgramEnd::Done,
        output,
    )
}

/// Writes the limits of those children of a tree that are asked for to a page that goes there.
pub(crate) fn put_limits<'a, F: TreeFiles, W: Output>(
    alloc: Global,
    files: &F,
    name: &'a str,
    file: &[u8],
    pick: Pick<'a>,
    grain: Grain,
    page: Page<'a>,
    output: &mut W,
) -> ProgramEnd<'a>
    ensures { IsPaged (F.known files.now) page.entry name.now None (IsLimitsPage grain pick.entry name.now file.now)
        (λ ending. HasNoLimits grain pick.entry name.now ending file.now) result (W.seen output.old) (W.seen output.new) }
{
    if let Err(ending) = ask(files, page, name, None) {
        return ending;
    }
    let html = match page_of_limits(alloc, name, file, pick, grain) {
        Ok(html) => html,
        Err(ending) => return ending,
    };
    put(
        files,
        page,
        name,
        None,
        html.as_slice(),
        ProgramEnd::Done,
        output,
    )
}

/// Writes a run of a script on the tree of a file to a page that goes there, where it may.
pub(crate) fn put_run<'a, F: TreeFiles, W: Output>(
    alloc: Global,
    files: &F,
    name: &'a str,
    file: &[u8],
    script: Option<&'a str>,
    lines: &[u8],
    clock: Clock,
    page: Page<'a>,
    output: &mut W,
) -> ProgramEnd<'a>
    requires may { IsAllowed (F.known files.now) page name.now script }
    ensures { IsPaged (F.known files.now) page.entry name.now script.entry (IsRunPage name.now script.entry file.now) (λ ending. IsNotMade name.now ending file.now)
        result (W.seen output.old) (W.seen output.new) }
{
    let (html, made) = match page_of_run(alloc, name, file, script, lines, clock) {
        Ok(run) => run,
        Err(ending) => return ending,
    };
    put(files, page, name, script, html.as_slice(), made, output)
}
