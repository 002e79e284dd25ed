//! `run`: a tree is run on threads, with worked jobs.

ghost use Rattle.std.specs.Prelude.{ℕ, Bool, List, ◌≡◌, ◌≤◌, ◌||◌, [], Err, Ok, Some, false, length, IfErr, IfOk};
ghost use Rattle.otp_file.specs.Files.{IsOfTree, IsToml, Says};
ghost use Rattle.otp_file.specs.Trees.{tables_of};
ghost use Rattle.otp_file.specs.declared.fault.TreeFault.TheVariants.{NotToml};
ghost use Rattle.otp_spec.specs.declared.limits.TheConstants.{MAX_TABLES};
ghost use Rattle.otp_exit.specs.Told.{IsTold, TellsFirst};
ghost use Rattle.otp_command_run.specs.Running.{IsEndOfRun, IsSaid, IsTreeRun, ending_of_run};

use crate::outcome::{Limit, write_awaited, write_lives, write_run_object};
use crate::standing::draw_standing;
use otp_check::starts::find_unfit;
use otp_cli::RunShows;
use otp_exit::{ProgramEnd, explain};
use otp_file::roles::Settings;
use otp_file::{TreeFault, TreeSpec, read_tree};
use otp_jobs::{FileRunFault, run_worked};
use otp_sim::{Failed, Output, write_all};
use otp_text::write_number;
use otp_tree::{Gate, TableReport};
use std::alloc::{AllocError, Global};
use std::sync::Wait;
use std::thread::Threads;

/// Of so many unfit starts a run that is refused tells.
const MOST_TOLD: usize = 20;

/// What trees are run with: threads, a clock, memory, and a watch.
#[derive(Clone, Copy)]
pub struct Pool<'a, H, G, L> {
    pub rt: &'a H,
    pub alloc: Global,
    pub gate: &'a G,
    /// Who is told what happens to each process of a tree that is served for a time.
    pub watch: &'a L,
}

/// How a tree is run, and what is told of it.
#[derive(Drop)]
pub struct RunAs {
    pub settings: Settings,
    pub shows: RunShows,
}

/// The tree that a file says, which has 64 supervisors at most.
pub(crate) fn tree_of(alloc: Global, file: &[u8]) -> Result<TreeSpec, TreeFault>
    ensures tree { IfOk result (λ tree. Says file.now (Ok tree)) }
    ensures few { IfOk result (λ tree. length (tables_of tree) ≤ MAX_TABLES) }
    ensures first_fault { IfErr result (λ fault. IsOfTree fault → Says file.now (Err fault)) }
    ensures not_toml { result ≡ Err NotToml → ¬ IsToml file.now }
{
    read_tree(alloc, file)
}

/// Reads the tree of a file, runs it with worked jobs, and writes the report, with the counts where the settings say so. What
/// is told besides changes nothing of the output.
pub fn run_file<'a, H, G, L, W, E>(
    pool: &Pool<'_, H, G, L>,
    name: &str,
    file: &[u8],
    how: RunAs,
    output: &mut W,
    errors: &mut E,
) -> ProgramEnd<'a>
where
    H: Threads + Wait + Sync,
    G: Gate + Sync,
    W: Output,
    E: Output,
    ensures done { IsTreeRun how.shows.is_json name.now how.settings.counted result file.now
        (W.seen output.old) (W.seen output.new) }
    ensures first { TellsFirst (how.shows.is_drawn || how.shows.is_why) result (E.seen errors.old) (E.seen errors.new) }
    ensures kept { (E.seen errors.old).failures ≤ (E.seen errors.new).failures }
{
    let alloc = pool.alloc;
    let RunAs { settings, shows } = how;
    let tree = match tree_of(alloc, file) {
        Ok(tree) => tree,
        Err(fault) => {
            let ending = ProgramEnd::of_tree(fault);
            explain(errors, name, ending);
            return ending;
        }
    };
    let mut report = Vec::new(alloc);
    let whole = match run_worked(pool.rt, alloc, tree, settings, pool.gate, &mut report) {
        Ok(whole) => whole,
        Err(fault) => return refuse_run(alloc, errors, name, file, fault),
    };
    let live = whole.report.live;
    let tables = whole.report.tables.as_slice();
    let Ok(remarks) = remarks_on(alloc, shows, Limit::Turns, file, tables, live) else {
        drop(whole);
        return ProgramEnd::OutOfMemory;
    };
    let Ok(text) = say(alloc, shows.is_json, name, file, tables, live, report) else {
        drop(whole);
        return ProgramEnd::OutOfMemory;
    };
    drop(whole);
    match write_all(output, text.as_slice()) {
        Ok(()) => {
            // Where nothing can be told, the report stands all the same.
            let _told = write_all(errors, remarks.as_slice());
            ending_of_live(live)
        }
        Err(Failed) => ProgramEnd::OutputFailed,
    }
}

/// What is written of a run: this report, or the object of it.
pub(crate) fn say(
    alloc: Global,
    is_json: bool,
    name: &str,
    file: &[u8],
    tables: &[TableReport],
    live: u64,
    report: Vec<u8>,
) -> Result<Vec<u8>, AllocError>
    ensures { IfOk result (λ text. IsSaid is_json name.now file.now tables.now live report.items text.items) }
{
    if !is_json {
        return Ok(report);
    }
    let Ok(tree) = read_tree(alloc, file) else {
        return Err(AllocError);
    };
    let mut text = Vec::new(alloc);
    let written = write_run_object(alloc, name.as_bytes(), &tree, tables, live, &mut text);
    drop(tree);
    written?;
    Ok(text)
}

/// The end of a run that has left so many processes.
pub(crate) fn ending_of_live<'a>(live: u64) -> ProgramEnd<'a>
    ensures { IsEndOfRun live result }
{
    if live == 0 {
        ProgramEnd::Done
    } else {
        ProgramEnd::NotFinished
    }
}

/// The end for a tree that was not run, once it is told which of its starts are unfit.
pub(crate) fn refuse_run<'a, E: Output>(
    alloc: Global,
    errors: &mut E,
    name: &str,
    file: &[u8],
    fault: FileRunFault,
) -> ProgramEnd<'a>
    ensures ending { result ≡ ending_of_run fault }
    ensures first { (drawn : Bool) → TellsFirst drawn result (E.seen errors.old) (E.seen errors.new) }
    ensures kept { (E.seen errors.old).failures ≤ (E.seen errors.new).failures }
{
    match fault {
        FileRunFault::UnknownStart(_) | FileRunFault::WrongBody => {
            tell_unfit(alloc, errors, name, file);
            end_of_run(fault)
        }
        _ => end_of_run(fault),
    }
}

/// Tells which starts of a file are unfit, and what to write. Where there is no memory for it, nothing is told.
fn tell_unfit<E: Output>(alloc: Global, errors: &mut E, name: &str, file: &[u8])
    ensures told { (text : List ℕ) × IsTold text (E.seen errors.old) (E.seen errors.new) }
    ensures kept { (E.seen errors.old).failures ≤ (E.seen errors.new).failures }
{
    let Ok(text) = text_of_unfit(alloc, name, file) else {
        return;
    };
    let _told = write_all(errors, text.as_slice());
}

/// Which starts of a file are unfit, a line for each of the first.
fn text_of_unfit(alloc: Global, name: &str, file: &[u8]) -> Result<Vec<u8>, AllocError> {
    let mut text = Vec::new(alloc);
    for start in find_unfit(alloc, file)?.as_slice().iter().take(MOST_TOLD) {
        text.extend_from_slice(name.as_bytes())?;
        if let Some(line) = start.line {
            text.extend_from_slice(b":")?;
            write_number(line, &mut text)?;
        }
        text.extend_from_slice(b": ")?;
        text.extend_from_slice(start.text.as_slice())?;
        text.extend_from_slice(b"\n")?;
    }
    Ok(text)
}

/// What is told of a run beside its report: what is wanted, and of one that has left processes what it awaits.
pub(crate) fn remarks_on(
    alloc: Global,
    shows: RunShows,
    limit: Limit,
    file: &[u8],
    tables: &[TableReport],
    live: u64,
) -> Result<Vec<u8>, AllocError>
    ensures { IfOk result (λ remarks. (shows.is_drawn || shows.is_why) ≡ false → live ≡ 0 → remarks.items ≡ []) }
{
    let mut remarks = Vec::new(alloc);
    if !shows.is_drawn && !shows.is_why && live == 0 {
        return Ok(remarks);
    }
    let Ok(tree) = read_tree(alloc, file) else {
        return Err(AllocError);
    };
    let written = write_remarks(alloc, shows, limit, &tree, tables, live, &mut remarks);
    drop(tree);
    written?;
    Ok(remarks)
}

/// Appends what is told of a run of this tree.
fn write_remarks(
    alloc: Global,
    shows: RunShows,
    limit: Limit,
    tree: &TreeSpec,
    tables: &[TableReport],
    live: u64,
    out: &mut Vec<u8>,
) -> Result<(), AllocError> {
    if shows.is_drawn {
        draw_standing(alloc, tree, tables, out)?;
    }
    if shows.is_why {
        write_lives(alloc, tree, tables, out)?;
    }
    if live > 0 {
        write_awaited(alloc, limit, tree, tables, live, out)?;
    }
    Ok(())
}

/// The end for a tree that was not run.
fn end_of_run<'a>(fault: FileRunFault) -> ProgramEnd<'a>
    ensures { result ≡ ending_of_run fault }
{
    match fault {
        FileRunFault::OutOfMemory => ProgramEnd::OutOfMemory,
        FileRunFault::UnknownStart(name) => ProgramEnd::UnknownStart(name),
        FileRunFault::WrongBody => ProgramEnd::WrongBody,
        // No tree that a file says comes to this.
        FileRunFault::TooManyTables => ProgramEnd::TreeRefused(TreeFault::TooManyTables),
        FileRunFault::Mismatch => ProgramEnd::CloseMismatch,
        FileRunFault::Misplaced => ProgramEnd::CloseMissing,
    }
}
