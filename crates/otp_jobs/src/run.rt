//! A tree of worked jobs is run.
ghost use Rattle.std.specs.Prelude.{◌≡◌, ◌++◌, Some, None, IfErr, IfOk, OnOk, length, map};
ghost use Rattle.std.specs.Option.{option_map};
ghost use Rattle.otp_file.specs.Trees.{tables_of};
ghost use Rattle.otp_file.specs.RolesFaults.{plan_fault};
ghost use Rattle.otp_jobs.specs.Runs.{IsFaultOf, IsFaultOfOpening, IsNoneBare, IsNotPlanned, IsOfRun, IsRunOf, IsTooManyOnly, line_of, run_fault, run_text};
ghost use Rattle.otp_open.specs.Plans.{IsNotBare};
ghost use Rattle.otp_tree.specs.Closes.{IsRunNoneMissing};

use crate::body::Calm;
use crate::plan::plan_tree;
use crate::report::{TableLine, write_counts, write_report};
use crate::worker::WorkedJob;
use otp_file::TreeSpec;
use otp_file::roles::{PlanFault, Settings};
use otp_reason::Name;
use otp_tree::{
    CloseFault, CountedRun, Gate, RunFault, SystemFault, TableReport, Unopened, run_tree_counted,
};
use std::alloc::{AllocError, Global};
use std::sync::Wait;
use std::thread::Threads;

/// Why a tree was not run.
#[derive(Clone, Copy, Debug, PartialEq, Eq)]
pub enum FileRunFault {
    /// E0: memory was refused.
    OutOfMemory,
    /// The start of a child that has no tree is no word of a worked job.
    UnknownStart(Name),
    /// E19: a worker's job stands where a supervisor is wanted.
    WrongBody,
    /// E15: there are more than 64 supervisors, which no tree file says.
    TooManyTables,
    /// E17: a supervisor was told an end of another that isn't the one that the other's own history gives.
    Mismatch,
    /// E20: a supervisor's lock holds another one's, which doesn't happen ([`CloseFault::Misplaced`]).
    Misplaced,
}

impl From<AllocError> for FileRunFault {
    ghost use Rattle.std.specs.Prelude.{◌≡◌};
    ghost use Rattle.otp_jobs.specs.declared.run.FileRunFault.TheVariants.{OutOfMemory};

    ghost from_gives = { λ _ fault. fault ≡ OutOfMemory };

    fn from(_: AllocError) -> FileRunFault {
        FileRunFault::OutOfMemory
    }
}

impl From<PlanFault> for FileRunFault {
    ghost use Rattle.std.specs.Prelude.{◌≡◌};
    ghost use Rattle.otp_jobs.specs.Runs.{run_fault};

    ghost from_gives = { λ why fault. fault ≡ run_fault why };

    fn from(why: PlanFault) -> FileRunFault {
        match why {
            PlanFault::OutOfMemory => FileRunFault::OutOfMemory,
            PlanFault::TooManyTables => FileRunFault::TooManyTables,
            PlanFault::UnknownStart(name) => FileRunFault::UnknownStart(name),
            PlanFault::WrongBody => FileRunFault::WrongBody,
        }
    }
}

/// Why a tree of which each plan has its bodies was not opened: memory was refused.
fn fault_of_opening(why: SystemFault) -> FileRunFault
    requires { IsNotBare why }
    ensures kind { IsNotPlanned result }
    ensures fault { IsFaultOfOpening why result }
{
    match why {
        SystemFault::OutOfMemory => FileRunFault::OutOfMemory,
        SystemFault::NoBody { .. } => unreachable!(),
    }
}

/// Why a tree that could be planned has no report. Nobody else has a part of it, and its plan has a body for each child, so neither is
/// said to be missing.
pub fn fault_of<J: Drop, S: Drop>(why: RunFault<J, S>) -> FileRunFault
    requires missing { IsRunNoneMissing why }
    requires bodies { IsNoneBare why }
    ensures kind { IsNotPlanned result }
    ensures fault { IsFaultOf why result }
{
    match why {
        RunFault::Open(back) => {
            let Unopened { fault, plans } = back;
            drop(plans);
            fault_of_opening(fault)
        }
        RunFault::Close(CloseFault::OutOfMemory(())) => FileRunFault::OutOfMemory,
        RunFault::Close(CloseFault::Missing(())) => unreachable!(),
        RunFault::Close(CloseFault::Misplaced((), _)) => FileRunFault::Misplaced,
        RunFault::Close(CloseFault::Mismatch(_, report)) => {
            drop(report);
            FileRunFault::Mismatch
        }
    }
}

/// What came of a tree of worked jobs, and what its supervisors counted before the stop.
pub type WorkedRun = CountedRun<WorkedJob, Calm>;

/// What is printed of a supervisor.
fn line_of(table: &TableReport) -> TableLine
    ensures { result ≡ line_of table.now }
{
    TableLine {
        starts: table.starts(),
        restarts: table.restarts(),
        end: table.end(),
    }
}

/// What is printed of supervisors.
fn lines_of(alloc: Global, tables: &[TableReport]) -> Result<Vec<TableLine>, AllocError>
    ensures { IfOk result (λ lines. lines.items ≡ map line_of tables.now) }
{
    let mut lines = Vec::new(alloc);
    for table in tables {
        lines.push(line_of(table))?;
    }
    Ok(lines)
}

/// Appends what came of a run: the counts where they are wanted, a line for each supervisor, and how many processes are
/// left.
fn write_run(
    alloc: Global,
    is_counted: bool,
    run: &WorkedRun,
    out: &mut Vec<u8>,
) -> Result<(), AllocError>
    ensures { OnOk result (out.new.items ≡ out.old.items ++ run_text is_counted run.now) }
{
    let lines = lines_of(alloc, run.report.tables.as_slice())?;
    write_counts(is_counted, run.counts.as_slice(), out)?;
    let written = write_report(lines.as_slice(), run.report.live, out);
    drop(lines);
    written
}

/// Runs a tree of worked jobs: each hand makes its turns, the root is asked to stop, each hand makes as many turns again,
/// and the tree is closed. The gate says the time before each turn. Appends the report: a line for each supervisor, and how
/// many processes are left. Where the settings say so, a line for each supervisor stands before it, with the counts of its
/// children before the stop. Gives what it appends the text of.
///
/// # Errors
///
/// Where a start stands for nothing or a job for no worker, nothing is run: [`FileRunFault::UnknownStart`] and
/// [`FileRunFault::WrongBody`]. [`FileRunFault::OutOfMemory`], also while the text is made. [`FileRunFault::Mismatch`] where the report
/// tells of one. [`FileRunFault::TooManyTables`] and [`FileRunFault::Misplaced`], which no tree of a file comes to.
pub fn run_worked<R, G>(
    rt: &R,
    alloc: Global,
    tree: TreeSpec,
    settings: Settings,
    gate: &G,
    out: &mut Vec<u8>,
) -> Result<WorkedRun, FileRunFault>
where
    R: Threads + Wait + Sync,
    G: Gate + Sync,
    ensures run { IfOk result (IsRunOf (tables_of tree)) }
    ensures report { IfOk result (λ run. out.new.items ≡ out.old.items ++ run_text settings.counted run) }
    ensures runnable { OnOk result (plan_fault (tables_of tree) ≡ None) }
    ensures fault { IfErr result (λ why. IsOfRun why → option_map run_fault (plan_fault (tables_of tree)) ≡ Some why) }
    ensures too_many { IfErr result (IsTooManyOnly (length (tables_of tree))) }
{
    let plans = plan_tree(alloc, tree)?;
    let whole = match run_tree_counted(
        rt,
        alloc,
        plans,
        settings.schedulers(),
        gate,
        settings.turns(),
    ) {
        Ok(whole) => whole,
        Err(why) => return Err(fault_of(why)),
    };
    match write_run(alloc, settings.is_counted(), &whole, out) {
        Ok(()) => Ok(whole),
        Err(AllocError) => {
            drop(whole);
            Err(FileRunFault::OutOfMemory)
        }
    }
}
