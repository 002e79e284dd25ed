//! A tree of worked jobs is served for a time.
ghost use Rattle.std.specs.Prelude.{ℕ, ◌≡◌, ◌<◌, ◌≤◌, ◌++◌, Some, None, IfErr, IfOk, OnOk, length, map};
ghost use Rattle.std.specs.Option.{option_map};
ghost use Rattle.otp_file.specs.Trees.{tables_of};
ghost use Rattle.otp_file.specs.RolesFaults.{plan_fault};
ghost use Rattle.otp_jobs.specs.Plans.{supervisors_of};
ghost use Rattle.otp_jobs.specs.Runs.{IsOfRun, IsTooManyOnly, line_of, run_fault};
ghost use Rattle.otp_open.specs.Plans.{HaveBodies, plans_of};
ghost use Rattle.otp_jobs.specs.Serves.{served_text};
ghost use Rattle.otp_close.specs.Closes.{HaveBegun, IsReportOf};

use crate::serving::patient::PatientJob;
use crate::serving::plans::{PatientPlan, patient_plans};
use crate::{Calm, FileRunFault, TableLine, fault_of, plan_tree, write_report};
use otp_file::TreeSpec;
use otp_file::roles::Settings;
use otp_live::{Span, Watch, run_for};
use otp_tree::{Report, TableReport};
use std::alloc::{AllocError, Global};
use std::sync::Wait;
use std::thread::Threads;
use std::time::Clock;

/// What came of a tree of worked jobs that waited where they had nothing to do.
pub type PatientReport = Report<PatientJob, Calm>;

/// The plans of a tree, whose jobs wait.
fn plan_patiently(alloc: Global, tree: TreeSpec) -> Result<Vec<PatientPlan>, FileRunFault>
    ensures supervisors { IfOk result (λ plans. (number : ℕ) → plans_of plans.items number ≡ supervisors_of (tables_of tree) number) }
    ensures bodies { IfOk result (λ plans. HaveBodies plans.items) }
    ensures count { IfOk result (λ plans. length plans.items ≡ length (tables_of tree)) }
    ensures few { IfOk result (λ plans. length plans.items ≤ 64) }
    ensures runnable { OnOk result (plan_fault (tables_of tree) ≡ None) }
    ensures fault { IfErr result (λ why. IsOfRun why → option_map run_fault (plan_fault (tables_of tree)) ≡ Some why) }
    ensures too_many { IfErr result (IsTooManyOnly (length (tables_of tree))) }
{
    let plans = plan_tree(alloc, tree)?;
    match patient_plans(alloc, plans) {
        Ok(plans) => Ok(plans),
        Err(AllocError) => Err(FileRunFault::OutOfMemory),
    }
}

/// What is printed of supervisors.
fn lines_of(alloc: Global, tables: &[TableReport]) -> Result<Vec<TableLine>, AllocError>
    ensures { IfOk result (λ lines. lines.items ≡ map line_of tables.now) }
{
    let mut lines = Vec::new(alloc);
    for table in tables {
        lines.push(TableLine {
            starts: table.starts(),
            restarts: table.restarts(),
            end: table.end(),
        })?;
    }
    Ok(lines)
}

/// Appends what came of a run.
fn write_served(alloc: Global, report: &PatientReport, out: &mut Vec<u8>) -> Result<(), AllocError>
    ensures { OnOk result (out.new.items ≡ out.old.items ++ served_text report.now) }
{
    let lines = lines_of(alloc, report.tables.as_slice())?;
    let written = write_report(lines.as_slice(), report.live, out);
    drop(lines);
    written
}

/// Runs a tree of worked jobs on threads that sleep, as long as the span says. Appends the report: a line for each supervisor, and
/// how many processes are left. Of the settings the number of hands counts. Gives what it appends the text of.
///
/// # Errors
///
/// As [`run_worked`](crate::run_worked).
pub fn serve_worked<R, W>(
    rt: &R,
    alloc: Global,
    tree: TreeSpec,
    settings: Settings,
    span: Span,
    watch: &W,
    out: &mut Vec<u8>,
) -> Result<PatientReport, FileRunFault>
where
    R: Threads + Wait + Clock + Sync,
    W: Watch + Sync,
    ensures served { IfOk result (IsReportOf (length (tables_of tree))) }
    // Each core began with the flags and the specifications of the table with its number, never opened.
    ensures plans { IfOk result (λ report. HaveBegun (supervisors_of (tables_of tree)) report.tables.items) }
    ensures report { IfOk result (λ report. out.new.items ≡ out.old.items ++ served_text report) }
    ensures runnable { OnOk result (plan_fault (tables_of tree) ≡ None) }
    ensures fault { IfErr result (λ why. IsOfRun why → option_map run_fault (plan_fault (tables_of tree)) ≡ Some why) }
    ensures too_many { IfErr result (IsTooManyOnly (length (tables_of tree))) }
{
    let plans = plan_patiently(alloc, tree)?;
    let report = match run_for(rt, alloc, plans, settings.schedulers(), span, watch) {
        Ok(report) => report,
        Err(why) => return Err(fault_of(why)),
    };
    match write_served(alloc, &report, out) {
        Ok(()) => Ok(report),
        Err(AllocError) => {
            drop(report);
            Err(FileRunFault::OutOfMemory)
        }
    }
}
