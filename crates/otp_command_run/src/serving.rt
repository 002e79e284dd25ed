//! `run --for`: a tree is served for a time on threads that sleep, with worked jobs that wait.

ghost use Rattle.std.specs.Prelude.{◌≡◌, ◌≤◌, ◌||◌, ◌++◌, Some, None, IfErr, IfOk, OnOk, length};
ghost use Rattle.std.specs.Option.{option_map};
ghost use Rattle.otp_exit.specs.Told.{TellsFirst};
ghost use Rattle.otp_file.specs.Trees.{tables_of};
ghost use Rattle.otp_file.specs.RolesFaults.{plan_fault};
ghost use Rattle.otp_jobs.specs.Plans.{supervisors_of};
ghost use Rattle.otp_jobs.specs.Runs.{IsOfRun, IsTooManyOnly, run_fault};
ghost use Rattle.otp_command_run.specs.Running.{IsTreeServed, span_of};
ghost use Rattle.otp_jobs.specs.Serves.{served_text};
ghost use Rattle.otp_close.specs.Closes.{HaveBegun, IsReportOf};

use crate::outcome::Limit;
use crate::running::{Pool, ending_of_live, refuse_run, remarks_on, say, tree_of};
use crate::watching::AtPaths;
use otp_cli::{RunShows, Serving};
use otp_exit::{ProgramEnd, explain};
use otp_file::TreeSpec;
use otp_file::roles::Settings;
use otp_jobs::FileRunFault;
use otp_jobs::serving::{PatientReport, serve_worked};
use otp_live::{Span, Unwatched, Watch};
use otp_sim::{Failed, Output, write_all};
use otp_trial::plant_seats;
use std::alloc::Global;
use std::sync::Wait;
use std::thread::Threads;
use std::time::Clock;

/// How a tree is served, for how long, and what is told of it.
#[derive(Drop)]
pub struct ServeAs {
    pub settings: Settings,
    pub serving: Serving,
    pub shows: RunShows,
}

/// How long a tree is served that is to be served so.
fn span_of(serving: Serving) -> Span
    ensures { result ≡ span_of serving }
{
    Span {
        stop: Some(serving.time),
        grace: serving.grace,
    }
}

/// Serves a tree, and appends its report. The watch is told what happens where that is wanted.
fn serve_tree<H, G, L>(
    pool: &Pool<'_, H, G, L>,
    alloc: Global,
    tree: TreeSpec,
    settings: Settings,
    serving: Serving,
    out: &mut Vec<u8>,
) -> Result<PatientReport, FileRunFault>
where
    H: Threads + Wait + Clock + Sync,
    L: Watch + Sync,
    ensures served { IfOk result (IsReportOf (length (tables_of tree))) }
    ensures plans { IfOk result (λ report. HaveBegun (supervisors_of (tables_of tree)) report.tables.items) }
    ensures report { IfOk result (λ report. out.new.items ≡ out.old.items ++ served_text report) }
    ensures runnable { OnOk result (plan_fault (tables_of tree) ≡ None) }
    ensures fault { IfErr result (λ why. IsOfRun why → option_map run_fault (plan_fault (tables_of tree)) ≡ Some why) }
    ensures too_many { IfErr result (IsTooManyOnly (length (tables_of tree))) }
{
    let span = span_of(serving);
    if !serving.is_logged {
        return serve_worked(pool.rt, alloc, tree, settings, span, &Unwatched, out);
    }
    let Ok(seats) = plant_seats(alloc, &tree) else {
        drop(tree);
        return Err(FileRunFault::OutOfMemory);
    };
    let watch = AtPaths {
        seats: seats.as_slice(),
        watch: pool.watch,
    };
    let served = serve_worked(pool.rt, alloc, tree, settings, span, &watch, out);
    drop(seats);
    served
}

/// Reads the tree of a file, serves it with worked jobs for a time, and writes the report. What is told besides changes nothing of
/// the output.
pub fn serve_file<'a, H, G, L, W, E>(
    pool: &Pool<'_, H, G, L>,
    name: &str,
    file: &[u8],
    how: ServeAs,
    output: &mut W,
    errors: &mut E,
) -> ProgramEnd<'a>
where
    H: Threads + Wait + Clock + Sync,
    L: Watch + Sync,
    W: Output,
    E: Output,
    ensures done { IsTreeServed how.shows.is_json name.now result file.now
        (W.seen output.old) (W.seen output.new) }
    ensures first { TellsFirst (how.shows.is_drawn || how.shows.is_why) result (E.seen errors.old) (E.seen errors.new) }
    ensures kept { (E.seen errors.old).failures ≤ (E.seen errors.new).failures }
{
    let alloc = pool.alloc;
    let ServeAs {
        settings,
        serving,
        shows,
    } = how;
    let tree = match tree_of(alloc, file) {
        Ok(tree) => tree,
        Err(fault) => {
            let ending = ProgramEnd::of_tree(fault);
            explain(errors, name, ending);
            return ending;
        }
    };
    let mut text = Vec::new(alloc);
    let report = match serve_tree(pool, alloc, tree, settings, serving, &mut text) {
        Ok(report) => report,
        Err(fault) => return refuse_run(alloc, errors, name, file, fault),
    };
    let live = report.live;
    let tables = report.tables.as_slice();
    let Ok(remarks) = remarks_on(alloc, shows, Limit::Grace, file, tables, live) else {
        drop(report);
        return ProgramEnd::OutOfMemory;
    };
    let Ok(text) = say(alloc, shows.is_json, name, file, tables, live, text) else {
        drop(report);
        return ProgramEnd::OutOfMemory;
    };
    drop(report);
    match write_all(output, text.as_slice()) {
        Ok(()) => {
            // Where nothing can be told, the report stands all the same.
            let _told = write_all(errors, remarks.as_slice());
            ending_of_live(live)
        }
        Err(Failed) => ProgramEnd::OutputFailed,
    }
}
