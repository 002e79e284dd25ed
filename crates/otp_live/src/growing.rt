//! A tree that runs until it has ended, and to which supervisors can be added meanwhile.
ghost use Rattle.std.specs.Prelude.{◌<◌, ◌≤◌, length, IfErr, IfOk};
ghost use Rattle.otp_spec.specs.declared.limits.TheConstants.{MAX_TABLES};
ghost use Rattle.otp_run.specs.Rule.{all_parts};
ghost use Rattle.otp_open.specs.Plans.{plans_of};
ghost use Rattle.otp_tree.specs.Runs.{IsGrownRun, IsUnrun};
ghost use Rattle.otp_live.specs.Shortened.{IsCutShort};

use crate::calling::Caller;
use crate::live::{close_callers, run_places};
use crate::span::Span;
use crate::watch::Watch;
use otp_job::Job;
use otp_job::bridge::Subsystem;
use otp_job::wake::StopFlag;
use otp_open::{with_spares, without_spares};
use otp_tree::{Report, RunFault, TablePlan, Unopened};
use std::alloc::Global;
use std::sync::Wait;
use std::thread::Threads;
use std::time::Clock;

/// The plans of a tree that may grow while it runs.
#[derive(Drop)]
pub struct Growing<J: Drop, S: Drop> {
    /// Those of the supervisors that it is opened with, the root first.
    pub plans: Vec<TablePlan<J, S>>,
    /// How many supervisors it can have, 1 to 64. Each place has an inbox, a way to it in each hand, 256 signal words, and a word for
    /// its counts from the opening on.
    pub places: usize,
}

/// Runs a tree as [`run_with_callers`](crate::run_with_callers) does, where it has places for more supervisors than it is opened with:
/// a caller adds them while it runs ([`Caller::add_tree`]).
///
/// # Errors
///
/// As [`run`](crate::run).
pub fn run_growing<R, J, S, W>(
    rt: &R,
    alloc: Global,
    tree: Growing<J, S>,
    hands: usize,
    stop: &StopFlag,
    watch: &W,
    callers: &[Caller<J, S>],
) -> Result<Report<J, S>, RunFault<J, S>>
where
    R: Threads + Wait + Clock + Sync,
    J: Job + Send,
    S: Subsystem + Send,
    W: Watch + Sync,
    requires tables { length tree.plans.items ≤ tree.places }
    requires places { tree.places ≤ MAX_TABLES }
    requires some { 0 < hands }
    requires few { hands ≤ all_parts }
    ensures run { IfOk result (IsGrownRun (plans_of tree.plans.items) tree.places tree.plans.items) }
    ensures unrun { IfErr result (IsUnrun tree.plans.items) }
{
    let Growing { plans, places } = tree;
    let known = plans.len();
    let all = match with_spares(alloc, plans, places) {
        Ok(all) => all,
        Err(plans) => {
            close_callers(rt, callers);
            return Err(RunFault::Open(Unopened::for_memory(plans)));
        }
    };
    let span = Span::endless();
    match run_places(rt, alloc, all, known, hands, stop, span, watch, callers) {
        Ok(report) => Ok(report),
        Err(why) => Err(without_places(why, known)),
    }
}

/// Why a tree wasn't run or closed, with the plans of the first so many supervisors alone.
fn without_places<J: Drop, S: Drop>(why: RunFault<J, S>, known: usize) -> RunFault<J, S>
    ensures { IsCutShort known why result }
{
    match why {
        RunFault::Open(back) => {
            let Unopened { fault, plans } = back;
            RunFault::Open(Unopened {
                fault,
                plans: without_spares(plans, known),
            })
        }
        RunFault::Close(why) => RunFault::Close(why),
    }
}
