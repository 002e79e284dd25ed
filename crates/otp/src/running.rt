//! A tree that was drawn up is run.
ghost use Rattle.std.specs.Prelude.{◌≡◌, ◌+◌, ◌<◌, ◌≤◌, IfErr, IfOk, IfSome, None, OnOk, [], length, map, vec_capacity};
ghost use Rattle.otp_draft.specs.Faults.{finish_fault};
ghost use Rattle.otp_draft.specs.Plans.{numbered, seen};
ghost use Rattle.otp_draft.specs.Trees.{plans_of, size};
ghost use Rattle.otp_run.specs.Rule.{all_parts};
ghost use Rattle.otp_spec.specs.declared.limits.TheConstants.{MAX_TABLES};
ghost use Rattle.otp_close.specs.Closes.{HaveBegun, IsMismatchOnly, IsReportOf, NoneMissing, report_in};
ghost use Rattle.otp_open.specs.Plans.{HaveBodies};
ghost use Rattle.otp.specs.Runs.{IsBack, IsRunOfDraft, IsUnfinished, seen_in_tree, supervisors_of};

use crate::fault::Unrun;
use crate::watching::{AtPaths, paths_for};
use otp_draft::{DraftFault, DraftedTable, Refused, TreeDraft};
use otp_job::Job;
use otp_job::bridge::Subsystem;
use otp_live::{Caller, Growing, StopFlag, Watch, close_callers};
use otp_spec::MAX_TABLES;
use otp_tree::{
    CountedRun, Gate, Leader, Led, MAX_HANDS, Report, RunFault, Session, run_tree_counted,
    with_growing_system, with_system,
};
use std::alloc::Global;
use std::sync::Wait;
use std::thread::Threads;
use std::time::Clock;

/// These plans, as `otp_tree` has them. Takes no memory.
fn handed_on<J: Drop, S: Drop>(
    plans: Vec<DraftedTable<J, S>>,
    room: Vec<otp_tree::TablePlan<J, S>>,
) -> Vec<otp_tree::TablePlan<J, S>>
    requires none { room.items ≡ [] }
    requires room { length plans.items ≤ vec_capacity room }
    ensures plans { map seen_in_tree result.items ≡ map seen plans.items }
    ensures count { length result.items ≡ length plans.items }
{
    let mut handed = room;
    for plan in plans {
        let DraftedTable { supervisor, bodies } = plan;
        handed.push_reserved(otp_tree::TablePlan { supervisor, bodies });
    }
    handed
}

/// The plans of a tree, the root first, each supervisor before those below its own children, as [`otp_tree::with_system`] and
/// [`otp_tree::lead`] take them: what the children of each run stands in its plan, a child that is a supervisor by its number.
///
/// # Errors
///
/// As [`TreeDraft::finish`], with the tree.
pub fn plans<J: Drop, S: Drop>(
    alloc: Global,
    root: TreeDraft<J, S>,
) -> Result<Vec<otp_tree::TablePlan<J, S>>, Refused<TreeDraft<J, S>>>
    ensures plans { IfOk result (λ all. map seen_in_tree all.items ≡ numbered 0 (plans_of root)) }
    ensures count { IfOk result (λ all. length all.items ≡ size root) }
    ensures few { IfOk result (λ all. length all.items ≤ MAX_TABLES) }
    // Each has a body for each child that an opening makes.
    ensures bodies { IfOk result (λ all. HaveBodies all.items) }
    ensures lawful { OnOk result (finish_fault root ≡ None) }
    ensures back { IfErr result (IsUnfinished root) }
{
    let Ok(room) = Vec::with_capacity(alloc, root.tables()) else {
        return Err(Refused {
            fault: DraftFault::OutOfMemory,
            given: root,
        });
    };
    match root.finish(alloc) {
        Ok(plan) => {
            let _ = plan.len();
            Ok(handed_on(plan.numbered(0), room))
        }
        Err(back) => {
            drop(room);
            Err(back)
        }
    }
}

/// The plans of a tree for 1 to 8 hands.
fn plans_for<J: Drop, S: Drop>(
    alloc: Global,
    root: TreeDraft<J, S>,
    hands: usize,
) -> Result<Vec<otp_tree::TablePlan<J, S>>, Unrun<J, S>>
    ensures plans { IfOk result (λ all. map seen_in_tree all.items ≡ numbered 0 (plans_of root)) }
    ensures count { IfOk result (λ all. length all.items ≡ size root) }
    ensures few { IfOk result (λ all. length all.items ≤ MAX_TABLES) }
    ensures bodies { IfOk result (λ all. HaveBodies all.items) }
    ensures lawful { OnOk result (finish_fault root ≡ None) }
    ensures some { OnOk result (0 < hands) }
    ensures served { OnOk result (hands ≤ all_parts) }
    ensures back { IfErr result (IsBack hands root) }
{
    if hands == 0 || hands > MAX_HANDS {
        return Err(Unrun::Hands(root));
    }
    match plans(alloc, root) {
        Ok(all) => Ok(all),
        Err(back) => Err(Unrun::Unfinished(back)),
    }
}

/// Runs a tree until its root has ended: by itself, as when it gives up, or because the stop was raised, from any thread and at any
/// time. Then its children are stopped in reverse start order, each within its time (as at the end of an application in OTP), and
/// the tree is closed. Out comes the report of what it was.
///
/// It is served by 1 to 8 hands, each in a thread of its own, which sleep while there is nothing to do. The clock is the system's, in
/// milliseconds since the call. The watch is told of starts, restarts and ends, each with the path of its supervisor
/// ([`Unwatched`](crate::Unwatched) says nothing, [`LogLines`](crate::LogLines) writes them).
///
/// The report has the supervisors in the order of the tree's paths ([`TreeDraft::paths`]).
///
/// # Errors
///
/// [`Unrun::Hands`] and [`Unrun::Unfinished`] with the tree; [`Unrun::Run`] where it was not opened, with its plans, or not
/// closed.
pub fn run<R, J, S, W>(
    rt: &R,
    alloc: Global,
    root: TreeDraft<J, S>,
    hands: usize,
    stop: &StopFlag,
    watch: &W,
) -> Result<Report<J, S>, Unrun<J, S>>
where
    R: Threads + Wait + Clock + Sync,
    J: Job + Send,
    S: Subsystem + Send,
    W: Watch + Sync,
    ensures run { IfOk result (IsRunOfDraft root) }
    ensures back { IfErr result (IsBack hands root) }
{
    let callers = Vec::new(alloc);
    run_with_callers(rt, alloc, root, hands, stop, watch, callers.as_slice())
}

/// Does what [`run`] does; by each of these callers a thread calls the tree's supervisors while it runs, as
/// `supervisor:which_children` and the others do ([`Caller`]). A supervisor is called by its number, which [`TreeDraft::table_of`] says
/// of its path; the root's is 0.
///
/// # Errors
///
/// As [`run`]. The callers are told that the run is over in each case, also where it didn't begin.
pub fn run_with_callers<R, J, S, W>(
    rt: &R,
    alloc: Global,
    root: TreeDraft<J, S>,
    hands: usize,
    stop: &StopFlag,
    watch: &W,
    callers: &[Caller<J, S>],
) -> Result<Report<J, S>, Unrun<J, S>>
where
    R: Threads + Wait + Clock + Sync,
    J: Job + Send,
    S: Subsystem + Send,
    W: Watch + Sync,
    ensures run { IfOk result (IsRunOfDraft root) }
    ensures back { IfErr result (IsBack hands root) }
{
    let tree = GrowingTree { root, room: 0 };
    match run_growing(rt, alloc, tree, hands, stop, watch, callers) {
        Ok(report) => Ok(report),
        Err(why) => Err(why),
    }
}

/// A tree that may grow while it runs.
#[derive(Drop)]
pub struct GrowingTree<J: Drop, S: Drop> {
    pub root: TreeDraft<J, S>,
    /// How many supervisors can be added, as far as a tree can have [`MAX_TABLES`]. What each costs from the opening on,
    /// [`otp_live::Growing`] has.
    pub room: usize,
}

/// Does what [`run_with_callers`] does with a tree to which others can be added while it runs ([`grow`](crate::grow)). Of a
/// supervisor that was added a watch is told its number ([`Seen`](crate::Seen)), and no path.
///
/// The report has the supervisors in the order of the tree's paths, and those that were added behind them, as they were.
///
/// # Errors
///
/// As [`run_with_callers`].
pub fn run_growing<R, J, S, W>(
    rt: &R,
    alloc: Global,
    tree: GrowingTree<J, S>,
    hands: usize,
    stop: &StopFlag,
    watch: &W,
    callers: &[Caller<J, S>],
) -> Result<Report<J, S>, Unrun<J, S>>
where
    R: Threads + Wait + Clock + Sync,
    J: Job + Send,
    S: Subsystem + Send,
    W: Watch + Sync,
    ensures report { IfOk result (λ report. IsReportOf (length report.tables.items) report) }
    // It has each supervisor of the tree, and no more than there was room for.
    ensures some { IfOk result (λ report. size tree.root ≤ length report.tables.items) }
    ensures few { IfOk result (λ report. length report.tables.items ≤ size tree.root + tree.room) }
    ensures plans { IfOk result (λ report. HaveBegun (supervisors_of tree.root) report.tables.items) }
    ensures lawful { OnOk result (finish_fault tree.root ≡ None) }
    ensures back { IfErr result (IsBack hands tree.root) }
{
    let GrowingTree { root, room } = tree;
    let Ok(paths) = paths_for(alloc, &root, watch) else {
        close_callers(rt, callers);
        return Err(Unrun::Unfinished(Refused {
            fault: DraftFault::OutOfMemory,
            given: root,
        }));
    };
    let plans = match plans_for(alloc, root, hands) {
        Ok(plans) => plans,
        Err(why) => {
            drop(paths);
            close_callers(rt, callers);
            return Err(why);
        }
    };
    let places = places_for(plans.len(), room);
    let at_paths = AtPaths {
        paths: paths.as_slice(),
        places,
        watch,
    };
    let growing = Growing { plans, places };
    let ran = otp_live::run_growing(rt, alloc, growing, hands, stop, &at_paths, callers);
    drop(paths);
    match ran {
        Ok(report) => Ok(report),
        Err(why) => Err(Unrun::Run(why)),
    }
}

/// The places of a tree of so many supervisors with room for so many more.
fn places_for(tables: usize, room: usize) -> usize
    requires { tables ≤ MAX_TABLES }
    ensures all { tables ≤ result }
    ensures few { result ≤ MAX_TABLES }
    ensures room { result ≤ tables + room }
{
    tables + room.min(MAX_TABLES - tables)
}

/// The whole life of a tree in one call, counted in turns. Each of 1 to 8 hands makes so many turns in a thread of its own; then
/// the root is asked to stop, each hand makes as many turns again, and the tree is closed. Out comes the report of what it was,
/// with the counts of each supervisor before the stop ([`otp_tree::run_tree_counted`]).
///
/// The gate is asked the time before each turn; [`Still`](crate::Still) is one for which no time passes. Of one hand a few turns
/// for each child are enough, and turns in which there is nothing to do cost little.
///
/// # Errors
///
/// [`Unrun::Hands`] and [`Unrun::Unfinished`] with the tree; [`Unrun::Run`] where it was not opened, with its plans, or not
/// closed.
pub fn run_counted<R, J, S, G>(
    rt: &R,
    alloc: Global,
    root: TreeDraft<J, S>,
    hands: usize,
    gate: &G,
    turns: u64,
) -> Result<CountedRun<J, S>, Unrun<J, S>>
where
    R: Threads + Wait + Sync,
    J: Job + Send,
    S: Subsystem + Send,
    G: Gate + Sync,
    ensures counts { IfOk result (λ run. length run.counts.items ≡ size root) }
    ensures run { IfOk result (λ run. IsRunOfDraft root run.report) }
    ensures back { IfErr result (IsBack hands root) }
{
    let plans = plans_for(alloc, root, hands)?;
    match run_tree_counted(rt, alloc, plans, hands, gate, turns) {
        Ok(run) => Ok(run),
        Err(why) => Err(Unrun::Run(why)),
    }
}

/// Does what [`run_counted`] does, and leaves the counts out.
pub fn run_turns<R, J, S, G>(
    rt: &R,
    alloc: Global,
    root: TreeDraft<J, S>,
    hands: usize,
    gate: &G,
    turns: u64,
) -> Result<Report<J, S>, Unrun<J, S>>
where
    R: Threads + Wait + Sync,
    J: Job + Send,
    S: Subsystem + Send,
    G: Gate + Sync,
    ensures run { IfOk result (IsRunOfDraft root) }
    ensures back { IfErr result (IsBack hands root) }
{
    match run_counted(rt, alloc, root, hands, gate, turns) {
        Ok(CountedRun { counts: _, report }) => Ok(report),
        Err(why) => Err(why),
    }
}

/// Opens a tree and serves it with each of 1 to 8 hands in a thread of its own, round by round as the leader says: at most so many
/// rounds. Then the tree is closed, and the leader comes back with the report ([`otp_tree::lead`]).
///
/// # Errors
///
/// [`Unrun::Hands`] and [`Unrun::Unfinished`] with the tree; [`Unrun::Run`] where it was not opened, with its plans. The
/// leader is dropped then.
pub fn lead<R, J, S, G, L>(
    rt: &R,
    alloc: Global,
    root: TreeDraft<J, S>,
    hands: usize,
    gate: &G,
    rounds: u64,
    leader: L,
) -> Result<Led<J, S, L>, Unrun<J, S>>
where
    R: Threads + Wait + Sync,
    J: Job + Send,
    S: Subsystem + Send,
    G: Gate + Sync,
    L: Leader<J, S>,
    ensures report { IfOk result (λ led. IfOk led.report (IsReportOf (size root))) }
    ensures plans { IfOk result (λ led. IfSome (report_in led.report) (λ report. HaveBegun (supervisors_of root) report.tables.items)) }
    ensures mismatch { IfOk result (λ led. IfErr led.report IsMismatchOnly) }
    // All parts of the tree are there when it is closed, since nobody else has one.
    ensures missing { IfOk result (λ led. IfErr led.report NoneMissing) }
    ensures lawful { OnOk result (finish_fault root ≡ None) }
    ensures back { IfErr result (IsBack hands root) }
{
    let plans = match plans_for(alloc, root, hands) {
        Ok(plans) => plans,
        Err(why) => {
            drop(leader);
            return Err(why);
        }
    };
    match otp_tree::lead(rt, alloc, plans, hands, gate, rounds, leader) {
        Ok(led) => Ok(led),
        Err(why) => Err(Unrun::Run(RunFault::Open(why))),
    }
}

/// Opens a tree for 1 to 8 hands, and runs a session with it ([`otp_tree::with_system`]): whoever serves the hands himself, or calls
/// the tree's supervisors from the thread that does.
///
/// # Errors
///
/// [`Unrun::Hands`] and [`Unrun::Unfinished`] with the tree; [`Unrun::Run`] where it was not opened, with its plans. The
/// session is dropped then.
pub fn with_tree<R, J, S, T>(
    rt: &R,
    alloc: Global,
    root: TreeDraft<J, S>,
    hands: usize,
    session: T,
) -> Result<T::Output, Unrun<J, S>>
where
    J: Drop,
    S: Drop,
    T: Session<R, J, S>,
    ensures lawful { OnOk result (finish_fault root ≡ None) }
    ensures back { IfErr result (IsBack hands root) }
{
    let plans = match plans_for(alloc, root, hands) {
        Ok(plans) => plans,
        Err(why) => {
            drop(session);
            return Err(why);
        }
    };
    match with_system(rt, alloc, plans, hands, session) {
        Ok(output) => Ok(output),
        Err(why) => Err(Unrun::Run(RunFault::Open(why))),
    }
}

/// Does what [`with_tree`] does with a tree to which others can be added while it runs ([`add_tree`](crate::add_tree)).
///
/// # Errors
///
/// As [`with_tree`].
pub fn with_growing_tree<R, J, S, T>(
    rt: &R,
    alloc: Global,
    tree: GrowingTree<J, S>,
    hands: usize,
    session: T,
) -> Result<T::Output, Unrun<J, S>>
where
    J: Drop,
    S: Drop,
    T: Session<R, J, S>,
    ensures lawful { OnOk result (finish_fault tree.root ≡ None) }
    ensures back { IfErr result (IsBack hands tree.root) }
{
    let GrowingTree { root, room } = tree;
    let plans = match plans_for(alloc, root, hands) {
        Ok(plans) => plans,
        Err(why) => {
            drop(session);
            return Err(why);
        }
    };
    let places = places_for(plans.len(), room);
    match with_growing_system(rt, alloc, plans, places, hands, session) {
        Ok(output) => Ok(output),
        Err(why) => Err(Unrun::Run(RunFault::Open(why))),
    }
}
