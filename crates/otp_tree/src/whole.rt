//! The whole life of a tree on threads, in one call.
ghost use Rattle.std.specs.Prelude.{◌≡◌, ◌<◌, ◌≤◌, [], length, vec_capacity, IfErr, IfOk, Some};
ghost use Rattle.otp_spec.specs.declared.limits.TheConstants.{MAX_TABLES};
ghost use Rattle.otp_run.specs.Lists.{AllAt};
ghost use Rattle.otp_run.specs.Rule.{all_parts};
ghost use Rattle.otp_hand.specs.Standings.{reach_of, standings};
ghost use Rattle.otp_open.specs.Opens.{slots_of};
ghost use Rattle.otp_tree.specs.Runs.{IsNamedRun, IsRunOf, IsUnrun};

use crate::closing::finish_tree;
use crate::opening::{Opened, Parts};
use crate::rounds::pool_all;
use otp_close::CloseFault;
use otp_close::report::Report;
use otp_hand::reading::read_each;
use otp_hand::{Hand, TreeClient, TreeNaming};
use otp_inbox::InboxNaming;
use otp_job::bridge::Subsystem;
use otp_job::{Body, Job};
use otp_open::{TablePlan, Unopened};
use otp_rules::CountsNow;
use otp_run::RunNaming;
use otp_signals::WordsNaming;
use otp_signals::counts::CountsPass;
use otp_sup::PlanNaming;
use otp_system::{Gate, System};
use std::alloc::Global;
use std::marker::Brand;
use std::sync::Wait;
use std::thread::Threads;

/// Why a tree that was run has no report.
#[derive(Drop)]
pub enum RunFault<J: Drop, S: Drop> {
    /// It was not opened. Its plans come back.
    Open(Unopened<J, S>),
    /// It was not closed, or its report tells of a mismatch.
    Close(CloseFault<J, S, ()>),
}

impl<J: Drop, S: Drop> From<Unopened<J, S>> for RunFault<J, S> {
    ghost use Rattle.std.specs.Prelude.{◌≡◌};
    ghost use Rattle.otp_tree.specs.declared.whole.RunFault.TheVariants.{Open};

    ghost from_gives = { λ why fault. fault ≡ Open why };

    fn from(why: Unopened<J, S>) -> Self {
        RunFault::Open(why)
    }
}

impl<J: Drop, S: Drop> From<CloseFault<J, S, ()>> for RunFault<J, S> {
    ghost use Rattle.std.specs.Prelude.{◌≡◌};
    ghost use Rattle.otp_tree.specs.declared.whole.RunFault.TheVariants.{Close};

    ghost from_gives = { λ why fault. fault ≡ Close why };

    fn from(why: CloseFault<J, S, ()>) -> Self {
        RunFault::Close(why)
    }
}

/// What came of a tree, and what its supervisors counted before they were asked to stop.
#[derive(Drop)]
pub struct CountedRun<J: Drop, S: Drop> {
    /// What each supervisor had published last of its children when the turns before the stop were made, in the order of
    /// their numbers: what count_children would have answered after its last event (supervisor, count_children/1).
    pub counts: Vec<CountsNow>,
    /// What the tree was when it was closed.
    pub report: Report<J, S>,
}

/// How many turns each hand makes before the gate is told how far the run is.
const TOLD_TURNS: u64 = 50_000;

/// Tells the gate how far a run is. Where there is no memory for the counts nothing is told.
fn tell<G: Gate>(alloc: Global, gate: &G, made: u64, of: u64, passes: &mut [CountsPass])
    ensures { length passes.new ≡ length passes.old }
{
    let Ok(mut counts) = Vec::with_capacity(alloc, passes.len()) else {
        return;
    };
    read_each(passes, &mut counts);
    gate.saw(made, of, counts.as_slice());
}

/// Half a run: each hand makes so many turns, in a thread of its own, and the gate is told now and then how far they are, of
/// which so many were made before.
fn run_half<N, R, J, S, G>(
    rt: &R,
    alloc: Global,
    system: &System<N, J, S>,
    hands: &mut Vec<Hand<N, J, S>>,
    gate: &G,
    turns: u64,
    before: u64,
    passes: &mut [CountsPass],
)
where
    N: TreeNaming + Send + Sync,
    R: Threads + Wait + Sync,
    J: Job + Send,
    S: Subsystem + Send,
    G: Gate + Sync,
    ensures passes { length passes.new ≡ length passes.old }
    ensures hands { standings hands.new.items ≡ standings hands.old.items }
{
    let mut made: u64 = 0;
    for _ in 0..=turns / TOLD_TURNS {
        let next = turns.saturating_sub(made).min(TOLD_TURNS);
        if next == 0 {
            return;
        }
        pool_all(rt, system, hands, gate, next);
        made = made.saturating_add(next);
        tell(
            alloc,
            gate,
            before.saturating_add(made),
            turns.saturating_mul(2),
            passes,
        );
    }
}

/// Both halves of a run: each hand makes so many turns, the counts of each supervisor are read, the root is asked to stop, and each
/// hand makes as many turns again.
fn run_both<N, R, J, S, G>(
    rt: &R,
    alloc: Global,
    system: &System<N, J, S>,
    hands: &mut Vec<Hand<N, J, S>>,
    client: &mut TreeClient<N, Body<J, S>>,
    gate: &G,
    turns: u64,
    passes: &mut [CountsPass],
    counts: &mut Vec<CountsNow>,
)
where
    N: TreeNaming + Send + Sync,
    R: Threads + Wait + Sync,
    J: Job + Send,
    S: Subsystem + Send,
    G: Gate + Sync,
    requires unasked { client.old.owner.posts ≡ [] }
    requires none { counts.old.items ≡ [] }
    requires room { length passes.old ≤ vec_capacity counts.old }
    ensures counts { length counts.new.items ≡ length passes.old }
    ensures hands { standings hands.new.items ≡ standings hands.old.items }
    ensures client { reach_of client.new ≡ reach_of client.old }
{
    run_half(rt, alloc, system, hands, gate, turns, 0, passes);
    client.read_before_stop(passes, counts);
    system.stop(client);
    run_half(rt, alloc, system, hands, gate, turns, turns, passes);
}

/// The whole life of a tree of 1 to 64 supervisors, the root first, in one call. Each of 1 to 8 hands makes so many turns in a
/// thread of its own; then the root is asked to stop, each hand makes as many turns again, and the tree is closed. Out comes the
/// report of what it was, with the counts of each supervisor before the stop.
///
/// The counts are read without a lock, by a pass for each supervisor, while no hand makes a turn. The gate is told how far the
/// run is each 50,000 turns ([`Gate::saw`]).
pub fn run_tree_counted<R, J, S, G>(
    rt: &R,
    alloc: Global,
    plans: Vec<TablePlan<J, S>>,
    hands: usize,
    gate: &G,
    turns: u64,
) -> Result<CountedRun<J, S>, RunFault<J, S>>
where
    R: Threads + Wait + Sync,
    J: Job + Send,
    S: Subsystem + Send,
    G: Gate + Sync,
    requires tables { length plans.items ≤ MAX_TABLES }
    requires some { 0 < hands }
    requires few { hands ≤ all_parts }
    // The counts of each supervisor of the plans.
    ensures counts { IfOk result (λ run. length run.counts.items ≡ length plans.items) }
    // What each says part by part: `Runs` of the definitions.
    ensures run { IfOk result (λ run. IsRunOf plans.items run.report) }
    ensures unrun { IfErr result (IsUnrun plans.items) }
{
    let parts = Parts::open(alloc, plans, hands)?;
    run_named::<Brand, R, J, S, G>(rt, alloc, parts, gate, turns)
}

// Whoever calls this picks the names, which the language allows for the traits alone that have them.
fn run_named<N, R, J, S, G>(
    rt: &R,
    alloc: Global,
    parts: Parts<J, S>,
    gate: &G,
    turns: u64,
) -> Result<CountedRun<J, S>, RunFault<J, S>>
where
    N: WordsNaming + InboxNaming + PlanNaming + RunNaming + Send + Sync,
    R: Threads + Wait + Sync,
    J: Job + Send,
    S: Subsystem + Send,
    G: Gate + Sync,
    requires words { parts.words.words ≡ N.words }
    requires inboxes { AllAt (λ k id. id ≡ N.inbox k) parts.inboxes.items }
    requires plans { AllAt (λ k plan. N.plan k ≡ Some plan.supervisor) parts.plans.items }
    requires as_many { length parts.plans.items ≡ length parts.inboxes.items }
    requires outer { parts.outer ≡ N.inbox (length parts.inboxes.items) }
    requires deques { AllAt (λ k id. id ≡ N.deque k) parts.queue }
    requires slots { parts.words.slots ≡ slots_of (length parts.inboxes.items) }
    requires few { length parts.inboxes.items ≤ MAX_TABLES }
    requires some { 0 < length parts.queue }
    ensures counts { IfOk result (λ run. length run.counts.items ≡ length parts.inboxes.items) }
    ensures run { IfOk result (λ run. IsNamedRun N.plan (length parts.inboxes.items) parts.plans.items run.report) }
    ensures unrun { IfErr result (IsUnrun parts.plans.items) }
{
    let Ok(mut counts) = Vec::with_capacity(alloc, parts.inboxes.len()) else {
        let back = Unopened::for_memory(parts.into_plans());
        return Err(RunFault::Open(back));
    };
    let opened = match parts.named::<N>(alloc) {
        Ok(opened) => opened,
        Err(back) => {
            drop(counts);
            return Err(RunFault::Open(back));
        }
    };
    let Opened {
        system,
        mut hands,
        mut client,
        mut passes,
    } = opened;
    run_both(
        rt,
        alloc,
        &system,
        &mut hands,
        &mut client,
        gate,
        turns,
        passes.as_mut_slice(),
        &mut counts,
    );
    drop(passes);
    match finish_tree(rt, alloc, system, hands, client) {
        Ok(report) => Ok(CountedRun { counts, report }),
        Err(fault) => {
            drop(counts);
            Err(RunFault::Close(fault))
        }
    }
}

/// Does what [`run_tree_counted`] does, and leaves the counts out.
pub fn run_tree<R, J, S, G>(
    rt: &R,
    alloc: Global,
    plans: Vec<TablePlan<J, S>>,
    hands: usize,
    gate: &G,
    turns: u64,
) -> Result<Report<J, S>, RunFault<J, S>>
where
    R: Threads + Wait + Sync,
    J: Job + Send,
    S: Subsystem + Send,
    G: Gate + Sync,
    requires tables { length plans.items ≤ MAX_TABLES }
    requires some { 0 < hands }
    requires few { hands ≤ all_parts }
    ensures run { IfOk result (IsRunOf plans.items) }
    ensures unrun { IfErr result (IsUnrun plans.items) }
{
    match run_tree_counted(rt, alloc, plans, hands, gate, turns) {
        Ok(CountedRun { counts: _, report }) => Ok(report),
        Err(fault) => Err(fault),
    }
}
