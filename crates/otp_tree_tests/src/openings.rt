//! Trees whose opening may be refused memory: the plans come back as they were, and are opened again.

use crate::fixtures::{got, same};
use crate::gates::{Clock, Wait as Before};
use crate::guests::{GuestPlan, Load, Worker, again, common};
use crate::lives::{Grove, may_run, plans_of};
use otp_job::bridge::BoxedSubsystem;
use otp_tree::{
    Hand, RunFault, Session, System, SystemFault, TreeClient, TreeNaming, Unopened, run_tree,
    with_growing_system,
};
use std::alloc::Global;
use std::process::Abort;
use std::sync::Wait;
use std::thread::Threads;

/// A tree that was not opened.
pub(crate) type Back = Unopened<Worker, BoxedSubsystem>;

/// How many plans there are, and how many bodies the first two of them have.
pub(crate) fn sizes_of(plans: &[GuestPlan]) -> (usize, usize, usize) {
    (plans.len(), bodies_at(plans, 0), bodies_at(plans, 1))
}

fn bodies_at(plans: &[GuestPlan], place: usize) -> usize {
    match plans.get(place) {
        Some(plan) => plan.bodies.len(),
        None => 0,
    }
}

/// The plans of a pair that wasn't opened: memory was refused, and both supervisors have all their bodies.
pub(crate) fn plans_back(rt: &impl Abort, back: Back) -> Vec<GuestPlan> {
    let Unopened { fault, plans } = back;
    same(rt, "why it was refused", fault, SystemFault::OutOfMemory);
    let sizes = sizes_of(plans.as_slice());
    same(rt, "the plans that came back", sizes, (2, 2, 2));
    plans
}

// Lets a tree go as it was opened. How many supervisors it had.
#[derive(Drop)]
struct Leaving;

impl<R> Session<R, Worker, BoxedSubsystem> for Leaving {
    type Output = usize;

    fn run<N: TreeNaming + Send + Sync>(
        self,
        _rt: &R,
        system: System<N, Worker, BoxedSubsystem>,
        hands: Vec<Hand<N, Worker, BoxedSubsystem>>,
        client: TreeClient<N, Load>,
    ) -> usize {
        let tables = system.tables();
        drop(hands);
        drop(client);
        drop(system);
        tables
    }
}

// Opens a tree with more places than plans, and lets it go.
fn open_growing<R: Wait + Abort>(
    rt: &R,
    alloc: Global,
    plans: Vec<GuestPlan>,
) -> Result<usize, Back> {
    assert!(rt; plans.len() <= 5);
    with_growing_system(rt, alloc, plans, 5, 2, Leaving)
}

// Runs a tree for two turns. Its plans, where memory was refused at its opening.
fn run_shortly<R: Threads + Wait + Abort + Sync>(
    rt: &R,
    alloc: Global,
    plans: Vec<GuestPlan>,
    clock: &Clock,
) -> Option<Vec<GuestPlan>> {
    may_run(rt, plans.as_slice(), 1);
    match run_tree(rt, alloc, plans, 1, clock, 1) {
        Ok(report) => {
            drop(report);
            None
        }
        Err(RunFault::Open(back)) => Some(plans_back(rt, back)),
        Err(RunFault::Close(fault)) => {
            drop(fault);
            None
        }
    }
}

// Under `.ci/refused-growths --openings` the first allocations that are refused are those that the test makes for itself, and the
// next those of the openings.
#[test]
fn a_tree_is_opened_with_plans_that_came_back(rt: HostRuntime) {
    let shared = common(&rt, rt.alloc());
    let plans = plans_of(&rt, rt.alloc(), Grove::Pair, &shared);
    let others = plans_of(&rt, rt.alloc(), Grove::Pair, &shared);
    let clock = Clock::new(again(&rt, &shared), 0, Before::Nothing);
    let tables = match open_growing(&rt, rt.alloc(), plans) {
        Ok(tables) => tables,
        Err(back) => {
            let plans = plans_back(&rt, back);
            let opened = open_growing(&rt, rt.alloc(), plans);
            got(&rt, "the plans were refused again", opened)
        }
    };
    same(&rt, "how many supervisors there are", tables, 2);
    if let Some(plans) = run_shortly(&rt, rt.alloc(), others, &clock) {
        assert!(rt; run_shortly(&rt, rt.alloc(), plans, &clock).is_none());
    }
    drop(clock);
    drop(shared);
}
