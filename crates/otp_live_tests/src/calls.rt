// The supervisors of a tree that runs are called from threads of their own.

use crate::guests::{
    Guest, GuestKind, GuestPlan, MEMORY, Shared, flags, got, make_guest, may_run, named, same, tree,
};
use otp_job::Body;
use otp_job::bridge::BoxedSubsystem;
use otp_live::{
    AddError, CallError, Caller, DeleteRefusal, RestartRefusal, StopFlag, TerminateRefusal,
    Unwatched, run_with_callers,
};
use otp_reason::Name;
use otp_spec::ChildSpec;
use otp_tree::{CallRefusal, RunFault};
use std::alloc::Global;
use std::process::Abort;
use std::sync::{Arc, Wait};
use std::thread;
use std::thread::Threads;
use std::time::Clock;

type Calling = Caller<Guest, BoxedSubsystem>;

// Runs a tree with these callers. How many processes are left.
fn live_with<R>(
    rt: &R,
    alloc: Global,
    plans: Vec<GuestPlan>,
    hands: usize,
    stop: &StopFlag,
    callers: &[Calling],
) -> u64
where
    R: Threads + Wait + Clock + Abort + Sync,
{
    may_run(rt, plans.as_slice(), hands);
    let ran = run_with_callers(rt, alloc, plans, hands, stop, &Unwatched, callers);
    let report = got(rt, "the tree was not run", ran);
    let live = report.live;
    drop(report);
    live
}

// Calls the root of a tree whose workers are a and b, behind a supervisor.
fn call_all<R: Wait + Abort>(rt: &R, caller: &Calling, shared: &Arc<Shared>) {
    let (name, unknown) = (named(rt, b"a"), named(rt, b"unknown"));
    assert!(rt;
        caller.restart_child(rt, 0, name) == Err(CallError::Refused(RestartRefusal::Running))
    );
    assert!(rt; caller.terminate_child(rt, 0, name) == Ok(()));
    assert!(rt; matches!(caller.restart_child(rt, 0, name), Ok(Some(_))));
    assert!(rt;
        caller.delete_child(rt, 0, name) == Err(CallError::Refused(DeleteRefusal::Running))
    );
    assert!(rt;
        caller.terminate_child(rt, 1, unknown)
            == Err(CallError::Refused(TerminateRefusal::NotFound))
    );
    assert!(rt;
        caller.delete_child(rt, 7, name) == Err(CallError::Unsent(CallRefusal::NoSupervisor))
    );
    start(rt, caller, shared, unknown);
    let counts = got(rt, "the counts", caller.count_children(rt, 0));
    same(rt, "the children", counts.active, 4);
}

// Starts a child more.
fn start<R: Wait + Abort>(rt: &R, caller: &Calling, shared: &Arc<Shared>, id: Name) {
    let job = make_guest(rt, GuestKind::Steady, shared);
    let started = caller.start_child(rt, 0, ChildSpec::new(id, id), Body::Worker(job));
    let number = got(rt, "the child was not started", started);
    assert!(rt; number.is_some());
}

// Calls all and stops the tree; then nobody is there.
fn call_and_stop<R: Wait + Abort>(rt: &R, caller: &Calling, shared: &Arc<Shared>) {
    call_all(rt, caller, shared);
    shared.stop.raise();
    for _ in 0..u64::MAX {
        if caller.count_children(rt, 0) == Err(CallError::Over) {
            break;
        }
    }
}

fn call_beside<R: Threads + Wait + Clock + Abort + Sync>(rt: &R, alloc: Global, hands: usize) {
    let shared = Shared::new(rt, alloc);
    let callers = [got(rt, MEMORY, Caller::new(&shared.stop))];
    let kinds = [GuestKind::Steady, GuestKind::Busy];
    let plans = tree(rt, alloc, &kinds, &kinds, &shared, flags(1));
    let (live, ()) = thread::join(
        rt,
        || live_with(rt, alloc, plans, hands, &shared.stop, &callers),
        || call_and_stop(rt, &callers[0], &shared),
    );
    same(rt, "the processes that are left", live, 0);
    drop(callers);
    drop(shared);
}

#[test]
fn supervisors_are_called_while_they_run(rt: HostRuntime) {
    call_beside(&rt, rt.alloc(), 1);
    call_beside(&rt, rt.alloc(), 4);
}

// Waits until each of them wants something.
fn await_all(callers: &[Calling]) {
    for caller in callers {
        for _ in 0..u64::MAX {
            if caller.is_wanted() {
                break;
            }
            thread::yield_now();
        }
    }
}

// Runs a tree that is refused, as a child of its last supervisor has no body: but not before each caller wants something.
fn run_in_vain<R>(
    rt: &R,
    alloc: Global,
    plans: Vec<GuestPlan>,
    stop: &StopFlag,
    callers: &[Calling],
)
where
    R: Threads + Wait + Clock + Abort + Sync,
{
    let mut plans = plans;
    if let Some(plan) = plans.last_mut() {
        drop(plan.bodies.pop());
    }
    may_run(rt, plans.as_slice(), 1);
    await_all(callers);
    match run_with_callers(rt, alloc, plans, 1, stop, &Unwatched, callers) {
        Err(RunFault::Open(back)) => drop(back),
        _ => panic!(rt; "a child has no body"),
    }
}

// A child is to be started. There is no run, and its body is back.
fn start_in_vain<R: Wait + Abort>(rt: &R, caller: &Calling, shared: &Arc<Shared>) {
    let id = named(rt, b"late");
    let job = make_guest(rt, GuestKind::Steady, shared);
    match caller.start_child(rt, 0, ChildSpec::new(id, id), Body::Worker(job)) {
        Err((CallError::Over, Some(body))) => drop(body),
        _ => panic!(rt; "the body is back"),
    }
}

// Supervisors are to be added. There is no run, and their plans are back.
fn add_in_vain<R: Wait + Abort>(rt: &R, caller: &Calling, plans: Vec<GuestPlan>) {
    assert!(rt; !plans.is_empty());
    match caller.add_tree(rt, plans) {
        Err(AddError::Over(Some(plans))) => {
            same(rt, "how many plans came back", plans.len(), 2);
            drop(plans);
        }
        _ => panic!(rt; "the plans are back"),
    }
}

// Both at the same time, by a caller each.
fn want_in_vain<R>(
    rt: &R,
    one: &Calling,
    other: &Calling,
    plans: Vec<GuestPlan>,
    shared: &Arc<Shared>,
)
where
    R: Threads + Wait + Abort + Sync,
{
    let ((), ()) = thread::join(
        rt,
        || start_in_vain(rt, one, shared),
        || add_in_vain(rt, other, plans),
    );
}

// What a caller wanted of a run before that was refused comes back to it.
#[test]
fn what_was_wanted_comes_back(rt: HostRuntime) {
    let (rt, alloc) = (&rt, rt.alloc());
    let shared = Shared::new(rt, alloc);
    let callers = [
        got(rt, MEMORY, Caller::new(&shared.stop)),
        got(rt, MEMORY, Caller::new(&shared.stop)),
    ];
    let kinds = [GuestKind::Steady, GuestKind::Busy];
    let plans = tree(rt, alloc, &kinds, &kinds, &shared, flags(1));
    let others = tree(rt, alloc, &kinds, &kinds, &shared, flags(1));
    let ((), ()) = thread::join(
        rt,
        || run_in_vain(rt, alloc, plans, &shared.stop, &callers),
        || want_in_vain(rt, &callers[0], &callers[1], others, &shared),
    );
    drop(callers);
    drop(shared);
}
