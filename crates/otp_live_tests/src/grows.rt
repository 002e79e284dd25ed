// Trees are added to one that runs, by threads beside it.

use crate::drawn::{Draft, add, starts_in};
use crate::guests::{Guest, GuestKind, MEMORY, Shared, got, named, same};
use otp::{
    AddFault, BoxedSubsystem, CallError, Caller, ChildSpec, ChildType, GrowingTree, NotAdded,
    Report, Shutdown, SupFlags, Unrun, Unwatched, grow, run_growing,
};
use otp_job::Body;
use std::alloc::Global;
use std::process::Abort;
use std::sync::{Arc, Wait};
use std::thread;
use std::thread::Threads;
use std::time::Clock;

type Calling = Caller<Guest, BoxedSubsystem>;

type Grown = Result<Body<Guest, BoxedSubsystem>, NotAdded<Guest, BoxedSubsystem>>;

// A supervisor of two workers.
fn pool(rt: &impl Abort, alloc: Global, shared: &Arc<Shared>) -> Draft {
    let mut pool = Draft::new(alloc, SupFlags::default());
    add(rt, &mut pool, "a", GuestKind::Steady, shared);
    add(rt, &mut pool, "b", GuestKind::Busy, shared);
    pool
}

// Adds a pool.
fn grown<R: Wait + Abort>(rt: &R, alloc: Global, caller: &Calling, shared: &Arc<Shared>) -> Grown {
    grow(rt, alloc, caller, pool(rt, alloc, shared))
}

// Adds a pool, and has the root start it under this id.
fn start_pool<R: Wait + Abort>(
    rt: &R,
    alloc: Global,
    caller: &Calling,
    shared: &Arc<Shared>,
    id: &[u8],
) {
    let top = got(
        rt,
        "the pool was not added",
        grown(rt, alloc, caller, shared),
    );
    let id = named(rt, id);
    let spec = ChildSpec {
        kind: ChildType::Supervisor,
        shutdown: Shutdown::Infinity,
        ..ChildSpec::new(id, id)
    };
    let started = caller.start_child(rt, 0, spec, top);
    let number = got(rt, "the pool was not started", started);
    assert!(rt; number.is_some());
}

// There is no room for a third, and its plan comes back.
fn is_full(rt: &impl Abort, tried: Grown) {
    match tried {
        Err(NotAdded::Unadded(back)) => {
            same(
                rt,
                "why no pool was added",
                back.fault,
                AddFault::TooManyTables,
            );
            same(rt, "how many plans came back", back.plans.len(), 1);
            drop(back);
        }
        _ => panic!(rt; "there is no room for one more"),
    }
}

// Nothing is added once the run has ended, and the plan comes back.
fn is_over(rt: &impl Abort, tried: Grown) {
    match tried {
        Err(NotAdded::Over(Some(plans))) => {
            same(rt, "how many plans came back", plans.len(), 1);
            drop(plans);
        }
        _ => panic!(rt; "the run has ended"),
    }
}

// Adds two pools, calls both, and takes the first away. Then it stops the tree.
fn grow_and_stop<R: Wait + Abort>(rt: &R, alloc: Global, caller: &Calling, shared: &Arc<Shared>) {
    start_pool(rt, alloc, caller, shared, b"one");
    start_pool(rt, alloc, caller, shared, b"two");
    for table in 1..3 {
        let counts = got(rt, "the counts", caller.count_children(rt, table));
        same(rt, "the children", (table, counts.specs), (table, 2));
    }
    is_full(rt, grown(rt, alloc, caller, shared));
    let one = named(rt, b"one");
    assert!(rt; caller.terminate_child(rt, 0, one) == Ok(()));
    assert!(rt; caller.delete_child(rt, 0, one) == Ok(()));
    shared.stop.raise();
    for _ in 0..u64::MAX {
        if caller.count_children(rt, 0) == Err(CallError::Over) {
            break;
        }
    }
    // Whatever came last, all that is wanted after it is refused.
    is_over(rt, grown(rt, alloc, caller, shared));
    assert!(rt; caller.count_children(rt, 0) == Err(CallError::Over));
}

// It has the root and both pools, each of which started its workers.
fn has_pools(rt: &impl Abort, report: &Report<Guest, BoxedSubsystem>) {
    same(rt, "the supervisors", report.tables.len(), 3);
    same(rt, "the root", starts_in(report, 0), (Some(3), 0));
    same(rt, "the first pool", starts_in(report, 1), (Some(2), 0));
    same(rt, "the second pool", starts_in(report, 2), (Some(2), 0));
}

// Runs a root of one worker with room for two supervisors.
fn run_root<R: Threads + Wait + Clock + Abort + Sync>(
    rt: &R,
    alloc: Global,
    hands: usize,
    shared: &Arc<Shared>,
    callers: &[Calling],
) -> Result<Report<Guest, BoxedSubsystem>, Unrun<Guest, BoxedSubsystem>> {
    let mut root = Draft::new(alloc, SupFlags::default());
    add(rt, &mut root, "db", GuestKind::Steady, shared);
    let tree = GrowingTree { root, room: 2 };
    run_growing(rt, alloc, tree, hands, &shared.stop, &Unwatched, callers)
}

fn grow_beside<R: Threads + Wait + Clock + Abort + Sync>(rt: &R, alloc: Global, hands: usize) {
    let shared = Shared::new(rt, alloc);
    let callers = [got(rt, MEMORY, Caller::new(&shared.stop))];
    let (ran, ()) = thread::join(
        rt,
        || run_root(rt, alloc, hands, &shared, &callers),
        || grow_and_stop(rt, alloc, &callers[0], &shared),
    );
    let report = got(rt, "the tree was not run", ran);
    has_pools(rt, &report);
    drop(report);
    drop(callers);
    drop(shared);
}

#[test]
fn trees_are_added_while_another_runs(rt: HostRuntime) {
    grow_beside(&rt, rt.alloc(), 1);
    grow_beside(&rt, rt.alloc(), 4);
}

// Two threads add a pool each at the same time, under numbers of their own. Then the tree is stopped.
fn add_and_stop<R>(rt: &R, alloc: Global, one: &Calling, other: &Calling, shared: &Arc<Shared>)
where
    R: Threads + Wait + Abort + Sync,
{
    let ((), ()) = thread::join(
        rt,
        || start_pool(rt, alloc, one, shared, b"one"),
        || start_pool(rt, alloc, other, shared, b"two"),
    );
    for table in 1..3 {
        let counts = got(rt, "the counts", one.count_children(rt, table));
        same(rt, "the children", (table, counts.specs), (table, 2));
    }
    shared.stop.raise();
}

#[test]
fn two_threads_add_at_once(rt: HostRuntime) {
    let (rt, alloc) = (&rt, rt.alloc());
    let shared = Shared::new(rt, alloc);
    let callers = [
        got(rt, MEMORY, Caller::new(&shared.stop)),
        got(rt, MEMORY, Caller::new(&shared.stop)),
    ];
    let (ran, ()) = thread::join(
        rt,
        || run_root(rt, alloc, 4, &shared, &callers),
        || add_and_stop(rt, alloc, &callers[0], &callers[1], &shared),
    );
    let report = got(rt, "the tree was not run", ran);
    has_pools(rt, &report);
    drop(report);
    drop(callers);
    drop(shared);
}
