// The supervisors of a tree that was drawn up are known by their paths: to callers, to a watch, and in the report.

use crate::guests::{Guest, GuestKind, MEMORY, Shared, got, make_guest, same};
use otp::{
    BoxedSubsystem, Caller, Report, Seen, SupFlags, TreeDraft, Watch, find_path, run_with_callers,
};
use std::alloc::Global;
use std::process::Abort;
use std::sync::atomic::{AtomicU64, Ordering};
use std::sync::{Arc, Wait};
use std::thread;
use std::thread::Threads;
use std::time::Clock;

pub type Draft = TreeDraft<Guest>;

type Calling = Caller<Guest, BoxedSubsystem>;

// How often a watch was told of a child of the root, of one of the pool, and of the root itself.
#[derive(Drop)]
struct Told {
    root: AtomicU64,
    pool: AtomicU64,
    itself: AtomicU64,
}

impl Told {
    fn counter_at(&self, path: Option<&[u8]>) -> &AtomicU64 {
        match path {
            None => &self.itself,
            Some(path) if path == "pool".as_bytes() => &self.pool,
            Some(_) => &self.root,
        }
    }
}

impl Watch for Told {
    fn saw_at(&self, path: Option<&[u8]>, _seen: Seen) {
        self.counter_at(path).fetch_add(1, Ordering::SeqCst);
    }
}

pub fn add(rt: &impl Abort, draft: &mut Draft, id: &str, kind: GuestKind, shared: &Arc<Shared>) {
    let job = make_guest(rt, kind, shared);
    got(rt, MEMORY, draft.add_worker(id, job));
}

// A worker, and a pool of two below it.
pub fn shop(rt: &impl Abort, alloc: Global, shared: &Arc<Shared>) -> Draft {
    let mut pool = Draft::new(alloc, SupFlags::default());
    add(rt, &mut pool, "a", GuestKind::Steady, shared);
    add(rt, &mut pool, "b", GuestKind::Steady, shared);
    let mut root = Draft::new(alloc, SupFlags::default());
    add(rt, &mut root, "db", GuestKind::Steady, shared);
    got(rt, MEMORY, root.add_supervisor("pool", pool));
    root
}

// The number of the supervisor with this path.
fn number_of(rt: &impl Abort, alloc: Global, root: &Draft, path: &str) -> usize {
    match got(rt, MEMORY, root.table_of(alloc, path)) {
        Some(number) => number,
        None => panic!(rt; "no supervisor has this path"),
    }
}

// Waits until the pool has two children that run, and stops the tree.
fn call_pool<R: Wait + Abort>(rt: &R, caller: &Calling, pool: usize, shared: &Shared) {
    let counts = got(rt, "the counts", caller.count_children(rt, pool));
    same(rt, "the children of the pool", counts.specs, 2);
    for _ in 0..u64::MAX {
        if shared.starts() == 3 {
            break;
        }
        thread::yield_now();
    }
    shared.stop.raise();
}

// How many starts the supervisor with this number had, and how many processes are left.
pub fn starts_in(report: &Report<Guest, BoxedSubsystem>, number: usize) -> (Option<u64>, u64) {
    let starts = match report.tables.as_slice().get(number) {
        Some(table) => Some(table.starts()),
        None => None,
    };
    (starts, report.live)
}

fn run_shop<R: Threads + Wait + Clock + Abort + Sync>(rt: &R, alloc: Global, told: &Told) {
    let shared = Shared::new(rt, alloc);
    let root = shop(rt, alloc, &shared);
    let paths = got(rt, MEMORY, root.paths(alloc));
    let pool = number_of(rt, alloc, &root, "pool");
    drop(root);
    let callers = [got(rt, MEMORY, Caller::new(&shared.stop))];
    let (ran, ()) = thread::join(
        rt,
        // Drawn again here: a draft isn't known to be one that may go to another thread, as it has drafts inside.
        || {
            let root = shop(rt, alloc, &shared);
            run_with_callers(rt, alloc, root, 2, &shared.stop, told, &callers)
        },
        || call_pool(rt, &callers[0], pool, &shared),
    );
    let report = got(rt, "the tree was not run", ran);
    same(rt, "the report", starts_in(&report, pool), (Some(2), 0));
    same(
        rt,
        "the place of the pool",
        find_path(paths.as_slice(), "pool"),
        Some(pool),
    );
    drop(report);
    drop(paths);
    drop(callers);
    drop(shared);
}

// A watch is told of each start and each end: of the worker and the pool by the root, of two workers by the pool, and of the root.
#[test]
fn supervisors_are_known_by_their_paths(rt: HostRuntime) {
    let told = Told {
        root: AtomicU64::new(0),
        pool: AtomicU64::new(0),
        itself: AtomicU64::new(0),
    };
    run_shop(&rt, rt.alloc(), &told);
    let counts = (
        told.root.load(Ordering::SeqCst),
        told.pool.load(Ordering::SeqCst),
        told.itself.load(Ordering::SeqCst),
    );
    same(&rt, "what was told of each", counts, (4, 4, 2));
}
