// Trees that run until they have ended by themselves, or were stopped.
use crate::guests::{GuestKind, Outcome, Shared, flags, run_watched, same, tree, unwatched};
use otp_live::{Happening, Seen, Watch};
use otp_reason::Reason;
use std::alloc::Global;
use std::process::Abort;
use std::sync::atomic::{AtomicU64, Ordering};
use std::sync::{Arc, Wait};
use std::thread;
use std::thread::Threads;
use std::time::Clock;

// A tree of steady workers that is stopped before it runs: it is opened, and shut down.
fn stop_before<R: Threads + Wait + Clock + Abort + Sync>(rt: &R, alloc: Global, hands: usize) {
    let shared = Shared::new(rt, alloc);
    shared.stop.raise();
    let kinds = [GuestKind::Steady, GuestKind::Busy];
    all_ended(rt, lives(rt, alloc, &kinds, &kinds, &shared, 1, hands));
    drop(shared);
}

// Runs a tree of a root of such jobs, and of a supervisor of such others; so many restarts are allowed, and there are so many
// threads.
fn lives<R: Threads + Wait + Clock + Abort + Sync>(
    rt: &R,
    alloc: Global,
    kinds: &[GuestKind],
    below: &[GuestKind],
    shared: &Arc<Shared>,
    intensity: u64,
    hands: usize,
) -> Outcome {
    let plans = tree(rt, alloc, kinds, below, shared, flags(intensity));
    unwatched(rt, alloc, plans, hands, &shared.stop)
}

// No process is left, and both supervisors have ended.
fn all_ended(rt: &impl Abort, seen: Outcome) {
    same(rt, "the processes that are left", seen.live, 0);
    same(rt, "the supervisors that have ended", seen.ended, 2);
}

#[test]
fn a_stop_raised_before_is_seen(rt: HostRuntime) {
    stop_before(&rt, rt.alloc(), 1);
    stop_before(&rt, rt.alloc(), 4);
}

// Waits until so many jobs were started, and raises the stop.
fn stop_after(shared: &Shared, starts: u64) {
    for _ in 0..u64::MAX {
        if shared.starts() >= starts {
            break;
        }
        thread::yield_now();
    }
    shared.stop.raise();
}

// A tree of four such jobs in each supervisor, which another thread stops while all its threads may sleep.
fn stop_beside<R: Threads + Wait + Clock + Abort + Sync>(
    rt: &R,
    alloc: Global,
    kinds: &[GuestKind; 4],
    hands: usize,
) {
    let shared = Shared::new(rt, alloc);
    let (seen, ()) = thread::join(
        rt,
        || lives(rt, alloc, kinds, kinds, &shared, 1, hands),
        || stop_after(&shared, 8),
    );
    drop(shared);
    all_ended(rt, seen);
    same(rt, "the processes that began", seen.begun, 10);
}

// Beside busy jobs the steady ones begin in several hands, and are stopped there. They have all the time of the world: were one signal
// not heard in another hand, the stop would wait for ever.
#[test]
fn another_thread_stops_a_tree(rt: HostRuntime) {
    let steady = [GuestKind::Steady; 4];
    let mixed = [
        GuestKind::Busy,
        GuestKind::Steady,
        GuestKind::Busy,
        GuestKind::Steady,
    ];
    for _ in 0..20 {
        stop_beside(&rt, rt.alloc(), &steady, 1);
        stop_beside(&rt, rt.alloc(), &steady, 3);
        stop_beside(&rt, rt.alloc(), &mixed, 3);
    }
}

// A child that doesn't heed the shutdown is killed at its deadline, though every thread sleeps until then.
#[test]
fn a_deadline_wakes_a_tree(rt: HostRuntime) {
    for hands in [1, 4] {
        let shared = Shared::new(&rt, rt.alloc());
        let kinds = [GuestKind::Deaf, GuestKind::Stops(2)];
        let seen = lives(&rt, rt.alloc(), &kinds, &[], &shared, 1, hands);
        drop(shared);
        all_ended(&rt, seen);
    }
}

// A tree that gives up ends by itself.
#[test]
fn a_tree_ends_by_itself(rt: HostRuntime) {
    for hands in [1, 4] {
        let shared = Shared::new(&rt, rt.alloc());
        let kinds = [GuestKind::Steady, GuestKind::Crashes(u64::MAX)];
        let root = [GuestKind::Steady];
        let seen = lives(&rt, rt.alloc(), &root, &kinds, &shared, 3, hands);
        assert!(rt; !shared.stop.is_raised());
        drop(shared);
        all_ended(&rt, seen);
    }
}

// Under `.ci/refused-growths --pauses` a hundred allocations in a row are refused: the one hand pauses after every few of them, and all
// comes to the same end.
#[test]
fn a_hand_that_is_refused_memory_pauses(rt: HostRuntime) {
    let shared = Shared::new(&rt, rt.alloc());
    let below = [GuestKind::Crashes(u64::MAX)];
    let seen = lives(&rt, rt.alloc(), &[], &below, &shared, 3, 1);
    drop(shared);
    all_ended(&rt, seen);
}

// Crashes and restarts in one supervisor until its jobs were started 50 times; then a job of the other stops the tree.
#[test]
fn a_tree_restarts_until_it_is_stopped(rt: HostRuntime) {
    for hands in [1, 2, 4, 8] {
        let shared = Shared::new(&rt, rt.alloc());
        let kinds = [GuestKind::Crashes(50), GuestKind::Stops(50)];
        let root = [GuestKind::Busy];
        let seen = lives(&rt, rt.alloc(), &root, &kinds, &shared, 1000, hands);
        drop(shared);
        all_ended(&rt, seen);
    }
}

// Counts what it is told.
#[derive(Drop)]
struct Counting {
    started: AtomicU64,
    restarted: AtomicU64,
    named: AtomicU64,
    exited: AtomicU64,
    stopped: AtomicU64,
    gave_up: AtomicU64,
    of_root: AtomicU64,
}

impl Counting {
    fn new() -> Self {
        Counting {
            started: AtomicU64::new(0),
            restarted: AtomicU64::new(0),
            named: AtomicU64::new(0),
            exited: AtomicU64::new(0),
            stopped: AtomicU64::new(0),
            gave_up: AtomicU64::new(0),
            of_root: AtomicU64::new(0),
        }
    }
}

impl Watch for Counting {
    fn saw(&self, seen: Seen) {
        match seen.what {
            Happening::Started(_) => self.started.fetch_add(1, Ordering::SeqCst),
            Happening::Restarted(_) => self.restarted.fetch_add(1, Ordering::SeqCst),
            Happening::Exited(..) => self.exited.fetch_add(1, Ordering::SeqCst),
            Happening::Stopped(_) => self.stopped.fetch_add(1, Ordering::SeqCst),
            Happening::GaveUp(_, flags) => self
                .gave_up
                .fetch_add(flags.intensity, Ordering::SeqCst),
            Happening::Ignored(_) | Happening::Failed(..) | Happening::ShutDown(..) => 0,
        };
        if seen.table == 2 {
            self.of_root.fetch_add(1, Ordering::SeqCst);
        }
        if seen.id.is_some() {
            self.named.fetch_add(1, Ordering::SeqCst);
        }
    }
}

// A watch is told of each start and each end: of four jobs, the supervisor below, and the root.
#[test]
fn a_watch_is_told(rt: HostRuntime) {
    let shared = Shared::new(&rt, rt.alloc());
    let counting = Counting::new();
    let kinds = [GuestKind::Steady, GuestKind::Stops(4)];
    let plans = tree(&rt, rt.alloc(), &kinds, &kinds, &shared, flags(1));
    let seen = run_watched(&rt, rt.alloc(), plans, 2, &shared.stop, &counting);
    drop(shared);
    same(&rt, "the processes that are left", seen.live, 0);
    is_told(&rt, "the starts", &counting.started, 6);
    is_told(&rt, "the ends of jobs", &counting.exited, 4);
    is_told(&rt, "the stops of supervisors", &counting.stopped, 2);
    is_told(&rt, "the restarts", &counting.restarted, 0);
    is_told(&rt, "what was told of the root", &counting.of_root, 2);
    is_told(&rt, "what was told with an id", &counting.named, 10);
}

// Where a supervisor gives up its flags are told: of one below the root that is started again twice, and of the root.
#[test]
fn a_watch_is_told_who_gave_up(rt: HostRuntime) {
    let shared = Shared::new(&rt, rt.alloc());
    let counting = Counting::new();
    let below = [GuestKind::Crashes(u64::MAX)];
    let plans = tree(&rt, rt.alloc(), &[], &below, &shared, flags(2));
    let seen = run_watched(&rt, rt.alloc(), plans, 2, &shared.stop, &counting);
    drop(shared);
    same(&rt, "the processes that are left", seen.live, 0);
    is_told(&rt, "the stops of supervisors", &counting.stopped, 0);
    is_told(&rt, "what was borne by the four", &counting.gave_up, 8);
    is_told(&rt, "the crashes", &counting.exited, 9);
    // At each opening of the one below its child starts, and so does the root; the rest are restarts.
    is_told(&rt, "the starts", &counting.started, 5);
    is_told(&rt, "the restarts", &counting.restarted, 8);
}

// Notes when it is told that a process was killed.
#[derive(Drop)]
struct Timing {
    killed: AtomicU64,
}

impl Watch for Timing {
    fn saw(&self, seen: Seen) {
        if let Happening::Exited(_, Reason::Killed) = seen.what {
            self.killed.store(seen.at, Ordering::SeqCst);
        }
    }
}

// A watch is told when something happens: a child that doesn't heed the shutdown is killed 20 ms after it, and so into the run.
#[test]
fn a_watch_is_told_when(rt: HostRuntime) {
    let shared = Shared::new(&rt, rt.alloc());
    let timing = Timing {
        killed: AtomicU64::new(0),
    };
    let kinds = [GuestKind::Deaf, GuestKind::Stops(2)];
    let plans = tree(&rt, rt.alloc(), &kinds, &[], &shared, flags(1));
    let seen = run_watched(&rt, rt.alloc(), plans, 2, &shared.stop, &timing);
    drop(shared);
    same(&rt, "the processes that are left", seen.live, 0);
    let killed = timing.killed.load(Ordering::SeqCst);
    assert!(rt; killed >= 20 && killed < 60_000);
}

fn is_told(rt: &impl Abort, what: &str, told: &AtomicU64, wanted: u64) {
    same(rt, what, told.load(Ordering::SeqCst), wanted);
}
