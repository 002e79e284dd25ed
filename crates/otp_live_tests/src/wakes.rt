// Jobs that wait are woken by other threads.
ghost use Rattle.std.specs.Prelude.{◌≡◌, true, length};

use crate::guests::{GuestKind, MEMORY, Shared, flags, got, named, same, tree, unwatched};
use otp_job::bridge::BoxedSubsystem;
use otp_job::{Job, Place, Told, Turn};
use otp_live::{Mailbox, StopFlag, Unwatched, run};
use otp_reason::{Reason, Started};
use otp_spec::{MAX_TABLES, SupFlags};
use otp_tree::{TableDraft, TablePlan};
use std::alloc::Global;
use std::process::Abort;
use std::sync::atomic::{AtomicU64, Ordering};
use std::sync::{Arc, Wait};
use std::thread;
use std::thread::Threads;
use std::time::Clock;

// How often each of four threads gives something, wakes the job, and waits until that has seen it.
const WAKES: u64 = 2_500;

// Once the job can be woken: gives and wakes, so often.
fn wake_often(shared: &Shared) {
    for _ in 0..u64::MAX {
        if shared.waker.get().is_some() {
            break;
        }
        thread::yield_now();
    }
    let Some(waker) = shared.waker.get() else {
        return;
    };
    for _ in 0..WAKES {
        let ticket = shared.given.fetch_add(1, Ordering::SeqCst);
        waker.wake();
        wait_until_seen(shared, ticket);
    }
}

// Waits until the job has had a turn in which it saw more than so much.
fn wait_until_seen(shared: &Shared, ticket: u64) {
    for _ in 0..u64::MAX {
        if shared.seen.load(Ordering::SeqCst) > ticket {
            return;
        }
        thread::yield_now();
    }
}

// Four threads do that.
fn wake_from_four<R: Threads + Abort + Sync>(rt: &R, alloc: Global, shared: &Shared) {
    let done = thread::map_indices(rt, alloc, 4, &|_| wake_often(shared));
    drop(got(rt, MEMORY, done));
}

// The job stops the tree once it has seen all that was given: were one of the 10,000 wakes lost, all would wait for ever.
fn wake_all<R: Threads + Wait + Clock + Abort + Sync>(rt: &R, alloc: Global, hands: usize) {
    let shared = Shared::new(rt, alloc);
    let kinds = [GuestKind::Steady, GuestKind::Counts(4 * WAKES)];
    let plans = tree(rt, alloc, &kinds, &[GuestKind::Steady], &shared, flags(1));
    let (seen, ()) = thread::join(
        rt,
        || unwatched(rt, alloc, plans, hands, &shared.stop),
        || wake_from_four(rt, alloc, &shared),
    );
    drop(shared);
    same(rt, "the processes that are left", seen.live, 0);
}

#[test]
fn no_wake_of_four_threads_is_lost(rt: HostRuntime) {
    wake_all(&rt, rt.alloc(), 1);
    wake_all(&rt, rt.alloc(), 4);
}

// Adds up what is posted into its mailbox, and stops the tree once so many posts came.
#[derive(Drop)]
struct Reader<R: Drop> {
    rt: R,
    posts: Arc<Mailbox<u64>>,
    sum: Arc<AtomicU64>,
    left: u64,
    stop: StopFlag,
}

impl<R: Wait + Drop> Reader<R> {
    // Takes all that is there.
    fn read_all(&mut self) {
        for _ in 0..u64::MAX {
            let Some(post) = self.posts.take(&self.rt) else {
                return;
            };
            self.sum.fetch_add(post, Ordering::SeqCst);
            self.left = self.left.saturating_sub(1);
        }
    }
}

impl<R: Wait + Send + Drop> Job for Reader<R> {
    ghost is_trapping = { λ _. true };

    fn traps(&self) -> bool {
        true
    }

    fn start(&mut self, _number: u64) -> Started {
        Started::Up
    }

    fn begin(&mut self, place: &Place<'_>) -> Started {
        match self.posts.belongs_to(&self.rt, place) {
            Ok(()) => Started::Up,
            Err(_) => Started::Fail(Reason::NoProc),
        }
    }

    fn turn(&mut self, told: Told) -> Turn {
        if told == Told::Shutdown {
            return Turn::End(Reason::Shutdown);
        }
        self.read_all();
        if self.left == 0 {
            self.stop.raise();
        }
        Turn::Wait
    }
}

type ReaderPlan<R> = TablePlan<Reader<R>, BoxedSubsystem>;

// A tree of one reader.
fn reader_tree<R: Wait + Send + Drop>(
    rt: &impl Abort,
    alloc: Global,
    reader: Reader<R>,
) -> Vec<ReaderPlan<R>>
    ensures { length result.items ≡ 1 }
{
    let mut root = TableDraft::new(alloc);
    got(rt, MEMORY, root.add_worker(named(rt, b"reader"), reader));
    let plan = got(rt, "a lawful plan", root.plan(SupFlags::default()));
    let Ok(mut plans) = Vec::with_capacity(alloc, 1) else {
        panic!(rt; "there is memory");
    };
    plans.push_reserved(plan);
    plans
}

// Runs readers until they have ended.
fn run_readers<R>(rt: &R, alloc: Global, plans: Vec<ReaderPlan<R>>, stop: &StopFlag)
where
    R: Threads + Wait + Clock + Abort + Send + Sync + Drop,
{
    assert!(rt; plans.len() <= MAX_TABLES);
    let ran = run(rt, alloc, plans, 2, stop, &Unwatched);
    drop(got(rt, "the readers weren't run", ran));
}

// Waits until so much was added up.
fn wait_until_added(sum: &AtomicU64, wanted: u64) {
    for _ in 0..u64::MAX {
        if sum.load(Ordering::SeqCst) >= wanted {
            return;
        }
        thread::yield_now();
    }
}

// Posts the numbers below it, each hundred once those before were taken: the job waits then, or soon.
fn post_all<R: Wait + Abort>(rt: &R, posts: &Mailbox<u64>, sum: &AtomicU64, count: u64) {
    let mut posted: u64 = 0;
    for number in 0..count {
        if number % 100 == 0 {
            wait_until_added(sum, posted);
        }
        assert!(rt; posts.post(rt, number).is_ok());
        posted = posted.saturating_add(number);
    }
}

// How many numbers are posted.
const POSTS: u64 = 1_000;

// What the reader and the test share.
#[derive(Drop)]
struct Shelf {
    posts: Arc<Mailbox<u64>>,
    sum: Arc<AtomicU64>,
    stop: StopFlag,
}

fn make_shelf(rt: &impl Abort, alloc: Global) -> Shelf {
    let mailbox = got(rt, MEMORY, Mailbox::new(alloc));
    Shelf {
        posts: got(rt, MEMORY, Arc::new(alloc, mailbox)),
        sum: got(rt, MEMORY, Arc::new(alloc, AtomicU64::new(0))),
        stop: got(rt, MEMORY, StopFlag::new(alloc)),
    }
}

// Another handle on what the reader and the test share.
fn share(rt: &impl Abort, shelf: &Shelf) -> Shelf {
    Shelf {
        posts: got(rt, MEMORY, Arc::try_clone(&shelf.posts)),
        sum: got(rt, MEMORY, Arc::try_clone(&shelf.sum)),
        stop: got(rt, MEMORY, shelf.stop.try_clone()),
    }
}

// A job waits for what another thread posts into its mailbox.
#[test]
fn a_mailbox_wakes_its_job(rt: HostRuntime) {
    let shelf = make_shelf(&rt, rt.alloc());
    let Shelf { posts, sum, stop } = share(&rt, &shelf);
    let reader = Reader {
        rt,
        posts,
        sum,
        left: POSTS,
        stop,
    };
    let plans = reader_tree(&rt, rt.alloc(), reader);
    let ((), ()) = thread::join(
        &rt,
        || run_readers(&rt, rt.alloc(), plans, &shelf.stop),
        || post_all(&rt, &shelf.posts, &shelf.sum, POSTS),
    );
    same(&rt, "the sum", shelf.sum.load(Ordering::SeqCst), 499_500);
    drop(shelf);
}

// What was posted comes once each, the first first.
#[test]
fn a_mailbox_gives_what_was_posted_in_its_order(rt: HostRuntime) {
    let posts = got(&rt, MEMORY, Mailbox::new(rt.alloc()));
    same(&rt, "what was there before", posts.take(&rt), None);
    for number in 0..3u64 {
        assert!(rt; posts.post(&rt, number).is_ok());
    }
    for number in 0..3 {
        same(&rt, "what was posted", posts.take(&rt), Some(number));
    }
    same(&rt, "what is left", posts.take(&rt), None);
    drop(posts);
}
