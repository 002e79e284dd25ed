// Run queues on one thread and on two.
ghost use Rattle.std.specs.Prelude.{◌≡◌, ◌<◌, ◌≤◌, ◌^◌, length};
ghost use Rattle.otp_run.specs.Lists.{AllAt};
ghost use Rattle.otp_run.specs.Rule.{all_parts};
ghost use Rattle.otp_run.specs.Schedulers.{out};

use crate::fixtures::{got, same};
use otp_job::bridge::BoxedSubsystem;
use otp_job::{Body, BoxedJob, Process, TableNo};
use otp_run::{
    GatherFault, LiveTotal, RunNaming, RunQueue, SHARE_LIMIT, Scheduler, Share, gather, is_all,
};
use std::alloc::Global;
use std::marker::Brand;
use std::process::Abort;
use std::thread;
use std::thread::Threads;

const MANY: u64 = 1_000;

// What a test says that stops for want of memory.
const MEMORY: &str = "there is memory";

type AnyProcess = Process<BoxedJob, BoxedSubsystem>;

type AnyScheduler<N> = Scheduler<N, BoxedJob, BoxedSubsystem>;

// A process that is told from others by its number alone.
// Where a refused growth was to meet it, there is memory the second time.
fn numbered<R: Abort>(rt: &R, alloc: Global, number: u64) -> AnyProcess {
    match Process::new(alloc, number, 0, 0, Body::Sup(TableNo::new(0))) {
        Ok(process) => process,
        Err(body) => got(rt, MEMORY, Process::new(alloc, number, 0, 0, body)),
    }
}

// Puts a process. Under a refused growth it comes back whole, nothing is counted, and it can be put again.
fn put_one<N: RunNaming, R: Abort>(
    rt: &R,
    alloc: Global,
    scheduler: &mut AnyScheduler<N>,
    number: u64,
)
    ensures { out scheduler.new ≡ out scheduler.old }
{
    let before = scheduler.share();
    if let Err(process) = scheduler.put(numbered(rt, alloc, number)) {
        same(rt, "what came back", process.number(), number);
        same(rt, "the share", scheduler.share(), before);
        got(rt, "there is memory now", scheduler.put(process));
    }
    let begun = scheduler.share().begun;
    same(rt, "how many began", begun, before.begun + 1);
}

fn put_all<N: RunNaming, R: Abort>(
    rt: &R,
    alloc: Global,
    scheduler: &mut AnyScheduler<N>,
    first: u64,
    end: u64,
) {
    for number in first..end {
        put_one(rt, alloc, scheduler, number);
    }
}

// Takes until 100 tries in turn found nothing.
fn take_all<N: RunNaming, R: Abort>(
    rt: &R,
    mut scheduler: AnyScheduler<N>,
    mut taken: Vec<AnyProcess>,
) -> (AnyScheduler<N>, Vec<AnyProcess>) {
    let mut nothing = 0;
    for _ in 0..100_000_000_u64 {
        if nothing >= 100 {
            break;
        }
        match scheduler.next() {
            Some(process) => {
                nothing = 0;
                got(rt, MEMORY, taken.push(process));
            }
            None => nothing += 1,
        }
    }
    (scheduler, taken)
}

fn two_threads<N: RunNaming + Send, R: Threads + Abort + Sync>(
    rt: &R,
    alloc: Global,
    queue: RunQueue<BoxedJob, BoxedSubsystem>,
)
    requires { AllAt (λ k id. id ≡ N.deque k) queue }
{
    let (mut first, second) = two_of(rt, got(rt, MEMORY, queue.named::<N>(alloc)));
    put_all(rt, alloc, &mut first, 0, MANY);
    let (first, second) = take_in_two(rt, alloc, first, second);
    are_all_taken(rt, alloc, first, second);
}

// A scheduler, and what was taken with it.
type Took<N> = (AnyScheduler<N>, Vec<AnyProcess>);

// Each of two threads takes with a scheduler of its own.
fn take_in_two<N: RunNaming + Send, R: Threads + Abort + Sync>(
    rt: &R,
    alloc: Global,
    first: AnyScheduler<N>,
    second: AnyScheduler<N>,
) -> (Took<N>, Took<N>) {
    let (mine, others) = (list(rt, alloc), list(rt, alloc));
    thread::join(
        rt,
        move || take_all(rt, first, mine),
        move || take_all(rt, second, others),
    )
}

// The run queue is taken apart, and each process was seen.
fn are_all_taken<N: RunNaming, R: Abort>(rt: &R, alloc: Global, first: Took<N>, second: Took<N>) {
    let ((first, mine), (second, others)) = (first, second);
    let schedulers = both(rt, alloc, first, second);
    let total = gather_all(rt, alloc, schedulers);
    are_all_seen(rt, alloc, total, mine, others);
}

// The last of these schedulers.
fn last_of<N: RunNaming>(
    rt: &impl Abort,
    schedulers: &mut Vec<AnyScheduler<N>>,
) -> AnyScheduler<N> {
    match schedulers.pop() {
        Some(scheduler) => scheduler,
        None => panic!(rt; "a scheduler"),
    }
}

// The two schedulers of a run queue, the first one first.
fn two_of<N: RunNaming>(
    rt: &impl Abort,
    schedulers: Vec<AnyScheduler<N>>,
) -> (AnyScheduler<N>, AnyScheduler<N>) {
    let mut schedulers = schedulers;
    let second = last_of(rt, &mut schedulers);
    let first = last_of(rt, &mut schedulers);
    drop(schedulers);
    (first, second)
}

// All schedulers of a run queue of two.
fn both<N: RunNaming>(
    rt: &impl Abort,
    alloc: Global,
    first: AnyScheduler<N>,
    second: AnyScheduler<N>,
) -> Vec<AnyScheduler<N>> {
    with_one_more(rt, with_one_more(rt, Vec::new(alloc), first), second)
}

// A list with room for all processes.
fn list(rt: &impl Abort, alloc: Global) -> Vec<AnyProcess> {
    got(rt, MEMORY, Vec::with_capacity(alloc, 2_000))
}

// Each process that was put was taken by one of the two threads, or is left.
fn are_all_seen<R: Abort>(
    rt: &R,
    alloc: Global,
    total: LiveTotal<BoxedJob, BoxedSubsystem>,
    mine: Vec<AnyProcess>,
    others: Vec<AnyProcess>,
) {
    let LiveTotal {
        live,
        begun,
        ended,
        left,
    } = total;
    same(rt, "the total", (live, begun, ended), (MANY, MANY, 0));
    let mut seen = got(rt, MEMORY, Vec::from_elem(alloc, false, MANY as usize));
    see(rt, &mut seen, mine);
    see(rt, &mut seen, others);
    see(rt, &mut seen, left);
    assert!(rt; seen.iter().all(|&once| once));
}

// Marks the numbers of processes, which nobody saw before.
fn see<R: Abort>(rt: &R, seen: &mut Vec<bool>, processes: Vec<AnyProcess>) {
    for process in processes {
        let number = process.number() as usize;
        assert!(rt; number < seen.len());
        assert!(rt; !seen[number], "{number} twice");
        seen[number] = true;
    }
}

#[test]
fn two_threads_take_each_process_once(rt: HostRuntime) {
    let queue = opened(&rt, rt.alloc(), 2);
    two_threads::<Brand, _>(&rt, rt.alloc(), queue);
}

// A run queue of so many schedulers.
fn opened(rt: &impl Abort, alloc: Global, count: usize) -> RunQueue<BoxedJob, BoxedSubsystem>
    requires some { 0 < count }
    requires few { count ≤ all_parts }
{
    got(rt, MEMORY, RunQueue::open(alloc, count))
}

// The number of a process that was found.
fn number_of(found: Option<AnyProcess>) -> Option<u64> {
    found.map(|process| process.number())
}

// What is done to a scheduler of a run queue, and seen of it.
#[derive(Clone, Copy)]
enum Act {
    // It has its place among so many.
    IsOf(usize),
    // It gets a process of this number.
    Put(u64),
    // It finds this one, its own first.
    Next(Option<u64>),
    // It finds this one of its own.
    Own(Option<u64>),
}

fn acts<N: RunNaming, R: Abort>(
    rt: &R,
    alloc: Global,
    scheduler: &mut AnyScheduler<N>,
    place: usize,
    act: Act,
) {
    match act {
        Act::IsOf(count) => {
            let found = (scheduler.index(), scheduler.count());
            same(rt, "its place", found, (place, count));
        }
        Act::Put(number) => put_one(rt, alloc, scheduler, number),
        Act::Next(wanted) => {
            let found = number_of(scheduler.next());
            same(rt, "what was found", found, wanted);
        }
        Act::Own(wanted) => {
            let found = number_of(scheduler.next_own());
            same(rt, "what was found of its own", found, wanted);
        }
    }
}

// All is done to the schedulers at these places, one thing after the other. They are all of the run queue.
fn acts_in<N: RunNaming, R: Abort>(
    rt: &R,
    alloc: Global,
    queue: RunQueue<BoxedJob, BoxedSubsystem>,
    rows: &[(usize, Act)],
)
    requires { AllAt (λ k id. id ≡ N.deque k) queue }
{
    let mut schedulers = got(rt, MEMORY, queue.named::<N>(alloc));
    for row in rows {
        let (place, act) = *row;
        assert!(rt; place < schedulers.len());
        acts(rt, alloc, &mut schedulers[place], place, act);
    }
    assert!(rt; is_all(schedulers.as_slice()));
    drop(schedulers);
}

// All is done in a new run queue of so many schedulers.
fn plays<R: Abort>(rt: &R, alloc: Global, count: usize, rows: &[(usize, Act)])
    requires some { 0 < count }
    requires few { count ≤ all_parts }
{
    let queue = opened(rt, alloc, count);
    acts_in::<Brand, _>(rt, alloc, queue, rows);
}

const OWN_ALONE: [(usize, Act); 8] = [
    (0, Act::IsOf(2)),
    (1, Act::IsOf(2)),
    (0, Act::Put(0)),
    (0, Act::Put(1)),
    (1, Act::Own(None)),
    (0, Act::Own(Some(0))),
    (0, Act::Own(Some(1))),
    (0, Act::Own(None)),
];

// Scheduler 2 takes its own first, then steals of 3, 0 and 1.
const THEFTS: [(usize, Act); 21] = [
    (0, Act::IsOf(4)),
    (0, Act::Put(0)),
    (0, Act::Put(1)),
    (1, Act::IsOf(4)),
    (1, Act::Put(10)),
    (1, Act::Put(11)),
    (2, Act::IsOf(4)),
    (2, Act::Put(20)),
    (2, Act::Put(21)),
    (3, Act::IsOf(4)),
    (3, Act::Put(30)),
    (3, Act::Put(31)),
    (2, Act::Next(Some(20))),
    (2, Act::Next(Some(21))),
    (2, Act::Next(Some(30))),
    (2, Act::Next(Some(31))),
    (2, Act::Next(Some(0))),
    (2, Act::Next(Some(1))),
    (2, Act::Next(Some(10))),
    (2, Act::Next(Some(11))),
    (2, Act::Next(None)),
];

#[test]
fn next_own_leaves_the_others_alone(rt: HostRuntime) {
    plays(&rt, rt.alloc(), 2, &OWN_ALONE);
}

#[test]
fn next_tries_the_others_in_rising_order(rt: HostRuntime) {
    plays(&rt, rt.alloc(), 4, &THEFTS);
}

// Gives a process back. Under a refused growth it comes back whole, is still out, and can be given back again.
fn give_back<N: RunNaming, R: Abort>(rt: &R, scheduler: &mut AnyScheduler<N>, process: AnyProcess)
    requires { 0 < out scheduler.old }
{
    let (number, before) = (process.number(), scheduler.share());
    if let Err(process) = scheduler.give_back(process) {
        same(rt, "what came back", process.number(), number);
        same(rt, "the share", scheduler.share(), before);
        got(rt, "there is memory now", scheduler.give_back(process));
    }
    same(rt, "the share at the end", scheduler.share(), before);
}

// Of `rt try --test --fail-alloc N`: 1 to 5 refuse the opening, which the test then tells. Then come the boxes of 300
// processes, with the growths of the deque among them: in a `put`, and in a `give_back`, since one process is out while
// the deque is full. The last refuse the memory of `gather`.
fn grow<N: RunNaming, R: Abort>(rt: &R, alloc: Global, queue: RunQueue<BoxedJob, BoxedSubsystem>)
    requires { AllAt (λ k id. id ≡ N.deque k) queue }
{
    let mut schedulers = got(rt, MEMORY, queue.named::<N>(alloc));
    let mut only = last_of(rt, &mut schedulers);
    for round in 0..150 {
        put_one(rt, alloc, &mut only, 2 * round);
        if let Some(process) = only.next() {
            put_one(rt, alloc, &mut only, 2 * round + 1);
            give_back(rt, &mut only, process);
        }
    }
    let schedulers = with_one_more(rt, schedulers, only);
    let total = gather_all(rt, alloc, schedulers);
    is_left(rt, total, 300);
}

// The schedulers, and one behind them.
fn with_one_more<N: RunNaming>(
    rt: &impl Abort,
    schedulers: Vec<AnyScheduler<N>>,
    last: AnyScheduler<N>,
) -> Vec<AnyScheduler<N>> {
    let mut schedulers = schedulers;
    got(rt, MEMORY, schedulers.push(last));
    schedulers
}

// So many processes are live, and left in the deques.
fn is_left<R: Abort>(rt: &R, total: LiveTotal<BoxedJob, BoxedSubsystem>, live: u64) {
    let found = (total.live, total.left.len() as u64);
    drop(total);
    same(rt, "what is live and left", found, (live, live));
}

// Under a refused growth all schedulers come back, and the run queue can be taken apart again.
fn gather_all<N: RunNaming, R: Abort>(
    rt: &R,
    alloc: Global,
    schedulers: Vec<AnyScheduler<N>>,
) -> LiveTotal<BoxedJob, BoxedSubsystem> {
    let count = schedulers.len();
    let back = match gather(alloc, schedulers) {
        Ok(total) => return total,
        Err(GatherFault::OutOfMemory(back)) => back,
        Err(_) => panic!(rt; "all schedulers are here"),
    };
    same(rt, "how many came back", back.len(), count);
    got(rt, MEMORY, gather(alloc, back))
}

#[test]
fn nothing_is_lost_where_growth_is_refused(rt: HostRuntime) {
    let queue = opened(&rt, rt.alloc(), 1);
    grow::<Brand, _>(&rt, rt.alloc(), queue);
}

// A process that was found ends, and a scheduler that is away is missed.
fn end_and_gather<N: RunNaming, R: Abort>(
    rt: &R,
    alloc: Global,
    queue: RunQueue<BoxedJob, BoxedSubsystem>,
)
    requires { AllAt (λ k id. id ≡ N.deque k) queue }
{
    let (mut first, away) = two_of(rt, got(rt, MEMORY, queue.named::<N>(alloc)));
    put_all(rt, alloc, &mut first, 0, 2);
    end_one(rt, &mut first);
    let alone = with_one_more(rt, Vec::new(alloc), first);
    let schedulers = with_one_more(rt, is_missed(rt, alloc, alone), away);
    let total = gather_all(rt, alloc, schedulers);
    is_left(rt, total, 1);
}

// One of its two processes is found, and ends.
fn end_one<N: RunNaming, R: Abort>(rt: &R, scheduler: &mut AnyScheduler<N>) {
    assert!(rt; scheduler.share().ended < SHARE_LIMIT);
    let Some(mut process) = scheduler.next() else {
        panic!(rt; "two were put");
    };
    assert!(rt; process.take_table().is_some());
    scheduler.finish(got(rt, "its table is gone", process.retire()));
    let wanted = Share { begun: 2, ended: 1 };
    same(rt, "the share", scheduler.share(), wanted);
}

// The run queue isn't taken apart with this scheduler alone, which comes back.
fn is_missed<N: RunNaming, R: Abort>(
    rt: &R,
    alloc: Global,
    alone: Vec<AnyScheduler<N>>,
) -> Vec<AnyScheduler<N>> {
    let back = match gather(alloc, alone) {
        Err(GatherFault::Missing(schedulers)) => schedulers,
        _ => panic!(rt; "one is away"),
    };
    same(rt, "how many came back", back.len(), 1);
    back
}

#[test]
fn missing_scheduler_is_told_and_an_end_is_counted(rt: HostRuntime) {
    let queue = opened(&rt, rt.alloc(), 2);
    end_and_gather::<Brand, _>(&rt, rt.alloc(), queue);
}
