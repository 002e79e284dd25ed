//! The jobs of the tests' trees, and the trees.
ghost use Rattle.std.specs.Prelude.{◌≡◌, ◌<◌, ◌≤◌, true, length, Ok};
ghost use Rattle.otp_run.specs.Rule.{all_parts};
ghost use Rattle.otp_spec.specs.declared.limits.TheConstants.{MAX_TABLES};

use otp_job::bridge::BoxedSubsystem;
use otp_job::{Body, Job, Place, Told, Turn};
use otp_live::{StopFlag, Unwatched, Waker, Watch, run};
use otp_reason::{Name, Reason, Started, Text};
use otp_spec::{ChildSpec, MAX_TABLES, Shutdown, SupFlags};
use otp_tree::{MAX_HANDS, Report, TableDraft, TablePlan};
use std::alloc::Global;
use std::fmt::Debug;
use std::process::Abort;
use std::sync::atomic::{AtomicU64, Ordering};
use std::sync::{Arc, OnceLock, Wait};
use std::thread::Threads;
use std::time::Clock;

/// What a job does.
#[derive(Clone, Copy, Debug, PartialEq, Eq)]
pub enum GuestKind {
    /// Waits until it is asked to shut down.
    Steady,
    /// Waits, and doesn't heed it: only a kill ends it.
    Deaf,
    /// Crashes in its first turn, until the jobs of the tree were started so often.
    Crashes(u64),
    /// Waits until so much was given, and raises the stop then.
    Counts(u64),
    /// Works on until the jobs of the tree were started so often, and raises the stop then.
    Stops(u64),
    /// Works on, and heeds it.
    Busy,
    /// Works on until two such jobs have a turn at the same time, or until so many turns were made, and raises the stop then.
    Meets(u64),
}

/// What the jobs of a tree and its test share.
#[derive(Drop)]
pub struct Shared {
    pub starts: AtomicU64,
    pub given: AtomicU64,
    pub seen: AtomicU64,
    /// How many jobs that meet have a turn right now, and whether two did at the same time.
    pub inside: AtomicU64,
    pub met: AtomicU64,
    pub waker: OnceLock<Waker>,
    pub stop: StopFlag,
}

impl Shared {
    pub fn new(rt: &impl Abort, alloc: Global) -> Arc<Shared> {
        let shared = Shared {
            starts: AtomicU64::new(0),
            given: AtomicU64::new(0),
            seen: AtomicU64::new(0),
            inside: AtomicU64::new(0),
            met: AtomicU64::new(0),
            waker: OnceLock::new(),
            stop: got(rt, MEMORY, StopFlag::new(alloc)),
        };
        got(rt, MEMORY, Arc::new(alloc, shared))
    }

    pub fn starts(&self) -> u64 {
        self.starts.load(Ordering::SeqCst)
    }
}

/// So often a job that meets looks in each turn for another that has one.
const LOOKS: u32 = 10_000;

/// A job of a test.
#[derive(Drop)]
pub struct Guest {
    kind: GuestKind,
    shared: Arc<Shared>,
    crash: Text,
}

impl Guest {
    /// Works on until there were so many starts. Then it raises the stop, and waits.
    fn work_until(&self, starts: u64) -> Turn {
        if self.shared.starts() < starts {
            return Turn::Again;
        }
        self.shared.stop.raise();
        Turn::Wait
    }

    /// Raises the stop where something has come so far, and waits on. So far it has seen it.
    fn wait_for(&self, given: &AtomicU64, goal: u64) -> Turn {
        let seen = given.load(Ordering::SeqCst);
        self.shared.seen.store(seen, Ordering::SeqCst);
        if seen >= goal {
            self.shared.stop.raise();
        }
        Turn::Wait
    }

    /// Stays in this turn for a while, until another job has one too. One thread that gave both their turns, one after the other, would
    /// come to an end as well, and they would not meet.
    fn meet(&self, turns: u64) -> Turn {
        let shared = &self.shared;
        if shared.inside.fetch_add(1, Ordering::SeqCst) > 0 {
            shared.met.store(1, Ordering::SeqCst);
        }
        for _ in 0..LOOKS {
            if shared.met.load(Ordering::SeqCst) != 0 {
                break;
            }
        }
        shared.inside.fetch_sub(1, Ordering::SeqCst);
        let made = shared.given.fetch_add(1, Ordering::SeqCst);
        if made < turns && shared.met.load(Ordering::SeqCst) == 0 {
            return Turn::Again;
        }
        shared.stop.raise();
        Turn::Wait
    }
}

impl Job for Guest {
    ghost is_trapping = { λ _. true };

    fn traps(&self) -> bool {
        true
    }

    fn start(&mut self, _number: u64) -> Started {
        self.shared.starts.fetch_add(1, Ordering::SeqCst);
        Started::Up
    }

    fn begin(&mut self, place: &Place<'_>) -> Started {
        if let GuestKind::Counts(_) = self.kind {
            if let Ok(waker) = place.waker() {
                let _taken = self.shared.waker.try_set(waker).is_ok();
            }
        }
        self.start(place.number)
    }

    fn turn(&mut self, told: Told) -> Turn {
        if told == Told::Shutdown && self.kind != GuestKind::Deaf {
            return Turn::End(Reason::Shutdown);
        }
        match self.kind {
            GuestKind::Steady | GuestKind::Deaf => Turn::Wait,
            GuestKind::Crashes(starts) if self.shared.starts() < starts => {
                Turn::End(Reason::Error(self.crash))
            }
            GuestKind::Crashes(_) => Turn::Wait,
            GuestKind::Counts(goal) => self.wait_for(&self.shared.given, goal),
            GuestKind::Stops(goal) => self.work_until(goal),
            GuestKind::Busy => Turn::Again,
            GuestKind::Meets(turns) => self.meet(turns),
        }
    }
}

pub type GuestPlan = TablePlan<Guest, BoxedSubsystem>;

/// Such a job.
pub fn make_guest(rt: &impl Abort, kind: GuestKind, shared: &Arc<Shared>) -> Guest {
    Guest {
        kind,
        shared: got(rt, MEMORY, Arc::try_clone(shared)),
        crash: Text::joined(b"crash", b""),
    }
}

/// A name that the test knows to be short enough.
pub fn named(rt: &impl Abort, name: &[u8]) -> Name {
    match Name::new(name) {
        Some(name) => name,
        None => panic!(rt; "a name"),
    }
}

/// The names of up to eight children.
const NAMES: [&[u8]; 8] = [b"a", b"b", b"c", b"d", b"e", b"f", b"g", b"h"];

fn add(
    rt: &impl Abort,
    draft: &mut TableDraft<Guest, BoxedSubsystem>,
    name: &[u8],
    kind: GuestKind,
    shared: &Arc<Shared>,
) {
    let id = named(rt, name);
    let mut spec = ChildSpec::new(id, id);
    match kind {
        GuestKind::Deaf => spec.shutdown = Shutdown::Milliseconds(20),
        GuestKind::Steady => spec.shutdown = Shutdown::Infinity,
        _ => {}
    }
    let job = make_guest(rt, kind, shared);
    got(rt, MEMORY, draft.add(spec, Body::Worker(job)));
}

/// The plan of a supervisor of such jobs, and of the supervisors with these numbers before them.
fn make_plan(
    rt: &impl Abort,
    alloc: Global,
    below: &[usize],
    kinds: &[GuestKind],
    shared: &Arc<Shared>,
    flags: SupFlags,
) -> GuestPlan {
    let mut draft = TableDraft::new(alloc);
    for table in below {
        got(rt, MEMORY, draft.add_supervisor(named(rt, b"sub"), *table));
    }
    for (name, kind) in NAMES.iter().zip(kinds) {
        add(rt, &mut draft, name, *kind, shared);
    }
    got(rt, "a lawful plan", draft.plan(flags))
}

/// A tree of a root of such jobs, and of a supervisor of such others before them.
pub fn tree(
    rt: &impl Abort,
    alloc: Global,
    kinds: &[GuestKind],
    below: &[GuestKind],
    shared: &Arc<Shared>,
    flags: SupFlags,
) -> Vec<GuestPlan>
    ensures { length result.items ≡ 2 }
{
    let root = make_plan(rt, alloc, &[1], kinds, shared, flags);
    let sub = make_plan(rt, alloc, &[], below, shared, flags);
    let Ok(mut plans) = Vec::with_capacity(alloc, 2) else {
        panic!(rt; "there is memory");
    };
    plans.push_reserved(root);
    plans.push_reserved(sub);
    plans
}

/// What came of a tree.
#[derive(Clone, Copy, Debug, PartialEq, Eq)]
pub struct Outcome {
    /// How many processes are left.
    pub live: u64,
    /// How many began.
    pub begun: u64,
    /// How many supervisors have ended.
    pub ended: u64,
}

/// Flags by which so many restarts are allowed in so many seconds.
pub fn flags(intensity: u64) -> SupFlags {
    SupFlags {
        intensity,
        ..SupFlags::default()
    }
}

fn outcome_of(report: &Report<Guest, BoxedSubsystem>) -> Outcome {
    let mut ended: u64 = 0;
    for table in report.tables.as_slice() {
        if table.end().is_some() {
            ended = ended.saturating_add(1);
        }
    }
    Outcome {
        live: report.live,
        begun: report.begun,
        ended,
    }
}

/// A tree of so many supervisors can be run with so many hands. A thread that runs one beside others asks by itself.
pub fn may_run(rt: &impl Abort, plans: &[GuestPlan], hands: usize)
    ensures tables { length plans.now ≤ MAX_TABLES }
    ensures some { 0 < hands }
    ensures few { hands ≤ all_parts }
{
    assert!(rt; plans.len() <= MAX_TABLES);
    assert!(rt; 0 < hands);
    assert!(rt; hands <= MAX_HANDS);
}

/// Runs a tree until it has ended, and says what came of it.
pub fn run_watched<R, W>(
    rt: &R,
    alloc: Global,
    plans: Vec<GuestPlan>,
    hands: usize,
    stop: &StopFlag,
    watch: &W,
) -> Outcome
where
    R: Threads + Wait + Clock + Abort + Sync,
    W: Watch + Sync,
{
    may_run(rt, plans.as_slice(), hands);
    let ran = run(rt, alloc, plans, hands, stop, watch);
    let report = got(rt, "the tree was not run", ran);
    let seen = outcome_of(&report);
    drop(report);
    seen
}

/// Runs a tree until it has ended, where nobody watches.
pub fn unwatched<R>(
    rt: &R,
    alloc: Global,
    plans: Vec<GuestPlan>,
    hands: usize,
    stop: &StopFlag,
) -> Outcome
where
    R: Threads + Wait + Clock + Abort + Sync,
{
    run_watched(rt, alloc, plans, hands, stop, &Unwatched)
}

/// What a test says that stops for want of memory.
pub const MEMORY: &str = "memory was refused";

/// What a try gave. Where it failed the test stops, with these words: so no test has an exit beside what it holds.
pub fn got<T, E>(rt: &impl Abort, what: &str, tried: Result<T, E>) -> T
    ensures { tried ≡ Ok result }
{
    match tried {
        Ok(value) => value,
        Err(_) => panic!(rt; "{what}"),
    }
}

/// Asserts that a value is the one that is wanted.
pub fn same<T: PartialEq + Debug + Copy>(rt: &impl Abort, what: &str, value: T, wanted: T) {
    assert_eq!(rt; value, wanted, "{what}");
}
