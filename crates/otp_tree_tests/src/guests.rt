//! The workers of the tests' trees, and what they share.
ghost use Rattle.std.specs.Prelude.{◌≡◌, ◌≤◌, length};

use crate::fixtures::{MEMORY, got};
use otp_job::bridge::BoxedSubsystem;
use otp_job::{Body, Job, Told, Turn};
use otp_reason::{Name, Reason, Started, Text};
use otp_spec::{ChildSpec, Restart, SupFlags};
use otp_tree::{TableDraft, TablePlan};
use std::alloc::Global;
use std::process::Abort;
use std::sync::Arc;
use std::sync::atomic::{AtomicU64, Ordering};
use std::thread;

/// What a worker does.
#[derive(Clone, Copy, Debug, PartialEq, Eq)]
pub(crate) enum GuestKind {
    /// Works on until its supervisor ends it.
    Steady,
    /// Crashes in the first turn of its first life, and works on then.
    CrashesOnce,
    /// Crashes in the first turn of each of its lives. Whether its starts are counted apart.
    Crashes(bool),
    /// Works on, and crashes where a crash is wanted.
    Fragile,
    /// Waits until it is asked to shut down.
    Waits,
    /// Waits, and doesn't heed that: only a kill ends it.
    Stubborn,
    /// Looks for the other of two until that has its turn, for so many looks. Whether it is the first of them.
    Meets(bool, u64),
    /// Works on, in turns of so many looks each.
    Lingers(u64),
}

/// What the workers of a tree share with their test. Counts are of all workers together.
#[derive(Drop)]
pub(crate) struct Shared {
    /// Starts, but for those that are counted apart.
    starts: AtomicU64,
    apart: AtomicU64,
    turns: AtomicU64,
    /// Crashes that are wanted.
    wanted: AtomicU64,
    /// 1 once the first of two that meet had its turn.
    first: AtomicU64,
    second: AtomicU64,
    /// 1 while a worker lingers in its turn.
    lingers: AtomicU64,
    /// Turns of hands in which none had anything to do, and those of them in which a worker lingered all the same.
    idle: AtomicU64,
    beside: AtomicU64,
}

/// So often no hand is told in error that none has anything to do. Once in a round it may be: where a thread begins so late that the
/// others no longer wait for it.
pub(crate) const TOO_OFTEN: u64 = 10;

/// What the jobs and the watchers of a test share, for each of them.
pub(crate) type Common = Arc<Shared>;

pub(crate) fn common(rt: &impl Abort, alloc: Global) -> Common {
    let shared = Shared {
        starts: AtomicU64::new(0),
        apart: AtomicU64::new(0),
        turns: AtomicU64::new(0),
        wanted: AtomicU64::new(0),
        first: AtomicU64::new(0),
        second: AtomicU64::new(0),
        lingers: AtomicU64::new(0),
        idle: AtomicU64::new(0),
        beside: AtomicU64::new(0),
    };
    got(rt, MEMORY, Arc::new(alloc, shared))
}

pub(crate) fn again(rt: &impl Abort, shared: &Common) -> Common {
    got(rt, MEMORY, Arc::try_clone(shared))
}

/// Waits until a count has come so far, or for so many looks.
pub(crate) fn comes_to(count: &AtomicU64, goal: u64, looks: u64) -> bool {
    for _ in 0..looks {
        if count.load(Ordering::SeqCst) >= goal {
            return true;
        }
        thread::yield_now();
    }
    false
}

impl Shared {
    pub(crate) fn starts(&self) -> u64 {
        self.starts.load(Ordering::SeqCst)
    }

    /// Starts that are counted apart.
    pub(crate) fn apart(&self) -> u64 {
        self.apart.load(Ordering::SeqCst)
    }

    pub(crate) fn turns(&self) -> u64 {
        self.turns.load(Ordering::SeqCst)
    }

    /// A worker is to crash.
    pub(crate) fn want_crash(&self) {
        self.wanted.store(1, Ordering::SeqCst);
    }

    /// Turns of hands in which none had anything to do, so far.
    pub(crate) fn idle(&self) -> u64 {
        self.idle.load(Ordering::SeqCst)
    }

    /// Those of them in which a worker was in its turn all the same.
    pub(crate) fn beside(&self) -> u64 {
        self.beside.load(Ordering::SeqCst)
    }

    /// A hand was told that none has anything to do.
    pub(crate) fn note_idle(&self) {
        self.idle.fetch_add(1, Ordering::SeqCst);
        if self.lingers.load(Ordering::SeqCst) == 1 {
            self.beside.fetch_add(1, Ordering::SeqCst);
        }
    }

    /// Whether a worker lingers, soon.
    pub(crate) fn one_lingers(&self) -> bool {
        comes_to(&self.lingers, 1, 20)
    }

    /// A turn that lasts for so many looks, or until hands were often told that none has anything to do.
    fn linger(&self, looks: u64) -> Turn {
        self.lingers.store(1, Ordering::SeqCst);
        let _told = comes_to(&self.beside, TOO_OFTEN, looks);
        self.lingers.store(0, Ordering::SeqCst);
        Turn::Again
    }

    /// Whether both of two that meet have started, soon.
    pub(crate) fn both_start(&self) -> bool {
        comes_to(&self.starts, 2, 10_000_000)
    }

    /// The turn of one of two, once both have started: whether the other's begins while this one holds.
    fn meet(&self, is_first: bool, looks: u64) -> bool {
        let (own, other) = if is_first {
            (&self.first, &self.second)
        } else {
            (&self.second, &self.first)
        };
        own.store(1, Ordering::SeqCst);
        comes_to(other, 1, looks)
    }
}

/// A worker of a test.
#[derive(Drop)]
pub(crate) struct Worker {
    kind: GuestKind,
    traps: bool,
    shared: Common,
}

pub(crate) fn make_worker(rt: &impl Abort, kind: GuestKind, shared: &Common) -> Worker {
    Worker {
        kind,
        traps: matches!(kind, GuestKind::Waits | GuestKind::Stubborn),
        shared: again(rt, shared),
    }
}

fn failed(why: &[u8]) -> Turn
    requires { length why.now ≤ 64 }
{
    Turn::End(Reason::Error(Text::joined(why, b"")))
}

impl Worker {
    /// A worker, if there is memory.
    pub(crate) fn try_new(kind: GuestKind, shared: &Common) -> Option<Worker> {
        let shared = Arc::try_clone(shared).ok()?;
        Some(Worker {
            kind,
            traps: false,
            shared,
        })
    }

    fn crash_once(&mut self) -> Turn {
        self.kind = GuestKind::Steady;
        failed(b"crash")
    }

    fn crash_if_wanted(&self) -> Turn {
        match self.shared.wanted.swap(0, Ordering::SeqCst) {
            0 => Turn::Again,
            _ => failed(b"crash"),
        }
    }

    fn meet(&self, is_first: bool, looks: u64) -> Turn {
        if self.shared.starts() < 2 {
            Turn::Again
        } else if self.shared.meet(is_first, looks) {
            Turn::End(Reason::Normal)
        } else {
            failed(b"alone")
        }
    }
}

impl Job for Worker {
    ghost is_trapping = { λ worker. worker.traps };

    fn traps(&self) -> bool {
        self.traps
    }

    fn start(&mut self, _number: u64) -> Started {
        let count = match self.kind {
            GuestKind::Crashes(true) => &self.shared.apart,
            _ => &self.shared.starts,
        };
        count.fetch_add(1, Ordering::SeqCst);
        Started::Up
    }

    fn turn(&mut self, told: Told) -> Turn {
        self.shared.turns.fetch_add(1, Ordering::SeqCst);
        match self.kind {
            GuestKind::Steady => Turn::Again,
            GuestKind::CrashesOnce => self.crash_once(),
            GuestKind::Crashes(_) => failed(b"crash"),
            GuestKind::Fragile => self.crash_if_wanted(),
            GuestKind::Waits if told == Told::Shutdown => Turn::End(Reason::Shutdown),
            GuestKind::Waits | GuestKind::Stubborn => Turn::Wait,
            GuestKind::Meets(is_first, looks) => self.meet(is_first, looks),
            GuestKind::Lingers(looks) => self.shared.linger(looks),
        }
    }
}

/// What a call may bring.
pub(crate) type Load = Body<Worker, BoxedSubsystem>;

pub(crate) type GuestPlan = TablePlan<Worker, BoxedSubsystem>;

type Draft = TableDraft<Worker, BoxedSubsystem>;

/// A child of a plan: a worker, or the supervisor of this number.
#[derive(Clone, Copy)]
pub(crate) enum Child {
    Does(&'static str, GuestKind),
    Sup(&'static str, usize),
}

fn named(rt: &impl Abort, id: &[u8]) -> Name {
    match Name::new(id) {
        Some(id) => id,
        None => panic!(rt; "a name"),
    }
}

// A worker. One that meets another isn't started again.
fn add_worker(rt: &impl Abort, draft: &mut Draft, id: &[u8], kind: GuestKind, shared: &Common) {
    let id = named(rt, id);
    let mut spec = ChildSpec::new(id, id);
    if matches!(kind, GuestKind::Meets(..)) {
        spec.restart = Restart::Temporary;
    }
    let worker = make_worker(rt, kind, shared);
    got(rt, MEMORY, draft.add(spec, Body::Worker(worker)));
}

fn add_supervisor(rt: &impl Abort, draft: &mut Draft, id: &[u8], table: usize) {
    let id = named(rt, id);
    got(rt, MEMORY, draft.add_supervisor(id, table));
}

fn add(rt: &impl Abort, draft: &mut Draft, child: Child, shared: &Common) {
    match child {
        Child::Does(id, kind) => add_worker(rt, draft, id.as_bytes(), kind, shared),
        Child::Sup(id, table) => add_supervisor(rt, draft, id.as_bytes(), table),
    }
}

fn finished(rt: &impl Abort, draft: Draft, intensity: u64) -> GuestPlan {
    let flags = SupFlags {
        intensity,
        ..SupFlags::default()
    };
    got(rt, "a lawful plan", draft.plan(flags))
}

/// The plan of a supervisor of these children, which bears so many restarts in 5 seconds.
pub(crate) fn plan_of(
    rt: &impl Abort,
    alloc: Global,
    children: &[Child],
    intensity: u64,
    shared: &Common,
) -> GuestPlan {
    let mut draft = TableDraft::new(alloc);
    for child in children {
        add(rt, &mut draft, *child, shared);
    }
    finished(rt, draft, intensity)
}

const LETTERS: [u8; 16] = *b"abcdefghijklmnop";

/// The plan of a supervisor of 16 children for each of so many letters, 16 at the most. The first of them are supervisors, so many,
/// with the numbers from 1 on.
pub(crate) fn crowd(
    rt: &impl Abort,
    alloc: Global,
    letters: usize,
    nested: usize,
    kind: GuestKind,
    shared: &Common,
) -> GuestPlan {
    let mut draft = TableDraft::new(alloc);
    for high in LETTERS.iter().take(letters) {
        for low in &LETTERS {
            let table = draft.len().saturating_add(1);
            if table <= nested {
                add_supervisor(rt, &mut draft, &[*high, *low], table);
            } else {
                add_worker(rt, &mut draft, &[*high, *low], kind, shared);
            }
        }
    }
    finished(rt, draft, 1)
}

/// The plans of a tree of one supervisor.
pub(crate) fn one(rt: &impl Abort, alloc: Global, root: GuestPlan) -> Vec<GuestPlan> {
    let mut plans = Vec::new(alloc);
    got(rt, MEMORY, plans.push(root));
    plans
}

/// The plans of a tree of two supervisors.
pub(crate) fn both(
    rt: &impl Abort,
    alloc: Global,
    root: GuestPlan,
    sub: GuestPlan,
) -> Vec<GuestPlan> {
    let mut plans = one(rt, alloc, root);
    got(rt, MEMORY, plans.push(sub));
    plans
}
