// A job and a subsystem that note each call in an atomic word, and processes of them.
use crate::fixtures::got;
use otp_job::bridge::{BoxedSubsystem, Bridge, Subsystem};
use otp_job::{Body, BoxedJob, Job, Process, Told, Turn};
use otp_reason::{Reason, Started};
use std::alloc::Global;
use std::process::Abort;
use std::sync::Arc;
use std::sync::atomic::{AtomicU64, Ordering};

pub type AnyProcess = Process<BoxedJob, BoxedSubsystem>;

pub type AnyBody = Body<BoxedJob, BoxedSubsystem>;

/// Calls that were made, a decimal digit each, the last one last.
pub type Calls = Arc<AtomicU64>;

pub const STARTED: u64 = 1;

pub const TURNED: u64 = 2;

pub const TOLD: u64 = 3;

pub const TERMINATED: u64 = 4;

/// One more call.
fn note(calls: &Calls, call: u64) {
    let before = calls.load(Ordering::SeqCst);
    calls.store(before % 1_000_000 * 10 + call.min(9), Ordering::SeqCst);
}

/// A job that notes its calls, and goes on for ever.
#[derive(Drop)]
pub struct Probe {
    pub traps: bool,
    pub answer: Started,
    pub calls: Calls,
}

impl Job for Probe {
    ghost is_trapping = { λ p. p.traps };

    fn traps(&self) -> bool {
        self.traps
    }

    fn start(&mut self, _number: u64) -> Started {
        note(&self.calls, STARTED);
        self.answer
    }

    fn turn(&mut self, told: Told) -> Turn {
        match told {
            Told::Nothing => note(&self.calls, TURNED),
            Told::Shutdown => note(&self.calls, TOLD),
        }
        Turn::Again
    }
}

/// A subsystem that notes its calls.
#[derive(Drop)]
pub struct Pipe {
    pub ended: Option<Reason>,
    pub calls: Calls,
}

impl Subsystem for Pipe {
    fn init(&mut self) -> Started {
        note(&self.calls, STARTED);
        Started::Up
    }

    fn poll(&mut self) -> Option<Reason> {
        note(&self.calls, TURNED);
        self.ended
    }

    fn terminate(&mut self, reason: Reason) {
        if reason == Reason::Shutdown {
            note(&self.calls, TERMINATED);
        }
    }
}

/// No calls so far.
pub fn no_calls(rt: &impl Abort, alloc: Global) -> Calls {
    got(rt, "memory was refused", Arc::new(alloc, AtomicU64::new(0)))
}

pub fn worker_body(
    rt: &impl Abort,
    alloc: Global,
    calls: &Calls,
    traps: bool,
    answer: Started,
) -> AnyBody {
    let calls = got(rt, "memory was refused", Arc::try_clone(calls));
    let probe = Box::new(
        alloc,
        Probe {
            traps,
            answer,
            calls,
        },
    );
    let probe: Box<Probe, Global> = got(rt, "memory was refused", probe);
    let job: BoxedJob = probe;
    Body::Worker(job)
}

pub fn bridge_body(
    rt: &impl Abort,
    alloc: Global,
    calls: &Calls,
    ended: Option<Reason>,
) -> AnyBody {
    let calls = got(rt, "memory was refused", Arc::try_clone(calls));
    let pipe = Box::new(alloc, Pipe { ended, calls });
    let pipe: Box<Pipe, Global> = got(rt, "memory was refused", pipe);
    let subsystem: BoxedSubsystem = pipe;
    Body::Bridge(Bridge::new(subsystem))
}
