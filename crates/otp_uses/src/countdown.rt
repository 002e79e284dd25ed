//! A job of ten lines: its process is stepped by hand, and then several of them by a scheduler.
ghost use Rattle.std.specs.Prelude.{◌≡◌, true};
ghost use Rattle.otp_run.specs.Lists.{AllAt};

use otp_job::bridge::BoxedSubsystem;
use otp_job::{After, Body, BoxedJob, Job, Process, Told, Turn, one_turn};
use otp_reason::{Note, Reason, Started};
use otp_run::{LiveTotal, RunNaming, RunQueue, SHARE_LIMIT, Scheduler, gather};
use otp_signals::Signal;
use std::alloc::{AllocError, Global};
use std::marker::Brand;

/// Counts down a step a turn, and ends at 0, or as soon as it is asked to.
#[derive(Drop)]
pub struct Countdown {
    pub left: u32,
}

impl Job for Countdown {
    ghost is_trapping = { λ _. true };

    fn traps(&self) -> bool {
        true
    }

    fn start(&mut self, _number: u64) -> Started {
        Started::Up
    }

    fn turn(&mut self, told: Told) -> Turn {
        if told == Told::Shutdown {
            return Turn::End(Reason::Shutdown);
        }
        self.left = self.left.saturating_sub(1);
        if self.left == 0 {
            return Turn::End(Reason::Normal);
        }
        Turn::Again
    }
}

/// A process that runs any job.
pub type AnyProcess = Process<BoxedJob, BoxedSubsystem>;

/// Takes turns of a process by hand, with this signal in each, until it ends: the note of its end, and how many turns
/// it had. None where it has no turns, or more than a hundred.
pub fn step(mut process: AnyProcess, signal: Signal) -> Option<(Note, u32)> {
    for turn in 1..=100 {
        if !process.is_runnable() {
            return None;
        }
        process = match one_turn(process, signal) {
            After::Again(process) | After::Waits(process) | After::Begun(process, _) => process,
            After::Done(end, spent) => {
                let _ = spent.into_number();
                return Some((end.note, turn));
            }
        };
    }
    None
}

/// Puts processes into a run queue of one scheduler, takes a thousand turns there, and answers how many of them have
/// not ended.
pub fn run_all(alloc: Global, processes: Vec<AnyProcess>) -> Result<u64, AllocError> {
    let queue = RunQueue::open(alloc, 1)?;
    run_in::<Brand>(alloc, queue, processes)
}

fn run_in<N: RunNaming>(
    alloc: Global,
    queue: RunQueue<BoxedJob, BoxedSubsystem>,
    processes: Vec<AnyProcess>,
) -> Result<u64, AllocError>
    requires { AllAt (λ k id. id ≡ N.deque k) queue }
{
    let mut schedulers = queue.named::<N>(alloc)?;
    let mut only = schedulers.pop().ok_or(AllocError)?;
    for process in processes {
        only.put(process).map_err(|_| AllocError)?;
    }
    for _ in 0..1_000 {
        take_turn(&mut only)?;
    }
    schedulers.push(only)?;
    match gather(alloc, schedulers) {
        Ok(LiveTotal { live, .. }) => Ok(live),
        Err(_) => Err(AllocError),
    }
}

// One turn of the process that comes next, if there is one. Its notes would go to its supervisor. One that waits has no
// supervisor here that could tell it something, and takes turns as all others.
fn take_turn<N: RunNaming>(
    scheduler: &mut Scheduler<N, BoxedJob, BoxedSubsystem>,
) -> Result<(), AllocError> {
    let Some(process) = scheduler.next() else {
        return Ok(());
    };
    if !process.is_runnable() || scheduler.share().ended >= SHARE_LIMIT {
        return scheduler.give_back(process).map_err(|_| AllocError);
    }
    match one_turn(process, Signal::None) {
        After::Again(process) | After::Waits(process) | After::Begun(process, _) => {
            scheduler.give_back(process).map_err(|_| AllocError)?;
        }
        After::Done(_, spent) => scheduler.finish(spent),
    }
    Ok(())
}
