ghost use Rattle.std.specs.Prelude.{false};

use otp::{Fault, Job, LogLines, Started, StopFlag, SupFlags, Told, TreeDraft, Turn, run};
use std::alloc::Global;
use std::io::Eprint;
use std::sync::Wait;
use std::thread::{self, Threads};
use std::time::Clock;

/// Sleeps until its supervisor stops it.
#[derive(Drop)]
struct Asleep;

impl Job for Asleep {
    ghost is_trapping = { λ _. false };

    fn traps(&self) -> bool {
        false
    }

    fn start(&mut self, _number: u64) -> Started {
        Started::Up
    }

    fn turn(&mut self, _told: Told) -> Turn {
        Turn::Wait
    }
}

/// Runs a tree until another thread stops it, with a line for each start and end; tells how many processes are left.
pub fn run_until_stopped<R: Threads + Wait + Clock + Eprint + Sync>(
    rt: &R,
    alloc: Global,
) -> Result<u64, Fault> {
    let (stop, log) = (StopFlag::new(alloc)?, LogLines::to(rt, alloc));
    let mut root: TreeDraft<Asleep> = TreeDraft::new(alloc, SupFlags::default());
    root.add_worker("db", Asleep)?;
    let (ran, ()) = thread::join(rt, || run(rt, alloc, root, 2, &stop, &log), || stop.raise());
    Ok(ran?.live)
}
