ghost use Rattle.std.specs.Prelude.{true};

use otp::{Fault, Job, Reason, Started, Still, SupFlags, Told, TreeDraft, Turn, run_turns};
use std::alloc::Global;
use std::sync::Wait;
use std::thread::Threads;

/// Waits until it is asked to shut down.
#[derive(Drop)]
struct Steady;

impl Job for Steady {
    ghost is_trapping = { λ _. true };

    fn traps(&self) -> bool {
        true
    }

    fn start(&mut self, _number: u64) -> Started {
        Started::Up
    }

    fn turn(&mut self, told: Told) -> Turn {
        match told {
            Told::Shutdown => Turn::End(Reason::Shutdown),
            Told::Nothing => Turn::Wait,
        }
    }
}

/// Runs a database, and a pool of two workers under a supervisor of its own; tells how many processes are left.
pub fn run_shop<R: Threads + Wait + Sync>(rt: &R, alloc: Global) -> Result<u64, Fault> {
    let mut pool = TreeDraft::new(alloc, SupFlags::default());
    pool.add_worker("a", Steady)?;
    pool.add_worker("b", Steady)?;
    let mut root: TreeDraft<Steady> = TreeDraft::new(alloc, SupFlags::default());
    root.add_worker("db", Steady)?;
    root.add_supervisor("pool", pool)?;
    Ok(run_turns(rt, alloc, root, 1, &Still, 1000)?.live)
}
