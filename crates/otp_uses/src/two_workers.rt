//! A tree of jobs of one's own, whole: two workers under a supervisor.
ghost use Rattle.std.specs.Prelude.{◌≡◌, true, length, IfOk};

use otp_job::bridge::BoxedSubsystem;
use otp_job::{Job, Told, Turn};
use otp_reason::{Name, Reason, Started};
use otp_spec::SupFlags;
use otp_tree::{Gate, Report, TableDraft, TablePlan, run_tree};
use std::alloc::{AllocError, Global};
use std::sync::Wait;
use std::thread::Threads;

/// Waits until it is asked to shut down.
#[derive(Drop)]
struct Steady;

impl Job for Steady {
    ghost is_trapping = { λ _. true };

    fn traps(&self) -> bool {
        true
    }

    fn start(&mut self, _number: u64) -> Started {
        Started::Up
    }

    fn turn(&mut self, told: Told) -> Turn {
        match told {
            Told::Shutdown => Turn::End(Reason::Shutdown),
            Told::Nothing => Turn::Wait,
        }
    }
}

/// A clock that stands still: here no time is to pass.
#[derive(Drop)]
struct Still;

impl Gate for Still {
    fn before_turn(&self, _hand: usize) -> u64 {
        0
    }
}

type Plan = TablePlan<Steady, BoxedSubsystem>;

/// The plan of the tree: one supervisor, of two workers.
fn plans(alloc: Global) -> Result<Vec<Plan>, AllocError>
    ensures { IfOk result (λ plans. length plans.items ≡ 1) }
{
    let mut root = TableDraft::new(alloc);
    let Ok(()) = add_workers(&mut root) else {
        drop(root);
        return Err(AllocError);
    };
    let plan = match root.plan(SupFlags::default()) {
        Ok(plan) => plan,
        Err(back) => {
            drop(back);
            return Err(AllocError);
        }
    };
    let Ok(mut plans) = Vec::with_capacity(alloc, 1) else {
        drop(plan);
        return Err(AllocError);
    };
    plans.push_reserved(plan);
    Ok(plans)
}

/// What is large is lent here, and let go above by name: beside an owner each `?` costs its proof a quarter of a minute.
fn add_workers(root: &mut TableDraft<Steady, BoxedSubsystem>) -> Result<(), AllocError> {
    for id in [b"db", b"ui"] {
        if let Some(id) = Name::new(id) {
            root.add_worker(id, Steady).map_err(|_| AllocError)?;
        }
    }
    Ok(())
}

/// Runs the tree: a thread makes a thousand turns, the root is asked to shut down, and the thread makes a thousand turns
/// more. How many children were started, and how many processes are left; None where memory or a thread was refused.
///
/// Of one thread a thousand turns are always enough. Of more, which share the work, one that has nothing to do may have made all its
/// turns before it is told something.
pub fn run_two_workers<R>(rt: &R, alloc: Global) -> Option<(u64, u64)>
where
    R: Threads + Wait + Sync,
{
    let Ok(plans) = plans(alloc) else {
        return None;
    };
    let report = match run_tree(rt, alloc, plans, 1, &Still, 1000) {
        Ok(report) => report,
        Err(fault) => {
            drop(fault);
            return None;
        }
    };
    let counted = count(&report);
    drop(report);
    counted
}

/// How many children the root started, and how many processes are left.
fn count(report: &Report<Steady, BoxedSubsystem>) -> Option<(u64, u64)> {
    let table = report.tables.first()?;
    Some((table.starts(), report.live))
}
