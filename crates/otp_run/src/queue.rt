// The run queue is opened, and shared out among its schedulers.
ghost use Rattle.std.specs.Prelude.{◌≡◌, ◌+◌, ◌-◌, [], ◌∷◌, ◌<◌, ◌≤◌, ◌++◌, length, map, IfOk, OnOk};
ghost use Rattle.crossbeam_deque.specs.Handles.{worker_deque};
ghost use Rattle.otp_run.specs.Lists.{AllAt};
ghost use Rattle.otp_run.specs.Deques.{fresh_victim};
ghost use Rattle.otp_run.specs.Opens.{IsFresh, HasLent, opened, unused, none_yet, from_above, from_all, CompleteUpTo};
ghost use Rattle.otp_run.specs.Rule.{all_parts};
ghost use Rattle.otp_run.specs.Schedulers.{numbers_from};

use crate::deque::{OwnDeque, Victim};
use crate::naming::RunNaming;
use crate::rule::{ALL_PARTS, ProcessWorker};
use crate::scheduler::{Scheduler, Share};
use otp_tally::Tally;
use std::alloc::{AllocError, Global};
use std::marker::{Model, PhantomData};

/// The first capacity of a deque, in processes. It grows with what is put into it.
const FIRST_CAPACITY: usize = 64;

/// The deques of a run queue, one for each scheduler, which have no name yet.
///
/// Contracts see their identities. Since no value whose type has a name can leave the call that picks the name, a run
/// queue is opened first; that call gets it and names it.
#[derive(Drop)]
pub struct RunQueue<J: Drop, S: Drop> {
    workers: Vec<ProcessWorker<J, S>>,
}

impl<J: Drop, S: Drop> Model for RunQueue<J, S> {
    ghost use Rattle.std.specs.Prelude.{List, ◌≤◌, ◌<◌, length, map};
    ghost use Rattle.otp_run.specs.Lists.{AllAt};
    ghost use Rattle.crossbeam_deque.specs.Handles.{worker_deque};
    ghost use Rattle.otp_run.specs.Names.{DequeId};
    ghost use Rattle.otp_run.specs.Opens.{IsFresh};
    ghost use Rattle.otp_run.specs.Rule.{all_parts};

    ghost Value = { List DequeId };

    ghost view = { λ q. map worker_deque q.workers.items };

    ghost invariant = { λ q. (0 < length q.workers.items) × (length q.workers.items ≤ all_parts) × AllAt (λ k w. IsFresh w) q.workers.items };
}

impl<J: Drop, S: Drop> RunQueue<J, S> {
    /// Opens the deques of 1 to 8 schedulers.
    pub fn open(alloc: Global, count: usize) -> Result<RunQueue<J, S>, AllocError>
        requires some { 0 < count }
        requires few { count ≤ all_parts }
        ensures { IfOk result (λ queue. length queue ≡ count) }
    {
        let mut workers = Vec::new(alloc);
        for _ in 0..count {
            workers.push(ProcessWorker::<J, S>::fifo_as(alloc, FIRST_CAPACITY)?)?;
        }
        Ok(RunQueue { workers })
    }

    /// Shares it out among so many schedulers as it has deques, in the order of their indexes.
    pub fn named<N: RunNaming>(self, alloc: Global) -> Result<Vec<Scheduler<N, J, S>>, AllocError>
        requires { AllAt (λ k id. id ≡ N.deque k) self }
        ensures count { IfOk result (λ schedulers. length schedulers.items ≡ length self) }
        ensures opened { IfOk result (λ schedulers. AllAt (λ k s. s ≡ opened (length self) k) schedulers.items) }
    {
        let RunQueue { workers } = self;
        let mut schedulers = unused_schedulers::<N, J, S>(alloc, workers)?;
        let Ok(()) = equip_all(alloc, &mut schedulers) else {
            drop(schedulers);
            return Err(AllocError);
        };
        Ok(schedulers)
    }
}

// Each gets a way to each other's deque, and is then told how many there are.
fn equip_all<N: RunNaming, J: Drop, S: Drop>(
    alloc: Global,
    schedulers: &mut Vec<Scheduler<N, J, S>>,
) -> Result<(), AllocError>
    requires few { length schedulers.old.items ≤ all_parts }
    requires unused { AllAt (λ k s. s ≡ unused k all_parts []) schedulers.old.items }
    ensures count { OnOk result (length schedulers.new.items ≡ length schedulers.old.items) }
    ensures opened { OnOk result (AllAt (λ k s. s ≡ opened (length schedulers.old.items) k) schedulers.new.items) }
{
    for thief in 0..schedulers.len() {
        equip_one(alloc, schedulers, thief)?;
    }
    complete_all(schedulers);
    Ok(())
}

// The thief gets a way to each other's deque.
fn equip_one<N: RunNaming, J: Drop, S: Drop>(
    alloc: Global,
    schedulers: &mut Vec<Scheduler<N, J, S>>,
    thief: usize,
) -> Result<(), AllocError>
    requires thief { thief < length schedulers.old.items }
    requires few { length schedulers.old.items ≤ all_parts }
    requires before { AllAt (HasLent (length schedulers.old.items) thief none_yet) schedulers.old.items }
    ensures count { OnOk result (length schedulers.new.items ≡ length schedulers.old.items) }
    ensures equipped { OnOk result (AllAt (HasLent (length schedulers.old.items) (thief + 1) none_yet) schedulers.new.items) }
{
    let mut ways = Vec::new(alloc);
    lend_from_above(schedulers, thief, &mut ways)?;
    lend_from_below(schedulers, thief, &mut ways)?;
    schedulers[thief].equip(ways);
    Ok(())
}

// Each is told how many there are.
fn complete_all<N: RunNaming, J: Drop, S: Drop>(schedulers: &mut Vec<Scheduler<N, J, S>>)
    requires few { length schedulers.old.items ≤ all_parts }
    requires lent { AllAt (HasLent (length schedulers.old.items) (length schedulers.old.items) none_yet) schedulers.old.items }
    ensures count { length schedulers.new.items ≡ length schedulers.old.items }
    ensures opened { AllAt (λ k s. s ≡ opened (length schedulers.old.items) k) schedulers.new.items }
{
    let count = schedulers.len();
    for index in 0..count {
        schedulers[index].complete(count);
    }
}

// A scheduler for each worker, with no way to another's deque.
fn unused_schedulers<N: RunNaming, J: Drop, S: Drop>(
    alloc: Global,
    workers: Vec<ProcessWorker<J, S>>,
) -> Result<Vec<Scheduler<N, J, S>>, AllocError>
    requires names { AllAt (λ k w. worker_deque w ≡ N.deque k) workers.items }
    requires fresh { AllAt (λ k w. IsFresh w) workers.items }
    ensures count { IfOk result (λ schedulers. length schedulers.items ≡ length workers.items) }
    ensures unused { IfOk result (λ schedulers. AllAt (λ k s. s ≡ unused k all_parts []) schedulers.items) }
{
    let mut schedulers = Vec::new(alloc);
    let mut index = 0;
    for worker in workers {
        let Ok(()) = schedulers.push(unused_scheduler(alloc, worker, index)) else {
            drop(schedulers);
            return Err(AllocError);
        };
        index += 1;
    }
    Ok(schedulers)
}

fn unused_scheduler<N: RunNaming, J: Drop, S: Drop>(
    alloc: Global,
    worker: ProcessWorker<J, S>,
    index: usize,
) -> Scheduler<N, J, S>
    requires name { worker_deque worker ≡ N.deque index }
    requires fresh { IsFresh worker }
    ensures { result ≡ unused index all_parts [] }
{
    let own = OwnDeque {
        index,
        parts: ALL_PARTS,
        worker,
        misses: Tally::new(),
        of: PhantomData,
    };
    Scheduler {
        own,
        others: Vec::new(alloc),
        count: 0,
        share: Share { begun: 0, ended: 0 },
        empty_finds: Tally::new(),
    }
}

// Each scheduler after the thief gives it a way to its deque.
fn lend_from_above<N: RunNaming, J: Drop, S: Drop>(
    schedulers: &mut Vec<Scheduler<N, J, S>>,
    thief: usize,
    ways: &mut Vec<Victim<N, J, S>>,
) -> Result<(), AllocError>
    requires thief { thief < length schedulers.old.items }
    requires few { length schedulers.old.items ≤ all_parts }
    requires before { AllAt (HasLent (length schedulers.old.items) thief none_yet) schedulers.old.items }
    ensures count { OnOk result (length schedulers.new.items ≡ length schedulers.old.items) }
    ensures lent { OnOk result (AllAt (HasLent (length schedulers.old.items) thief (from_above thief)) schedulers.new.items) }
    ensures ways { OnOk result (ways.new.items ≡ ways.old.items ++ map fresh_victim (numbers_from (thief + 1) (length schedulers.old.items - 1 - thief))) }
{
    for index in thief + 1..schedulers.len() {
        lend_way(&mut schedulers[index], ways)?;
    }
    Ok(())
}

// Each scheduler before the thief gives it a way to its deque.
fn lend_from_below<N: RunNaming, J: Drop, S: Drop>(
    schedulers: &mut Vec<Scheduler<N, J, S>>,
    thief: usize,
    ways: &mut Vec<Victim<N, J, S>>,
) -> Result<(), AllocError>
    requires thief { thief < length schedulers.old.items }
    requires few { length schedulers.old.items ≤ all_parts }
    requires before { AllAt (HasLent (length schedulers.old.items) thief (from_above thief)) schedulers.old.items }
    ensures count { OnOk result (length schedulers.new.items ≡ length schedulers.old.items) }
    ensures lent { OnOk result (AllAt (HasLent (length schedulers.old.items) thief (from_all thief)) schedulers.new.items) }
    ensures ways { OnOk result (ways.new.items ≡ ways.old.items ++ map fresh_victim (numbers_from 0 thief)) }
{
    for index in 0..thief {
        lend_way(&mut schedulers[index], ways)?;
    }
    Ok(())
}

// A way to a scheduler's deque is put at the end of the list.
fn lend_way<N: RunNaming, J: Drop, S: Drop>(
    scheduler: &mut Scheduler<N, J, S>,
    ways: &mut Vec<Victim<N, J, S>>,
) -> Result<(), AllocError>
    requires some { 1 < scheduler.old.own.parts }
    requires unused { scheduler.old ≡ unused scheduler.old.own.index scheduler.old.own.parts scheduler.old.others }
    ensures way { OnOk result (ways.new.items ≡ ways.old.items ++ fresh_victim scheduler.old.own.index ∷ []) }
    ensures lent { OnOk result (scheduler.new ≡ record scheduler.old { own = record scheduler.old.own { parts = scheduler.old.own.parts - 1 } }) }
{
    let way = scheduler.lend()?;
    ways.push(way)?;
    Ok(())
}
