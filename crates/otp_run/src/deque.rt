// The two ends of a scheduler's deque: its own, and those of the others that steal from it.
ghost use Rattle.std.specs.Prelude.{◌≡◌, ◌+◌, ◌-◌, ◌<◌, ◌≤◌, length, vec_len, vec_capacity, ◌++◌, ◌∷◌, [], IfSome, IfNone, IfOk, IfErr, OnOk, OnErr};
ghost use Rattle.otp_run.specs.Deques.{fresh_victim};
ghost use Rattle.crossbeam_deque.specs.Handles.{worker_flavor, worker_view};
ghost use Rattle.otp_run.specs.Gathers.{DrainedInto, Popped};
ghost use Rattle.otp_run.specs.Rule.{all_parts};

use crate::naming::RunNaming;
use crate::rule::{
    Counted, Cut, Drained, Joined, ProcessPass, ProcessStealer, ProcessWorker, Put, Taken,
};
use crossbeam_deque::Steal;
use otp_job::Process;
use otp_tally::Tally;
use std::alloc::AllocError;
use std::marker::{Model, PhantomData};

/// A scheduler's end of its own deque.
#[derive(Drop)]
pub struct OwnDeque<N: RunNaming, J: Drop, S: Drop> {
    pub(crate) index: usize,
    pub(crate) parts: u64,
    pub(crate) worker: ProcessWorker<J, S>,
    pub(crate) misses: Tally,
    pub(crate) of: PhantomData<N>,
}

impl<N: RunNaming, J: Drop, S: Drop> Model for OwnDeque<N, J, S> {
    ghost use Rattle.std.specs.Prelude.{◌≡◌, ◌<◌};
    ghost use Rattle.crossbeam_deque.specs.Handles.{worker_deque, worker_flavor, worker_view};
    ghost use Rattle.otp_run.specs.Deques.{OwnState};

    ghost Value = { OwnState };

    ghost view = { λ o. record {
      index = o.index;
      parts = o.parts;
      puts = (worker_view o.worker).put;
      taken = (worker_view o.worker).taken;
      misses = o.misses.count;
    } };

    ghost invariant = { λ o.
        (worker_deque o.worker ≡ N.deque o.index)
        × (worker_flavor o.worker ≡ 0)
        × (0 < o.parts)
        × (o.parts ≡ (worker_view o.worker).parts) };
}

impl<N: RunNaming, J: Drop, S: Drop> OwnDeque<N, J, S> {
    // Puts a process at the back. A refused one comes back.
    pub(crate) fn push(&mut self, process: Process<J, S>) -> Result<(), Process<J, S>>
        ensures put { OnOk result (self.new ≡ record self.old { puts = self.old.puts ++ process.ticket ∷ [] }) }
        ensures refused { IfErr result (λ back. back ≡ process) }
        ensures same { OnErr result (self.new ≡ self.old) }
    {
        self.worker.push_as::<Put>(process)?;
        Ok(())
    }

    // Takes the process at the front.
    pub(crate) fn pop(&mut self) -> Option<Process<J, S>>
        ensures found { IfSome result (λ process. self.new ≡ record self.old { taken = self.old.taken ++ process.ticket ∷ [] }) }
        ensures none { IfNone result (self.new ≡ record self.old { misses = self.old.misses + 1 }) }
    {
        let found = self.worker.pop_as::<Taken>();
        if found.is_none() {
            self.misses.raise();
        }
        found
    }

    // A way in for a thief, with one part.
    pub(crate) fn lend(&mut self) -> Result<Victim<N, J, S>, AllocError>
        requires { 1 < self.old.parts }
        ensures victim { IfOk result (λ victim. victim ≡ fresh_victim self.old.index) }
        ensures kept { OnOk result (self.new ≡ record self.old { parts = self.old.parts - 1 }) }
        ensures same { OnErr result (self.new ≡ self.old) }
    {
        let stealer = self.worker.stealer()?;
        let pass = self.worker.another::<Cut>();
        self.parts -= 1;
        Ok(Victim {
            index: self.index,
            stealer,
            pass,
            misses: Tally::new(),
            of: PhantomData,
        })
    }

    // Takes back what was lent.
    pub(crate) fn absorb(&mut self, victim: Victim<N, J, S>)
        requires index { victim.index ≡ self.old.index }
        requires room { self.old.parts < all_parts }
        ensures { self.new ≡ record self.old { parts = self.old.parts + 1; taken = self.old.taken ++ victim.taken } }
    {
        let Victim {
            index: _,
            stealer,
            pass,
            misses: _,
            of: _,
        } = victim;
        drop(stealer);
        self.worker.absorb::<Joined>(pass);
        self.parts += 1;
    }

    // How many processes are left, where all parts are home.
    pub(crate) fn count(&mut self) -> usize
        requires { self.old.parts ≡ all_parts }
        ensures same { self.new ≡ self.old }
        ensures count { length self.old.puts ≡ length self.old.taken + result }
    {
        self.worker.len_as::<Counted>()
    }

    // Puts what is left at the end of a list that has room for it, where all parts are home.
    pub(crate) fn drain_into(self, left: &mut Vec<Process<J, S>>)
        requires home { self.parts ≡ all_parts }
        requires room { length self.puts + vec_len left.old ≤ length self.taken + vec_capacity left.old }
        ensures drained { DrainedInto (self ∷ []) left.old.items left.new.items }
        ensures in_place { vec_capacity left.new ≡ vec_capacity left.old }
    {
        let OwnDeque {
            index: _,
            parts: _,
            worker,
            misses: _,
            of: _,
        } = self;
        pop_all(worker, left);
    }
}

// Pops until nothing is left, by a pass that has all parts.
fn pop_all<J: Drop, S: Drop>(mut worker: ProcessWorker<J, S>, left: &mut Vec<Process<J, S>>)
    requires fifo { worker_flavor worker ≡ 0 }
    requires home { (worker_view worker).parts ≡ all_parts }
    requires room { length (worker_view worker).put + vec_len left.old ≤ length (worker_view worker).taken + vec_capacity left.old }
    ensures popped { Popped (worker_view worker) left.old.items left.new.items }
    ensures in_place { vec_capacity left.new ≡ vec_capacity left.old }
{
    for _ in 0..usize::MAX {
        let Some(process) = worker.pop_as::<Drained>() else {
            return;
        };
        left.push_reserved(process);
    }
    unreachable!()
}

/// The way to another scheduler's deque.
#[derive(Drop)]
pub struct Victim<N: RunNaming, J: Drop, S: Drop> {
    pub(crate) index: usize,
    pub(crate) stealer: ProcessStealer<J, S>,
    pub(crate) pass: ProcessPass<J, S>,
    pub(crate) misses: Tally,
    pub(crate) of: PhantomData<N>,
}

impl<N: RunNaming, J: Drop, S: Drop> Model for Victim<N, J, S> {
    ghost use Rattle.std.specs.Prelude.{◌≡◌, []};
    ghost use Rattle.crossbeam_deque.specs.Handles.{view, IsPassOf, stealer_deque};
    ghost use Rattle.otp_run.specs.Rule.{view_of};
    ghost use Rattle.otp_run.specs.Deques.{VictimState};

    ghost Value = { VictimState };

    ghost view = { λ v. record { index = v.index; taken = v.pass.me.view.client.taken; misses = v.misses.count } };

    ghost invariant = { λ v.
        IsPassOf (stealer_deque v.stealer) v.pass
        × (v.pass.me.view.client ≡ view_of 1 [] v.pass.me.view.client.taken)
        × (stealer_deque v.stealer ≡ N.deque v.index) };
}

impl<N: RunNaming, J: Drop, S: Drop> Victim<N, J, S> {
    // Tries once to steal the process at the front.
    pub(crate) fn steal(&mut self) -> Option<Process<J, S>>
        ensures found { IfSome result (λ process. self.new ≡ record self.old { taken = self.old.taken ++ process.ticket ∷ [] }) }
        ensures none { IfNone result (self.new ≡ record self.old { misses = self.old.misses + 1 }) }
    {
        match self.stealer.steal_as::<Taken>(&mut self.pass) {
            Steal::Success(process) => Some(process),
            Steal::Empty | Steal::Retry => {
                self.misses.raise();
                None
            }
        }
    }
}
