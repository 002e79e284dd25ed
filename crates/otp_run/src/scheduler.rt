// A scheduler's end of the run queue.
ghost use Rattle.std.specs.Prelude.{◌≡◌, ◌↔◌, ◌+◌, ◌-◌, ◌<◌, ◌≤◌, ◌++◌, ◌∷◌, [], length, IfSome, IfNone, IfOk, IfErr, IsErr, IsTrue, OnOk, OnErr};
ghost use Rattle.otp_run.specs.declared.scheduler.TheConstants.{SHARE_LIMIT};
ghost use Rattle.otp_run.specs.Deques.{fresh_victim, missed, robbed, TakenFrom};
ghost use Rattle.otp_run.specs.Opens.{unused};
ghost use Rattle.otp_run.specs.Schedulers.{out, Found, IsPlaced, found_own, nothing_found, own_missed};

use crate::deque::{OwnDeque, Victim};
use crate::naming::RunNaming;
use otp_job::{Process, Spent};
use otp_tally::Tally;
use std::alloc::AllocError;
use std::marker::Model;

/// At most so many processes may begin, and so many end, at one scheduler.
pub const SHARE_LIMIT: u64 = 1 << 60;

/// How many processes began and how many ended at a scheduler.
#[derive(Clone, Copy, Debug, PartialEq, Eq)]
pub struct Share {
    pub begun: u64,
    pub ended: u64,
}

/// A scheduler's part of the run queue, for one thread at a time. No call of it waits.
///
/// What it has *out* are the processes that it found and has neither given back nor seen end. `begun` less `ended` is
/// what it put less what it found, and what it has out.
#[derive(Drop)]
pub struct Scheduler<N: RunNaming, J: Drop, S: Drop> {
    pub(crate) own: OwnDeque<N, J, S>,
    pub(crate) others: Vec<Victim<N, J, S>>,
    pub(crate) count: usize,
    pub(crate) share: Share,
    pub(crate) empty_finds: Tally,
}

impl<N: RunNaming, J: Drop, S: Drop> Model for Scheduler<N, J, S> {
    ghost use Rattle.otp_run.specs.Schedulers.{SchedulerState, IsScheduler};

    ghost Value = { SchedulerState };

    ghost view = { λ s. record {
      own = s.own;
      others = s.others.items;
      count = s.count;
      begun = s.share.begun;
      ended = s.share.ended;
      empty_finds = s.empty_finds.count;
    } };

    ghost invariant = { λ s. IsScheduler (record {
      own = s.own;
      others = s.others.items;
      count = s.count;
      begun = s.share.begun;
      ended = s.share.ended;
      empty_finds = s.empty_finds.count;
    }) };
}

impl<N: RunNaming, J: Drop, S: Drop> Scheduler<N, J, S> {
    /// Its place among the schedulers of the run queue, from 0 on.
    pub fn index(&self) -> usize
        ensures { result ≡ self.now.own.index }
    {
        self.own.index
    }

    /// How many schedulers the run queue has.
    pub fn count(&self) -> usize
        ensures { result ≡ self.now.count }
    {
        self.count
    }

    /// How many processes began and ended here, at most [`SHARE_LIMIT`] each.
    pub fn share(&self) -> Share
        ensures share { result ≡ record { begun = self.now.begun; ended = self.now.ended } }
        ensures begun_bounded { result.begun ≤ SHARE_LIMIT }
        ensures ended_bounded { result.ended ≤ SHARE_LIMIT }
    {
        self.share
    }

    /// Puts a new process into its deque, which begins here. Refused where there is no memory, and after
    /// [`SHARE_LIMIT`] processes; a refused process comes back, and nothing changes.
    #[tactic(auto, unfolding(crate::specs::Schedulers::out))]
    pub fn put(&mut self, process: Process<J, S>) -> Result<(), Process<J, S>>
        ensures put { OnOk result (self.new ≡ record self.old { begun = self.old.begun + 1; own = record self.old.own { puts = self.old.own.puts ++ process.ticket ∷ [] } }) }
        ensures out { OnOk result (out self.new ≡ out self.old) }
        ensures refused { IfErr result (λ back. back ≡ process) }
        ensures same { OnErr result (self.new ≡ self.old) }
        ensures limit { SHARE_LIMIT ≤ self.old.begun → IsErr result }
    {
        if self.share.begun >= SHARE_LIMIT {
            return Err(process);
        }
        self.own.push(process)?;
        self.share.begun += 1;
        Ok(())
    }

    /// Puts a process that it has out into its deque, for another turn. Refused where there is no memory; then the
    /// process comes back and is still out.
    #[tactic(auto, unfolding(crate::specs::Schedulers::out))]
    pub fn give_back(&mut self, process: Process<J, S>) -> Result<(), Process<J, S>>
        requires { 0 < out self.old }
        ensures put { OnOk result (self.new ≡ record self.old { own = record self.old.own { puts = self.old.own.puts ++ process.ticket ∷ [] } }) }
        ensures out { OnOk result (out self.new + 1 ≡ out self.old) }
        ensures refused { IfErr result (λ back. back ≡ process) }
        ensures same { OnErr result (self.new ≡ self.old) }
    {
        self.own.push(process)?;
        Ok(())
    }

    /// Counts the end of a process that it has out. It takes no memory.
    #[tactic(auto, unfolding(crate::specs::Schedulers::out))]
    pub fn finish(&mut self, spent: Spent)
        requires found { 0 < out self.old }
        requires room { self.old.ended < SHARE_LIMIT }
        ensures ended { self.new ≡ record self.old { ended = self.old.ended + 1 } }
        ensures out { out self.new + 1 ≡ out self.old }
    {
        let _ = spent.into_number();
        self.share.ended += 1;
    }

    /// The first process of its own deque, with no try at the others. None where it gave nothing.
    #[tactic(auto, unfolding(crate::specs::Schedulers::out))]
    pub fn next_own(&mut self) -> Option<Process<J, S>>
        ensures found { IfSome result (λ process. self.new ≡ found_own self.old process.ticket) }
        ensures out { IfSome result (λ process. out self.new ≡ out self.old + 1) }
        ensures none { IfNone result (self.new ≡ record self.old { own = own_missed self.old }) }
        ensures none_out { IfNone result (out self.new ≡ out self.old) }
    {
        self.own.pop()
    }

    /// The next process: the first of its own deque; else of one try at each other in rising index from its own on,
    /// wrapping round. None where each of these tries gave nothing; that, and nothing else, raises the count of empty
    /// finds.
    #[tactic(auto, unfolding(crate::specs::Schedulers::out))]
    pub fn next(&mut self) -> Option<Process<J, S>>
        ensures found { IfSome result (λ process. Found self.old process.ticket self.new) }
        ensures out { IfSome result (λ process. out self.new ≡ out self.old + 1) }
        ensures none { IfNone result (self.new ≡ nothing_found self.old) }
        ensures none_out { IfNone result (out self.new ≡ out self.old) }
    {
        if let Some(process) = self.own.pop() {
            return Some(process);
        }
        if let Some(process) = steal_from(&mut self.others) {
            return Some(process);
        }
        self.empty_finds.raise();
        None
    }
}

impl<N: RunNaming, J: Drop, S: Drop> Scheduler<N, J, S> {
    // A way into its own deque, for another scheduler.
    pub(crate) fn lend(&mut self) -> Result<Victim<N, J, S>, AllocError>
        requires some { 1 < self.old.own.parts }
        requires unused { self.old ≡ unused self.old.own.index self.old.own.parts self.old.others }
        ensures victim { IfOk result (λ victim. victim ≡ fresh_victim self.old.own.index) }
        ensures lent { OnOk result (self.new ≡ record self.old { own = record self.old.own { parts = self.old.own.parts - 1 } }) }
    {
        let victim = self.own.lend()?;
        Ok(victim)
    }

    // Gives one that has done nothing its ways to the others.
    pub(crate) fn equip(&mut self, ways: Vec<Victim<N, J, S>>)
        requires { self.old ≡ unused self.old.own.index self.old.own.parts self.old.others }
        ensures { self.new ≡ record self.old { others = ways.items } }
    {
        self.others = ways;
    }

    // Whether it is the one of this index, among so many that are all there.
    pub(crate) fn stands_at(&self, index: usize, count: usize) -> bool
        requires { index < count }
        ensures same { IsTrue result ↔ ((self.now.own.index ≡ index) × (self.now.count ≡ count)) }
        ensures placed { IsTrue result → IsPlaced self.now }
    {
        self.own.index == index && self.count == count
    }

    // Tells one that has all its ways how many schedulers there are.
    pub(crate) fn complete(&mut self, count: usize)
        requires placed { IsPlaced (record self.old { count = count }) }
        requires unused { self.old ≡ unused self.old.own.index self.old.own.parts self.old.others }
        ensures { self.new ≡ record self.old { count = count } }
    {
        self.count = count;
    }
}

// One try at each of them, in their order.
fn steal_from<N: RunNaming, J: Drop, S: Drop>(
    others: &mut Vec<Victim<N, J, S>>,
) -> Option<Process<J, S>>
    ensures found { IfSome result (λ process. TakenFrom others.old.items process.ticket others.new.items) }
    ensures none { IfNone result (others.new.items ≡ missed (length others.old.items) others.old.items) }
{
    for at in 0..others.len() {
        if let Some(process) = others[at].steal() {
            return Some(process);
        }
    }
    None
}
