//! Processes that wait: until they are told something, or for their next turn.
ghost use Rattle.std.specs.Prelude.{◌≡◌, ◌+◌, ◌-◌, ◌^◌, ◌<◌, ◌≤◌, ◌++◌, ◌∷◌, [], length, min, slice_index_or, IfNone, IfSome, MatchOption};
ghost use Rattle.otp_hand.specs.Waitings.{IsPutInFront, IsTaken, IsTakenInFront};

use crate::waiting::around::{Around, Posted};
use crate::waiting::parked::Parked;
use otp_job::Process;
use otp_signals::{Viewer, Words, WordsNaming};
use std::alloc::Global;
use std::marker::Model;

/// How many are looked at in a turn while no supervisor may have told one of them something.
const FEW: usize = 4;

/// The processes of a hand that wait. Most have nothing to do until their supervisors tell them something, or their jobs are woken.
/// The others want another turn while the deque has enough of them, and stand aside, so that a new one has its first turn soon: they
/// come back into the deque one after the other, each once in a round.
#[derive(Drop)]
pub struct Waiting<J: Drop, S: Drop> {
    aside: Parked<J, S>,
    // The place of the next of those that stand aside. Before it stand those that this round has passed.
    next: usize,
    idle: Parked<J, S>,
}

impl<J: Drop, S: Drop> Model for Waiting<J, S> {
    ghost use Rattle.std.specs.Prelude.{List, ◌++◌};
    ghost use Rattle.otp_job.specs.Processes.{ProcessState};

    ghost Value = { List (ProcessState J S) };

    ghost view = { λ w. w.aside ++ w.idle };
}

impl<J: Drop, S: Drop> Waiting<J, S> {
    /// None waits.
    pub fn new(alloc: Global) -> Self
        ensures { result ≡ [] }
    {
        Waiting {
            aside: Parked::new(alloc, 0),
            next: 0,
            idle: Parked::new(alloc, FEW),
        }
    }

    /// How many wait, as far as a machine word counts.
    pub fn len(&self) -> usize
        ensures { result ≡ min (length self.now) (2 ^ 64 - 1) }
    {
        self.aside.len().saturating_add(self.idle.len())
    }

    /// Lets a process wait. It comes back where memory is refused.
    pub fn keep(&mut self, process: Process<J, S>) -> Option<Process<J, S>>
        ensures { MatchOption result (self.new ≡ self.old ++ process ∷ []) (λ back. (back ≡ process) × (self.new ≡ self.old)) }
    {
        self.idle.keep(process)
    }

    /// Takes out the one that began to wait last; once none is left of these, the one that was set aside last.
    pub fn pop(&mut self) -> Option<Process<J, S>>
        ensures last { MatchOption result (self.new ≡ self.old) (λ process. self.old ≡ self.new ++ process ∷ []) }
        ensures none { IfNone result (self.old ≡ []) }
    {
        if let Some(process) = self.idle.pop() {
            return Some(process);
        }
        self.aside.pop()
    }

    /// Whether some stand aside.
    pub fn has_aside(&self) -> bool {
        self.aside.len() > 0
    }

    /// Sets a process aside. It comes back where memory is refused.
    pub fn set_aside(&mut self, process: Process<J, S>) -> Option<Process<J, S>>
        ensures { MatchOption result (IsPutInFront process self.old self.new) (λ back. (back ≡ process) × (self.new ≡ self.old)) }
    {
        self.aside.keep(process)
    }

    /// Takes out the next of those that stand aside.
    pub fn take_aside(&mut self) -> Option<Process<J, S>>
        ensures { MatchOption result (self.new ≡ self.old) (λ process. IsTakenInFront process self.old self.new) }
    {
        take_next(&mut self.aside, &mut self.next)
    }

    /// Takes out one of those that stand aside, which was told something, if that is one of those that are looked at now.
    pub fn take_told_aside<N: WordsNaming>(
        &mut self,
        words: &Words<N>,
        viewer: &mut Viewer<N>,
        around: &Around,
    ) -> Option<Process<J, S>>
        ensures { MatchOption result (self.new ≡ self.old) (λ process. IsTakenInFront process self.old self.new) }
    {
        self.aside.take_told(words, viewer, around)
    }

    /// Takes out one of the others that was told something, if that is one of those that are looked at now.
    pub fn take_told<N: WordsNaming>(
        &mut self,
        words: &Words<N>,
        viewer: &mut Viewer<N>,
        around: &Around,
    ) -> Option<Process<J, S>>
        ensures { MatchOption result (self.new ≡ self.old) (λ process. IsTaken process self.old self.new) }
    {
        self.idle.take_told(words, viewer, around)
    }

    /// Notes that a supervisor may have told one of them something: the next turns look at all of them.
    pub fn notice(&mut self)
        ensures { self.new ≡ self.old }
    {
        self.idle.notice();
        self.aside.notice();
    }

    /// Notes which signals were posted by the hand's own supervisors. If it is one, the process is looked for in the next turn.
    pub fn notice_posted(&mut self, posted: Posted)
        ensures { self.new ≡ self.old }
    {
        match posted {
            Posted::Nothing => {}
            Posted::At(slot) => {
                self.idle.notice_at(slot);
                self.aside.notice_at(slot);
            }
            Posted::More => self.notice(),
        }
    }

    /// Notes that the next look is to be at all that don't stand aside.
    pub fn look_at_all(&mut self)
        ensures { self.new ≡ self.old }
    {
        self.idle.look_at_all();
    }
}

/// Takes out the next of a round, which has passed those before this place. The last takes its place, which the round has passed
/// then: it was set aside after all others, so it waits for the next round as they do.
fn take_next<J: Drop, S: Drop>(aside: &mut Parked<J, S>, next: &mut usize) -> Option<Process<J, S>>
    ensures taken { MatchOption result (aside.new ≡ aside.old) (λ process. IsTaken process aside.old aside.new) }
    ensures none { IfNone result (length aside.old ≡ 0) }
    // It is the one at this place, and the round goes on behind it.
    ensures next { next.old < length aside.old → IfSome result (λ process. process ≡ slice_index_or aside.old next.old process) }
    ensures passed { next.old < length aside.old → IfSome result (λ _. next.new ≡ next.old + 1) }
    // Where the round has passed all, it begins anew with the first.
    ensures first { length aside.old ≤ next.old → IfSome result (λ process. process ≡ slice_index_or aside.old 0 process) }
    ensures anew { length aside.old ≤ next.old → IfSome result (λ _. next.new ≡ 1) }
{
    let len = aside.len();
    if len == 0 {
        return None;
    }
    let place = if *next < len { *next } else { 0 };
    *next = place + 1;
    Some(aside.take_at(place))
}
