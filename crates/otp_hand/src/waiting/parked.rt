//! Processes of a hand that stand in no deque.
ghost use Rattle.std.specs.Prelude.{◌≡◌, ◌<◌, ◌++◌, ◌∷◌, [], length, slice_index_or, IfNone, MatchOption};
ghost use Rattle.otp_hand.specs.Waitings.{IsTaken};

use crate::waiting::around::Around;
use crate::waiting::looks::Looks;
use otp_job::Process;
use otp_signals::{Viewer, Words, WordsNaming};
use std::alloc::Global;
use std::marker::Model;

/// Processes that stand in no deque, in the order in which they were parked. Each turn of the hand looks whether
/// some of them were told something.
#[derive(Drop)]
pub struct Parked<J: Drop, S: Drop> {
    list: Vec<Process<J, S>>,
    looks: Looks,
}

impl<J: Drop, S: Drop> Model for Parked<J, S> {
    ghost use Rattle.std.specs.Prelude.{List};
    ghost use Rattle.otp_job.specs.Processes.{ProcessState};

    ghost Value = { List (ProcessState J S) };

    ghost view = { λ p. p.list.items };
}

impl<J: Drop, S: Drop> Parked<J, S> {
    /// None is parked. So many are looked at in a turn while none may have been told something.
    pub fn new(alloc: Global, few: usize) -> Self
        ensures { result ≡ [] }
    {
        Parked {
            list: Vec::new(alloc),
            looks: Looks::new(few),
        }
    }

    /// How many are parked.
    pub fn len(&self) -> usize
        ensures { result ≡ length self.now }
    {
        self.list.len()
    }

    /// Parks a process, behind the others. It comes back where memory is refused.
    pub fn keep(&mut self, process: Process<J, S>) -> Option<Process<J, S>>
        ensures { MatchOption result (self.new ≡ self.old ++ process ∷ []) (λ back. (back ≡ process) × (self.new ≡ self.old)) }
    {
        if self.list.reserve(1).is_err() {
            return Some(process);
        }
        self.list.push_reserved(process);
        None
    }

    /// Takes out the one that was parked last.
    pub fn pop(&mut self) -> Option<Process<J, S>>
        ensures last { MatchOption result (self.new ≡ self.old) (λ process. self.old ≡ self.new ++ process ∷ []) }
        ensures none { IfNone result (self.old ≡ []) }
    {
        self.list.pop()
    }

    /// Takes out the one at this place. The last takes its place.
    pub fn take_at(&mut self, place: usize) -> Process<J, S>
        requires { place < length self.old }
        ensures taken { IsTaken result self.old self.new }
        ensures at { result ≡ slice_index_or self.old place result }
    {
        self.list.swap_remove(place)
    }

    /// Notes that one of them may have been told something: the next turns look at all of them.
    pub fn notice(&mut self)
        ensures { self.new ≡ self.old }
    {
        self.looks.notice(self.list.len());
    }

    /// Notes that the one with this slot may have been told something, if it is one of them: the next turn looks for it.
    pub fn notice_at(&mut self, slot: usize)
        ensures { self.new ≡ self.old }
    {
        self.looks.notice_at(slot, self.list.len());
    }

    /// Notes that the next look is to be at all of them.
    pub fn look_at_all(&mut self)
        ensures { self.new ≡ self.old }
    {
        self.looks.look_at_all();
    }

    /// Takes out one that was told something, if that is one of those that are looked at now.
    pub fn take_told<N: WordsNaming>(
        &mut self,
        words: &Words<N>,
        viewer: &mut Viewer<N>,
        around: &Around,
    ) -> Option<Process<J, S>>
        ensures { MatchOption result (self.new ≡ self.old) (λ process. IsTaken process self.old self.new) }
    {
        let parked = self.list.as_slice();
        let place = self.looks.find_told(words, viewer, around, parked)?;
        Some(self.list.swap_remove(place))
    }
}
