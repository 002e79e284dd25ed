//! What one thread needs to serve a tree.
ghost use Rattle.std.specs.Prelude.{◌≡◌, ◌↔◌, ◌<◌, None, Some, is_some, true, IfNone, IfSome, IsTrue, length};
ghost use Rattle.otp_hand.specs.Readings.{HasRead};
ghost use Rattle.otp_hand.specs.Standings.{standing_of};
ghost use Rattle.otp_hand.specs.Deadlines.{IsDue, least_due};

use crate::naming::TreeNaming;
use crate::reading::read_at;
use crate::runner::Runner;
use crate::senders::Senders;
use otp_job::Body;
use otp_job::wake::WakeWords;
use otp_rules::CountsNow;
use otp_signals::counts::CountsPass;
use std::alloc::AllocError;
use std::marker::Model;
use std::sync::Arc;

/// What one thread needs to serve: what it runs processes with, a sender to each supervisor, and a pass to read the counts
/// of each.
///
/// As many processes began at its scheduler as starts were credited to its senders, and one more, the root's, in the first
/// hand. As many ended there as its senders sent end notes, and one more where it still has one to send.
#[derive(Drop)]
pub struct Hand<N: TreeNaming, J: Drop, S: Drop> {
    pub runner: Runner<N, J, S>,
    pub senders: Senders<N, Body<J, S>>,
    pub passes: Vec<CountsPass>,
}

impl<N: TreeNaming, J: Drop, S: Drop> Model for Hand<N, J, S> {
    ghost use Rattle.std.specs.Prelude.{◌≡◌};
    ghost use Rattle.otp_hand.specs.Hands.{HandView};
    ghost use Rattle.otp_hand.specs.Begun.{HasCredited};
    ghost use Rattle.otp_hand.specs.Ended.{HasEnded};

    ghost Value = { HandView J S };

    ghost view = { λ h. record { scheduler = h.runner.scheduler; senders = h.senders; turning = h.runner.turning; waiting = h.runner.waiting; resting = h.runner.resting; unsent = h.runner.unsent; refusals = h.runner.refusals; passes = h.passes.items } };

    ghost invariant = { λ h. HasCredited h.runner.scheduler h.senders × HasEnded h.runner.scheduler h.senders h.runner.unsent };
}

impl<N: TreeNaming, J: Drop, S: Drop> Hand<N, J, S> {
    /// Gives the processes that wait back to the run queue, as far as there is memory: each has its turn again when it comes
    /// there, in any hand. Whoever closes a tree does this first, so that they are
    /// among the processes of the report.
    pub fn rouse(&mut self)
        ensures unsent { self.new.unsent ≡ self.old.unsent }
        ensures passes { self.new.passes ≡ self.old.passes }
        ensures standing { standing_of self.new ≡ standing_of self.old }
    {
        self.runner.rouse();
    }

    /// The least deadline for which one of its supervisors waits, as a reading of the clock. None where none has one.
    pub fn next_due(&self) -> Option<u64>
        ensures { result ≡ least_due self.now.resting }
    {
        self.runner.resting.next_due()
    }

    /// The next search tries the deques of all other hands, though it may have tried them not long ago.
    pub fn try_others(&mut self)
        ensures unsent { self.new.unsent ≡ self.old.unsent }
        ensures passes { self.new.passes ≡ self.old.passes }
        ensures standing { standing_of self.new ≡ standing_of self.old }
    {
        self.runner.around.is_to_try_others();
    }

    /// The next searches leave the deques of all other hands alone.
    pub fn spare_others(&mut self)
        ensures unsent { self.new.unsent ≡ self.old.unsent }
        ensures passes { self.new.passes ≡ self.old.passes }
        ensures standing { standing_of self.new ≡ standing_of self.old }
    {
        self.runner.around.tried_in_vain();
    }

    /// Whether a search may find something at this reading of the clock, though nothing has changed since one that gave nothing: a
    /// deadline has come, something was refused for want of memory, or it is time to try the deques of other hands again.
    pub fn may_find(&mut self, reading: u64) -> bool
        ensures due { IsDue (least_due self.old.resting) reading → IsTrue result }
        ensures unsent { self.new.unsent ≡ self.old.unsent }
        ensures passes { self.new.passes ≡ self.old.passes }
        ensures standing { standing_of self.new ≡ standing_of self.old }
    {
        if self.runner.unsent.is_some() || self.runner.turning.is_some() {
            return true;
        }
        // After a search that gave nothing its own deque is empty. Here is one that was given back, since memory was refused to it.
        if self.runner.around.stock() > 0 {
            return true;
        }
        let due = self.runner.resting.next_due();
        self.runner.around.is_worth_a_search(due, reading)
    }

    /// Notes whether there is so much to do here that other hands may take jobs that were told something: then these have their turns by
    /// way of the deque.
    pub fn note_crowd(&mut self, is_crowd: bool)
        ensures unsent { self.new.unsent ≡ self.old.unsent }
        ensures passes { self.new.passes ≡ self.old.passes }
        ensures standing { standing_of self.new ≡ standing_of self.old }
    {
        self.runner.around.note_crowd(is_crowd);
    }

    /// Notes whether another hand has nothing to do: then supervisors that have nothing left to do go into the deque before they rest,
    /// where that hand finds them.
    pub fn note_wanted(&mut self, is_wanted: bool)
        ensures unsent { self.new.unsent ≡ self.old.unsent }
        ensures passes { self.new.passes ≡ self.old.passes }
        ensures standing { standing_of self.new ≡ standing_of self.old }
    {
        self.runner.resting.note_wanted(is_wanted);
    }

    /// How many processes its own deque has at most, which other hands might take.
    pub fn stock(&self) -> u32 {
        self.runner.around.stock()
    }

    /// From now on jobs that wait in this hand may be woken by this post.
    ///
    /// # Errors
    ///
    /// Where there are as many ways to the post as a machine word counts.
    pub fn open_post(&mut self, post: &Arc<WakeWords>) -> Result<(), AllocError>
        ensures unsent { self.new.unsent ≡ self.old.unsent }
        ensures passes { self.new.passes ≡ self.old.passes }
        ensures standing { standing_of self.new ≡ standing_of self.old }
    {
        self.runner.around.open_post(post)
    }

    /// The counts of the supervisor with this number, as it published them last. None where it has no pass for one.
    pub fn read_counts(&mut self, table: usize) -> Option<CountsNow>
        ensures read { IfSome result (λ now. HasRead table now self.old self.new) }
        ensures none { IfNone result (self.new ≡ self.old) }
        ensures there { is_some result ≡ true ↔ table < length self.old.passes }
    {
        if table >= self.passes.len() {
            return None;
        }
        Some(read_at(self.passes.as_mut_slice(), table))
    }
}
