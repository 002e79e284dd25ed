//! Which process has a hand's next turn.
ghost use Rattle.std.specs.Prelude.{◌≡◌, ◌<◌, ◌≤◌, length, is_some, true, None, IfSome, IsTrue};
ghost use Rattle.otp_hand.specs.Begun.{NoneBegan};
ghost use Rattle.otp_hand.specs.Standings.{standing_of};
ghost use Rattle.otp_hand.specs.Deadlines.{IsDue};

use crate::system::System;
use otp_hand::waiting::{Rested, is_due};
use otp_hand::{Hand, Senders, Shared};
use otp_job::Body;
use otp_run::{RunNaming, SHARE_LIMIT};
use otp_signals::Viewer;
use otp_sup::SupNaming;

impl<N: SupNaming, J: Drop, S: Drop> System<N, J, S> {
    /// Makes sure that a hand has a process whose turn it is. The first that is there of these: one for which something has come
    /// ([`System::find_in_front`]); the next of the run queue (of other hands' deques now and then only, while they have none); and where
    /// there is none, of all supervisors that wait and of many jobs. False where none was found.
    ///
    /// A supervisor waits again as soon as its turn leaves it nothing to do, and a job that was woken when its turn says so: neither goes
    /// through the run queue between two turns. So that those for which something comes time and again don't keep it from its turns for
    /// ever, it comes first once 16 turns in a row were theirs ([`otp_hand::waiting::around::IN_FRONT`]).
    pub(crate) fn find(&self, hand: &mut Hand<N, J, S>, reading: u64) -> bool
    where
        N: RunNaming,
        ensures found { IsTrue result → is_some hand.new.turning ≡ true }
        ensures begun { NoneBegan hand.old.scheduler hand.new.scheduler }
        ensures unsent { hand.new.unsent ≡ hand.old.unsent }
        ensures passes { hand.new.passes ≡ hand.old.passes }
        ensures standing { standing_of hand.new ≡ standing_of hand.old }
    {
        if hand.runner.turning.is_some() {
            return true;
        }
        if hand.runner.scheduler.share().ended >= SHARE_LIMIT {
            return false;
        }
        if hand.runner.around.is_turn_of_deque() {
            hand.runner.take_own();
        }
        if hand.runner.turning.is_none() {
            self.find_in_front(hand, reading);
        }
        if hand.runner.turning.is_none() {
            hand.runner.take_next();
        }
        if hand.runner.turning.is_none() {
            self.find_at_leisure(hand, reading);
        }
        hand.runner.turning.is_some()
    }

    /// One for which something has come, which has its turn before the run queue's: the supervisor to which the hand has just sent a letter,
    /// if that waits in this hand; one of a few supervisors that wait, for which something has come; or one of some jobs that wait, which
    /// was told something. In one of 16 such turns the jobs come first ([`otp_hand::waiting::around::JOBS_FIRST`]).
    fn find_in_front(&self, hand: &mut Hand<N, J, S>, reading: u64)
    where
        N: RunNaming,
        requires { hand.old.turning ≡ None }
        ensures begun { NoneBegan hand.old.scheduler hand.new.scheduler }
        ensures unsent { hand.new.unsent ≡ hand.old.unsent }
        ensures passes { hand.new.passes ≡ hand.old.passes }
        ensures standing { standing_of hand.new ≡ standing_of hand.old }
    {
        if hand.runner.around.is_turn_of_jobs() && hand.runner.waiting.len() > 0 {
            hand.runner.wake_told(&self.shared.words);
        }
        if hand.runner.turning.is_none() {
            hand.runner.wake_called();
        }
        if hand.runner.turning.is_none() && hand.runner.resting.len() > 0 {
            let (from, to) = hand.runner.resting.next_places();
            self.wake_due(hand, from, to, reading);
        }
        if hand.runner.turning.is_none() && hand.runner.waiting.len() > 0 {
            hand.runner.wake_told(&self.shared.words);
        }
        if hand.runner.turning.is_some() {
            hand.runner.around.went_in_front();
        }
    }

    /// One that waits and for which something has come, where the hand has nothing else to do.
    fn find_at_leisure(&self, hand: &mut Hand<N, J, S>, reading: u64)
    where
        N: RunNaming,
        requires { hand.old.turning ≡ None }
        ensures begun { NoneBegan hand.old.scheduler hand.new.scheduler }
        ensures unsent { hand.new.unsent ≡ hand.old.unsent }
        ensures passes { hand.new.passes ≡ hand.old.passes }
        ensures standing { standing_of hand.new ≡ standing_of hand.old }
    {
        let all = hand.runner.resting.len();
        self.wake_due(hand, 0, all, reading);
        if hand.runner.turning.is_some() {
            return;
        }
        hand.runner.waiting.notice();
        hand.runner.wake_told(&self.shared.words);
    }

    /// Gives its turn to the first of the supervisors that wait at these places of the hand, for which something has come.
    fn wake_due(&self, hand: &mut Hand<N, J, S>, from: usize, to: usize, reading: u64)
    where
        N: RunNaming,
        requires free { hand.old.turning ≡ None }
        requires there { to ≤ length hand.old.resting }
        ensures begun { NoneBegan hand.old.scheduler hand.new.scheduler }
        ensures unsent { hand.new.unsent ≡ hand.old.unsent }
        ensures passes { hand.new.passes ≡ hand.old.passes }
        ensures standing { standing_of hand.new ≡ standing_of hand.old }
    {
        let due = find_due(
            &self.shared,
            &mut hand.runner.viewer,
            &mut hand.senders,
            hand.runner.resting.as_slice(),
            from,
            to,
            reading,
        );
        hand.runner.wake(due);
    }
}

/// The first of the supervisors at these places for which something has come.
fn find_due<N: SupNaming, J: Drop, S: Drop>(
    shared: &Shared<N, J, S>,
    viewer: &mut Viewer<N>,
    senders: &mut Senders<N, Body<J, S>>,
    resting: &[Rested<J, S>],
    from: usize,
    to: usize,
    reading: u64,
) -> Option<usize>
    requires { to ≤ length resting.now }
    ensures place { IfSome result (λ place. place < length resting.now) }
    ensures senders { senders.new ≡ senders.old }
{
    for place in from..to {
        if has_come(shared, viewer, senders, &resting[place], reading) {
            return Some(place);
        }
    }
    None
}

/// Whether something has come for a supervisor that waits: its deadline, a letter, or a signal that it didn't know of.
fn has_come<N: SupNaming, J: Drop, S: Drop>(
    shared: &Shared<N, J, S>,
    viewer: &mut Viewer<N>,
    senders: &mut Senders<N, Body<J, S>>,
    rested: &Rested<J, S>,
    reading: u64,
) -> bool
    ensures senders { senders.new ≡ senders.old }
    ensures due { IsDue rested.now.due reading → IsTrue result }
{
    if is_due(rested.due, reading) {
        return true;
    }
    let (slot, number) = (rested.process.slot(), rested.process.number());
    if slot < shared.words.slots() && shared.words.look(viewer, slot, number) != rested.told {
        return true;
    }
    let inbox = shared.inbox_of(rested.table);
    inbox.number() < senders.len() && senders.has_letter(inbox)
}
