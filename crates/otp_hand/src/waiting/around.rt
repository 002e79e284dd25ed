//! What a hand knows of what is around it.
ghost use Rattle.std.specs.Prelude.{◌≡◌, ◌↔◌, ◌-◌, ◌≤◌, IsTrue};
ghost use Rattle.otp_hand.specs.declared.waiting.around.TheConstants.{ENOUGH, IN_FRONT, JOBS_FIRST, THEFT_PAUSE};
ghost use Rattle.otp_hand.specs.Deadlines.{IsDue};
ghost use Rattle.otp_hand.specs.Arounds.{IsToComeBack, one_more, passed_after, stock_after};

use otp_job::Site;
use otp_job::wake::WakeWords;
use std::alloc::AllocError;
use std::marker::Model;
use std::sync::Arc;
use std::sync::atomic::{AtomicU64, Ordering};

/// After a try at all other deques that gave nothing, so many looks into the hand's own come before the next. A hand with nothing
/// to do that tried in each turn would take the one process that has something to do from hand to hand, and its memory with it.
pub const THEFT_PAUSE: u32 = 256;

/// So many processes of a hand stand in its deque, where other hands find them. Those that want another turn stand aside meanwhile: so a
/// new process, which goes into the deque, waits for a few turns and not for one of each.
pub const ENOUGH: u32 = 4;

/// After so many turns one comes back into the deque, though that has enough: new processes don't keep the others from their turns.
pub const PATIENCE: u32 = 8;

/// After so many turns in a row that had processes for which something had come, one of the deque comes first, if it has any, or one that
/// stands aside.
pub const IN_FRONT: u32 = 16;

/// After so many of these turns a job that was told something comes before the supervisors for which something has come.
pub const JOBS_FIRST: u32 = 8;

/// Nothing was posted.
const NOTHING: u64 = 0;

/// More than one signal was posted.
const MORE: u64 = u64::MAX;

/// Which signals the supervisors of a hand posted.
#[derive(Clone, Copy, Debug, PartialEq, Eq)]
pub enum Posted {
    /// None.
    Nothing,
    /// One, for the process with this slot.
    At(usize),
    /// More than one.
    More,
}

/// What a hand knows of what is around it: its own deque and those of others, and how jobs are woken from outside.
#[derive(Drop)]
pub struct Around {
    /// Where jobs that wait are woken. None where the tree is served by turns.
    pub post: Option<Arc<WakeWords>>,
    // How many looks into its own deque come before it tries the others again.
    theft_pause: u32,
    // How many processes its own deque has at most: what other hands took counts until it was found empty.
    stock: u32,
    // How many turns ago the last came back of those that stand aside.
    passed_by: u32,
    // How many turns in a row had processes for which something had come, while others were in the deque.
    in_front: u32,
    // Whether jobs that were told something have their turns by way of the deque.
    is_crowd: bool,
    // What supervisors of this hand posted until that was asked for: the slot of one signal, and one; or `NOTHING`, or `MORE`.
    posted: AtomicU64,
}

impl Model for Around {
    ghost use Rattle.otp_hand.specs.Arounds.{Deques};

    ghost Value = { Deques };

    ghost view = { λ a. record { stock = a.stock; passed_by = a.passed_by; pause = a.theft_pause; in_front = a.in_front } };
}

impl Around {
    /// With an empty deque, and where no job can be woken.
    pub fn new() -> Around
        ensures { result ≡ record { stock = 0; passed_by = 0; pause = 0; in_front = 0 } }
    {
        Around {
            post: None,
            theft_pause: 0,
            stock: 0,
            passed_by: 0,
            in_front: 0,
            is_crowd: false,
            posted: AtomicU64::new(NOTHING),
        }
    }

    /// How many processes its own deque has at most.
    pub fn stock(&self) -> u32
        ensures { result ≡ self.now.stock }
    {
        self.stock
    }

    /// Notes that a process was put into its own deque.
    pub fn gained(&mut self)
        ensures { self.new ≡ record self.old { stock = one_more self.old.stock } }
    {
        self.stock = self.stock.saturating_add(1);
    }

    /// Notes whether its own deque gave a process: nobody has gone before those in it since.
    pub fn tried_own(&mut self, has_found: bool)
        ensures { self.new ≡ record self.old { stock = stock_after has_found self.old.stock; in_front = 0 } }
    {
        self.in_front = 0;
        self.stock = if has_found {
            self.stock.saturating_sub(1)
        } else {
            0
        };
    }

    /// Whether its own deque has as many processes as are to stand there.
    pub fn has_enough(&self) -> bool
        ensures { IsTrue result ↔ ENOUGH ≤ self.now.stock }
    {
        self.stock >= ENOUGH
    }

    /// Whether one of those that stand aside is to come back into the deque after this turn: there are few, or it is time.
    pub fn is_to_come_back(&mut self) -> bool
        ensures value { IsTrue result ↔ IsToComeBack self.old }
        ensures counted { self.new ≡ record self.old { passed_by = passed_after result self.old.passed_by } }
    {
        let turns = self.passed_by.saturating_add(1);
        let is_time = self.stock < ENOUGH || PATIENCE <= turns;
        self.passed_by = if is_time { 0 } else { turns };
        is_time
    }

    /// Whether those in its own deque, or that stand aside, come first in this turn, since so many went before them.
    pub fn is_turn_of_deque(&self) -> bool
        ensures { IsTrue result ↔ IN_FRONT ≤ self.now.in_front }
    {
        self.in_front >= IN_FRONT
    }

    /// Whether jobs that were told something come before supervisors in this turn.
    pub fn is_turn_of_jobs(&self) -> bool
        ensures { IsTrue result ↔ self.now.in_front ≡ JOBS_FIRST }
    {
        self.in_front == JOBS_FIRST
    }

    /// Notes that a process for which something had come has this turn, before those in its own deque.
    pub fn went_in_front(&mut self)
        ensures { self.new ≡ record self.old { in_front = one_more self.old.in_front } }
    {
        self.in_front = self.in_front.saturating_add(1);
    }

    /// Whether there is so much to do here that other hands may take what was told something.
    pub fn is_crowd(&self) -> bool {
        self.is_crowd
    }

    /// Notes whether there is.
    pub fn note_crowd(&mut self, is_crowd: bool) {
        self.is_crowd = is_crowd;
    }

    /// Whether it is to try the other deques too.
    pub fn tries_others(&self) -> bool
        ensures { IsTrue result ↔ self.now.pause ≡ 0 }
    {
        self.theft_pause == 0
    }

    /// Notes that it is to try them in its next search.
    pub fn is_to_try_others(&mut self)
        ensures { self.new ≡ record self.old { pause = 0 } }
    {
        self.theft_pause = 0;
    }

    /// Notes that they gave nothing, a moment ago.
    pub fn tried_in_vain(&mut self)
        ensures { self.new ≡ record self.old { pause = THEFT_PAUSE } }
    {
        self.theft_pause = THEFT_PAUSE;
    }

    /// Notes that it didn't try them in a search that gave nothing.
    pub fn spared_others(&mut self)
        ensures { self.new ≡ record self.old { pause = self.old.pause - 1 } }
    {
        self.theft_pause = self.theft_pause.saturating_sub(1);
    }

    /// Whether a search is worth its time, where the last gave nothing and nothing has changed since: this deadline has come, or the
    /// others are to be tried. Where it isn't, that is noted as a search that gave nothing.
    pub fn is_worth_a_search(&mut self, due: Option<u64>, reading: u64) -> bool
        ensures due { IsDue due reading → IsTrue result }
    {
        if is_due(due, reading) || self.tries_others() {
            return true;
        }
        self.spared_others();
        false
    }

    /// Where turns of processes are made, at this reading of the clock.
    pub fn site(&self, reading: u64) -> Site<'_>
        ensures { result.reading ≡ reading }
    {
        Site {
            reading,
            post: self.post.as_ref(),
        }
    }

    /// Whether the job of the process that has this slot was woken.
    pub fn is_woken(&self, slot: usize) -> bool {
        match &self.post {
            Some(post) => post.is_woken(slot),
            None => false,
        }
    }

    /// Which signals supervisors of this hand posted since this was asked last: only by these may a process that waits here have been
    /// told something in their turns.
    pub fn take_posted(&mut self) -> Posted
        ensures { self.new ≡ self.old }
    {
        let posted = self.posted.load(Ordering::Relaxed);
        self.posted.store(NOTHING, Ordering::Relaxed);
        match posted {
            NOTHING => Posted::Nothing,
            MORE => Posted::More,
            next => Posted::At((next - 1) as usize),
        }
    }

    /// Wakes the process that has this slot, for which a signal was posted, in whichever hand it waits.
    pub fn wake(&self, slot: usize) {
        let posted = match self.posted.load(Ordering::Relaxed) {
            NOTHING => (slot as u64).saturating_add(1),
            _ => MORE,
        };
        self.posted.store(posted, Ordering::Relaxed);
        if let Some(post) = &self.post {
            post.wake(slot);
        }
    }

    /// Notes that it begins to wait in this hand. False where it was woken meanwhile.
    pub fn begins_to_wait(&self, slot: usize, hand: usize) -> bool {
        match &self.post {
            Some(post) => post.begins_to_wait(slot, hand),
            None => true,
        }
    }

    /// Jobs are woken here from now on.
    pub fn open_post(&mut self, post: &Arc<WakeWords>) -> Result<(), AllocError>
        ensures { self.new ≡ self.old }
    {
        self.post = Some(Arc::try_clone(post)?);
        Ok(())
    }
}

/// Whether the reading of the clock has come to a deadline.
pub fn is_due(due: Option<u64>, reading: u64) -> bool
    ensures { IsTrue result ↔ IsDue due reading }
{
    match due {
        Some(due) => due <= reading,
        None => false,
    }
}
