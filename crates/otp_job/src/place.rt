//! Where a job runs.
ghost use Rattle.std.specs.Prelude.{◌≡◌};

use crate::wake::{WakeWords, Waker};
use otp_reason::Name;
use std::sync::Arc;

/// What a job is handed at its start: which process it is, what time it is, and how it can be woken.
#[derive(Drop)]
pub struct Place<'a> {
    /// The number of the process, which no other has.
    pub number: u64,
    /// The slot of its signal word.
    pub slot: usize,
    /// The number of its supervisor, in the order of the tree's plans.
    pub table: usize,
    /// The id of the child that it is: with the path of its supervisor its own path. A dynamic child has none.
    pub id: Option<Name>,
    /// The reading of the clock for this turn, in milliseconds.
    pub reading: u64,
    /// Where it is woken, if it runs where jobs can be woken.
    pub post: Option<&'a Arc<WakeWords>>,
}

/// Why there is no waker.
#[derive(Clone, Copy, Debug, PartialEq, Eq)]
pub enum NoWaker {
    /// The process is served by turns, or stepped by hand: nobody would hear the wake.
    NoPost,
    /// There are as many wakers of the tree as a machine word counts.
    TooMany,
}

impl Place<'_> {
    /// By which another thread wakes this job: it ends a wait ([`Turn::Wait`](crate::Turn::Wait)) in the place of its supervisor's
    /// signals.
    pub fn waker(&self) -> Result<Waker, NoWaker> {
        let Some(post) = self.post else {
            return Err(NoWaker::NoPost);
        };
        match Waker::new(post, self.slot) {
            Ok(waker) => Ok(waker),
            Err(_) => Err(NoWaker::TooMany),
        }
    }
}

/// Where the turns of processes are made: what time it is, and how their jobs are woken.
#[derive(Drop)]
pub struct Site<'a> {
    /// The reading of the clock, in milliseconds.
    pub reading: u64,
    /// Where jobs are woken, if they can be.
    pub post: Option<&'a Arc<WakeWords>>,
}

impl Site<'_> {
    /// At no time, and where no job can be woken: for whoever steps processes by hand.
    pub fn nowhere() -> Site<'static>
        ensures { result.reading ≡ 0 }
    {
        Site {
            reading: 0,
            post: None,
        }
    }
}
