//! A mailbox of a job, into which any thread posts.

use crossbeam_queue::SegQueue;
use otp_job::wake::Waker;
use otp_job::{NoWaker, Place};
use std::alloc::{AllocError, Global};
use std::sync::{Mutex, Wait};

/// A mailbox between a job and other threads, which share it, as by an `Arc`. Whoever posts wakes the job; a job that finds it empty
/// answers [`Turn::Wait`](otp_job::Turn::Wait) and takes no turn until the next post.
///
/// It is the job's as long as its child stands: what is posted while the job is down waits for its next start.
#[derive(Drop)]
pub struct Mailbox<T: Drop> {
    items: SegQueue<T>,
    waker: Mutex<Option<Waker>>,
}

impl<T: Drop> Mailbox<T> {
    /// An empty mailbox, whose job has not started yet.
    ///
    /// # Errors
    ///
    /// Where memory is refused.
    pub fn new(alloc: Global) -> Result<Mailbox<T>, AllocError> {
        Ok(Mailbox {
            items: SegQueue::new(alloc)?,
            waker: Mutex::new(None),
        })
    }

    /// Notes that its job has started in this place. A job does so in each [`Job::begin`](otp_job::Job::begin), before it looks
    /// into the mailbox.
    ///
    /// # Errors
    ///
    /// Where no job can be woken there.
    pub fn belongs_to<R: Wait>(&self, rt: &R, place: &Place<'_>) -> Result<(), NoWaker> {
        let waker = place.waker()?;
        let mut kept = self.waker.lock(rt);
        *kept = Some(waker);
        drop(kept);
        Ok(())
    }

    /// Posts an item and wakes the job. A refused item comes back, where there is no memory for it.
    pub fn post<R: Wait>(&self, rt: &R, item: T) -> Result<(), T> {
        self.items.push(rt, item)?;
        let waker = self.waker.lock(rt);
        if let Some(waker) = &*waker {
            waker.wake();
        }
        drop(waker);
        Ok(())
    }

    /// Takes the item that was posted first. None where there is none.
    pub fn take<R: Wait>(&self, rt: &R) -> Option<T> {
        self.items.pop(rt)
    }
}
